// What a run was answered, counted, and told on standard error at its end.
use blocks::setpoint::Order;
use device::{Device, Fed};
use script::Answer;
use std::io;
use wire::status::Quality;
use wire::{Discrete, Pair};

// A value for each block with a fail-safe.
#[derive(Clone, Copy, Default)]
pub struct Blocks<T> {
    pub ain: T,
    pub ao: T,
    pub di: T,
    pub dout: T,
}

// How often each alarm of AIN rose.
#[derive(Clone, Copy, Default)]
pub struct Rises {
    pub hi_hi: u64,
    pub hi: u64,
    pub lo: u64,
    pub lo_lo: u64,
}

// Refusals are numbered from 1 on; a larger number than the array has places for would be counted in its place 0.
#[derive(Clone, Copy, Default)]
pub struct Counts {
    pub lines: u64,
    pub calls: u64,
    pub ticks: u64,
    pub refusals: u64,
    pub refused: [u64; 16],
    // The line of the first refusal, and of the first error.
    pub first_refused: Option<u64>,
    pub errors: u64,
    pub first_error: Option<u64>,
    // Errors in lines that end in a carriage return.
    pub returns: u64,
    pub rises: Rises,
    // Ticks in which each block was in fail-safe.
    pub failed: Blocks<u64>,
}

// ---- ticks

// Whether an input block goes by its fail-safe: then, and only then, FSAFE_TYPE 2 gives a Bad status in Auto.
fn is_bad(mode: u32, status: u8) -> bool {
    mode == blocks::AUTO && wire::quality(status) == Quality::Bad
}

fn ain_fails(d: Device, fault: bool, input: Pair) -> bool {
    let mut block = d.ain;
    block.settings.fsafe_type = 2;
    block
        .state
        .tick(&block.settings, &block.table, fault, input);
    is_bad(block.state.mode, block.state.out.status)
}

// DI, in the same way; its settings and its state are of other types.
fn di_fails(d: Device, fault: bool, input: Discrete) -> bool {
    let mut block = d.di;
    block.settings.fsafe_type = 2;
    block.state.tick(&block.settings, fault, input);
    is_bad(block.state.mode, block.state.out.status)
}

// Whether AO does: then, and only then, FSAFE_TYPE 2 would give the order Safe.
fn ao_fails(d: Device, fault: bool) -> bool {
    let mut settings = d.ao.settings;
    settings.fsafe_type = 2;
    let mut state = d.ao.state;
    matches!(state.tick(&settings, fault), Order::Safe)
}

// DO, in the same way; its settings and its state are of other types.
fn dout_fails(d: Device, fault: bool) -> bool {
    let mut settings = d.dout.settings;
    settings.fsafe_type = 2;
    let mut state = d.dout.state;
    matches!(state.tick(&settings, fault), Order::Safe)
}

// Which blocks go by their fail-safe in a tick.
pub fn failing(d: Device, fault: bool, fed: Fed) -> Blocks<bool> {
    Blocks {
        ain: ain_fails(d, fault, fed.ain),
        ao: ao_fails(d, fault),
        di: di_fails(d, fault, fed.di),
        dout: dout_fails(d, fault),
    }
}

// ---- counting

// Counts one more, where it is so. A count that is full stays.
fn more(n: &mut u64, so: bool) {
    *n = n.saturating_add(so.into());
}

// Of a line that is not too long: of a longer one, not all is held.
fn ends_in_return(line: &[u8]) -> bool {
    line.len() <= 4096 && line.ends_with(b"\r")
}

impl Counts {
    // A tick: the device before and after it, and which blocks were in fail-safe.
    pub fn tick(&mut self, before: Device, after: Device, fails: Blocks<bool>) {
        let old = before.ain.state.alarms;
        let new = after.ain.state.alarms;
        more(&mut self.ticks, true);
        more(&mut self.rises.hi_hi, new.hi_hi & !old.hi_hi);
        more(&mut self.rises.hi, new.hi & !old.hi);
        more(&mut self.rises.lo, new.lo & !old.lo);
        more(&mut self.rises.lo_lo, new.lo_lo & !old.lo_lo);
        more(&mut self.failed.ain, fails.ain);
        more(&mut self.failed.ao, fails.ao);
        more(&mut self.failed.di, fails.di);
        more(&mut self.failed.dout, fails.dout);
    }

    fn refusal(&mut self, number: u8) {
        more(&mut self.refusals, true);
        self.first_refused = self.first_refused.or(Some(self.lines));
        let place = if number < 16 { number as usize } else { 0 };
        more(&mut self.refused[place], true);
    }

    fn error(&mut self, line: &[u8]) {
        more(&mut self.errors, true);
        self.first_error = self.first_error.or(Some(self.lines));
        more(&mut self.returns, ends_in_return(line));
    }

    // A line, and its answer if it gets one.
    pub fn line(&mut self, line: &[u8], answer: Option<Answer>) {
        more(&mut self.lines, true);
        match answer {
            None => {}
            Some(Answer::Error) => self.error(line),
            Some(Answer::Refused(number)) => {
                more(&mut self.calls, true);
                self.refusal(number);
            }
            Some(_) => more(&mut self.calls, true),
        }
    }
}

// ---- telling

fn between(rt: &impl Eprint, met: bool) -> io::Result<()> {
    if met {
        return eprint!(rt; ", ");
    }
    eprint!(rt; " (")
}

// ` (2 as 5, 1 as 7)`, of the numbers that were met.
fn each_refusal(rt: &impl Eprint, refused: &[u64]) -> io::Result<()> {
    let mut met = false;
    for (number, n) in refused.iter().enumerate() {
        if *n > 0 {
            between(rt, met)?;
            eprint!(rt; "{n} as {number}")?;
            met = true;
        }
    }
    eprint!(rt; ")")
}

fn tell_refusals(rt: &impl Eprint, c: Counts) -> io::Result<()> {
    eprint!(rt; "summary: refused: {}", c.refusals)?;
    if let Some(line) = c.first_refused {
        each_refusal(rt, &c.refused)?;
        eprint!(rt; ", the first in line {line}")?;
    }
    eprintln!(rt)
}

fn tell_errors(rt: &impl Eprint, c: Counts) -> io::Result<()> {
    eprint!(rt; "summary: errors: {}", c.errors)?;
    if let Some(line) = c.first_error {
        eprint!(rt; ", the first in line {line}")?;
    }
    eprintln!(rt)?;
    if c.returns > 0 {
        eprintln!(rt;
            "summary: errors in lines that end in a carriage return: {}; the form ends a line in 0x0A alone, without 0x0D",
            c.returns
        )?;
    }
    Ok(())
}

// Every line begins alike, and the last one says that all of it was told.
pub fn tell(rt: &impl Eprint, c: Counts) -> io::Result<()> {
    eprintln!(rt; "summary: lines: {}, calls: {}", c.lines, c.calls)?;
    eprintln!(rt;
        "summary: ticks: {}, at 0.1 s each {}.{} s",
        c.ticks,
        c.ticks / 10,
        c.ticks % 10
    )?;
    tell_refusals(rt, c)?;
    tell_errors(rt, c)?;
    eprintln!(rt;
        "summary: alarms that rose: HI_HI {}, HI {}, LO {}, LO_LO {}",
        c.rises.hi_hi, c.rises.hi, c.rises.lo, c.rises.lo_lo
    )?;
    eprintln!(rt;
        "summary: ticks in fail-safe: AIN {}, AO {}, DI {}, DO {}",
        c.failed.ain, c.failed.ao, c.failed.di, c.failed.dout
    )
}
