// DO worked by hand from documents 01 and 02, request 3, and the project's readings. Each step writes a line; `stdout` has
// what the papers say. What it would catch: another value than 0 or 1 taken as a setpoint, an IFS that needs a value, INVERT
// left out of FSAFE_VAL_D or put on values kept or in Man, the inputs or their silence exchanged, a refusal of another ground.
#![tactic(auto)]

use blocks::setpoint::Order;
use dout::{Settings, State};
use std::io;
use wire::Discrete;

// A block with its parameters. Each step of it writes a line, but for `ticks`.
// The other blocks' programs have such steps too, some 40 lines in each: one text for all would need a trait over the types of
// settings, state and input, and each writes other values in its line.
#[derive(Clone, Copy)]
struct Block {
    settings: Settings,
    state: State,
}

// A fresh block with the parameters' defaults.
fn fresh(rt: &impl Print, title: &str) -> io::Result<Block> {
    println!(rt; "# {title}")?;
    Ok(Block {
        settings: Settings {
            target: blocks::AUTO,
            invert: 0,
            fsafe_type: 0,
            fsafe_val_d: 0,
            fsafe_time: 0,
        },
        state: State::fresh(),
    })
}

impl Block {
    fn show(&self, rt: &impl Print) -> io::Result<()> {
        let state = self.state;
        let out = state.out;
        println!(rt;
            ", OUT_D {} {:02x}, mode {:02x}",
            out.value, out.status, state.mode
        )
    }

    // A telegram of any bytes.
    fn sent(&mut self, rt: &impl Print, input: u8, bytes: &[u8]) -> io::Result<()> {
        let answer = self.state.telegram(input, bytes);
        println!(rt; "telegram on {input}: {}", wire::answer_number(answer))
    }

    fn sp(&mut self, rt: &impl Print, value: u8, status: u8) -> io::Result<()> {
        self.sent(rt, 2, &[value, status])
    }

    fn rcas_in(&mut self, rt: &impl Print, value: u8, status: u8) -> io::Result<()> {
        self.sent(rt, 3, &[value, status])
    }

    fn order(&mut self, fault: bool) -> Order<u8> {
        self.state.tick(&self.settings, fault)
    }

    fn ticked(&mut self, rt: &impl Print, fault: bool) -> io::Result<()> {
        match self.order(fault) {
            Order::Position(value) => print!(rt; "Position {value}")?,
            Order::Safe => print!(rt; "Safe")?,
            Order::Rest => print!(rt; "Rest")?,
        }
        self.show(rt)
    }

    fn tick(&mut self, rt: &impl Print) -> io::Result<()> {
        self.ticked(rt, false)
    }

    fn faulty_tick(&mut self, rt: &impl Print) -> io::Result<()> {
        self.ticked(rt, true)
    }

    fn ticks(&mut self, count: u32) {
        for _ in 0..count {
            self.order(false);
        }
    }

    // An accepted write of OUT_D.
    fn operated(&mut self, rt: &impl Print, value: u8, status: u8) -> io::Result<()> {
        self.state.operate(Discrete { value, status });
        print!(rt; "written")?;
        self.show(rt)
    }

    fn warm_start(&mut self, rt: &impl Print) -> io::Result<()> {
        self.state.warm_start();
        print!(rt; "warm start")?;
        self.show(rt)
    }
}

// ---- the cases

// A fresh block is in fail-safe: FSAFE_TYPE 0, FSAFE_VAL_D 0.
fn defaults(rt: &impl Print) -> io::Result<()> {
    let mut b = fresh(rt, "defaults")?;
    b.tick(rt)?;
    b.settings.invert = 1;
    b.tick(rt)
}

// With FSAFE_TIME 2, ticks 1 to 3 after a usable telegram follow it and tick 4 is fail-safe.
fn silence(rt: &impl Print) -> io::Result<()> {
    let mut b = fresh(rt, "silence")?;
    b.settings.fsafe_type = 1;
    b.tick(rt)?;
    b.settings.fsafe_time = 2;
    b.sp(rt, 1, 0x80)?;
    b.tick(rt)?;
    b.tick(rt)?;
    b.tick(rt)?;
    b.tick(rt)?;
    b.sp(rt, 0, 0x80)?;
    b.faulty_tick(rt)?;
    b.settings.target = blocks::MAN;
    b.tick(rt)?;
    b.settings.target = blocks::AUTO;
    b.tick(rt)?;
    b.tick(rt)
}

// What makes a telegram usable: quality 2 or 3, any sub-status but 8, a value 0 or 1; the status given is 80.
fn usable(rt: &impl Print) -> io::Result<()> {
    let mut b = fresh(rt, "usable and not")?;
    b.settings.fsafe_type = 1;
    b.settings.fsafe_time = 100;
    b.sp(rt, 1, 0x4c)?;
    b.sp(rt, 1, 0x1c)?;
    b.sp(rt, 2, 0x80)?;
    b.sp(rt, 5, 0x80)?;
    b.tick(rt)?;
    b.sp(rt, 1, 0xc0)?;
    b.tick(rt)?;
    b.sp(rt, 0, 0xff)?;
    b.tick(rt)?;
    b.sp(rt, 1, 0x84)?;
    b.tick(rt)?;
    b.sp(rt, 255, 0x80)?;
    b.sp(rt, 0, 0x7f)?;
    b.tick(rt)
}

// The later of usable and IFS telegrams decides; an IFS needs no value, and another value than 0 or 1 ends none.
fn initiated(rt: &impl Print) -> io::Result<()> {
    let mut b = fresh(rt, "initiate fail-safe")?;
    b.settings.fsafe_type = 1;
    b.settings.fsafe_time = 100;
    b.sp(rt, 5, 0xa0)?;
    b.tick(rt)?;
    b.sp(rt, 1, 0x80)?;
    b.tick(rt)?;
    b.sp(rt, 5, 0xa0)?;
    b.tick(rt)?;
    b.sp(rt, 5, 0x80)?;
    b.sp(rt, 0, 0x60)?;
    b.tick(rt)?;
    b.sp(rt, 0, 0x80)?;
    b.tick(rt)?;
    b.sp(rt, 1, 0xe3)?;
    b.tick(rt)?;
    b.sp(rt, 1, 0xc4)?;
    b.tick(rt)
}

// Each input counts for itself, and neither stands in for the other.
fn both_inputs(rt: &impl Print) -> io::Result<()> {
    let mut b = fresh(rt, "both inputs")?;
    b.settings.fsafe_type = 1;
    b.settings.fsafe_time = 1;
    b.sp(rt, 1, 0x80)?;
    b.settings.target = blocks::RCAS;
    b.tick(rt)?;
    b.rcas_in(rt, 0, 0xc0)?;
    b.tick(rt)?;
    b.settings.target = blocks::AUTO;
    b.tick(rt)?;
    b.sp(rt, 1, 0x80)?;
    b.settings.target = blocks::RCAS;
    b.tick(rt)?;
    b.rcas_in(rt, 0, 0x80)?;
    b.settings.target = blocks::AUTO;
    b.tick(rt)?;
    b.tick(rt)?;
    b.sp(rt, 1, 0xa0)?;
    b.settings.target = blocks::RCAS;
    b.rcas_in(rt, 1, 0x80)?;
    b.tick(rt)
}

// The longest silence: n = 65,535 is followed, 65,536 is not.
fn longest(rt: &impl Print) -> io::Result<()> {
    let mut b = fresh(rt, "FSAFE_TIME 65535")?;
    b.settings.fsafe_time = 65535;
    b.sp(rt, 1, 0x80)?;
    b.ticks(65535);
    b.tick(rt)?;
    b.tick(rt)
}

// FSAFE_TYPE 0 gives FSAFE_VAL_D, 1 the last usable value, 2 keeps OUT_D and orders Safe.
fn types(rt: &impl Print) -> io::Result<()> {
    let mut b = fresh(rt, "FSAFE_TYPE")?;
    b.sp(rt, 1, 0x80)?;
    b.tick(rt)?;
    b.tick(rt)?;
    b.settings.fsafe_type = 1;
    b.tick(rt)?;
    b.settings.fsafe_type = 2;
    b.tick(rt)?;
    b.faulty_tick(rt)?;
    b.settings.fsafe_type = 0;
    b.settings.fsafe_val_d = 1;
    b.tick(rt)?;
    b.warm_start(rt)?;
    b.settings.fsafe_type = 2;
    b.tick(rt)?;
    b.settings.fsafe_type = 1;
    b.tick(rt)
}

// INVERT acts on every working value, FSAFE_VAL_D too, and on no value that is kept.
fn inverted(rt: &impl Print) -> io::Result<()> {
    let mut b = fresh(rt, "INVERT")?;
    b.settings.invert = 1;
    b.sp(rt, 1, 0x80)?;
    b.tick(rt)?;
    b.tick(rt)?;
    b.settings.fsafe_val_d = 1;
    b.tick(rt)?;
    b.settings.fsafe_type = 1;
    b.tick(rt)?;
    b.settings.fsafe_type = 2;
    b.tick(rt)?;
    b.settings.invert = 0;
    b.settings.fsafe_type = 1;
    b.tick(rt)?;
    b.warm_start(rt)?;
    b.settings.invert = 1;
    b.tick(rt)
}

// Man gives the operator's pair, in which INVERT has no part; O/S keeps OUT_D's value, at Rest.
fn operator(rt: &impl Print) -> io::Result<()> {
    let mut b = fresh(rt, "operator")?;
    b.settings.fsafe_val_d = 1;
    b.tick(rt)?;
    b.settings.invert = 1;
    b.settings.target = blocks::MAN;
    b.tick(rt)?;
    b.operated(rt, 1, 0x81)?;
    b.tick(rt)?;
    b.operated(rt, 0, 0xc3)?;
    b.tick(rt)?;
    b.settings.target = blocks::OUT_OF_SERVICE;
    b.tick(rt)?;
    b.settings.target = blocks::MAN;
    b.warm_start(rt)?;
    b.tick(rt)
}

// A warm start keeps OUT_D's value and forgets telegrams, IFS and the operator's pair.
fn warm(rt: &impl Print) -> io::Result<()> {
    let mut b = fresh(rt, "warm start")?;
    b.settings.fsafe_type = 1;
    b.settings.fsafe_time = 100;
    b.sp(rt, 1, 0x80)?;
    b.tick(rt)?;
    b.operated(rt, 0, 0x83)?;
    b.sp(rt, 1, 0xa0)?;
    b.warm_start(rt)?;
    b.tick(rt)?;
    b.sp(rt, 0, 0x80)?;
    b.tick(rt)
}

// The input is tested first, then the length; a refused telegram counts for nothing.
fn refused(rt: &impl Print) -> io::Result<()> {
    let mut b = fresh(rt, "refused")?;
    b.settings.fsafe_type = 1;
    b.settings.fsafe_time = 100;
    b.sent(rt, 4, &[1, 0x80])?;
    b.sent(rt, 4, &[1])?;
    b.sent(rt, 0, &[1, 0x80])?;
    b.sent(rt, 1, &[1, 0x80])?;
    b.sent(rt, 255, &[1, 0x80])?;
    b.sent(rt, 2, &[1])?;
    b.sent(rt, 2, &[1, 0x80, 0x80])?;
    b.sent(rt, 3, &[0, 0, 0, 1, 0x80])?;
    b.tick(rt)?;
    b.settings.target = blocks::RCAS;
    b.tick(rt)
}

fn main(rt: HostRuntime) -> io::Result<()> {
    defaults(&rt)?;
    silence(&rt)?;
    usable(&rt)?;
    initiated(&rt)?;
    both_inputs(&rt)?;
    longest(&rt)?;
    types(&rt)?;
    inverted(&rt)?;
    operator(&rt)?;
    warm(&rt)?;
    refused(&rt)
}
