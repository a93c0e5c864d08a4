// Ticks of DI worked by hand from documents 01 and 02, request 3, and the project's readings, one line each: fault flag,
// transducer's value and status, then OUT_D's value and status and the actual mode; so too a write of OUT_D and a warm
// start. What it would catch: another value than 0 or 1 taken for one or given 0x10, INVERT on FSAFE_VAL_D, on the last
// usable value, on the old one or in Man, an input of quality 3 or 1 taken for another.
#![tactic(auto)]

use di::{Settings, State};
use std::io;
use wire::Discrete;

// By INVERT, FSAFE_TYPE and FSAFE_VAL_D, in a target mode.
fn settings(target: u32, invert: u32, kind: u32, value: u32) -> Settings {
    Settings {
        target,
        invert,
        fsafe_type: kind,
        fsafe_val_d: value,
    }
}

fn auto(invert: u32, kind: u32, value: u32) -> Settings {
    settings(blocks::AUTO, invert, kind, value)
}

// A block with its parameters. Each step of it writes a line.
// The other blocks' programs have such steps too, some 40 lines in each: one text for all would need a trait over the types of
// settings, state and input, and each writes other values in its line.
#[derive(Clone, Copy)]
struct Block {
    settings: Settings,
    state: State,
}

fn fresh(rt: &impl Print, title: &str, settings: Settings) -> io::Result<Block> {
    let b = Block {
        settings,
        state: State::fresh(),
    };
    println!(rt; "# {title}")?;
    print!(rt; "fresh")?;
    b.show(rt)?;
    Ok(b)
}

impl Block {
    fn show(&self, rt: &impl Print) -> io::Result<()> {
        let state = self.state;
        let out = state.out;
        println!(rt; ": {} {:02x} {:02x}", out.value, out.status, state.mode)
    }

    fn ticked(&mut self, rt: &impl Print, fault: bool, value: u8, status: u8) -> io::Result<()> {
        self.state
            .tick(&self.settings, fault, Discrete { value, status });
        print!(rt; "{} {value} {status:02x}", fault as u8)?;
        self.show(rt)
    }

    fn tick(&mut self, rt: &impl Print, value: u8, status: u8) -> io::Result<()> {
        self.ticked(rt, false, value, status)
    }

    fn fault_tick(&mut self, rt: &impl Print, value: u8, status: u8) -> io::Result<()> {
        self.ticked(rt, true, value, status)
    }

    // An accepted write of OUT_D.
    fn operate(&mut self, rt: &impl Print, value: u8, status: u8) -> io::Result<()> {
        self.state.operate(Discrete { value, status });
        print!(rt; "operator {value} {status:02x}")?;
        self.show(rt)
    }

    fn warm(&mut self, rt: &impl Print) -> io::Result<()> {
        self.state.warm_start();
        print!(rt; "warm start")?;
        self.show(rt)
    }
}

// The defaults: FSAFE_TYPE 0 gives FSAFE_VAL_D 0 with 48. A usable tick has the input's status, quality 1 too.
fn defaults(rt: &impl Print) -> io::Result<()> {
    let mut b = fresh(rt, "defaults", auto(0, 0, 0))?;
    b.tick(rt, 1, 0x80)?;
    b.tick(rt, 0, 0x80)?;
    b.tick(rt, 1, 0x4e)?;
    b.tick(rt, 1, 0x8d)?;
    b.tick(rt, 1, 0x00)?;
    b.tick(rt, 1, 0x80)?;
    b.tick(rt, 1, 0xc0)?;
    b.tick(rt, 7, 0x80)
}

// FSAFE_TYPE 2 shows the Bad status: another value than 0 or 1 is 04 unless the quality is Bad, and OUT_D keeps its value.
fn statuses(rt: &impl Print) -> io::Result<()> {
    let mut b = fresh(rt, "input status", auto(0, 2, 0))?;
    b.tick(rt, 7, 0x80)?;
    b.tick(rt, 1, 0x80)?;
    b.tick(rt, 7, 0x80)?;
    b.tick(rt, 7, 0x0d)?;
    b.tick(rt, 2, 0x4c)?;
    b.tick(rt, 255, 0xc0)?;
    b.tick(rt, 0, 0xc0)?;
    b.tick(rt, 1, 0x1c)?;
    b.tick(rt, 0, 0x3f)?;
    b.tick(rt, 1, 0x7f)
}

// FSAFE_TYPE 1: the last usable value, 0 with 4C without one. Neither O/S nor Man moves it.
fn last_usable(rt: &impl Print) -> io::Result<()> {
    let mut b = fresh(rt, "last usable value", auto(0, 1, 1))?;
    b.tick(rt, 7, 0x80)?;
    b.tick(rt, 1, 0x00)?;
    b.tick(rt, 1, 0x80)?;
    b.tick(rt, 0, 0x00)?;
    b.tick(rt, 9, 0x80)?;
    b.fault_tick(rt, 0, 0x80)?;
    b.settings = settings(blocks::MAN, 0, 1, 1);
    b.tick(rt, 0, 0x80)?;
    b.settings = auto(0, 1, 1);
    b.tick(rt, 0, 0xc0)?;
    b.tick(rt, 0, 0x40)?;
    b.tick(rt, 1, 0x20)
}

// INVERT acts on the transducer's value alone: not on FSAFE_VAL_D, the last usable value or the old one.
fn inverted(rt: &impl Print) -> io::Result<()> {
    let mut b = fresh(rt, "INVERT", auto(1, 0, 1))?;
    b.tick(rt, 0, 0x80)?;
    b.tick(rt, 1, 0x80)?;
    b.tick(rt, 1, 0x00)?;
    b.settings = auto(1, 0, 0);
    b.tick(rt, 1, 0x00)?;
    b.settings = auto(1, 1, 1);
    b.tick(rt, 0, 0x00)?;
    b.settings = auto(1, 0, 1);
    b.tick(rt, 1, 0x00)?;
    b.settings = auto(0, 1, 1);
    b.tick(rt, 1, 0x00)?;
    b.settings = auto(1, 2, 1);
    b.tick(rt, 0, 0x00)?;
    b.tick(rt, 7, 0x80)?;
    b.tick(rt, 1, 0x0d)?;
    b.tick(rt, 7, 0x0d)?;
    b.warm(rt)?;
    b.settings = auto(1, 1, 1);
    b.tick(rt, 0, 0x00)
}

// O/S holds the value; Man gives the operator's pair, in which INVERT has no part.
fn modes(rt: &impl Print) -> io::Result<()> {
    let mut b = fresh(rt, "modes", auto(0, 1, 0))?;
    b.tick(rt, 1, 0x80)?;
    b.fault_tick(rt, 0, 0x80)?;
    b.tick(rt, 1, 0x8a)?;
    b.settings = settings(blocks::OUT_OF_SERVICE, 0, 1, 0);
    b.tick(rt, 0, 0x80)?;
    b.settings = settings(blocks::MAN, 0, 1, 0);
    b.tick(rt, 1, 0x80)?;
    b.operate(rt, 1, 0xc3)?;
    b.settings = settings(blocks::MAN, 1, 1, 0);
    b.tick(rt, 1, 0x80)?;
    b.fault_tick(rt, 0, 0x80)?;
    b.settings = auto(0, 1, 0);
    b.tick(rt, 0, 0x00)?;
    b.warm(rt)?;
    b.settings = settings(blocks::MAN, 1, 1, 0);
    b.tick(rt, 1, 0x80)?;
    b.settings = auto(0, 1, 0);
    b.tick(rt, 1, 0x00)
}

fn main(rt: HostRuntime) -> io::Result<()> {
    defaults(&rt)?;
    statuses(&rt)?;
    last_usable(&rt)?;
    inverted(&rt)?;
    modes(&rt)
}
