// Ticks of TOT worked from document 01, one line each: fault flag, transducer's bits and status, then total, bits and status
// given, actual mode. What it would catch: an increment rounded down, a limit or a sign lost, 23 or 25 bits kept, a status of
// another case, a total moved in Man or O/S, a rate remembered from the wrong tick.
#![tactic(auto)]

use std::io;
use tot::{Settings, State};
use wire::Pair;

fn settings(
    rt: &impl Print,
    target: u32,
    set_tot: u32,
    mode_tot: u32,
    fail_tot: u32,
    preset: u32,
) -> io::Result<Settings> {
    println!(rt; "settings {target:02x} {set_tot} {mode_tot} {fail_tot} {preset:08x}")?;
    Ok(Settings {
        target,
        set_tot,
        mode_tot,
        fail_tot,
        preset_tot: numbers::floats::float_of(preset),
    })
}

// A fresh state but for its total.
fn at(total: i64) -> State {
    let mut state = State::fresh();
    state.total = total;
    state
}

// A block with its parameters. Each step of it writes a line.
// The other blocks' programs have such steps too, some 40 lines in each: one text for all would need a trait over the types of
// settings, state and input, and each writes other values in its line.
#[derive(Clone, Copy)]
struct Block {
    settings: Settings,
    state: State,
}

fn fresh(settings: Settings) -> Block {
    Block {
        settings,
        state: State::fresh(),
    }
}

impl Block {
    fn show(&self, rt: &impl Print) -> io::Result<()> {
        let state = self.state;
        let out = state.out;
        println!(rt;
            ": {} {:08x} {:02x} {:02x}",
            state.total, out.bits, out.status, state.mode
        )
    }

    fn ticked(&mut self, rt: &impl Print, fault: bool, bits: u32, status: u8) -> io::Result<()> {
        self.state
            .tick(&self.settings, fault, Pair { bits, status });
        print!(rt; "{} {bits:08x} {status:02x}", fault as u8)?;
        self.show(rt)
    }

    fn tick(&mut self, rt: &impl Print, bits: u32, status: u8) -> io::Result<()> {
        self.ticked(rt, false, bits, status)
    }

    fn fault_tick(&mut self, rt: &impl Print, bits: u32, status: u8) -> io::Result<()> {
        self.ticked(rt, true, bits, status)
    }

    fn ticks(&mut self, rt: &impl Print, inputs: &[(u32, u8)]) -> io::Result<()> {
        for (bits, status) in inputs {
            self.tick(rt, *bits, *status)?;
        }
        Ok(())
    }

    fn write(&mut self, rt: &impl Print, bits: u32, status: u8) -> io::Result<()> {
        self.state.operate(Pair { bits, status });
        print!(rt; "written {bits:08x} {status:02x}")?;
        self.show(rt)
    }

    fn warm(&mut self, rt: &impl Print) -> io::Result<()> {
        self.state.warm_start();
        print!(rt; "warm start")?;
        self.show(rt)
    }
}

// Points E, F and G, and totals that tell clearing from rounding and from keeping 23 or 25 bits.
fn points(rt: &impl Print) -> io::Result<()> {
    println!(rt; "points")?;
    let mut b = fresh(settings(rt, blocks::AUTO, 0, 0, 0, 0x00000000)?);
    b.ticks(
        rt,
        &[
            (0x3c800000, 0x80), // 0.015625
            (0xbc800000, 0x80), // -0.015625
            (0xbc800000, 0x80), // -0.015625
        ],
    )?;
    b.state = at(16777216);
    b.tick(rt, 0x3c800000, 0x80)?; // 0.015625
    b.settings = settings(rt, blocks::MAN, 0, 0, 0, 0x00000000)?;
    for total in [
        16777219,
        16777251,
        -16777219,
        33554435,
        -33554437,
        1,
        -1,
        0,
        1000000000000,
        -1000000000000,
    ] {
        b.state = at(total);
        b.tick(rt, 0x00000000, 0x00)?; // 0
    }
    Ok(())
}

// Cutting is toward zero and not down, of the product as it is rounded.
fn increments(rt: &impl Print) -> io::Result<()> {
    println!(rt; "increments")?;
    let mut b = fresh(settings(rt, blocks::AUTO, 0, 0, 0, 0x00000000)?);
    b.ticks(
        rt,
        &[
            (0x3e947ae1, 0x80), // 0.289999992
            (0xbe947ae1, 0x80), // -0.289999992
            (0x3ca30553, 0x80), // 0.0198999997
            (0xbca30553, 0x80), // -0.0198999997
            (0x3ba3d70a, 0x80), // 0.00499999989
            (0xbba3d70a, 0x80), // -0.00499999989
            (0x80000000, 0x80), // -0
            (0x00000001, 0x80), // 1.40129846e-45
            (0x3fa00000, 0x80), // 1.25
            (0xbfa00000, 0x80), // -1.25
        ],
    )
}

// The ends of the increment and of the sum, and totals that no device reaches.
fn limits(rt: &impl Print) -> io::Result<()> {
    println!(rt; "limits")?;
    let mut b = fresh(settings(rt, blocks::AUTO, 0, 0, 0, 0x00000000)?);
    b.ticks(
        rt,
        &[
            (0x4b189680, 0x80), // 10000000
            (0x4b18967f, 0x80), // 9999999
            (0x4b989680, 0x80), // 20000000
            (0xcb989680, 0x80), // -20000000
            (0x7f7fffff, 0x80), // 3.40282347e+38
            (0xff7fffff, 0x80), // -3.40282347e+38
            (0xcb189680, 0x80), // -10000000
        ],
    )?;
    b.state = at(999999999900);
    b.ticks(
        rt,
        &[
            (0x3f800000, 0x80), // 1
            (0x3c23d70a, 0x80), // 0.00999999978
            (0xbca3d70a, 0x80), // -0.0199999996
        ],
    )?;
    b.state = at(-999999999900);
    b.ticks(
        rt,
        &[
            (0xbf800000, 0x80), // -1
            (0xcb189680, 0x80), // -10000000
            (0x3f000000, 0x80), // 0.5
        ],
    )?;
    b.state = at(i64::MAX);
    b.tick(rt, 0x3f800000, 0x80)?; // 1
    b.state = at(i64::MIN);
    b.tick(rt, 0xbf800000, 0x80) // -1
}

// MODE_TOT passes both signs, one or none; the status stays the input's. A code past the list counts as hold.
fn signs(rt: &impl Print) -> io::Result<()> {
    println!(rt; "signs")?;
    let mut b = fresh(settings(rt, blocks::AUTO, 0, 0, 0, 0x00000000)?);
    b.tick(rt, 0x40000000, 0x83)?; // 2
    b.tick(rt, 0xc0400000, 0x4e)?; // -3
    b.settings = settings(rt, blocks::AUTO, 0, 1, 0, 0x00000000)?;
    b.tick(rt, 0x40000000, 0x83)?; // 2
    b.tick(rt, 0xc0400000, 0x4e)?; // -3
    b.settings = settings(rt, blocks::AUTO, 0, 2, 0, 0x00000000)?;
    b.tick(rt, 0x40000000, 0x83)?; // 2
    b.tick(rt, 0xc0400000, 0x4e)?; // -3
    b.settings = settings(rt, blocks::AUTO, 0, 3, 0, 0x00000000)?;
    b.tick(rt, 0x40000000, 0x83)?; // 2
    b.tick(rt, 0xc0400000, 0x4e)?; // -3
    b.settings = settings(rt, blocks::AUTO, 0, 7, 0, 0x00000000)?;
    b.tick(rt, 0x40000000, 0x83)?; // 2
    b.tick(rt, 0xc0400000, 0x4e) // -3
}

// FAIL_TOT run: the Bad status, and the increment of a finite rate.
fn failures_run(rt: &impl Print) -> io::Result<()> {
    println!(rt; "failures run")?;
    let mut b = fresh(settings(rt, blocks::AUTO, 0, 0, 0, 0x00000000)?);
    b.ticks(
        rt,
        &[
            (0x3f800000, 0x0d), // 1
            (0x3f800000, 0xc3), // 1
            (0xbf800000, 0xff), // -1
            (0x7fc00000, 0x80), // NaN
            (0x7f800000, 0x83), // inf
            (0xff800000, 0x80), // -inf
            (0x7fc00000, 0x0d), // NaN
            (0x7f800000, 0xe0), // inf
            (0x3f800000, 0x40), // 1
            (0x7f7fffff, 0x00), // 3.40282347e+38
            (0xffffffff, 0x80), // NaN
        ],
    )
}

// FAIL_TOT hold: nothing added, 0x40, whatever the cause.
fn failures_hold(rt: &impl Print) -> io::Result<()> {
    println!(rt; "failures hold")?;
    let mut b = fresh(settings(rt, blocks::AUTO, 0, 0, 1, 0x00000000)?);
    b.state = at(500);
    b.ticks(
        rt,
        &[
            (0x3f800000, 0x0d), // 1
            (0x3f800000, 0xc3), // 1
            (0x7fc00000, 0x80), // NaN
            (0x7f800000, 0x80), // inf
            (0x3f800000, 0x80), // 1
            (0x3f800000, 0x00), // 1
        ],
    )
}

// FAIL_TOT memory: the rate of an earlier usable tick, under the MODE_TOT of this one; a code past the list counts as memory.
fn memory(rt: &impl Print) -> io::Result<()> {
    println!(rt; "memory")?;
    let mut b = fresh(settings(rt, blocks::AUTO, 0, 0, 2, 0x00000000)?);
    b.ticks(
        rt,
        &[
            (0x40a00000, 0x00), // 5
            (0x7fc00000, 0x80), // NaN
            (0x40000000, 0x80), // 2
            (0x40e00000, 0x0c), // 7
            (0x7fc00000, 0x80), // NaN
        ],
    )?;
    b.settings = settings(rt, blocks::AUTO, 0, 1, 2, 0x00000000)?;
    b.tick(rt, 0xc0000000, 0x80)?; // -2
    b.tick(rt, 0x40e00000, 0xc0)?; // 7
    b.settings = settings(rt, blocks::AUTO, 0, 0, 2, 0x00000000)?;
    b.tick(rt, 0x40e00000, 0x00)?; // 7
    b.settings = settings(rt, blocks::AUTO, 0, 3, 2, 0x00000000)?;
    b.tick(rt, 0x40400000, 0x50)?; // 3
    b.tick(rt, 0x40e00000, 0x00)?; // 7
    b.settings = settings(rt, blocks::AUTO, 0, 0, 5, 0x00000000)?;
    b.tick(rt, 0x7f800000, 0x80)?; // inf
    b.settings = settings(rt, blocks::AUTO, 1, 0, 2, 0x00000000)?;
    b.tick(rt, 0x40800000, 0x80)?; // 4
    b.settings = settings(rt, blocks::AUTO, 0, 0, 2, 0x00000000)?;
    b.tick(rt, 0x41100000, 0x00)?; // 9
    b.settings = settings(rt, blocks::MAN, 0, 0, 2, 0x00000000)?;
    b.tick(rt, 0x40c00000, 0x80)?; // 6
    b.settings = settings(rt, blocks::AUTO, 0, 0, 2, 0x00000000)?;
    b.tick(rt, 0x41100000, 0x00)?; // 9
    b.fault_tick(rt, 0x41100000, 0x80)?; // 9
    b.tick(rt, 0x41100000, 0x00)?; // 9
    b.warm(rt)?;
    b.tick(rt, 0x41100000, 0x00) // 9
}

// SET_TOT acts in every Auto tick, whatever its input, under the status of run, and in no other mode.
fn reset_and_preset(rt: &impl Print) -> io::Result<()> {
    println!(rt; "reset and preset")?;
    let mut b = fresh(settings(rt, blocks::AUTO, 1, 0, 1, 0x00000000)?);
    b.state = at(123456);
    b.tick(rt, 0x3f800000, 0x80)?; // 1
    b.state = at(123456);
    b.tick(rt, 0x3f800000, 0x0d)?; // 1
    b.tick(rt, 0x7fc00000, 0x80)?; // NaN
    b.settings = settings(rt, blocks::AUTO, 2, 0, 2, 0x3e947ae1)?;
    b.ticks(
        rt,
        &[
            (0x3f800000, 0x80), // 1
            (0x3f800000, 0xc0), // 1
            (0x7f800000, 0x80), // inf
        ],
    )?;
    b.settings = settings(rt, blocks::AUTO, 2, 3, 0, 0x4e6e6b28)?;
    b.tick(rt, 0x3f800000, 0x80)?; // 1
    b.settings = settings(rt, blocks::AUTO, 2, 0, 0, 0xce6e6b28)?;
    b.tick(rt, 0x3f800000, 0x00)?; // 1
    b.settings = settings(rt, blocks::AUTO, 2, 0, 0, 0xbaf9096c)?;
    b.tick(rt, 0x3f800000, 0x80)?; // 1
    b.settings = settings(rt, blocks::AUTO, 9, 0, 0, 0x3af9096c)?;
    b.tick(rt, 0x3f800000, 0x80)?; // 1
    b.settings = settings(rt, blocks::MAN, 1, 0, 0, 0x00000000)?;
    b.tick(rt, 0x3f800000, 0x80)?; // 1
    b.settings = settings(rt, blocks::OUT_OF_SERVICE, 1, 0, 0, 0x00000000)?;
    b.tick(rt, 0x3f800000, 0x80)?; // 1
    b.settings = settings(rt, blocks::AUTO, 1, 0, 0, 0x00000000)?;
    b.fault_tick(rt, 0x3f800000, 0x80)?; // 1
    b.settings = settings(rt, blocks::AUTO, 0, 0, 0, 0x00000000)?;
    b.tick(rt, 0x3f800000, 0x80) // 1
}

// A written TOTAL is set at once and shown by the next tick outside O/S; its status is for Man ticks alone.
fn operator(rt: &impl Print) -> io::Result<()> {
    println!(rt; "operator")?;
    let mut b = fresh(settings(rt, blocks::AUTO, 0, 0, 0, 0x00000000)?);
    b.tick(rt, 0x3f800000, 0x80)?; // 1
    b.settings = settings(rt, blocks::MAN, 0, 0, 0, 0x00000000)?;
    b.tick(rt, 0x3f800000, 0x80)?; // 1
    b.write(rt, 0x3e947ae1, 0xa7)?;
    b.tick(rt, 0x3f800000, 0x00)?; // 1
    b.tick(rt, 0x7fc00000, 0x80)?; // NaN
    b.write(rt, 0xbaf9096c, 0x00)?;
    b.fault_tick(rt, 0x3f800000, 0x80)?; // 1
    b.tick(rt, 0x3f800000, 0x80)?; // 1
    b.write(rt, 0x4e6e6b28, 0xff)?;
    b.settings = settings(rt, blocks::OUT_OF_SERVICE, 0, 0, 0, 0x00000000)?;
    b.tick(rt, 0x3f800000, 0x80)?; // 1
    b.settings = settings(rt, blocks::AUTO, 0, 0, 0, 0x00000000)?;
    b.tick(rt, 0x3f800000, 0x81)?; // 1
    b.settings = settings(rt, blocks::MAN, 0, 0, 0, 0x00000000)?;
    b.tick(rt, 0x3f800000, 0x81)?; // 1
    b.write(rt, 0x40000000, 0x11)?;
    b.warm(rt)?;
    b.tick(rt, 0x3f800000, 0x80) // 1
}

// The fault flag and the target; another target counts as Auto.
fn modes(rt: &impl Print) -> io::Result<()> {
    println!(rt; "modes")?;
    let mut b = fresh(settings(rt, blocks::OUT_OF_SERVICE, 0, 0, 0, 0x00000000)?);
    b.tick(rt, 0x3f800000, 0x80)?; // 1
    b.settings = settings(rt, blocks::AUTO, 0, 0, 0, 0x00000000)?;
    b.tick(rt, 0x3f800000, 0x80)?; // 1
    b.fault_tick(rt, 0x3f800000, 0x80)?; // 1
    b.settings = settings(rt, blocks::MAN, 0, 0, 0, 0x00000000)?;
    b.fault_tick(rt, 0x3f800000, 0x80)?; // 1
    b.tick(rt, 0x3f800000, 0x80)?; // 1
    b.settings = settings(rt, blocks::RCAS, 0, 0, 0, 0x00000000)?;
    b.tick(rt, 0x3f800000, 0x80)?; // 1
    b.settings = settings(rt, blocks::AUTO, 0, 0, 0, 0x00000000)?;
    b.tick(rt, 0x3f800000, 0x00) // 1
}

fn main(rt: HostRuntime) -> io::Result<()> {
    points(&rt)?;
    increments(&rt)?;
    limits(&rt)?;
    signs(&rt)?;
    failures_run(&rt)?;
    failures_hold(&rt)?;
    memory(&rt)?;
    reset_and_preset(&rt)?;
    operator(&rt)?;
    modes(&rt)
}
