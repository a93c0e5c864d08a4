// AO worked by hand from document 01: point H, the examples of the project's readings, and the refused telegrams. Each step
// writes a line; `stdout` has what the paper says.
#![tactic(auto)]

use ao::{Settings, State};
use blocks::setpoint::Order;
use numbers::floats::{bits_of, float_of};
use scaling::Scale;
use std::io;
use wire::Pair;

// `ain_vectors` has this too: in `scaling` it would be a public function with a contract and edits to refuse, to spare one line.
fn scale(low: f32, high: f32) -> Scale {
    Scale { low, high }
}

// A block with its parameters. Each step of it writes a line, but for `ticks`.
// The other blocks' programs have such steps too, some 40 lines in each: one text for all would need a trait over the types of
// settings, state and input, and each writes other values in its line.
#[derive(Clone, Copy)]
struct Block {
    settings: Settings,
    state: State,
}

// A fresh block with the parameters' defaults.
fn fresh(rt: &impl Print, title: &str) -> io::Result<Block> {
    println!(rt; "# {title}")?;
    Ok(Block {
        settings: Settings {
            target: blocks::AUTO,
            pv_scale: scale(0.0, 100.0),
            out_scale: scale(0.0, 100.0),
            fsafe_time: 0,
            fsafe_type: 1,
            fsafe_value: 0.0,
            increase_close: 0,
        },
        state: State::fresh(),
    })
}

impl Block {
    fn show(&self, rt: &impl Print) -> io::Result<()> {
        let state = self.state;
        let out = state.out;
        println!(rt;
            ", OUT {:08x} {:02x}, mode {:02x}",
            out.bits, out.status, state.mode
        )
    }

    // A telegram of any bytes.
    fn sent(&mut self, rt: &impl Print, input: u8, bytes: &[u8]) -> io::Result<()> {
        let answer = self.state.telegram(input, bytes);
        println!(rt;
            "telegram on {input:02x}: {:02x}",
            wire::answer_number(answer)
        )
    }

    // A telegram of five bytes, by the value's bits.
    fn telegram(&mut self, rt: &impl Print, input: u8, bits: u32, status: u8) -> io::Result<()> {
        self.sent(rt, input, &Pair { bits, status }.to_bytes())
    }

    fn sp(&mut self, rt: &impl Print, value: f32, status: u8) -> io::Result<()> {
        self.telegram(rt, 0, bits_of(value), status)
    }

    fn rcas_in(&mut self, rt: &impl Print, value: f32, status: u8) -> io::Result<()> {
        self.telegram(rt, 1, bits_of(value), status)
    }

    fn order(&mut self, fault: bool) -> Order<f32> {
        self.state.tick(&self.settings, fault)
    }

    fn ticked(&mut self, rt: &impl Print, fault: bool) -> io::Result<()> {
        match self.order(fault) {
            Order::Position(x) => print!(rt; "Position {:08x}", bits_of(x))?,
            Order::Safe => print!(rt; "Safe")?,
            Order::Rest => print!(rt; "Rest")?,
        }
        self.show(rt)
    }

    fn tick(&mut self, rt: &impl Print) -> io::Result<()> {
        self.ticked(rt, false)
    }

    fn faulty_tick(&mut self, rt: &impl Print) -> io::Result<()> {
        self.ticked(rt, true)
    }

    fn ticks(&mut self, count: u32) {
        for _ in 0..count {
            self.order(false);
        }
    }

    // An accepted write of OUT.
    fn operated(&mut self, rt: &impl Print, value: f32, status: u8) -> io::Result<()> {
        let bits = bits_of(value);
        self.state.operate(Pair { bits, status });
        print!(rt; "written")?;
        self.show(rt)
    }

    fn warm_start(&mut self, rt: &impl Print) -> io::Result<()> {
        self.state.warm_start();
        print!(rt; "warm start")?;
        self.show(rt)
    }
}

// ---- the cases

// Point H: with FSAFE_TIME 2, ticks 1 to 3 after a usable telegram follow it and tick 4 is fail-safe. A fresh block has
// no telegram, and OUT keeps its old value.
fn point_h(rt: &impl Print) -> io::Result<()> {
    let mut b = fresh(rt, "point H")?;
    b.tick(rt)?;
    b.settings.fsafe_time = 2;
    b.sp(rt, 50.0, 0x80)?;
    b.tick(rt)?;
    b.tick(rt)?;
    b.tick(rt)?;
    b.tick(rt)?;
    b.sp(rt, 25.0, 0x80)?;
    b.tick(rt)
}

// What a status byte makes of a telegram: quality 2 and 3 on either input, any sub-status but 8, finite; the status given
// is 80 whatever the telegram's own.
fn statuses(rt: &impl Print) -> io::Result<()> {
    let mut b = fresh(rt, "usable and not")?;
    b.settings.fsafe_time = 100;
    b.sp(rt, 50.0, 0x4c)?;
    b.sp(rt, 50.0, 0x1c)?;
    b.tick(rt)?;
    b.sp(rt, 50.0, 0xc0)?;
    b.tick(rt)?;
    b.sp(rt, 20.0, 0x84)?;
    b.tick(rt)?;
    b.sp(rt, 40.0, 0xff)?;
    b.tick(rt)?;
    b.telegram(rt, 0, 0x7fc0_0000, 0x80)?;
    b.telegram(rt, 0, 0x7f80_0000, 0xc0)?;
    b.telegram(rt, 0, 0xff80_0001, 0x80)?;
    b.sp(rt, 70.0, 0x7f)?;
    b.tick(rt)?;
    b.settings.target = blocks::RCAS;
    b.rcas_in(rt, 75.0, 0x80)?;
    b.tick(rt)
}

// IFS: the later of usable and IFS telegrams decides; others between do not, and an IFS needs no finite value.
fn initiated(rt: &impl Print) -> io::Result<()> {
    let mut b = fresh(rt, "initiate fail-safe")?;
    b.settings.fsafe_time = 100;
    b.sp(rt, 10.0, 0xa0)?;
    b.tick(rt)?;
    b.sp(rt, 50.0, 0x80)?;
    b.tick(rt)?;
    b.sp(rt, 10.0, 0xa3)?;
    b.sp(rt, 10.0, 0x60)?;
    b.telegram(rt, 0, 0x7fc0_0000, 0x80)?;
    b.tick(rt)?;
    b.sp(rt, 25.0, 0x80)?;
    b.tick(rt)?;
    b.telegram(rt, 0, 0x7fff_ffff, 0xe2)?;
    b.tick(rt)?;
    b.sp(rt, 75.0, 0xc4)?;
    b.sp(rt, 10.0, 0xe0)?;
    b.sp(rt, 20.0, 0x80)?;
    b.tick(rt)
}

// n: with FSAFE_TIME 0 one tick follows; O/S and Man ticks count; IFS and unusable telegrams do not restart it.
fn silence(rt: &impl Print) -> io::Result<()> {
    let mut b = fresh(rt, "silence")?;
    b.sp(rt, 50.0, 0x80)?;
    b.tick(rt)?;
    b.tick(rt)?;
    b.settings.fsafe_time = 3;
    b.sp(rt, 25.0, 0x80)?;
    b.faulty_tick(rt)?;
    b.settings.target = blocks::MAN;
    b.tick(rt)?;
    b.settings.target = blocks::OUT_OF_SERVICE;
    b.tick(rt)?;
    b.settings.target = blocks::AUTO;
    b.tick(rt)?;
    b.sp(rt, 75.0, 0x40)?;
    b.telegram(rt, 0, 0xffc0_0000, 0x80)?;
    b.tick(rt)
}

fn not_restarted(rt: &impl Print) -> io::Result<()> {
    let mut b = fresh(rt, "IFS does not restart n")?;
    b.settings.fsafe_time = 1;
    b.settings.fsafe_type = 0;
    b.sp(rt, 50.0, 0x80)?;
    b.tick(rt)?;
    b.sp(rt, 50.0, 0xa0)?;
    b.tick(rt)?;
    b.tick(rt)?;
    b.sp(rt, 25.0, 0x80)?;
    b.tick(rt)?;
    b.tick(rt)?;
    b.tick(rt)
}

// Both inputs count for themselves, and SP does not stand in for RCAS_IN.
fn interleaved(rt: &impl Print) -> io::Result<()> {
    let mut b = fresh(rt, "both inputs")?;
    b.settings.fsafe_time = 2;
    b.sp(rt, 50.0, 0x80)?;
    b.settings.target = blocks::RCAS;
    b.tick(rt)?;
    b.rcas_in(rt, 25.0, 0xc0)?;
    b.tick(rt)?;
    b.settings.target = blocks::AUTO;
    b.tick(rt)?;
    b.tick(rt)?;
    b.settings.target = blocks::RCAS;
    b.tick(rt)?;
    b.sp(rt, 75.0, 0x80)?;
    b.tick(rt)?;
    b.settings.target = blocks::AUTO;
    b.rcas_in(rt, 10.0, 0xe0)?;
    b.tick(rt)?;
    b.settings.target = blocks::RCAS;
    b.tick(rt)
}

// Nothing is latched: the time at the tick decides.
fn rewritten(rt: &impl Print) -> io::Result<()> {
    let mut b = fresh(rt, "FSAFE_TIME rewritten during silence")?;
    b.sp(rt, 50.0, 0x80)?;
    b.tick(rt)?;
    b.tick(rt)?;
    b.settings.fsafe_time = 2;
    b.tick(rt)?;
    b.tick(rt)?;
    b.settings.fsafe_time = 65535;
    b.tick(rt)?;
    b.settings.fsafe_time = 0;
    b.tick(rt)
}

// The longest silence: n = 65,535 is followed, 65,536 and more are not.
fn longest(rt: &impl Print) -> io::Result<()> {
    let mut b = fresh(rt, "FSAFE_TIME 65535")?;
    b.settings.fsafe_time = 65535;
    b.sp(rt, 50.0, 0x80)?;
    b.ticks(65535);
    b.tick(rt)?;
    b.tick(rt)?;
    b.ticks(65537);
    b.tick(rt)?;
    b.sp(rt, 25.0, 0x80)?;
    b.tick(rt)
}

// FSAFE_TYPE 0 is scaled, 1 scales the last usable value anew, 2 keeps OUT and orders Safe.
fn types(rt: &impl Print) -> io::Result<()> {
    let mut b = fresh(rt, "FSAFE_TYPE")?;
    b.settings.fsafe_type = 0;
    b.settings.fsafe_value = 30.0;
    b.tick(rt)?;
    b.settings.fsafe_type = 1;
    b.tick(rt)?;
    b.sp(rt, 50.0, 0x80)?;
    b.tick(rt)?;
    b.settings.out_scale = scale(0.0, 200.0);
    b.tick(rt)?;
    b.settings.fsafe_type = 2;
    b.tick(rt)?;
    b.faulty_tick(rt)?;
    b.settings.fsafe_type = 0;
    b.tick(rt)
}

// A warm start keeps OUT's value and forgets telegrams, IFS and the operator's pair.
fn warm(rt: &impl Print) -> io::Result<()> {
    let mut b = fresh(rt, "warm start")?;
    b.sp(rt, 50.0, 0x80)?;
    b.tick(rt)?;
    b.operated(rt, 33.0, 0x83)?;
    b.warm_start(rt)?;
    b.tick(rt)?;
    b.sp(rt, 10.0, 0xa0)?;
    b.warm_start(rt)?;
    b.settings.fsafe_type = 2;
    b.tick(rt)?;
    b.settings.target = blocks::MAN;
    b.tick(rt)?;
    b.settings.target = blocks::AUTO;
    b.settings.fsafe_type = 1;
    b.tick(rt)?;
    b.sp(rt, 25.0, 0x80)?;
    b.tick(rt)
}

// Where scaling fails old OUT stands with 04 in place of 80, 48 and 44; without scaling there is no 04.
fn failing(rt: &impl Print) -> io::Result<()> {
    let mut b = fresh(rt, "scaling fails")?;
    b.sp(rt, 50.0, 0x80)?;
    b.tick(rt)?;
    let huge = float_of(0x7f61_b1e6);
    b.settings.out_scale = scale(0.0, huge);
    b.sp(rt, 500.0, 0x80)?;
    b.tick(rt)?;
    b.tick(rt)?;
    b.settings.fsafe_type = 0;
    b.settings.fsafe_value = 200.0;
    b.tick(rt)?;
    b.settings.fsafe_type = 2;
    b.tick(rt)?;
    b.warm_start(rt)?;
    b.settings.fsafe_type = 1;
    b.tick(rt)
}

// The span of PV_SCALE is infinite: the fraction is 0, or no number where the value's distance is infinite too.
fn infinite_span(rt: &impl Print) -> io::Result<()> {
    let mut b = fresh(rt, "infinite span")?;
    let huge = float_of(0x7f61_b1e6);
    b.settings.pv_scale = scale(0.0 - huge, huge);
    b.settings.out_scale = scale(3.0, 15.0);
    b.sp(rt, 0.0, 0x80)?;
    b.tick(rt)?;
    b.telegram(rt, 0, 0x7f61_b1e6, 0x80)?;
    b.tick(rt)?;
    b.settings.increase_close = 1;
    b.sp(rt, 0.0, 0x80)?;
    b.tick(rt)
}

// INCREASE_CLOSE: f is rounded, then 1 - f; for every working value, and not in Man.
fn closing(rt: &impl Print) -> io::Result<()> {
    let mut b = fresh(rt, "INCREASE_CLOSE")?;
    b.settings.increase_close = 1;
    b.telegram(rt, 0, 0x3f33_3333, 0x80)?;
    b.tick(rt)?;
    b.tick(rt)?;
    b.settings.fsafe_type = 0;
    b.settings.fsafe_value = 25.0;
    b.tick(rt)?;
    b.settings.target = blocks::MAN;
    b.operated(rt, 25.0, 0x80)?;
    b.tick(rt)
}

// 003's example, where its printed formula would give 12; and the order of the operations.
fn scaled(rt: &impl Print) -> io::Result<()> {
    let mut b = fresh(rt, "scaling")?;
    b.settings.pv_scale = scale(4.0, 20.0);
    b.settings.out_scale = scale(3.0, 15.0);
    b.sp(rt, 15.0, 0x80)?;
    b.tick(rt)?;
    b.settings.pv_scale = scale(20.0, 4.0);
    b.sp(rt, 15.0, 0x80)?;
    b.tick(rt)?;
    b.settings.pv_scale = scale(0.0, 100.0);
    b.settings.out_scale = scale(0.0 - 50.0, 50.0);
    b.telegram(rt, 0, 0x410e_6666, 0x80)?;
    b.tick(rt)?;
    b.telegram(rt, 0, 0x4164_cccd, 0x80)?;
    b.tick(rt)?;
    b.settings.out_scale = scale(50.0, 100.0);
    b.sp(rt, 50.0, 0x80)?;
    b.tick(rt)
}

// The sign of zero stands in OUT and in the order.
fn zeros(rt: &impl Print) -> io::Result<()> {
    let mut b = fresh(rt, "-0")?;
    let minus_zero = float_of(0x8000_0000);
    b.settings.out_scale = scale(minus_zero, 0.0 - 100.0);
    b.sp(rt, 0.0, 0x80)?;
    b.tick(rt)?;
    b.settings.out_scale = scale(0.0, 100.0);
    b.telegram(rt, 0, 0x8000_0000, 0x80)?;
    b.tick(rt)?;
    b.settings.out_scale = scale(minus_zero, 100.0);
    b.settings.pv_scale = scale(minus_zero, 100.0);
    b.telegram(rt, 0, 0x8000_0000, 0x80)?;
    b.tick(rt)?;
    b.settings.pv_scale = scale(0.0, 100.0);
    b.telegram(rt, 0, 0x8000_0000, 0x80)?;
    b.tick(rt)?;
    b.operated(rt, minus_zero, 0x80)?;
    b.settings.target = blocks::MAN;
    b.tick(rt)
}

// Man gives the operator's pair, at first 0 with 4C; a written pair shows with the next Man tick; old OUT may be the
// operator's. O/S keeps the value, with Rest under type 2 too.
fn operator(rt: &impl Print) -> io::Result<()> {
    let mut b = fresh(rt, "Man and O/S")?;
    b.settings.target = blocks::MAN;
    b.tick(rt)?;
    b.operated(rt, 33.0, 0x83)?;
    b.faulty_tick(rt)?;
    b.tick(rt)?;
    b.settings.target = blocks::AUTO;
    b.settings.fsafe_type = 2;
    b.tick(rt)?;
    b.settings.target = blocks::OUT_OF_SERVICE;
    b.tick(rt)?;
    b.settings.target = blocks::RCAS;
    b.faulty_tick(rt)?;
    b.tick(rt)?;
    b.settings.target = blocks::MAN;
    b.tick(rt)
}

// The input is tested before the length, and a refused telegram counts for nothing.
fn refused(rt: &impl Print) -> io::Result<()> {
    let mut b = fresh(rt, "refused telegrams")?;
    b.sent(rt, 2, b"\x42\x48\x00\x00\x80")?;
    b.sent(rt, 2, b"\x42\x48\x00\x00")?;
    b.sent(rt, 255, b"")?;
    b.sent(rt, 0, b"\x42\x48\x00\x00")?;
    b.sent(rt, 1, b"\x42\x48\x00\x00\x80\x00")?;
    b.sent(rt, 1, b"")?;
    b.tick(rt)?;
    b.sent(rt, 0, b"\x42\x48\x00\x00\x80")?;
    b.tick(rt)?;
    b.sent(rt, 1, b"\x41\xc8\x00\x00\xc0")?;
    b.settings.target = blocks::RCAS;
    b.tick(rt)
}

// The last usable of several telegrams between two ticks counts.
fn several(rt: &impl Print) -> io::Result<()> {
    let mut b = fresh(rt, "several telegrams")?;
    b.sp(rt, 10.0, 0x80)?;
    b.sp(rt, 50.0, 0x80)?;
    b.sp(rt, 75.0, 0x4c)?;
    b.tick(rt)?;
    b.sp(rt, 75.0, 0xa0)?;
    b.sp(rt, 25.0, 0xc0)?;
    b.tick(rt)
}

fn main(rt: HostRuntime) -> io::Result<()> {
    point_h(&rt)?;
    statuses(&rt)?;
    initiated(&rt)?;
    silence(&rt)?;
    not_restarted(&rt)?;
    interleaved(&rt)?;
    rewritten(&rt)?;
    longest(&rt)?;
    types(&rt)?;
    warm(&rt)?;
    failing(&rt)?;
    infinite_span(&rt)?;
    closing(&rt)?;
    scaled(&rt)?;
    zeros(&rt)?;
    operator(&rt)?;
    refused(&rt)?;
    several(&rt)
}
