// Ticks of AIN worked from documents 01 and 02, request 1, one line each: fault flag, transducer's bits and status, then OUT's bits
// and status, the actual mode and the alarm byte; so too a write of OUT and a warm start. The expected lines were worked apart from
// this code, in exact fractions rounded to singles. What it would catch: a rounding too many or too few, scaling in another order or
// left out, a filter filled or emptied by the wrong tick, the status or the value of another cause, an alarm moved by the wrong
// limit, a table used under LIN_TYPE 0, after scaling or for usable ticks alone.
#![tactic(auto)]

use ain::{Settings, State};
use linearisation::Table;
use numbers::floats::{bits_of, float_of};
use scaling::Scale;
use std::io;
use wire::Pair;

// A block with its parameters and its table. Each step of it writes a line.
// The other blocks' programs have such steps too, some 40 lines in each: one text for all would need a trait over the types of
// settings, state and input, and each writes other values in its line.
#[derive(Clone, Copy)]
struct Block {
    settings: Settings,
    table: Table,
    state: State,
}

fn fresh(settings: Settings) -> Block {
    Block {
        settings,
        table: Table::default(),
        state: State::fresh(),
    }
}

impl Block {
    fn show(&self, rt: &impl Print) -> io::Result<()> {
        let state = self.state;
        let out = state.out;
        println!(rt;
            ": {:08x} {:02x} {:02x} {:x}",
            out.bits,
            out.status,
            state.mode,
            state.alarms.byte()
        )
    }

    fn ticked(&mut self, rt: &impl Print, fault: bool, bits: u32, status: u8) -> io::Result<()> {
        self.state
            .tick(&self.settings, &self.table, fault, Pair { bits, status });
        print!(rt; "{} {bits:08x} {status:02x}", fault as u8)?;
        self.show(rt)
    }

    fn tick_bits(&mut self, rt: &impl Print, bits: u32, status: u8) -> io::Result<()> {
        self.ticked(rt, false, bits, status)
    }

    fn tick(&mut self, rt: &impl Print, x: f32, status: u8) -> io::Result<()> {
        self.ticked(rt, false, bits_of(x), status)
    }

    fn fault_tick(&mut self, rt: &impl Print, x: f32, status: u8) -> io::Result<()> {
        self.ticked(rt, true, bits_of(x), status)
    }

    // An accepted write of OUT.
    fn operate(&mut self, rt: &impl Print, x: f32, status: u8) -> io::Result<()> {
        let bits = bits_of(x);
        self.state.operate(Pair { bits, status });
        print!(rt; "operator {bits:08x} {status:02x}")?;
        self.show(rt)
    }

    fn warm(&mut self, rt: &impl Print) -> io::Result<()> {
        self.state.warm_start();
        print!(rt; "warm start")?;
        self.show(rt)
    }
}

// `ao_vectors` has this too: in `scaling` it would be a public function with a contract and edits to refuse, to spare one line.
fn scale(low: f32, high: f32) -> Scale {
    Scale { low, high }
}

fn settings(high: f32) -> Settings {
    Settings {
        target: blocks::AUTO,
        pv_scale: scale(0.0, high),
        out_scale: scale(0.0, high),
        lin_type: 0,
        pv_ftime: 0.0,
        fsafe_type: 1,
        fsafe_value: 0.0,
        alarm_hys: 0.5,
        hi_hi_lim: f32::INFINITY,
        hi_lim: f32::INFINITY,
        lo_lim: f32::NEG_INFINITY,
        lo_lo_lim: f32::NEG_INFINITY,
    }
}

// The paper's defaults.
fn defaults() -> Settings {
    settings(100.0)
}

// The defaults with both scales 0, 1, by which the scaled value is the transducer's.
fn identity() -> Settings {
    settings(1.0)
}

// Points B, C and D.
fn points(rt: &impl Print) -> io::Result<()> {
    println!(rt; "points B, C, D")?;
    let mut b = fresh(defaults());
    b.settings.pv_scale = scale(4.0, 20.0);
    b.tick(rt, 12.0, 0x80)?;
    b = fresh(defaults());
    b.settings.pv_scale = scale(0.0, 64.0);
    b.settings.out_scale = scale(0.0, 64.0);
    b.settings.pv_ftime = 1.5;
    b.tick(rt, 0.0, 0x80)?;
    b.tick(rt, 32.0, 0x80)?;
    b = fresh(defaults());
    b.settings.hi_lim = 80.0;
    b.tick(rt, 80.0, 0x80)?;
    b.tick(rt, 79.5, 0x80)?;
    b.tick(rt, 79.25, 0x80)
}

// Operations are those of document 01, in its order, each rounded: equal scales are no identity (41f00001), no fused
// multiply-add (c2246666), the division before the product (c20ecccc), ties to even, down and up.
fn rounding(rt: &impl Print) -> io::Result<()> {
    println!(rt; "rounding")?;
    let mut b = fresh(defaults());
    b.tick(rt, 30.0, 0x80)?;
    b.settings.out_scale = scale(-50.0, 50.0);
    b.tick_bits(rt, 0x410e6666, 0x80)?;
    b.tick_bits(rt, 0x4164cccd, 0x80)?;
    b.settings.pv_scale = scale(-1.0, 0.0);
    b.settings.out_scale = scale(0.0, 1.0);
    b.tick_bits(rt, 0x4b800000, 0x80)?;
    b.tick_bits(rt, 0x4b800001, 0x80)
}

// The low end is subtracted first and added last; descending ends; values beyond the ends; spans of one subnormal step.
fn scales(rt: &impl Print) -> io::Result<()> {
    println!(rt; "scales")?;
    let mut b = fresh(defaults());
    b.settings.out_scale = scale(50.0, 100.0);
    b.tick(rt, 50.0, 0x80)?;
    b.tick(rt, -100.0, 0x80)?;
    b.tick(rt, 200.0, 0x80)?;
    b.settings.pv_scale = scale(20.0, 4.0);
    b.settings.out_scale = scale(3.0, 15.0);
    b.tick(rt, 16.0, 0x80)?;
    b.settings.out_scale = scale(100.0, 0.0);
    b.tick(rt, 16.0, 0x80)?;
    b.settings.pv_scale = scale(float_of(0x00000001), float_of(0x00000002));
    b.settings.out_scale = scale(0.0, 100.0);
    b.tick_bits(rt, 0x00000003, 0x80)?;
    b.tick_bits(rt, 0x80000001, 0x80)?;
    b.settings.pv_scale = scale(0.0, 2.0);
    b.settings.out_scale = scale(0.0, float_of(0x00000001));
    b.tick(rt, 1.0, 0x80)?;
    b.tick(rt, 3.0, 0x80)?;
    b.tick(rt, 4.0, 0x80)
}

// The sign of a zero: kept by an OUT_SCALE from -0, lost by one from 0. As numbers the two are equal: a limit of -0 is
// reached by 0, and a PV_FTIME of -0 is no filter (1, where a filter with divisor 1 would give 0).
fn zeros(rt: &impl Print) -> io::Result<()> {
    println!(rt; "zeros")?;
    let mut b = fresh(defaults());
    b.tick_bits(rt, 0x80000000, 0x80)?;
    b.settings.out_scale = scale(float_of(0x80000000), 100.0);
    b.tick_bits(rt, 0x80000000, 0x80)?;
    b.tick_bits(rt, 0x00000000, 0x80)?;
    b.settings.out_scale = scale(float_of(0x80000000), -100.0);
    b.tick_bits(rt, 0x00000000, 0x80)?;
    b.settings.out_scale = scale(0.0, -100.0);
    b.tick_bits(rt, 0x00000000, 0x80)?;
    b.settings.hi_lim = float_of(0x80000000);
    b.tick_bits(rt, 0x00000000, 0x80)?;
    b.settings = identity();
    b.settings.lo_lim = float_of(0x80000000);
    b.tick_bits(rt, 0x00000000, 0x80)?;
    b.settings = identity();
    b.settings.pv_ftime = float_of(0x80000000);
    b.tick(rt, 100000000.0, 0x80)?;
    b.tick(rt, 1.0, 0x80)
}

// An overflowing span of PV_SCALE gives the fraction 0 or a NaN, one of OUT_SCALE never a finite value. The overflow shows as
// 0x04 under type 2, with the old OUT; under type 1 the last usable value stands in (7).
fn overflowing_spans(rt: &impl Print) -> io::Result<()> {
    println!(rt; "overflowing spans")?;
    let mut b = fresh(defaults());
    b.settings.fsafe_type = 2;
    b.settings.pv_scale = scale(float_of(0xff61b1e6), float_of(0x7f61b1e6));
    b.settings.out_scale = scale(7.0, 9.0);
    b.tick(rt, 0.0, 0x80)?;
    b.tick_bits(rt, 0x7f61b1e6, 0x80)?;
    b.tick_bits(rt, 0xff61b1e6, 0x83)?;
    b.settings.pv_scale = scale(0.0, 100.0);
    b.settings.out_scale = scale(float_of(0xff61b1e6), float_of(0x7f61b1e6));
    b.tick(rt, 0.0, 0x80)?;
    b.tick(rt, 50.0, 0x80)?;
    b.tick(rt, -50.0, 0x80)?;
    b.settings.pv_scale = scale(0.0, 1.0);
    b.settings.out_scale = scale(0.0, 100.0);
    b.tick_bits(rt, 0x7f61b1e6, 0x80)?;
    b.tick_bits(rt, 0xff7fffff, 0x80)?;
    b.settings.pv_scale = scale(0.0, float_of(0x00000001));
    b.tick(rt, 1.0, 0x4c)?;
    b.tick(rt, 0.0, 0x0d)?;
    b.settings.fsafe_type = 1;
    b.tick(rt, 1.0, 0x80)
}

// The filtered value overflows where the scaled one does not: 0x04, under type 2 with the scaled value; the filter keeps its
// value, as the last tick shows (7f167699, half way from 3e38 to 1e38).
fn overflowing_filter(rt: &impl Print) -> io::Result<()> {
    println!(rt; "overflowing filter")?;
    let mut b = fresh(identity());
    b.settings.pv_ftime = 0.1;
    b.tick_bits(rt, 0x7f61b1e6, 0x80)?;
    b.tick_bits(rt, 0xff61b1e6, 0x80)?;
    b.settings.fsafe_type = 0;
    b.settings.fsafe_value = -5.0;
    b.tick_bits(rt, 0xff61b1e6, 0x40)?;
    b.settings.fsafe_type = 2;
    b.tick_bits(rt, 0xff61b1e6, 0x80)?;
    b.tick_bits(rt, 0x7e967699, 0x80)
}

// The order of the causes, under type 2, which shows the input status: quality 3 first, then quality 0, then the value.
fn input_status(rt: &impl Print) -> io::Result<()> {
    println!(rt; "input status")?;
    let mut b = fresh(identity());
    b.settings.fsafe_type = 2;
    b.tick(rt, 25.0, 0x80)?;
    b.tick_bits(rt, 0x7fc00000, 0x0d)?;
    b.tick_bits(rt, 0x7f800000, 0x83)?;
    b.tick(rt, 40.0, 0xc3)?;
    b.tick_bits(rt, 0xff800000, 0xe0)?;
    b.tick_bits(rt, 0x7f800001, 0xff)?;
    b.tick_bits(rt, 0xffffffff, 0x80)?;
    b.tick_bits(rt, 0xff800000, 0x40)?;
    b.tick(rt, 41.0, 0x00)?;
    b.tick(rt, 42.0, 0x3f)?;
    b.tick_bits(rt, 0x7f800000, 0x1f)?;
    b.tick(rt, 43.0, 0x7f)?;
    b.tick(rt, 44.0, 0xbf)?;
    b.tick(rt, 45.0, 0xa1)
}

// FSAFE_TYPE 0 in each cause: FSAFE_VALUE, which is not scaled, with 0x48. It raises alarms and does not show them.
fn by_value(rt: &impl Print) -> io::Result<()> {
    println!(rt; "FSAFE_TYPE 0")?;
    let mut b = fresh(defaults());
    b.settings.fsafe_type = 0;
    b.settings.fsafe_value = 95.0;
    b.settings.out_scale = scale(0.0, 10.0);
    b.tick(rt, 50.0, 0x0d)?;
    b.tick(rt, 50.0, 0xc3)?;
    b.tick_bits(rt, 0x7fc00000, 0x80)?;
    b.tick_bits(rt, 0xff800000, 0x48)?;
    b.settings.pv_scale = scale(0.0, float_of(0x00000001));
    b.tick(rt, 1.0, 0x80)?;
    b.settings.hi_lim = 80.0;
    b.settings.lo_lo_lim = 95.0;
    b.tick(rt, 50.0, 0x00)?;
    b.settings.fsafe_value = float_of(0x80000000);
    b.tick(rt, 50.0, 0x80)
}

// FSAFE_TYPE 1: 0 with 0x4c before a usable Auto tick, then the PV of the last one with 0x44, as it was before a change of scale
// (50), filtered (54), and also after Man and O/S ticks. The type is that of the tick.
fn by_last_value(rt: &impl Print) -> io::Result<()> {
    println!(rt; "FSAFE_TYPE 1")?;
    let mut b = fresh(defaults());
    b.tick(rt, 50.0, 0x0d)?;
    b.tick_bits(rt, 0x7f800000, 0x80)?;
    b.tick(rt, 50.0, 0x4c)?;
    b.settings.out_scale = scale(0.0, 200.0);
    b.tick(rt, 60.0, 0x0d)?;
    b.tick(rt, 60.0, 0xc0)?;
    b.tick_bits(rt, 0x7fc00000, 0x80)?;
    b.settings.pv_ftime = 1.5;
    b.tick(rt, 57.0, 0x80)?;
    b.tick(rt, 99.0, 0x00)?;
    b.settings.target = blocks::MAN;
    b.operate(rt, 7.0, 0x83)?;
    b.tick(rt, 99.0, 0x80)?;
    b.fault_tick(rt, 99.0, 0x80)?;
    b.settings.target = blocks::AUTO;
    b.tick(rt, 99.0, 0x00)?;
    b.settings.fsafe_type = 0;
    b.tick(rt, 99.0, 0x00)?;
    b.settings.fsafe_type = 1;
    b.tick(rt, 99.0, 0x00)
}

// FSAFE_TYPE 2: the scaled value, unfiltered and not put into the filter (64, and then 2 as in point C); the old OUT, an
// operator's too, where it is not finite; no value of it becomes the last usable one.
fn by_scaled_value(rt: &impl Print) -> io::Result<()> {
    println!(rt; "FSAFE_TYPE 2")?;
    let mut b = fresh(defaults());
    b.settings.fsafe_type = 2;
    b.tick_bits(rt, 0x7fc00000, 0x80)?;
    b.settings.pv_scale = scale(0.0, 64.0);
    b.settings.out_scale = scale(0.0, 64.0);
    b.settings.pv_ftime = 1.5;
    b.tick(rt, 0.0, 0x80)?;
    b.tick(rt, 64.0, 0x00)?;
    b.tick(rt, 32.0, 0xd7)?;
    b.tick(rt, 32.0, 0x80)?;
    b.tick(rt, 64.0, 0x04)?;
    b.settings.fsafe_type = 1;
    b.tick(rt, 64.0, 0x04)?;
    b.settings.target = blocks::MAN;
    b.operate(rt, 33.0, 0x80)?;
    b.tick(rt, 64.0, 0x80)?;
    b.settings.target = blocks::AUTO;
    b.settings.fsafe_type = 2;
    b.tick_bits(rt, 0xffc00000, 0x80)
}

// Hysteresis is subtracted and added in singles: 80 - 0.01 is 429ffae1, 20 + 0.01 is 41a0147b; the alarm keeps there and falls
// one step further.
fn hysteresis(rt: &impl Print) -> io::Result<()> {
    println!(rt; "hysteresis")?;
    let mut b = fresh(identity());
    b.settings.alarm_hys = 0.01;
    b.settings.hi_lim = 80.0;
    b.tick_bits(rt, 0x429fffff, 0x80)?;
    b.tick(rt, 80.0, 0x80)?;
    b.tick_bits(rt, 0x429ffae1, 0x80)?;
    b.tick_bits(rt, 0x429ffae0, 0x80)?;
    b.settings.lo_lim = 20.0;
    b.tick_bits(rt, 0x41a00001, 0x80)?;
    b.tick(rt, 20.0, 0x80)?;
    b.tick_bits(rt, 0x41a0147b, 0x80)?;
    b.tick_bits(rt, 0x41a0147c, 0x80)?;
    b.settings.alarm_hys = float_of(0x80000000);
    b.tick(rt, 80.0, 0x80)?;
    b.tick_bits(rt, 0x429fffff, 0x80)
}

// Infinite limits are never reached, and a standing alarm falls at the next tick, whatever the hysteresis. Where the limit with
// its hysteresis overflows, the alarm never falls by value.
fn infinities(rt: &impl Print) -> io::Result<()> {
    println!(rt; "infinities")?;
    let mut b = fresh(identity());
    b.tick_bits(rt, 0x7f7fffff, 0x80)?;
    b.tick_bits(rt, 0xff7fffff, 0x80)?;
    b.settings.alarm_hys = float_of(0x7f61b1e6);
    b.settings.hi_lim = float_of(0xff61b1e6);
    b.tick(rt, 0.0, 0x80)?;
    b.tick_bits(rt, 0xff7fffff, 0x80)?;
    b.settings.hi_lim = f32::INFINITY;
    b.tick_bits(rt, 0x7f7fffff, 0x80)?;
    b.settings.lo_lo_lim = float_of(0x7f61b1e6);
    b.tick(rt, 0.0, 0x80)?;
    b.tick_bits(rt, 0x7f7fffff, 0x80)?;
    b.settings.lo_lo_lim = f32::NEG_INFINITY;
    b.tick_bits(rt, 0xff7fffff, 0x80)
}

// The status shows HI_HI before LO_LO before HI before LO: four that stand at once, and then one less at each tick.
fn status_order(rt: &impl Print) -> io::Result<()> {
    println!(rt; "status order")?;
    let mut b = fresh(identity());
    b.settings.hi_hi_lim = -10.0;
    b.settings.hi_lim = -10.0;
    b.settings.lo_lim = 10.0;
    b.settings.lo_lo_lim = 10.0;
    b.tick(rt, 0.0, 0x80)?;
    b.settings.hi_hi_lim = f32::INFINITY;
    b.tick(rt, 0.0, 0x80)?;
    b.settings.lo_lo_lim = f32::NEG_INFINITY;
    b.tick(rt, 0.0, 0x80)?;
    b.settings.hi_lim = f32::INFINITY;
    b.tick(rt, 0.0, 0x80)?;
    b.settings.lo_lim = f32::NEG_INFINITY;
    b.tick(rt, 0.0, 0x83)?;
    b.settings.hi_hi_lim = 90.0;
    b.settings.hi_lim = 80.0;
    b.tick(rt, 90.0, 0x80)?;
    b.tick(rt, 89.25, 0x80)?;
    b.settings.lo_lim = 20.0;
    b.settings.lo_lo_lim = 10.0;
    b.tick(rt, 10.0, 0x80)?;
    b.tick(rt, 10.75, 0x80)?;
    b.tick(rt, 20.75, 0x80)
}

// Limits and hysteresis rewritten under standing alarms: a tick goes by the present ones, for rise and fall, and keeps an alarm
// between them that stood and no other.
fn rewritten_limits(rt: &impl Print) -> io::Result<()> {
    println!(rt; "rewritten limits")?;
    let mut b = fresh(identity());
    b.settings.hi_lim = 80.0;
    b.tick(rt, 79.75, 0x80)?;
    b.tick(rt, 80.0, 0x80)?;
    b.tick(rt, 79.75, 0x80)?;
    b.settings.hi_lim = 80.25;
    b.tick(rt, 79.75, 0x80)?;
    b.settings.hi_lim = 90.0;
    b.tick(rt, 79.75, 0x80)?;
    b.settings.hi_lim = 79.75;
    b.tick(rt, 79.75, 0x80)?;
    b.settings.hi_lim = 80.0;
    b.settings.alarm_hys = 0.0;
    b.tick(rt, 79.75, 0x80)?;
    b.settings.lo_lim = 79.5;
    b.settings.alarm_hys = 0.5;
    b.tick(rt, 79.75, 0x80)?;
    b.settings.lo_lim = 80.0;
    b.tick(rt, 79.75, 0x80)?;
    b.settings.lo_lim = 79.5;
    b.tick(rt, 79.75, 0x80)?;
    b.settings.lo_lim = 79.0;
    b.tick(rt, 79.75, 0x80)
}

// The status shows alarms in a usable tick of quality 2 alone, where its whole byte is replaced.
fn shown_alarms(rt: &impl Print) -> io::Result<()> {
    println!(rt; "shown alarms")?;
    let mut b = fresh(identity());
    b.settings.hi_hi_lim = 80.0;
    b.tick(rt, 90.0, 0x40)?;
    b.tick(rt, 90.0, 0x7f)?;
    b.tick(rt, 90.0, 0xbf)?;
    b.tick(rt, 90.0, 0x4e)?;
    b.tick(rt, 90.0, 0x00)?;
    b.tick(rt, 70.0, 0xa1)?;
    b.tick(rt, 70.0, 0x83)?;
    b.settings.fsafe_type = 2;
    b.tick(rt, 95.0, 0xc0)?;
    b.tick(rt, 79.75, 0x80)?;
    b.tick(rt, 79.25, 0x0d)
}

// The filter value: set by a usable Auto tick, one with PV_FTIME 0 or of quality 1 too, left by an unusable one, and kept as it is
// over a change of scale (15).
fn filter(rt: &impl Print) -> io::Result<()> {
    println!(rt; "filter")?;
    let mut b = fresh(identity());
    b.tick(rt, 10.0, 0x80)?;
    b.settings.pv_ftime = 0.1;
    b.settings.out_scale = scale(0.0, 2.0);
    b.tick(rt, 10.0, 0x80)?;
    b.settings.out_scale = scale(0.0, 1.0);
    b.tick(rt, 5.0, 0x40)?;
    b.tick(rt, 50.0, 0x00)?;
    b.tick(rt, 50.0, 0xc0)?;
    b.tick_bits(rt, 0x7f800000, 0x80)?;
    b.tick(rt, 20.0, 0x80)?;
    b.settings.pv_ftime = 0.7;
    b.tick(rt, 20.0, 0x80)?;
    b.settings.pv_ftime = 3600.0;
    b.tick(rt, 1000.0, 0x80)?;
    b.settings.pv_ftime = 0.0;
    b.tick(rt, 3.0, 0x80)?;
    b.settings.pv_ftime = 1.5;
    b.tick(rt, -13.0, 0x80)
}

// Man: the operator's pair (0, 4c while fresh), shown by the tick and not by the write, whatever the transducer says; alarms by
// its value; the filter emptied.
fn man(rt: &impl Print) -> io::Result<()> {
    println!(rt; "Man")?;
    let mut b = fresh(identity());
    b.settings.target = blocks::MAN;
    b.settings.hi_lim = 80.0;
    b.settings.lo_lim = 0.0;
    b.tick(rt, 50.0, 0x80)?;
    b.operate(rt, 85.0, 0x83)?;
    b.tick_bits(rt, 0x7fc00000, 0x00)?;
    b.operate(rt, 79.75, 0x0d)?;
    b.tick(rt, 50.0, 0x80)?;
    b.settings.target = blocks::AUTO;
    b.settings.pv_ftime = 1.5;
    b.tick(rt, 79.75, 0x80)?;
    b.tick(rt, 16.0, 0x80)?;
    b.settings.target = blocks::MAN;
    b.tick(rt, 16.0, 0x80)?;
    b.settings.target = blocks::AUTO;
    b.tick(rt, 16.0, 0x80)?;
    b.settings.target = blocks::MAN;
    b.operate(rt, -0.0, 0xff)?;
    b.tick(rt, 16.0, 0x80)
}

// O/S by the fault flag, in Auto and in Man, and by the target: the value kept with 1f, alarms cleared, the filter emptied, the
// operator's pair and the last usable value kept.
fn out_of_service(rt: &impl Print) -> io::Result<()> {
    println!(rt; "O/S")?;
    let mut b = fresh(identity());
    b.settings.hi_lim = 80.0;
    b.settings.pv_ftime = 1.5;
    b.fault_tick(rt, 50.0, 0x80)?;
    b.tick(rt, 96.0, 0x80)?;
    b.fault_tick(rt, 50.0, 0x80)?;
    b.tick(rt, 79.75, 0x80)?;
    b.tick(rt, 95.75, 0x80)?;
    b.settings.target = blocks::OUT_OF_SERVICE;
    b.tick(rt, 50.0, 0x80)?;
    b.fault_tick(rt, 50.0, 0x80)?;
    b.settings.target = blocks::AUTO;
    b.tick(rt, 50.0, 0x0d)?;
    b.tick(rt, 48.0, 0x80)?;
    b.settings.target = blocks::MAN;
    b.operate(rt, 90.0, 0x4e)?;
    b.fault_tick(rt, 50.0, 0x80)?;
    b.tick(rt, 50.0, 0x80)?;
    b.fault_tick(rt, 50.0, 0x80)
}

// A warm start keeps the value alone: alarms, filter, last usable value and operator's pair are forgotten.
fn warm_start(rt: &impl Print) -> io::Result<()> {
    println!(rt; "warm start")?;
    let mut b = fresh(identity());
    b.settings.hi_lim = 80.0;
    b.settings.pv_ftime = 1.5;
    b.tick(rt, 96.0, 0x80)?;
    b.operate(rt, 7.0, 0x80)?;
    b.warm(rt)?;
    b.warm(rt)?;
    b.tick(rt, 50.0, 0x0d)?;
    b.tick(rt, 79.75, 0x80)?;
    b.warm(rt)?;
    b.tick(rt, 16.0, 0x80)?;
    b.warm(rt)?;
    b.settings.fsafe_type = 2;
    b.tick_bits(rt, 0x7fc00000, 0x80)?;
    b.settings.target = blocks::MAN;
    b.tick(rt, 50.0, 0x80)?;
    b.operate(rt, 84.0, 0x80)?;
    b.tick(rt, 50.0, 0x80)?;
    b.warm(rt)?;
    b.fault_tick(rt, 50.0, 0x80)?;
    b.tick(rt, 50.0, 0x80)
}

fn table_of(bytes: &[u8]) -> Table {
    Table::try_from(bytes).unwrap_or_default()
}

// Pairs 0 0, 1 10, 4 70, 7 100.
fn weir() -> Table {
    table_of(
        b"\x00\x00\x00\x00\x00\x00\x00\x00\x3f\x80\x00\x00\x41\x20\x00\x00\x40\x80\x00\x00\x42\x8c\x00\x00\x40\xe0\x00\x00\x42\xc8\x00\x00",
    )
}

// Pairs 0 0, 2 100.
fn line() -> Table {
    table_of(b"\x00\x00\x00\x00\x00\x00\x00\x00\x40\x00\x00\x00\x42\xc8\x00\x00")
}

// Pairs 0 -3e38, 2 3e38, whose span of y overflows.
fn wide() -> Table {
    table_of(b"\x00\x00\x00\x00\xff\x61\xb1\xe6\x40\x00\x00\x00\x7f\x61\xb1\xe6")
}

// LIN_TYPE 0 leaves a loaded table unused. LIN_TYPE 1: 1.9 gives 28, an inner x its y; below the first x and from the last one on
// the end's y. Linearised first and then scaled, in an unusable tick too: 112 by scales 0, 50 and 0, 200, and not 100.
fn by_table(rt: &impl Print) -> io::Result<()> {
    println!(rt; "LIN_TYPE")?;
    let mut b = fresh(defaults());
    b.table = weir();
    b.tick_bits(rt, 0x3ff33333, 0x80)?;
    b.settings.lin_type = 1;
    b.tick_bits(rt, 0x3ff33333, 0x80)?;
    b.tick_bits(rt, 0x40800000, 0x80)?;
    b.tick_bits(rt, 0xbf800000, 0x80)?;
    b.tick_bits(rt, 0x40e00000, 0x80)?;
    b.tick_bits(rt, 0x447a0000, 0x80)?;
    b.settings.pv_scale = scale(0.0, 50.0);
    b.settings.out_scale = scale(0.0, 200.0);
    b.tick_bits(rt, 0x3ff33333, 0x80)?;
    b.tick_bits(rt, 0x40800000, 0x4c)?;
    b.settings.fsafe_type = 2;
    b.tick_bits(rt, 0x3ff33333, 0x0d)
}

// LIN_TYPE 1 in unusable ticks, under type 2: Bad and Good Cascade inputs are linearised (28, 70). A value that is not finite is not,
// -infinity is not below the first x, and the cause stays 0x10. A line that overflows, and one that gives a NaN at its own pair
// (0 times infinity), count as 0x04 with the old OUT, and under type 1 with the last usable value (80). The last pair's y overflows
// nowhere.
fn by_table_unusable(rt: &impl Print) -> io::Result<()> {
    println!(rt; "LIN_TYPE and unusable ticks")?;
    let mut b = fresh(defaults());
    b.settings.lin_type = 1;
    b.settings.fsafe_type = 2;
    b.table = weir();
    b.tick_bits(rt, 0x3ff33333, 0x0d)?;
    b.tick_bits(rt, 0x40800000, 0xc3)?;
    b.tick_bits(rt, 0x7fc00000, 0x80)?;
    b.tick_bits(rt, 0x7f800000, 0x80)?;
    b.tick_bits(rt, 0xff800000, 0x40)?;
    b.tick_bits(rt, 0xff800000, 0x0d)?;
    b.table = wide();
    b.tick_bits(rt, 0x3f800000, 0x80)?;
    b.tick_bits(rt, 0x00000000, 0x80)?;
    b.tick_bits(rt, 0x3f800000, 0x0d)?;
    b.table = weir();
    b.tick_bits(rt, 0x40a00000, 0x80)?;
    b.settings.fsafe_type = 1;
    b.table = wide();
    b.tick_bits(rt, 0x3f800000, 0x80)?;
    b.settings = identity();
    b.settings.lin_type = 1;
    b.tick_bits(rt, 0x40000000, 0x80)
}

// The filter value is a PV, and stays over another table (28 and 50 give 39) and over LIN_TYPE 0 (39 and 1 give 20).
fn by_table_filtered(rt: &impl Print) -> io::Result<()> {
    println!(rt; "LIN_TYPE and filter")?;
    let mut b = fresh(identity());
    b.settings.lin_type = 1;
    b.settings.pv_ftime = 0.1;
    b.table = weir();
    b.tick_bits(rt, 0x3ff33333, 0x80)?;
    b.table = line();
    b.tick_bits(rt, 0x3f800000, 0x80)?;
    b.settings.lin_type = 0;
    b.tick_bits(rt, 0x3f800000, 0x80)
}

// Alarms go by the linearised value: 80 rises, 79.53125 keeps, 79.375 falls; 5 is low; another table, and 87.5 is high again.
fn by_table_alarms(rt: &impl Print) -> io::Result<()> {
    println!(rt; "LIN_TYPE and alarms")?;
    let mut b = fresh(identity());
    b.settings.lin_type = 1;
    b.settings.hi_lim = 80.0;
    b.settings.lo_lim = 5.0;
    b.table = weir();
    b.tick_bits(rt, 0x40a00000, 0x80)?;
    b.tick_bits(rt, 0x409e8000, 0x80)?;
    b.tick_bits(rt, 0x409e0000, 0x80)?;
    b.tick_bits(rt, 0x3f000000, 0x80)?;
    b.table = line();
    b.tick_bits(rt, 0x3fe00000, 0x80)
}

fn main(rt: HostRuntime) -> io::Result<()> {
    points(&rt)?;
    rounding(&rt)?;
    scales(&rt)?;
    zeros(&rt)?;
    overflowing_spans(&rt)?;
    overflowing_filter(&rt)?;
    input_status(&rt)?;
    by_value(&rt)?;
    by_last_value(&rt)?;
    by_scaled_value(&rt)?;
    hysteresis(&rt)?;
    infinities(&rt)?;
    status_order(&rt)?;
    rewritten_limits(&rt)?;
    shown_alarms(&rt)?;
    filter(&rt)?;
    man(&rt)?;
    out_of_service(&rt)?;
    warm_start(&rt)?;
    by_table(&rt)?;
    by_table_unusable(&rt)?;
    by_table_filtered(&rt)?;
    by_table_alarms(&rt)
}
