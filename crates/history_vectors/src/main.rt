// Lists of calls as bytes, replayed from the factory device, and what reads give after them, worked by hand from document 01 and from
// document 02, requests 1 to 3.
// A line each: the list's name and `passed`, or what differs from the paper. What it would catch: a call read at the
// wrong place or with its words in another order, a refused call that counts, a malformed list of which a part counts.
#![tactic(auto)]

use arrayvec::{ArrayVec, CapacityError};
use blocks::setpoint::Order;
use device::{Device, Fed};
use numbers::floats::bits_of;
use parameters::Words;
use std::io;
use wire::{Discrete, Pair, Refusal};

// ---- lists of calls

#[derive(Clone, Copy)]
enum Call<'a> {
    WarmStart,
    // A fault byte, and what the tick is fed.
    Tick(u8, Fed),
    Write(u8, u8, u32, u32),
    // An input, and bytes behind what is said to be their length; a load likewise.
    Telegram(u8, u64, &'a [u8]),
    Load(u64, &'a [u8]),
    // A byte that begins no call.
    Other(u8),
}

use Call::{Load, Other, Telegram, Tick, WarmStart, Write};

fn good(bits: u32) -> Pair {
    Pair { bits, status: 0x80 }
}

fn contact(value: u8, status: u8) -> Discrete {
    Discrete { value, status }
}

// What a tick is fed: 0 of all, Good.
fn zeros() -> Fed {
    Fed {
        ain: good(0),
        tot: good(0),
        di: contact(0, 0x80),
    }
}

// Ticks without a fault, with a Good value of AIN, rate of TOT and a pair of DI, the others 0 and Good.
fn tick(bits: u32) -> Call<'static> {
    Tick(0, fed_ain(bits))
}

fn tick_rate(bits: u32) -> Call<'static> {
    Tick(0, fed_rate(good(bits)))
}

fn tick_contact(value: u8, status: u8) -> Call<'static> {
    Tick(
        0,
        Fed {
            di: contact(value, status),
            ..zeros()
        },
    )
}

fn fed_ain(bits: u32) -> Fed {
    Fed {
        ain: good(bits),
        ..zeros()
    }
}

fn fed_rate(tot: Pair) -> Fed {
    Fed { tot, ..zeros() }
}

fn telegram(input: u8, bytes: &[u8]) -> Call<'_> {
    Telegram(input, bytes.len() as u64, bytes)
}

fn load(bytes: &[u8]) -> Call<'_> {
    Load(bytes.len() as u64, bytes)
}

// (0, 0) and (1, 10); with them (4, 70) and (7, 100); and (1, 0) and (0, 0), whose x fall.
const SLOPE: &[u8] = b"\x00\x00\x00\x00\x00\x00\x00\x00\x3f\x80\x00\x00\x41\x20\x00\x00";

const WEIR: &[u8] =
    b"\x00\x00\x00\x00\x00\x00\x00\x00\x3f\x80\x00\x00\x41\x20\x00\x00\x40\x80\x00\x00\x42\x8c\x00\x00\x40\xe0\x00\x00\x42\xc8\x00\x00";

const FALLING: &[u8] = b"\x3f\x80\x00\x00\x00\x00\x00\x00\x00\x00\x00\x00\x00\x00\x00\x00";

// 50 on SP, Good.
const SP_50: Call<'static> = Telegram(0, 5, b"\x42\x48\x00\x00\x80");

// A list as bytes. None here is longer.
type List = ArrayVec<u8, 256>;

fn put(list: &mut List, call: Call<'_>) -> Result<(), CapacityError> {
    match call {
        WarmStart => list.try_extend_from_slice(&[0]),
        Tick(fault, fed) => {
            list.try_extend_from_slice(&[1, fault])?;
            list.try_extend_from_slice(&fed.ain.to_bytes())?;
            list.try_extend_from_slice(&fed.tot.to_bytes())?;
            list.try_extend_from_slice(&fed.di.to_bytes())
        }
        Write(block, parameter, a, b) => {
            list.try_extend_from_slice(&[2, block, parameter])?;
            list.try_extend_from_slice(&a.to_be_bytes())?;
            list.try_extend_from_slice(&b.to_be_bytes())
        }
        Telegram(input, length, bytes) => {
            list.try_extend_from_slice(&[3, input])?;
            list.try_extend_from_slice(&length.to_be_bytes())?;
            list.try_extend_from_slice(bytes)
        }
        Load(length, bytes) => {
            list.try_extend_from_slice(&[4])?;
            list.try_extend_from_slice(&length.to_be_bytes())?;
            list.try_extend_from_slice(bytes)
        }
        Other(kind) => list.try_extend_from_slice(&[kind]),
    }
}

fn list_of(calls: &[Call<'_>]) -> io::Result<List> {
    let mut list = List::new();
    for call in calls {
        put(&mut list, *call).map_err(|_| io::Error::from(io::ErrorKind::WriteZero))?;
    }
    Ok(list)
}

// ---- what is asked after a list

// A block, a parameter, and the two words that the paper says it reads.
type Read = (u8, u8, u32, u32);

// Outputs and actual modes of a device that has not ticked yet: O/S, 0 with 0x1F.
const STARTED: &[Read] = &[
    (1, 6, 0x80, 0),
    (1, 10, 0, 0x1f),
    (2, 6, 0x80, 0),
    (2, 10, 0, 0x1f),
    (3, 6, 0x80, 0),
    (3, 37, 0, 0x1f),
    (4, 6, 0x80, 0),
    (4, 10, 0, 0x1f),
    (5, 6, 0x80, 0),
    (5, 10, 0, 0x1f),
];

// The defaults in brackets, ST_REVs and alarms 0; what AIN has of them.
const AIN: &[Read] = &[
    (1, 1, 0, 0),
    (1, 5, 0x08, 0),
    (1, 7, 0, 0),
    (1, 11, 0, 0x42c8_0000),
    (1, 12, 0, 0x42c8_0000),
    (1, 13, 0, 0),
    (1, 16, 0, 0),
    (1, 17, 1, 0),
    (1, 18, 0, 0),
    (1, 19, 0x3f00_0000, 0),
    (1, 21, 0x7f80_0000, 0),
    (1, 23, 0x7f80_0000, 0),
    (1, 25, 0xff80_0000, 0),
    (1, 27, 0xff80_0000, 0),
];

// What the other blocks have.
const OTHERS: &[Read] = &[
    (0, 18, 2457, 0),
    (2, 1, 0, 0),
    (2, 5, 0x08, 0),
    (2, 13, 0, 0),
    (2, 14, 0, 0),
    (2, 15, 0, 0),
    (2, 16, 0, 0),
    (3, 1, 0, 0),
    (3, 5, 0x08, 0),
    (3, 11, 0, 0x42c8_0000),
    (3, 23, 0, 0),
    (3, 24, 1, 0),
    (3, 25, 0, 0),
    (3, 36, 0, 0),
    (3, 38, 0, 0x42c8_0000),
    (4, 1, 0, 0),
    (4, 5, 0x08, 0),
    (4, 15, 0, 0),
    (4, 20, 0, 0),
    (4, 21, 0, 0),
    (5, 1, 0, 0),
    (5, 5, 0x08, 0),
    (5, 15, 0, 0),
    (5, 20, 0, 0),
    (5, 21, 0, 0),
    (5, 22, 0, 0),
];

// Whether a read gave what the paper says; one that did not is told.
fn agrees(rt: &HostRuntime, want: Read, given: Result<Words, Refusal>) -> io::Result<bool> {
    let (block, parameter, a, b) = want;
    match given {
        Ok(w) if w.first == a && w.second == b => return Ok(true),
        Ok(w) => print!(rt;
            " {block}, {parameter} reads {:08x} {:08x}, not {a:08x} {b:08x};",
            w.first, w.second
        )?,
        Err(_) => print!(rt; " {block}, {parameter} reads no words;")?,
    }
    Ok(false)
}

fn reads(rt: &HostRuntime, device: &Device, wanted: &[Read]) -> io::Result<bool> {
    let mut all = true;
    for want in wanted {
        let (block, parameter, ..) = *want;
        all &= agrees(rt, *want, device.read(block, parameter))?;
    }
    Ok(all)
}

// What is read after a list of bytes.
fn reads_after(rt: &HostRuntime, calls: &[u8], wanted: &[Read]) -> io::Result<bool> {
    let mut all = true;
    for want in wanted {
        let (block, parameter, ..) = *want;
        all &= agrees(rt, *want, history::read_after(calls, block, parameter))?;
    }
    Ok(all)
}

// Ends a line.
fn end(rt: &HostRuntime, passed: bool) -> io::Result<()> {
    println!(rt; "{}", if passed { " passed" } else { "" })
}

fn passes(rt: &HostRuntime, name: &str, passed: bool) -> io::Result<()> {
    print!(rt; "{name}:")?;
    end(rt, passed)
}

// What reads give after a list.
fn list(rt: &HostRuntime, name: &str, calls: &[Call<'_>], wanted: &[Read]) -> io::Result<()> {
    lists(rt, name, calls, &[wanted])
}

fn lists(rt: &HostRuntime, name: &str, calls: &[Call<'_>], wanted: &[&[Read]]) -> io::Result<()> {
    print!(rt; "{name}:")?;
    let Some(device) = history::replay(list_of(calls)?.as_slice()) else {
        return println!(rt; " told malformed;");
    };
    let mut passed = true;
    for part in wanted {
        passed &= reads(rt, &device, *part)?;
    }
    end(rt, passed)
}

// A malformed list, the last bytes of its calls left out. Nothing of it counts: what is read after it is the factory device's.
fn malformed(rt: &HostRuntime, name: &str, calls: &[Call<'_>], left_out: usize) -> io::Result<()> {
    let list = list_of(calls)?;
    let bytes = list.as_slice();
    let front = bytes.get(..bytes.len().saturating_sub(left_out));
    let front = front.unwrap_or(bytes);
    print!(rt; "{name}:")?;
    let mut passed = history::replay(front).is_none();
    for part in [STARTED, AIN, OTHERS] {
        passed &= reads_after(rt, front, part)?;
    }
    end(rt, passed)
}

// ---- lists

fn empty(rt: &HostRuntime) -> io::Result<()> {
    lists(rt, "the empty list", &[], &[STARTED, AIN, OTHERS])?;
    lists(
        rt,
        "a warm start alone",
        &[WarmStart],
        &[STARTED, AIN, OTHERS],
    )
}

// (12 - 4) / (20 - 4) = 0.5, and 0.5 * 100 + 0 = 50. AO has no telegram: type 1 without a value, old OUT 0 with 4C.
fn point_b(rt: &HostRuntime) -> io::Result<()> {
    list(
        rt,
        "point B",
        &[Write(1, 11, 0x4080_0000, 0x41a0_0000), tick(0x4140_0000)],
        &[
            (1, 10, 0x4248_0000, 0x80),
            (1, 6, 0x08, 0),
            (1, 1, 1, 0),
            (1, 11, 0x4080_0000, 0x41a0_0000),
            (1, 12, 0, 0x42c8_0000),
            (2, 10, 0, 0x80),
            (3, 37, 0, 0x4c),
        ],
    )
}

// Ground 6: the target is Auto. The pair is not kept, so a Man tick gives what was last given, 0 with 1F.
fn write_refused(rt: &HostRuntime) -> io::Result<()> {
    let calls = [
        Write(1, 10, 0x4120_0000, 0x80),
        Write(1, 5, 0x10, 0),
        tick(0x4248_0000),
    ];
    lists(rt, "a refused write", &calls[..1], &[STARTED, AIN, OTHERS])?;
    list(
        rt,
        "a refused write, then Man",
        &calls,
        &[(1, 10, 0, 0x1f), (1, 1, 1, 0)],
    )
}

// The same write with the target Man; OUT shows it after the tick. The target is S and OUT is not, so ST_REV is 1.
fn write_accepted(rt: &HostRuntime) -> io::Result<()> {
    let calls = [
        Write(1, 5, 0x10, 0),
        Write(1, 10, 0x4120_0000, 0x80),
        tick(0x4248_0000),
    ];
    lists(
        rt,
        "an accepted write of OUT",
        &calls[..2],
        &[&[(1, 5, 0x10, 0), (1, 1, 1, 0)], STARTED],
    )?;
    list(
        rt,
        "Man with the operator's pair",
        &calls,
        &[(1, 6, 0x10, 0), (1, 10, 0x4120_0000, 0x80)],
    )
}

// AO's pair 25, 83; TOT's 12.5 is a total of 12,500 with 84.
fn operator_of_others(rt: &HostRuntime) -> io::Result<()> {
    list(
        rt,
        "Man in AO and TOT",
        &[
            Write(3, 5, 0x10, 0),
            Write(3, 37, 0x41c8_0000, 0x83),
            Write(2, 5, 0x10, 0),
            Write(2, 10, 0x4148_0000, 0x84),
            tick_rate(0x4120_0000),
        ],
        &[
            (3, 37, 0x41c8_0000, 0x83),
            (2, 10, 0x4148_0000, 0x84),
            (3, 1, 1, 0),
            (2, 1, 1, 0),
        ],
    )
}

// Into Man at 50: it stands while the input is 25. Out and in again without a tick: still 50, not the 70 that was written.
// Man over Man leaves what was written, and counts: three changes of the target and one write of Man over Man are 4.
fn man_entered(rt: &HostRuntime) -> io::Result<()> {
    let calls = [
        tick(0x4248_0000),
        Write(1, 5, 0x10, 0),
        tick(0x41c8_0000),
        Write(1, 10, 0x428c_0000, 0x81),
        Write(1, 5, 0x08, 0),
        Write(1, 5, 0x10, 0),
        tick(0x41c8_0000),
    ];
    list(
        rt,
        "into Man",
        &calls[..3],
        &[(1, 6, 0x10, 0), (1, 10, 0x4248_0000, 0x80)],
    )?;
    list(
        rt,
        "out of Man and in again",
        &calls,
        &[(1, 10, 0x4248_0000, 0x80)],
    )?;
    let [a, b, c, d, e, f, g] = calls;
    list(
        rt,
        "Man over Man",
        &[a, b, c, d, e, f, d, f, g],
        &[(1, 10, 0x428c_0000, 0x81), (1, 1, 4, 0)],
    )
}

// After a tick with the fault flag what was last given is 50 with 1F. A warm start leaves the fresh pair, 0 with 4C.
fn man_entered_held(rt: &HostRuntime) -> io::Result<()> {
    let calls = [
        tick(0x4248_0000),
        Tick(1, fed_ain(0x41c8_0000)),
        Write(1, 5, 0x10, 0),
        tick(0x41c8_0000),
        WarmStart,
        tick(0x41c8_0000),
    ];
    list(
        rt,
        "into Man after a fault",
        &calls[..4],
        &[(1, 10, 0x4248_0000, 0x1f)],
    )?;
    list(rt, "a warm start in Man", &calls, &[(1, 10, 0, 0x4c)])
}

// AO at 50 falls silent: under FSAFE_TYPE 2 it is Safe, 50 with 00. Man orders Position 50, still with 00. TOT takes nothing: 0.1, 4C.
fn man_entered_by_others(rt: &HostRuntime) -> io::Result<()> {
    let calls = [
        Write(3, 24, 2, 0),
        SP_50,
        tick_rate(0x3f80_0000),
        Write(2, 5, 0x10, 0),
        tick(0),
        Write(3, 5, 0x10, 0),
        tick(0),
    ];
    list(
        rt,
        "Safe",
        &calls[..5],
        &[(2, 10, 0x3dcc_cccd, 0x4c), (3, 37, 0x4248_0000, 0x00)],
    )?;
    orders_50(rt, "the order on entering Man from Safe", &calls[..6])?;
    list(
        rt,
        "into Man from Safe",
        &calls,
        &[(3, 37, 0x4248_0000, 0x00)],
    )
}

// Locked, a write of Man over Man is refused and takes nothing: 70 with 81 as written, and not the 0 last given.
fn man_refused(rt: &HostRuntime) -> io::Result<()> {
    list(
        rt,
        "a refused write of Man",
        &[
            Write(1, 5, 0x10, 0),
            Write(1, 10, 0x428c_0000, 0x81),
            Write(0, 18, 0, 0),
            Write(1, 5, 0x10, 0),
            tick(0x41c8_0000),
        ],
        &[(1, 1, 1, 0), (1, 10, 0x428c_0000, 0x81)],
    )
}

// 0, 18 := 0 is accepted, the next write meets ground 4.
fn locked(rt: &HostRuntime) -> io::Result<()> {
    lists(
        rt,
        "locked",
        &[Write(0, 18, 0, 0), Write(1, 5, 0x10, 0)],
        &[&[(0, 18, 0, 0)], AIN, STARTED],
    )
}

// SP 50 with both scales 0, 100 is 50, and with OUT_SCALE 0, 200 it is 100.
fn setpoint(rt: &HostRuntime) -> io::Result<()> {
    let calls = [
        SP_50,
        tick(0),
        Write(3, 38, 0, 0x4348_0000),
        telegram(0, b"\x42\x48\x00\x00\xc0"),
        tick(0),
    ];
    list(
        rt,
        "a telegram on SP",
        &calls[..2],
        &[(3, 6, 0x08, 0), (3, 37, 0x4248_0000, 0x80)],
    )?;
    list(
        rt,
        "a second telegram, OUT_SCALE 0, 200",
        &calls,
        &[(3, 1, 1, 0), (3, 37, 0x42c8_0000, 0x80)],
    )
}

// RCAS_IN 25 counts in RCas; SP 50 does not.
fn remote(rt: &HostRuntime) -> io::Result<()> {
    list(
        rt,
        "a telegram on RCAS_IN",
        &[
            SP_50,
            telegram(1, b"\x41\xc8\x00\x00\xc0"),
            Write(3, 5, 0x02, 0),
            tick(0),
        ],
        &[(3, 6, 0x02, 0), (3, 37, 0x41c8_0000, 0x80)],
    )
}

// Grounds 7 and 8. The calls after a refused telegram are still found: the tick gives old OUT 0 with 4C. What was accepted
// before still counts: OUT 50.
fn telegrams_refused(rt: &HostRuntime) -> io::Result<()> {
    let refused = [
        ("a telegram of 4 bytes", telegram(0, b"\x42\x48\x00\x00")),
        (
            "a telegram of 6 bytes",
            telegram(0, b"\x42\x48\x00\x00\x80\x00"),
        ),
        ("a telegram of no bytes", telegram(0, b"")),
        (
            "five bytes on input 2",
            telegram(2, b"\x42\x48\x00\x00\x80"),
        ),
        (
            "a telegram on input 4",
            telegram(4, b"\x42\x48\x00\x00\x80"),
        ),
    ];
    for (name, call) in refused {
        list(
            rt,
            name,
            &[call, tick(0x4248_0000)],
            &[(1, 10, 0x4248_0000, 0x80), (3, 37, 0, 0x4c)],
        )?;
    }
    list(
        rt,
        "refused telegrams after an accepted one",
        &[
            SP_50,
            telegram(0, b"\x41\xc8\x00\x00"),
            telegram(2, b"\x41\xc8\x00\x00\x80"),
            tick(0),
        ],
        &[(3, 37, 0x4248_0000, 0x80)],
    )
}

// Rate 10 adds 1000 in a tick: 1, then 2. Rate 0.015625 adds 1.5625 cut to 1, and its negative -1: 0.002 and -0.001.
fn totals(rt: &HostRuntime) -> io::Result<()> {
    list(
        rt,
        "a total after two ticks",
        &[tick_rate(0x4120_0000), tick_rate(0x4120_0000)],
        &[(2, 6, 0x08, 0), (2, 10, 0x4000_0000, 0x80)],
    )?;
    list(
        rt,
        "point E twice",
        &[tick_rate(0x3c80_0000), tick_rate(0x3c80_0000)],
        &[(2, 10, 0x3b03_126f, 0x80)],
    )?;
    list(
        rt,
        "point F",
        &[tick_rate(0xbc80_0000)],
        &[(2, 10, 0xba83_126f, 0x80)],
    )
}

// A warm start keeps the total and forgets the last usable rate: memory then adds nothing and gives 4C. OUT's status is 1F
// until then.
fn total_kept(rt: &HostRuntime) -> io::Result<()> {
    let bad = Pair {
        bits: 0x4120_0000,
        status: 0x00,
    };
    let calls = [
        Write(2, 15, 2, 0),
        tick_rate(0x4120_0000),
        WarmStart,
        Tick(0, fed_rate(bad)),
    ];
    list(
        rt,
        "a total and a warm start",
        &calls[..3],
        &[(2, 15, 2, 0), (2, 6, 0x80, 0), (2, 10, 0x3f80_0000, 0x1f)],
    )?;
    list(rt, "then a Bad rate", &calls, &[(2, 10, 0x3f80_0000, 0x4c)])
}

// Point D, both scales 0, 64: 80 raises HI, 79.5 keeps it, 79.25 clears it.
fn alarm(rt: &HostRuntime) -> io::Result<()> {
    let calls = [
        Write(1, 11, 0, 0x4280_0000),
        Write(1, 12, 0, 0x4280_0000),
        Write(1, 23, 0x42a0_0000, 0),
        tick(0x42a0_0000),
        tick(0x429f_0000),
        tick(0x429e_8000),
    ];
    list(
        rt,
        "an alarm rises",
        &calls[..4],
        &[(1, 7, 2, 0), (1, 1, 3, 0), (1, 10, 0x42a0_0000, 0x8a)],
    )?;
    list(
        rt,
        "it stays",
        &calls[..5],
        &[(1, 7, 2, 0), (1, 10, 0x429f_0000, 0x8a)],
    )?;
    list(
        rt,
        "it falls",
        &calls,
        &[(1, 7, 0, 0), (1, 10, 0x429e_8000, 0x80)],
    )?;
    let [a, b, c, raised, _, _] = calls;
    list(
        rt,
        "a warm start forgets it",
        &[a, b, c, raised, WarmStart],
        &[
            (1, 7, 0, 0),
            (1, 23, 0x42a0_0000, 0),
            (1, 10, 0x42a0_0000, 0x1f),
        ],
    )
}

// Equal values count. SET_TOT is N, and a refused write (ground 5) counts for nothing.
fn revisions(rt: &HostRuntime) -> io::Result<()> {
    list(
        rt,
        "ST_REV after two S writes",
        &[
            Write(1, 16, 0x3fc0_0000, 0),
            Write(1, 16, 0x3fc0_0000, 0),
            Write(1, 5, 0x02, 0),
            Write(2, 13, 1, 0),
        ],
        &[
            (1, 1, 2, 0),
            (1, 16, 0x3fc0_0000, 0),
            (1, 5, 0x08, 0),
            (2, 1, 0, 0),
            (2, 13, 1, 0),
        ],
    )
}

// A tick with the fault flag is O/S: the values stay, with 1F.
fn faulty(rt: &HostRuntime) -> io::Result<()> {
    list(
        rt,
        "a tick with a fault",
        &[
            tick(0x4248_0000),
            Tick(
                1,
                Fed {
                    tot: good(0x4120_0000),
                    ..fed_ain(0x41c8_0000)
                },
            ),
        ],
        &[
            (1, 6, 0x80, 0),
            (1, 10, 0x4248_0000, 0x1f),
            (2, 10, 0, 0x1f),
            (3, 37, 0, 0x1f),
        ],
    )
}

// A closed contact, Good with its limits; then 7: no value, FSAFE_VAL_D 0 with 48. Type 1 holds the 1, type 2 keeps old OUT_D under
// 04. INVERT turns what comes and leaves FSAFE_VAL_D.
fn contacts(rt: &HostRuntime) -> io::Result<()> {
    let closed = tick_contact(1, 0x83);
    let seven = tick_contact(7, 0x80);
    let (inverted, one) = (Write(4, 15, 1, 0), Write(4, 21, 1, 0));
    list(
        rt,
        "a contact",
        &[closed],
        &[(4, 6, 0x08, 0), (4, 10, 1, 0x83)],
    )?;
    list(rt, "then 7", &[closed, seven], &[(4, 10, 0, 0x48)])?;
    list(
        rt,
        "7 under type 1",
        &[closed, Write(4, 20, 1, 0), seven],
        &[(4, 10, 1, 0x44)],
    )?;
    list(
        rt,
        "7 under type 2",
        &[closed, Write(4, 20, 2, 0), seven],
        &[(4, 10, 1, 0x04)],
    )?;
    list(
        rt,
        "INVERT 1",
        &[closed, inverted, one, tick_contact(1, 0x80)],
        &[(4, 10, 0, 0x80)],
    )?;
    list(
        rt,
        "INVERT 1, a Bad input",
        &[closed, inverted, one, tick_contact(1, 0x0d)],
        &[(4, 1, 2, 0), (4, 10, 1, 0x48)],
    )
}

// Fresh, DO goes to FSAFE_VAL_D. SP_D 1 is followed for the tick after it under FSAFE_TIME 0, and then not. 05 80 is nothing; 05 A0 is
// IFS. INVERT turns FSAFE_VAL_D too. In RCas SP_D does not count.
fn sluice(rt: &HostRuntime) -> io::Result<()> {
    let sp_1 = telegram(2, b"\x01\x80");
    let in_rcas = Write(5, 5, 0x02, 0);
    list(
        rt,
        "a sluice without a telegram",
        &[tick(0)],
        &[(5, 10, 0, 0x48)],
    )?;
    list(rt, "SP_D 1", &[sp_1, tick(0)], &[(5, 10, 1, 0x80)])?;
    list(
        rt,
        "a tick later",
        &[sp_1, tick(0), tick(0)],
        &[(5, 10, 0, 0x48)],
    )?;
    list(
        rt,
        "then 05 80",
        &[sp_1, telegram(2, b"\x05\x80"), tick(0)],
        &[(5, 10, 1, 0x80)],
    )?;
    list(
        rt,
        "then 05 A0, INVERT 1",
        &[sp_1, telegram(2, b"\x05\xa0"), Write(5, 15, 1, 0), tick(0)],
        &[(5, 10, 1, 0x48)],
    )?;
    list(
        rt,
        "SP_D 1 in RCas",
        &[sp_1, in_rcas, tick(0)],
        &[(5, 10, 0, 0x48)],
    )?;
    list(
        rt,
        "RCAS_IN_D 1 in RCas",
        &[sp_1, in_rcas, telegram(3, b"\x01\xc0"), tick(0)],
        &[(5, 6, 0x02, 0), (5, 10, 1, 0x80)],
    )
}

// Into Man at 1 the sluice stands, and so does the contact; INVERT has no part in it.
fn man_entered_discrete(rt: &HostRuntime) -> io::Result<()> {
    let calls = [
        telegram(2, b"\x01\x80"),
        tick_contact(1, 0x81),
        Write(4, 5, 0x10, 0),
        Write(5, 5, 0x10, 0),
        Write(5, 15, 1, 0),
        tick_contact(0, 0x80),
        Write(5, 10, 0, 0xc3),
        tick_contact(0, 0x80),
    ];
    list(
        rt,
        "Man entered in DI and DO",
        &calls[..6],
        &[(4, 10, 1, 0x81), (5, 10, 1, 0x80)],
    )?;
    list(rt, "OUT_D written", &calls, &[(5, 10, 0, 0xc3)])
}

// ---- answers after a list

fn numbered(
    rt: &HostRuntime,
    name: &str,
    answer: Result<(), Refusal>,
    number: u8,
) -> io::Result<()> {
    match wire::answer_number(answer) {
        n if n == number => passes(rt, name, true),
        n => println!(rt; "{name}: {n}"),
    }
}

// Whether the next tick orders AO to 50.
fn orders_50(rt: &HostRuntime, name: &str, calls: &[Call<'_>]) -> io::Result<()> {
    let list = list_of(calls)?;
    let order = history::order_after(list.as_slice(), false, zeros());
    passes(
        rt,
        name,
        matches!(order, Order::Position(x) if bits_of(x) == 0x4248_0000),
    )
}

// After SP 50 a tick orders Position 50.
fn order_after(rt: &HostRuntime) -> io::Result<()> {
    let calls = [SP_50, telegram(2, b"\x01\x80")];
    orders_50(rt, "a tick's order after a telegram", &calls[..1])?;
    let list = list_of(&calls)?;
    let order = history::order_d_after(list.as_slice(), false, zeros());
    passes(
        rt,
        "DO's order after a telegram of two bytes",
        matches!(order, Order::Position(1)),
    )
}

fn words(first: u32, second: u32) -> Words {
    Words { first, second }
}

// Ground 6 fresh, and none once the target is Man. Four bytes are 7. OUT_D 2 is 5, before 6; block 6 is 1. Input 4 is 8, and three
// bytes on input 2 are 7.
fn answers_after(rt: &HostRuntime) -> io::Result<()> {
    let man = list_of(&[Write(1, 5, 0x10, 0)])?;
    for (name, list, block, parameter, a, number) in [
        (
            "a write of OUT, fresh",
            b"".as_slice(),
            1,
            10,
            0x4120_0000,
            6,
        ),
        (
            "a write of OUT, target Man",
            man.as_slice(),
            1,
            10,
            0x4120_0000,
            0,
        ),
    ] {
        let answer = history::write_after(list, block, parameter, words(a, 0x80));
        numbered(rt, name, answer, number)?;
    }
    let four = history::telegram_after(man.as_slice(), 1, b"\x42\x48\x00\x00");
    numbered(rt, "a telegram of 4 bytes after a list", four, 7)?;
    let two = history::write_after(b"", 4, 10, words(2, 0x80));
    numbered(rt, "a write of OUT_D 2, target Auto", two, 5)?;
    let one = history::write_after(b"", 5, 10, words(1, 0x80));
    numbered(rt, "a write of OUT_D 1, target Auto", one, 6)?;
    let six = history::write_after(b"", 6, 1, words(0, 0));
    numbered(rt, "a write to block 6", six, 1)?;
    let input = history::telegram_after(b"", 4, b"\x01\x80");
    numbered(rt, "a telegram on input 4 after a list", input, 8)?;
    let three = history::telegram_after(b"", 2, b"\x01\x80\x00");
    numbered(
        rt,
        "a telegram of 3 bytes on input 2 after a list",
        three,
        7,
    )
}

// An image of 18 bytes is 7; of 20 it has five bytes of AIN, of TOT and of AO and two of DI and of DO, fresh 0 with 1F, and its last
// byte as it was.
fn image_after(rt: &HostRuntime) -> io::Result<()> {
    let refused = history::image_after(b"", &mut [9; 18]);
    numbered(rt, "an image of 18 bytes", refused, 7)?;
    let mut room = [9; 20];
    let filled = history::image_after(b"", &mut room);
    numbered(rt, "an image of 20 bytes", filled, 0)?;
    passes(
        rt,
        "its bytes",
        room == [
            0, 0, 0, 0, 0x1f, 0, 0, 0, 0, 0x1f, 0, 0, 0, 0, 0x1f, 0, 0x1f, 0, 0x1f, 9,
        ],
    )
}

// A rate of 10 adds 1000, and ALARM_HYS is 0.5.
fn total_after(rt: &HostRuntime) -> io::Result<()> {
    let list = list_of(&[tick_rate(0x4120_0000)])?;
    let total = history::total_after(list.as_slice());
    passes(rt, "the total after a tick", total == 1000)?;
    let reading = history::read_after(list.as_slice(), 1, 19);
    passes(
        rt,
        "a read of 1, 19 after a list",
        matches!(reading, Ok(w) if w.first == 0x3f00_0000),
    )
}

// ---- tables

// LIN_TYPE 1 is refused before a load (5). The load counts once and LIN_TYPE once; the warm start leaves the table.
// 10 + ((1.9 - 1) * 60) / 3 = 28.
fn by_table(rt: &HostRuntime) -> io::Result<()> {
    list(
        rt,
        "a tick by a table",
        &[
            Write(1, 13, 1, 0),
            load(WEIR),
            Write(1, 13, 1, 0),
            WarmStart,
            tick(0x3ff3_3333),
        ],
        &[(1, 10, 0x41e0_0000, 0x80), (1, 13, 1, 0), (1, 1, 2, 0)],
    )
}

// By the last table: 0.5 is 5 by (0, 0) (1, 10). A load of 15 bytes, one of falling x and one under the lock leave it.
fn by_the_last_table(rt: &HostRuntime) -> io::Result<()> {
    list(
        rt,
        "refused loads leave the last table",
        &[
            load(WEIR),
            load(SLOPE),
            Write(1, 13, 1, 0),
            load(b"\x00\x00\x00\x00\x00\x00\x00\x00\x3f\x80\x00\x00\x41\x20\x00"),
            load(FALLING),
            Write(0, 18, 0, 0),
            load(WEIR),
            tick(0x3f00_0000),
        ],
        &[(1, 10, 0x40a0_0000, 0x80), (1, 1, 3, 0)],
    )
}

// Locked is 4, also of no byte; else no byte is 9, falling x 10, and the first table of a head 0.
fn loads_after(rt: &HostRuntime) -> io::Result<()> {
    let locked = list_of(&[Write(0, 18, 0, 0)])?;
    let locked = locked.as_slice();
    numbered(rt, "a load, fresh", history::load_after(b"", SLOPE), 0)?;
    numbered(
        rt,
        "a load of no byte, fresh",
        history::load_after(b"", b""),
        9,
    )?;
    numbered(
        rt,
        "a load of falling x, fresh",
        history::load_after(b"", FALLING),
        10,
    )?;
    numbered(
        rt,
        "a load of no byte, locked",
        history::load_after(locked, b""),
        4,
    )
}

// ---- malformed lists

fn no_such_kind(rt: &HostRuntime) -> io::Result<()> {
    malformed(rt, "malformed, kind 5", &[Other(5)], 0)?;
    malformed(rt, "malformed, kind 255", &[Other(255)], 0)
}

fn ticks_malformed(rt: &HostRuntime) -> io::Result<()> {
    let two = Tick(2, fed_ain(0x4248_0000));
    malformed(rt, "malformed, a tick with fault 2", &[two], 0)?;
    let calls = [tick(0x4248_0000)];
    malformed(rt, "malformed, a tick of 13 bytes", &calls, 1)?;
    malformed(rt, "malformed, a tick of 1 byte", &calls, 13)
}

fn writes_malformed(rt: &HostRuntime) -> io::Result<()> {
    let calls = [Write(1, 5, 0x10, 0)];
    malformed(rt, "malformed, a write of 10 bytes", &calls, 1)?;
    malformed(rt, "malformed, a write of 1 byte", &calls, 10)
}

// The length says more bytes than there are: by one, by its high word, by all that two words can say.
fn telegrams_malformed(rt: &HostRuntime) -> io::Result<()> {
    let bytes = b"\x42\x48\x00\x00\x80";
    for (name, call, left_out) in [
        (
            "malformed, a telegram of 5 with 4 bytes",
            telegram(0, bytes),
            1,
        ),
        (
            "malformed, a length with its high word set",
            Telegram(0, 0x1_0000_0005, bytes),
            0,
        ),
        (
            "malformed, the greatest length",
            Telegram(0, u64::MAX, bytes),
            0,
        ),
        (
            "malformed, a telegram of 9 bytes, cut in its length",
            telegram(0, b""),
            1,
        ),
    ] {
        malformed(rt, name, &[call], left_out)?;
    }
    Ok(())
}

// A load with a byte less than its length, and one of 8 bytes, cut in its length.
fn loads_malformed(rt: &HostRuntime) -> io::Result<()> {
    let calls = [load(b"\x42\x48\x00\x00\x80")];
    malformed(rt, "malformed, a load of 5 with 4 bytes", &calls, 1)?;
    malformed(
        rt,
        "malformed, a load of 8 bytes, cut in its length",
        &calls,
        6,
    )
}

// What stands before a malformed call does not count, nor what stands after it.
fn good_then_malformed(rt: &HostRuntime) -> io::Result<()> {
    let calls = [Write(1, 5, 0x10, 0), tick(0x4248_0000), Other(5), WarmStart];
    malformed(rt, "malformed after a write and a tick", &calls[..3], 0)?;
    malformed(rt, "malformed between good calls", &calls, 0)
}

fn main(rt: HostRuntime) -> io::Result<()> {
    empty(&rt)?;
    point_b(&rt)?;
    write_refused(&rt)?;
    write_accepted(&rt)?;
    operator_of_others(&rt)?;
    man_entered(&rt)?;
    man_entered_held(&rt)?;
    man_entered_by_others(&rt)?;
    man_refused(&rt)?;
    locked(&rt)?;
    setpoint(&rt)?;
    remote(&rt)?;
    telegrams_refused(&rt)?;
    totals(&rt)?;
    total_kept(&rt)?;
    alarm(&rt)?;
    revisions(&rt)?;
    faulty(&rt)?;
    contacts(&rt)?;
    sluice(&rt)?;
    man_entered_discrete(&rt)?;
    order_after(&rt)?;
    answers_after(&rt)?;
    image_after(&rt)?;
    total_after(&rt)?;
    by_table(&rt)?;
    by_the_last_table(&rt)?;
    loads_after(&rt)?;
    no_such_kind(&rt)?;
    ticks_malformed(&rt)?;
    writes_malformed(&rt)?;
    telegrams_malformed(&rt)?;
    loads_malformed(&rt)?;
    good_then_malformed(&rt)
}
