// Devices packed and unpacked. The file `stdout` has what the packed form's description in `packing` and paper 01 make of
// them, worked out apart from this code. It would show a field left out, packed twice or at another place, a byte order
// turned round, a total or a NaN with other bits, a byte written after the 564, and bytes unpacked that are no device.
#![tactic(auto)]

use device::{Device, Fed};
use linearisation::Point;
use parameters::Words;
use std::io;
use wire::{Discrete, Pair, Refusal};

// ---- a packed device

fn show_answer(rt: &impl Print, answer: Result<(), Refusal>) -> io::Result<()> {
    print!(rt; "{}", wire::answer_number(answer))
}

// Bytes, each word after a space.
fn show_words(rt: &impl Print, bytes: &[u8]) -> io::Result<()> {
    for word in bytes.chunks(4) {
        print!(rt; " ")?;
        for byte in word {
            print!(rt; "{byte:02x}")?;
        }
    }
    println!(rt)
}

// A line for each struct of the device, and the byte after them.
fn show_structs(rt: &impl Print, bytes: &[u8]) -> io::Result<()> {
    let mut left = bytes;
    for (name, words) in [
        ("  version, WRITE_LOCKING", 2),
        ("  AIN settings", 14),
        ("  AIN state", 13),
        ("  AIN ST_REV", 1),
        ("  AIN table, count", 1),
        ("  pairs 1 to 7", 14),
        ("  pairs 8 to 14", 14),
        ("  pairs 15 to 21", 14),
        ("  TOT settings", 5),
        ("  TOT state", 8),
        ("  TOT ST_REV", 1),
        ("  AO settings", 9),
        ("  AO state", 13),
        ("  AO ST_REV", 1),
        ("  DI settings", 4),
        ("  DI state", 7),
        ("  DI ST_REV", 1),
        ("  DO settings", 5),
        ("  DO state", 13),
        ("  DO ST_REV", 1),
    ] {
        let (front, behind) = left.split_at(left.len().min(4 * words));
        print!(rt; "{name}")?;
        show_words(rt, front)?;
        left = behind;
    }
    print!(rt; "  after them ")?;
    for byte in left {
        print!(rt; "{byte:02x}")?;
    }
    println!(rt)
}

// A device's words, from a buffer that has a byte more.
fn show(rt: &impl Print, name: &str, d: Device) -> io::Result<()> {
    let mut bytes = [0xa5u8; 565];
    let answer = packing::pack(d, &mut bytes);
    print!(rt; "{name}: ")?;
    show_answer(rt, answer)?;
    println!(rt)?;
    show_structs(rt, &bytes)
}

// ---- devices

// Written, ticked and locked: a filter time, limits on both sides, TOT in Man with a total below 0, a fail-safe time, a
// setpoint, a tick that raises HI, and IFS on the other input; DI inverted, DO with a fail-safe time, and both of its inputs
// as AO's.
fn used() -> Device {
    let mut d = Device::factory();
    for (block, parameter, first, second) in [
        (1, 16, 0x4100_0000, 0),
        (1, 23, 0x4296_0000, 0),
        (1, 25, 0xc120_0000, 0),
        (2, 5, 0x10, 0),
        (2, 10, 0xc020_0000, 0x80),
        (3, 23, 5, 0),
        (4, 15, 1, 0),
        (5, 22, 7, 0),
    ] {
        let _ = d.write(block, parameter, Words { first, second });
    }
    let _ = d.telegram(0, b"\x42\x48\x00\x00\x80");
    let _ = d.telegram(2, b"\x01\x80");
    let fed = Fed {
        ain: Pair {
            bits: 0x4296_0000,
            status: 0x80,
        },
        tot: Pair {
            bits: 0x3f80_0000,
            status: 0x80,
        },
        di: Discrete {
            value: 0,
            status: 0x80,
        },
    };
    d.tick(false, fed);
    let _ = d.telegram(1, b"\x00\x00\x00\x00\xa0");
    let _ = d.telegram(3, b"\x00\xa0");
    let _ = d.write(0, 18, Words::from(0));
    d
}

// By a table of three pairs, (0, -0) (50, 25.5) (100, 100).
fn tabled() -> Device {
    let mut d = Device::factory();
    let _ = d.load(
        b"\x00\x00\x00\x00\x80\x00\x00\x00\x42\x48\x00\x00\x41\xcc\x00\x00\x42\xc8\x00\x00\x42\xc8\x00\x00",
    );
    let _ = d.write(1, 13, Words::from(1));
    d
}

// Fields at the ends of their types, which no call leads to.
fn ends() -> Device {
    let mut d = Device::factory();
    d.write_locking = 0xffff_ffff;
    d.ain.settings.lin_type = 0xffff_ffff;
    d.ain.settings.pv_ftime = 0.0 / 0.0;
    d.ain.settings.fsafe_value = -0.0;
    d.ain.state.out = Pair {
        bits: 0x7f80_0001,
        status: 255,
    };
    d.ain.st_rev = 65535;
    d.ain.table.count = 0xffff_ffff;
    d.ain.table.points[0] = Point {
        x: 0.0 / 0.0,
        y: 1.0 / 0.0,
    };
    d.ain.table.points[20] = Point {
        x: -1.0 / 0.0,
        y: -0.0,
    };
    d.tot.state.total = i64::MIN;
    d.di.state.last = di::Kept {
        some: true,
        value: 255,
    };
    d.dout.state.rcas_in = dout::Input {
        some: true,
        value: 255,
        silence: 0xffff_ffff,
        ifs: true,
    };
    d.dout.settings.fsafe_time = 0xffff_ffff;
    d.dout.st_rev = 65535;
    d
}

// ---- bytes unpacked

// The answer, and of which device: the one that packs to these bytes, or the factory's. A refusal hands back none: then it is of
// the one that the factory's bytes are unpacked to, with which a caller goes on.
fn unpacked(rt: &impl Print, name: &str, bytes: &[u8]) -> io::Result<()> {
    let mut again = [0u8; 564];
    let mut fresh = [0u8; 564];
    let _ = packing::pack(Device::factory(), &mut fresh);
    let (device, answer) = match packing::unpack(bytes) {
        Ok(device) => (Ok(device), 0),
        Err(reason) => (packing::unpack(&fresh), reason.number()),
    };
    if let Ok(device) = device {
        let _ = packing::pack(device, &mut again);
    }
    print!(rt; "{name}: {answer}")?;
    if bytes == again.as_slice() {
        print!(rt; ", packs to the bytes")?;
    }
    if fresh == again {
        print!(rt; ", factory")?;
    }
    println!(rt)
}

// The packed bytes of a device with one word, counted from 0, made another.
fn changed(rt: &impl Print, name: &str, d: Device, i: u8, word: u32) -> io::Result<()> {
    let mut bytes = [0u8; 564];
    let _ = packing::pack(d, &mut bytes);
    let _ = wire::put(&mut bytes, 4 * usize::from(i), word.to_be_bytes());
    unpacked(rt, name, &bytes)
}

fn lengths(rt: &impl Print) -> io::Result<()> {
    let mut bytes = [0u8; 565];
    let _ = packing::pack(used(), &mut bytes);
    for (name, length) in [
        ("no bytes", 0),
        ("264 bytes", 264),
        ("440 bytes", 440),
        ("563 bytes", 563),
        ("564 bytes", 564),
        ("565 bytes", 565),
    ] {
        unpacked(rt, name, &bytes[..length])?;
    }
    Ok(())
}

// A buffer that is a byte too short.
fn short(rt: &impl Print) -> io::Result<()> {
    let before = [0xa5u8; 563];
    let mut bytes = before;
    let answer = packing::pack(used(), &mut bytes);
    print!(rt; "into 563 bytes: ")?;
    show_answer(rt, answer)?;
    if before == bytes {
        print!(rt; ", unchanged")?;
    }
    println!(rt)
}

fn words(rt: &impl Print) -> io::Result<()> {
    let d = used();
    for (name, i, word) in [
        ("version 0", 0, 0),
        ("version 1", 0, 1),
        ("version 2", 0, 2),
        ("version 0x03000000", 0, 0x300_0000),
        ("a filter flag of 0", 19, 0),
        ("a filter flag of 2", 19, 2),
        ("a flag of 0x80000001", 19, 0x8000_0001),
        ("a status of 255", 17, 255),
        ("a status of 256", 17, 256),
        ("TOT's operator status of 0x180", 85, 0x180),
        ("ST_REV 65535", 29, 65535),
        ("ST_REV 65536", 29, 65536),
        ("a NaN 0x7FC00000", 8, 0x7fc0_0000),
        ("a NaN 0x7FC00001", 8, 0x7fc0_0001),
        ("a NaN 0xFFC00000", 8, 0xffc0_0000),
        ("a NaN 0x7F800001", 8, 0x7f80_0001),
        ("a value's bits 0x7F800001", 16, 0x7f80_0001),
        ("LIN_TYPE 2", 7, 2),
        ("a count of 22", 30, 22),
        ("the first x a NaN 0x7FC00000", 31, 0x7fc0_0000),
        ("the first y a NaN 0xFFC00000", 32, 0xffc0_0000),
        ("the last x a NaN 0x7FC00001", 71, 0x7fc0_0001),
        ("the last y a NaN 0x7FC00000", 72, 0x7fc0_0000),
    ] {
        changed(rt, name, d, i, word)?;
    }
    let mut most = d;
    most.tot.state.total = i64::MAX;
    changed(rt, "a total of 2 ^ 63 - 1", most, 0, 3)?;
    for (name, i, word) in [
        ("IFS of AO's last input 0x100", 108, 0x100),
        ("DI's OUT_D 255", 114, 255),
        ("DI's OUT_D 256", 114, 256),
        ("DI's kept flag of 2", 117, 2),
        ("DI's ST_REV 65536", 121, 65536),
        ("DO's SP_D 256", 133, 256),
        ("IFS of DO's last input 0x100", 139, 0x100),
        ("DO's ST_REV 65536", 140, 65536),
    ] {
        changed(rt, name, d, i, word)?;
    }
    Ok(())
}

fn main(rt: HostRuntime) -> io::Result<()> {
    let devices = [
        ("factory", Device::factory()),
        ("used", used()),
        ("tabled", tabled()),
        ("ends", ends()),
    ];
    for (name, device) in devices {
        show(&rt, name, device)?;
    }
    for (name, device) in devices {
        changed(&rt, name, device, 0, 3)?;
    }
    short(&rt)?;
    lengths(&rt)?;
    words(&rt)
}
