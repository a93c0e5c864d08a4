// Vectors over `wire`, a line each. The file `stdout` has what documents 01 and 02 say of them, worked out apart from this code.
// It would show a status byte cut at the wrong bits, a byte order turned round, a NaN's or a zero's bits changed on the
// way, a byte written outside the five, the two or the nineteen, a part of the wrong block, and a refusal under a wrong
// number.
#![tactic(auto)]

use arrayvec::{ArrayVec, CapacityError};
use std::io;
use std::io::Write;
use wire::status::{Limits, Quality, Status};
use wire::{Discrete, Pair, Refusal};

// ---- lines

// A line that is filled, and then written whole, by one write. The longest has 115 bytes.
type Line = ArrayVec<u8, 200>;

// What ends the program early.
#[derive(Drop)]
struct Failed(io::Error);

impl From<io::Error> for Failed {
    fn from(why: io::Error) -> Failed {
        Failed(why)
    }
}

// A line that does not fit is not written. None is met.
impl From<CapacityError> for Failed {
    fn from(_: CapacityError) -> Failed {
        Failed(io::ErrorKind::WriteZero.into())
    }
}

// A space and a decimal number.
fn put_number(line: &mut Line, n: u64) -> Result<(), CapacityError> {
    line.try_extend_from_slice(b" ")?;
    text::fit_decimal(line, n)
}

// Each byte after a space.
fn put_row(line: &mut Line, bytes: &[u8]) -> Result<(), CapacityError> {
    for byte in bytes {
        line.try_extend_from_slice(b" ")?;
        text::fit_byte(line, *byte)?;
    }
    Ok(())
}

// Ends a line, writes it, and clears it for the next.
fn show(rt: &impl Print, line: &mut Line) -> Result<(), Failed> {
    line.try_extend_from_slice(b"\n")?;
    io::writer(rt).write_all(line.as_slice())?;
    line.clear();
    Ok(())
}

// A value with its status, as a line shows it.
trait Shown: Copy {
    fn put(self, line: &mut Line) -> Result<(), CapacityError>;
}

impl Shown for Pair {
    fn put(self, line: &mut Line) -> Result<(), CapacityError> {
        text::fit_word(line, self.bits)?;
        put_row(line, &[self.status])
    }
}

impl Shown for Discrete {
    fn put(self, line: &mut Line) -> Result<(), CapacityError> {
        text::fit_decimal(line, self.value.into())?;
        put_row(line, &[self.status])
    }
}

// What bytes stand for.
fn received<T: Shown>(
    rt: &impl Print,
    line: &mut Line,
    of: Result<T, Refusal>,
) -> Result<(), Failed> {
    match of {
        Ok(value) => {
            line.try_extend_from_slice(b" = ")?;
            value.put(line)?;
        }
        Err(refusal) => {
            line.try_extend_from_slice(b" refused")?;
            put_number(line, refusal.number().into())?;
        }
    }
    show(rt, line)
}

// A value put into bytes, and the bytes read again.
fn there_and_back<T: Shown>(
    rt: &impl Print,
    line: &mut Line,
    value: T,
    bytes: &[u8],
    back: Result<T, Refusal>,
) -> Result<(), Failed> {
    value.put(line)?;
    line.try_extend_from_slice(b":")?;
    put_row(line, bytes)?;
    received(rt, line, back)
}

// The answer to a call, and the bytes of its buffer after it.
fn answered(
    rt: &impl Print,
    line: &mut Line,
    answer: Result<(), Refusal>,
    buf: &[u8],
) -> Result<(), Failed> {
    line.try_extend_from_slice(b":")?;
    put_number(line, wire::answer_number(answer).into())?;
    put_row(line, buf)?;
    show(rt, line)
}

// Bytes put at a place of a buffer.
fn put_at<const N: usize>(
    rt: &impl Print,
    line: &mut Line,
    name: &[u8],
    place: usize,
    bytes: [u8; N],
    buf: &mut [u8],
) -> Result<(), Failed> {
    let answer = wire::put(buf, place, bytes);
    line.try_extend_from_slice(name)?;
    put_number(line, place as u64)?;
    answered(rt, line, answer, buf)
}

// ---- status bytes

// Sixteen status bytes in a line: the first, and after a space the parts of each, with points between them, as a `Status` has them.
fn all_parts(rt: &impl Print, line: &mut Line) -> Result<(), Failed> {
    for status in 0..=255u8 {
        let s = Status::from(status);
        if status % 16 == 0 {
            text::fit_byte(line, status)?;
        }
        put_number(line, u8::from(s.quality).into())?;
        line.try_extend_from_slice(b".")?;
        text::fit_decimal(line, s.sub_status.into())?;
        line.try_extend_from_slice(b".")?;
        text::fit_decimal(line, u8::from(s.limits).into())?;
        if status % 16 == 15 {
            show(rt, line)?;
        }
    }
    Ok(())
}

// Whether a status byte is built again from what it says, and its parts as numbers are those of the cases.
fn agrees(status: u8) -> bool {
    let s = Status::from(status);
    let (q, l) = (s.quality, s.limits);
    u8::from(s) == status
        && wire::quality(status) == q
        && wire::sub_status(status) == s.sub_status
        && wire::limits(status) == l
}

// How many status bytes from 0 on agree, 256 where all do; the three numbers that `quality`, `sub_status` and `limits` give; and the
// status byte built from Good, a sub-status and a high limit.
fn statuses(rt: &impl Print, line: &mut Line) -> Result<(), Failed> {
    let agreeing = (0..256).take_while(|status| agrees(*status as u8)).count();
    line.try_extend_from_slice(b"agree")?;
    put_number(line, agreeing as u64)?;
    show(rt, line)?;
    for status in [
        0x00, 0x1F, 0x4C, 0x4E, 0x80, 0x89, 0x8E, 0xA0, 0xA3, 0xBC, 0xC0, 0xFF,
    ] {
        line.try_extend_from_slice(b"status")?;
        put_row(line, &[status])?;
        put_number(line, u8::from(wire::quality(status)).into())?;
        put_number(line, wire::sub_status(status).into())?;
        put_number(line, u8::from(wire::limits(status)).into())?;
        show(rt, line)?;
    }
    for sub_status in [3, 15, 16, 255] {
        let s = Status {
            quality: Quality::Good,
            sub_status,
            limits: Limits::High,
        };
        line.try_extend_from_slice(b"built")?;
        put_number(line, sub_status.into())?;
        put_row(line, &[u8::from(s)])?;
        show(rt, line)?;
    }
    Ok(())
}

// ---- pairs

// Zeros, subnormals, the ends of the finite numbers, infinities and patterns of NaN; places of eight bytes; the first bytes of seven.
fn pairs(rt: &impl Print, line: &mut Line) -> Result<(), Failed> {
    for (bits, status) in [
        (0x0000_0000, 0x00),
        (0x8000_0000, 0x80),
        (0x0000_0001, 0x4C),
        (0x807F_FFFF, 0x1F),
        (0x0080_0000, 0x8E),
        (0x4248_0000, 0x80),
        (0x7F7F_FFFF, 0xFF),
        (0x7F80_0000, 0x10),
        (0xFF80_0000, 0x04),
        (0x7F80_0001, 0xC0),
        (0x7FC0_0000, 0xA0),
        (0xFFFF_FFFF, 0x01),
        (0x0102_0304, 0x05),
    ] {
        let pair = Pair { bits, status };
        let five = pair.to_bytes();
        there_and_back(rt, line, pair, &five, Pair::try_from(five.as_slice()))?;
    }
    let pair = Pair {
        bits: 0x1122_3344,
        status: 0x55,
    };
    for place in [0, 1, 3, 4, 8, 9, 18446744073709551611, 18446744073709551615] {
        put_at(rt, line, b"put", place, pair.to_bytes(), &mut [0xA5; 8])?;
    }
    let seven = [0x42, 0x48, 0x00, 0x00, 0x80, 0x99, 0x77];
    for length in [0, 4, 5, 6] {
        line.try_extend_from_slice(b"pair of")?;
        put_number(line, length as u64)?;
        received(rt, line, Pair::try_from(&seven[..length.min(7)]))?;
    }
    Ok(())
}

// Values and statuses, places of four bytes and the first of five, at their ends.
fn discretes(rt: &impl Print, line: &mut Line) -> Result<(), Failed> {
    for (value, status) in [(0, 0x80), (1, 0xC0), (7, 0x04), (255, 0xFF)] {
        let pair = Discrete { value, status };
        let two = pair.to_bytes();
        line.try_extend_from_slice(b"discrete ")?;
        there_and_back(rt, line, pair, &two, Discrete::try_from(two.as_slice()))?;
    }
    let pair = Discrete {
        value: 1,
        status: 0x55,
    };
    for place in [0, 1, 2, 3, 4, 18446744073709551614, 18446744073709551615] {
        put_at(
            rt,
            line,
            b"put discrete",
            place,
            pair.to_bytes(),
            &mut [0xA5; 4],
        )?;
    }
    let five = [0x01, 0x80, 0x99, 0x77, 0x55];
    for length in [0, 1, 2, 3, 5] {
        line.try_extend_from_slice(b"discrete of")?;
        put_number(line, length as u64)?;
        received(rt, line, Discrete::try_from(&five[..length.min(5)]))?;
    }
    Ok(())
}

// ---- the image

// The image in the first bytes of twenty-two, of which all are shown.
fn images(rt: &impl Print, line: &mut Line) -> Result<(), Failed> {
    let ain = Pair {
        bits: 0x4248_0000,
        status: 0x80,
    };
    let tot = Pair {
        bits: 0xBF80_0001,
        status: 0x4C,
    };
    let ao = Pair {
        bits: 0x7FC1_2345,
        status: 0x1F,
    };
    let di = Discrete {
        value: 1,
        status: 0x80,
    };
    let dout = Discrete {
        value: 7,
        status: 0xC4,
    };
    for length in [0, 15, 18, 19, 20, 22] {
        let mut buf = [0xA5; 22];
        let answer = wire::image(&mut buf[..length.min(22)], ain, tot, ao, di, dout);
        line.try_extend_from_slice(b"image")?;
        put_number(line, length as u64)?;
        answered(rt, line, answer, &buf)?;
    }
    Ok(())
}

// Each block's part of the first bytes of twenty that hold 0, 1, 2, ..
fn parts(rt: &impl Print, line: &mut Line) -> Result<(), Failed> {
    let buf = [
        0, 1, 2, 3, 4, 5, 6, 7, 8, 9, 10, 11, 12, 13, 14, 15, 16, 17, 18, 19,
    ];
    for length in [15, 18, 19, 20] {
        for block in [0, 1, 2, 3, 4, 5, 6, 255] {
            line.try_extend_from_slice(b"part")?;
            put_number(line, block.into())?;
            line.try_extend_from_slice(b" of")?;
            put_number(line, length as u64)?;
            line.try_extend_from_slice(b":")?;
            put_row(line, wire::part(&buf[..length.min(20)], block))?;
            show(rt, line)?;
        }
    }
    Ok(())
}

// The numbers of the refusals, after that of an accepted call.
fn refusals(rt: &impl Print, line: &mut Line) -> Result<(), Failed> {
    line.try_extend_from_slice(b"answers")?;
    put_number(line, wire::answer_number(Ok(())).into())?;
    for refusal in [
        Refusal::NoSuchBlock,
        Refusal::NoSuchParameter,
        Refusal::ReadOnly,
        Refusal::Locked,
        Refusal::WordsNotAllowed,
        Refusal::NotMan,
        Refusal::WrongLength,
        Refusal::NoSuchInput,
        Refusal::NotWholePairs,
        Refusal::NotRising,
    ] {
        put_number(line, wire::answer_number(Err(refusal)).into())?;
    }
    show(rt, line)
}

fn show_all(rt: &impl Print) -> Result<(), Failed> {
    let mut line = Line::new();
    all_parts(rt, &mut line)?;
    statuses(rt, &mut line)?;
    pairs(rt, &mut line)?;
    discretes(rt, &mut line)?;
    images(rt, &mut line)?;
    parts(rt, &mut line)?;
    refusals(rt, &mut line)
}

fn main(rt: HostRuntime) -> io::Result<()> {
    show_all(&rt).map_err(|failed| failed.0)
}
