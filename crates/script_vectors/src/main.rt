// Vectors over `script::put_answer` and the `put_..` of `text`, which append to a vector that may grow, a line each. The file `stdout`
// has what docs/call-script.md says of them, worked out apart from this code. It would show digits missing or in another order, a part
// of an answer left out or written twice, and an answer cut short where the vector has to grow.
#![tactic(auto)]

use script::{Answer, Order};
use std::alloc::AllocError;
use std::io;
use std::io::Write;

// Bytes, words and whole numbers, a line for each kind.
fn put_numbers(out: &mut Vec<u8>) -> Result<(), AllocError> {
    out.extend_from_slice(b"bytes")?;
    for byte in [0x00, 0x09, 0x0a, 0x9f, 0xf0, 0xff] {
        out.extend_from_slice(b" ")?;
        text::put_byte(out, byte)?;
    }
    out.extend_from_slice(b"\nwords")?;
    for word in [0, 0x0123_4567, 0x89ab_cdef, 0xffff_ffff] {
        out.extend_from_slice(b" ")?;
        text::put_word(out, word)?;
    }
    out.extend_from_slice(b"\ndecimal")?;
    for n in [0, 9, 10, 907, u64::MAX] {
        out.extend_from_slice(b" ")?;
        text::put_decimal(out, n)?;
    }
    out.extend_from_slice(b"\nsigned")?;
    for z in [0, 9, -1, -10, i64::MAX, i64::MIN] {
        out.extend_from_slice(b" ")?;
        text::put_signed(out, z)?;
    }
    out.extend_from_slice(b"\n")
}

// Each kind of answer; the last row is longer than a call gives one.
fn put_answers(out: &mut Vec<u8>) -> Result<(), AllocError> {
    for answer in [
        Answer::Ok,
        Answer::Error,
        Answer::Refused(7),
        Answer::Refused(255),
        Answer::Orders(Order::Position(0x4248_0000), Order::PositionD(1)),
        Answer::Orders(Order::Safe, Order::Rest),
        Answer::Orders(Order::Rest, Order::Safe),
        Answer::Words(8, 0xffff_ffff),
        Answer::Bytes(&[]),
        Answer::Bytes(&[0x42, 0x48, 0x00, 0x80]),
        Answer::Total(0),
        Answer::Total(-16_777_217),
        Answer::Bytes(&[0xa5; 100]),
    ] {
        script::put_answer(out, answer)?;
    }
    Ok(())
}

fn main(rt: HostRuntime) -> io::Result<()> {
    let mut out = Vec::new(rt.alloc());
    put_numbers(&mut out)?;
    put_answers(&mut out)?;
    io::writer(&rt).write_all(out.as_slice())
}
