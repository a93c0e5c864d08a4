// The line that answers a call, appended to those before it: by `fit_answer` to a vector of a fixed capacity, without a
// heap, and by `put_answer` to one that may grow.
ghost use Rattle.std.specs.Prelude.{◌≤◌, ◌++◌, ◌∷◌, []};
ghost use Rattle.arrayvec.specs.ArrayVec.{array_vec_len};
ghost use Rattle.script.specs.Answer.{Fitted, Written, order_parts, answer_parts, row_parts};

use crate::{Answer, Order};
use arrayvec::{ArrayVec, CapacityError};
use std::alloc::AllocError;

// ---- of a fixed capacity

// Each byte of a row after a space. The premise holds of every vector, and is known of one after a call of it.
fn fit_row<const N: usize>(out: &mut ArrayVec<u8, N>, row: &[u8]) -> Result<(), CapacityError>
    requires { array_vec_len out.old ≤ N }
    ensures { Fitted N out.old out.new (row_parts row.now) result }
{
    for byte in row {
        out.try_extend_from_slice(b" ")?;
        text::fit_byte(out, *byte)?;
    }
    Ok(())
}

fn fit_order<const N: usize>(out: &mut ArrayVec<u8, N>, order: Order) -> Result<(), CapacityError>
    ensures { Fitted N out.old out.new (order_parts order) result }
{
    match order {
        Order::Position(bits) => {
            out.try_extend_from_slice(b"position ")?;
            text::fit_word(out, bits)
        }
        Order::PositionD(value) => {
            out.try_extend_from_slice(b"position ")?;
            text::fit_decimal(out, value.into())
        }
        Order::Safe => out.try_extend_from_slice(b"safe"),
        Order::Rest => out.try_extend_from_slice(b"rest"),
    }
}

fn fit_orders<const N: usize>(
    out: &mut ArrayVec<u8, N>,
    ao: Order,
    dout: Order,
) -> Result<(), CapacityError>
    ensures { Fitted N out.old out.new (answer_parts (Answer.Orders ao dout)) result }
{
    fit_order(out, ao)?;
    out.try_extend_from_slice(b" ")?;
    fit_order(out, dout)?;
    out.try_extend_from_slice(b"\n")
}

fn fit_words<const N: usize>(
    out: &mut ArrayVec<u8, N>,
    first: u32,
    second: u32,
) -> Result<(), CapacityError>
    ensures { Fitted N out.old out.new (answer_parts (Answer.Words first second)) result }
{
    out.try_extend_from_slice(b"words ")?;
    text::fit_word(out, first)?;
    out.try_extend_from_slice(b" ")?;
    text::fit_word(out, second)?;
    out.try_extend_from_slice(b"\n")
}

// Appends the line that answers a call. Where a part of it has no room, that part and what follows are not put, and
// those before it stand.
pub fn fit_answer<const N: usize>(
    out: &mut ArrayVec<u8, N>,
    answer: Answer<'_>,
) -> Result<(), CapacityError>
    ensures { Fitted N out.old out.new (answer_parts answer.entry) result }
{
    match answer {
        Answer::Ok => out.try_extend_from_slice(b"ok\n"),
        Answer::Error => out.try_extend_from_slice(b"error\n"),
        Answer::Refused(number) => {
            out.try_extend_from_slice(b"refused ")?;
            text::fit_decimal(out, number.into())?;
            out.try_extend_from_slice(b"\n")
        }
        Answer::Orders(ao, dout) => fit_orders(out, ao, dout),
        Answer::Words(first, second) => fit_words(out, first, second),
        Answer::Bytes(row) => {
            out.try_extend_from_slice(b"bytes")?;
            fit_row(out, row)?;
            out.try_extend_from_slice(b"\n")
        }
        Answer::Total(total) => {
            out.try_extend_from_slice(b"total ")?;
            text::fit_signed(out, total)?;
            out.try_extend_from_slice(b"\n")
        }
    }
}

// ---- that may grow

// Each byte of a row after a space.
fn put_row(out: &mut Vec<u8>, row: &[u8]) -> Result<(), AllocError>
    ensures { Written out.old out.new (row_parts row.now) result }
{
    for byte in row {
        out.extend_from_slice(b" ")?;
        text::put_byte(out, *byte)?;
    }
    Ok(())
}

fn put_order(out: &mut Vec<u8>, order: Order) -> Result<(), AllocError>
    ensures { Written out.old out.new (order_parts order) result }
{
    match order {
        Order::Position(bits) => {
            out.extend_from_slice(b"position ")?;
            text::put_word(out, bits)
        }
        Order::PositionD(value) => {
            out.extend_from_slice(b"position ")?;
            text::put_decimal(out, value.into())
        }
        Order::Safe => out.extend_from_slice(b"safe"),
        Order::Rest => out.extend_from_slice(b"rest"),
    }
}

fn put_orders(out: &mut Vec<u8>, ao: Order, dout: Order) -> Result<(), AllocError>
    ensures { Written out.old out.new (answer_parts (Answer.Orders ao dout)) result }
{
    put_order(out, ao)?;
    out.extend_from_slice(b" ")?;
    put_order(out, dout)?;
    out.extend_from_slice(b"\n")
}

fn put_words(out: &mut Vec<u8>, first: u32, second: u32) -> Result<(), AllocError>
    ensures { Written out.old out.new (answer_parts (Answer.Words first second)) result }
{
    out.extend_from_slice(b"words ")?;
    text::put_word(out, first)?;
    out.extend_from_slice(b" ")?;
    text::put_word(out, second)?;
    out.extend_from_slice(b"\n")
}

// Appends the line that answers a call. Where there is no memory for a part of it, that part and what follows are not
// put, and those before it stand.
pub fn put_answer(out: &mut Vec<u8>, answer: Answer<'_>) -> Result<(), AllocError>
    ensures { Written out.old out.new (answer_parts answer.entry) result }
{
    match answer {
        Answer::Ok => out.extend_from_slice(b"ok\n"),
        Answer::Error => out.extend_from_slice(b"error\n"),
        Answer::Refused(number) => {
            out.extend_from_slice(b"refused ")?;
            text::put_decimal(out, number.into())?;
            out.extend_from_slice(b"\n")
        }
        Answer::Orders(ao, dout) => put_orders(out, ao, dout),
        Answer::Words(first, second) => put_words(out, first, second),
        Answer::Bytes(row) => {
            out.extend_from_slice(b"bytes")?;
            put_row(out, row)?;
            out.extend_from_slice(b"\n")
        }
        Answer::Total(total) => {
            out.extend_from_slice(b"total ")?;
            text::put_signed(out, total)?;
            out.extend_from_slice(b"\n")
        }
    }
}
