// Numbers as text, over bytes: appended to a vector, and read from a word. The `fit_..` append to a vector of a fixed
// capacity and need no heap; the `put_..` append what these make to a vector that may grow.
#![tactic(auto)]

ghost use Rattle.std.specs.Prelude.{◌≡◌, ◌≤◌, ◌<◌};
ghost use Rattle.text.specs.Appended.{Appends, Fits};
ghost use Rattle.text.specs.Number.{digits_number, word_number};
ghost use Rattle.text.specs.Digits.{digit as digit_byte, hex_byte, hex_word, decimal, signed};

use arrayvec::{ArrayVec, CapacityError};
use itoa::Buffer;
use std::alloc::AllocError;

// The byte of a digit: capital letters from ten on, where `char::from_digit` of std has small ones.
fn digit(d: u8) -> u8
    requires { d < 16 }
    ensures { result ≡ digit_byte d }
{
    match d {
        0..=9 => b'0' + d,
        _ => b'A' + (d - 10),
    }
}

// A byte's two digits.
fn hex(byte: u8) -> [u8; 2]
    ensures { result ≡ hex_byte byte }
{
    [digit(byte / 16), digit(byte % 16)]
}

// Appends a byte as two capital hexadecimal digits.
pub fn fit_byte<const N: usize>(out: &mut ArrayVec<u8, N>, byte: u8) -> Result<(), CapacityError>
    ensures { Fits N out.old out.new (hex_byte byte) result }
{
    out.try_extend_from_slice(&hex(byte))
}

// Appends a word as `0x` and eight capital hexadecimal digits.
pub fn fit_word<const N: usize>(out: &mut ArrayVec<u8, N>, word: u32) -> Result<(), CapacityError>
    ensures { Fits N out.old out.new (hex_word word) result }
{
    let [a, b, c, d] = word.to_be_bytes();
    let text = [*b"0x", hex(a), hex(b), hex(c), hex(d)];
    out.try_extend_from_slice(text.as_flattened())
}

// Appends a whole number in decimal, without leading zeros.
pub fn fit_decimal<const N: usize>(out: &mut ArrayVec<u8, N>, n: u64) -> Result<(), CapacityError>
    ensures { Fits N out.old out.new (decimal n) result }
{
    out.try_extend_from_slice(Buffer::new().format(n).as_bytes())
}

// Appends a whole number in decimal, without leading zeros, a negative one after the sign `-`.
pub fn fit_signed<const N: usize>(out: &mut ArrayVec<u8, N>, z: i64) -> Result<(), CapacityError>
    ensures { Fits N out.old out.new (signed z) result }
{
    out.try_extend_from_slice(Buffer::new().format(z).as_bytes())
}

// Appends a byte as two capital hexadecimal digits.
pub fn put_byte(out: &mut Vec<u8>, byte: u8) -> Result<(), AllocError>
    ensures { Appends out.old out.new (hex_byte byte) result }
{
    let mut digits: ArrayVec<u8, 2> = ArrayVec::new();
    let _ = fit_byte(&mut digits, byte);
    out.extend_from_slice(digits.as_slice())
}

// Appends a word as `0x` and eight capital hexadecimal digits.
pub fn put_word(out: &mut Vec<u8>, word: u32) -> Result<(), AllocError>
    ensures { Appends out.old out.new (hex_word word) result }
{
    let mut text: ArrayVec<u8, 10> = ArrayVec::new();
    let _ = fit_word(&mut text, word);
    out.extend_from_slice(text.as_slice())
}

// Appends a whole number in decimal, without leading zeros.
#[tactic(auto, using(crate::proofs::Decimals::decimal_length))]
pub fn put_decimal(out: &mut Vec<u8>, n: u64) -> Result<(), AllocError>
    ensures { Appends out.old out.new (decimal n) result }
{
    let mut number: ArrayVec<u8, 20> = ArrayVec::new();
    let _ = fit_decimal(&mut number, n);
    out.extend_from_slice(number.as_slice())
}

// Appends a whole number in decimal, without leading zeros, a negative one after the sign `-`.
#[tactic(auto, using(crate::proofs::Decimals::signed_length))]
pub fn put_signed(out: &mut Vec<u8>, z: i64) -> Result<(), AllocError>
    ensures { Appends out.old out.new (signed z) result }
{
    let mut whole: ArrayVec<u8, 21> = ArrayVec::new();
    let _ = fit_signed(&mut whole, z);
    out.extend_from_slice(whole.as_slice())
}

// The number of one or more digits in a base.
fn digits_number(digits: &[u8], base: u32, limit: u64) -> Option<u64>
    requires at_least { 2 ≤ base }
    requires at_most { base ≤ 16 }
    ensures { result ≡ digits_number base digits.now limit }
{
    if digits.is_empty() {
        return None;
    }
    let mut sum = 0u64;
    for byte in digits {
        let digit = char::from(*byte).to_digit(base)?;
        sum = sum.checked_mul(base.into())?.checked_add(digit.into())?;
    }
    (sum <= limit).then_some(sum)
}

// The number that a word stands for, up to a limit.
pub fn number(word: &[u8], limit: u64) -> Option<u64>
    ensures { result ≡ word_number word.now limit }
{
    match word.strip_prefix(b"0x") {
        Some(digits) => digits_number(digits, 16, limit),
        None => digits_number(word, 10, limit),
    }
}
