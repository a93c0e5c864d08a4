// Paper 01's wire form: the status byte, a value as five bytes, the bus image and one block's part of it, and the
// numbers of refused calls; with paper 02, request 3, a discrete value as two bytes.
#![tactic(auto)]

pub mod status;

ghost use Rattle.std.specs.Prelude.{◌≡◌};
ghost use Rattle.wire.specs.Status.{quality_of, sub_status_of, limits_of, quality_case, limits_case, quality_number, limits_number};
ghost use Rattle.wire.specs.Refusal.{refusal_number, answer_number};
ghost use Rattle.wire.specs.Bytes.{five_bytes, two_bytes, placed_answer, placed, pair_of, discrete_of};
ghost use Rattle.wire.specs.Image.{image_answer, image_bytes, part_of, part_place};

use status::{Limits, Quality};

// A value by the 32 bits of its float, and its status.
#[repr(C)]
#[derive(Clone, Copy, Debug, PartialEq, Eq)]
pub struct Pair {
    pub bits: u32,
    pub status: u8,
}

// A discrete value and its status. A type beside `Pair`, not one over the value's type: C holds both, and no generic.
#[repr(C)]
#[derive(Clone, Copy, Debug, PartialEq, Eq)]
pub struct Discrete {
    pub value: u8,
    pub status: u8,
}

// The grounds of refusal, in the order of their numbers.
#[derive(Clone, Copy, Debug, PartialEq, Eq)]
pub enum Refusal {
    NoSuchBlock,
    NoSuchParameter,
    ReadOnly,
    Locked,
    WordsNotAllowed,
    NotMan,
    WrongLength,
    NoSuchInput,
    NotWholePairs,
    NotRising,
}

impl Refusal {
    // By a `match`, which says of each ground alone what its number is; an enum with numbers takes no two alike, and so would
    // hide the mistake from the proof.
    pub fn number(self) -> u8
        ensures { result ≡ refusal_number self }
    {
        match self {
            Refusal::NoSuchBlock => 1,
            Refusal::NoSuchParameter => 2,
            Refusal::ReadOnly => 3,
            Refusal::Locked => 4,
            Refusal::WordsNotAllowed => 5,
            Refusal::NotMan => 6,
            Refusal::WrongLength => 7,
            Refusal::NoSuchInput => 8,
            Refusal::NotWholePairs => 9,
            Refusal::NotRising => 10,
        }
    }
}

// The number of what a call answers where it gives no value: 0 where it was accepted.
pub fn answer_number(answer: Result<(), Refusal>) -> u8
    ensures { result ≡ answer_number answer }
{
    match answer {
        Ok(()) => 0,
        Err(refusal) => refusal.number(),
    }
}

// The three parts of a status byte.
pub fn quality(status: u8) -> Quality
    ensures case { result ≡ quality_case (quality_of status) }
    ensures number { quality_number result ≡ quality_of status }
{
    Quality::from(status / 64)
}

pub fn sub_status(status: u8) -> u8
    ensures { result ≡ sub_status_of status }
{
    status / 4 % 16
}

pub fn limits(status: u8) -> Limits
    ensures case { result ≡ limits_case (limits_of status) }
    ensures number { limits_number result ≡ limits_of status }
{
    Limits::from(status % 4)
}

impl Pair {
    // The value's word, highest byte first, and the status behind it.
    pub fn to_bytes(self) -> [u8; 5]
        ensures { result ≡ five_bytes self }
    {
        let [a, b, c, d] = self.bits.to_be_bytes();
        [a, b, c, d, self.status]
    }
}

// The pair that exactly five bytes stand for.
impl<'a> TryFrom<&'a [u8]> for Pair {
    type Error = Refusal;

    #[tactic(auto, unfolding(crate::specs::Bytes::pair_of))]
    fn try_from(bytes: &'a [u8]) -> Result<Pair, Refusal>
        ensures { result ≡ pair_of bytes.now }
    {
        let [a, b, c, d, status] = *bytes else {
            return Err(Refusal::WrongLength);
        };
        let bits = u32::from_be_bytes([a, b, c, d]);
        Ok(Pair { bits, status })
    }
}

impl Discrete {
    // The value, and the status behind it.
    pub fn to_bytes(self) -> [u8; 2]
        ensures { result ≡ two_bytes self }
    {
        [self.value, self.status]
    }
}

// The discrete value and status that exactly two bytes stand for.
impl<'a> TryFrom<&'a [u8]> for Discrete {
    type Error = Refusal;

    #[tactic(auto, unfolding(crate::specs::Bytes::discrete_of))]
    fn try_from(bytes: &'a [u8]) -> Result<Discrete, Refusal>
        ensures { result ≡ discrete_of bytes.now }
    {
        let [value, status] = *bytes else {
            return Err(Refusal::WrongLength);
        };
        Ok(Discrete { value, status })
    }
}

// Puts bytes at a place of a buffer, or changes nothing where they do not fit there.
#[tactic(auto, unfolding(crate::specs::Bytes::placed_answer, crate::specs::Bytes::placed))]
pub fn put<const N: usize>(buf: &mut [u8], at: usize, bytes: [u8; N]) -> Result<(), Refusal>
    ensures value { result ≡ placed_answer N buf.old at }
    ensures buf_after { buf.new ≡ placed buf.old at bytes.entry }
{
    if buf.len() < N || buf.len() - N < at {
        return Err(Refusal::WrongLength);
    }
    buf[at..at + N].copy_from_slice(&bytes);
    Ok(())
}

// Puts the blocks' pairs into the front of a buffer, or changes nothing where it is too short.
#[tactic(auto, unfolding(crate::specs::Image::image_answer, crate::specs::Image::image_bytes))]
pub fn image(
    buf: &mut [u8],
    ain: Pair,
    tot: Pair,
    ao: Pair,
    di: Discrete,
    dout: Discrete,
) -> Result<(), Refusal>
    ensures value { result ≡ image_answer buf.old }
    ensures buf_after { buf.new ≡ image_bytes buf.old ain tot ao di dout }
{
    let room = buf.len();
    if room < 19 {
        return Err(Refusal::WrongLength);
    }
    buf[..5].copy_from_slice(&ain.to_bytes());
    buf[5..10].copy_from_slice(&tot.to_bytes());
    buf[10..15].copy_from_slice(&ao.to_bytes());
    buf[15..17].copy_from_slice(&di.to_bytes());
    buf[17..19].copy_from_slice(&dout.to_bytes());
    Ok(())
}

// One block's bytes, a part of the image lent; an empty part at its front where the image is too short or
// the block is not in it.
#[tactic(auto, unfolding(crate::specs::Image::part_of, crate::specs::Image::part_place))]
pub fn part(buf: &[u8], block: u8) -> &[u8]
    ensures result_value { result.now ≡ part_of buf.now block }
    ensures ref_ptr_value { result.ref_ptr ≡ part_place buf.entry.ref_ptr buf.now block }
{
    if buf.len() < 19 {
        return &buf[..0];
    }
    match block {
        1..=3 => {
            let from = 5 * (block as usize - 1);
            &buf[from..from + 5]
        }
        4..=5 => {
            let from = 15 + 2 * (block as usize - 4);
            &buf[from..from + 2]
        }
        _ => &buf[..0],
    }
}
