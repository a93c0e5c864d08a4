// What the function blocks have in common: modes, pairs over any kind of value, the state of an output out of service, and
// what AIN and DI make of a transducer's status and give where a tick is not usable (document 01, Mode, Parameters, AIN
// tick), and the operator's pair on entering Man (document 02, request 2). What AO and DO have in common is in `setpoint`.
#![tactic(auto)]

ghost use Rattle.std.specs.Prelude.{◌≡◌};
ghost use Rattle.blocks.specs.Common.{of_pair, of_discrete, as_pair, as_discrete, as_kept};
ghost use Rattle.blocks.specs.Common.{actual_mode, held_at, fresh_at, entered_man, operator_after, input_status};
ghost use Rattle.blocks.specs.Discrete.{is_discrete, inverted, discrete_value};
ghost use Rattle.blocks.specs.InputBlock.{present, fail_safe_pair};

pub mod setpoint;

use wire::status::Quality;
use wire::{Discrete, Pair};

// The codes of the modes: numbers, since a device holds them, C holds the device, and a read answers them.
pub const OUT_OF_SERVICE: u32 = 0x80;

pub const MAN: u32 = 0x10;

pub const AUTO: u32 = 0x08;

pub const RCAS: u32 = 0x02;

// The status of an output that is only held, and of a fresh operator's pair.
pub const HELD_STATUS: u8 = 0x1f;

pub const FRESH_STATUS: u8 = 0x4c;

// A tick's actual mode. The `tick` that picks by it stays in each of AIN, DI and TOT: a trait over it would have the ticks
// of the three modes as ghosts and functions with contracts, more lines than the three bodies.
#[tactic(auto, unfolding(crate::specs::Common::actual_mode))]
pub fn actual_mode(fault: bool, target: u32) -> u32
    ensures { result ≡ actual_mode fault target }
{
    if fault || target == OUT_OF_SERVICE {
        return OUT_OF_SERVICE;
    }
    target
}

// ---- values and their statuses

// The kinds of value: a float by its bits, and a discrete value. Not std's Default: that says only what holds of each
// default, and a contract over any kind has to name the zero.
pub trait Value: Copy {
    ghost ZERO: { Self };

    const ZERO: Self;
}

impl Value for u32 {
    ghost ZERO = { 0 };

    const ZERO: u32 = 0;
}

impl Value for u8 {
    ghost ZERO = { 0 };

    const ZERO: u8 = 0;
}

// A value of either kind and its status.
#[derive(Clone, Copy)]
pub struct PairOf<V> {
    pub value: V,
    pub status: u8,
}

impl<V: Value> PairOf<V> {
    pub fn new(value: V, status: u8) -> PairOf<V>
        ensures { result ≡ record { value = value; status = status } }
    {
        PairOf { value, status }
    }

    // An output that is only held.
    pub fn held(value: V) -> PairOf<V>
        ensures { result ≡ held_at value }
    {
        PairOf::new(value, HELD_STATUS)
    }

    // The operator's pair before any was written or taken.
    pub fn fresh() -> PairOf<V>
        ensures { result ≡ fresh_at V.ZERO }
    {
        PairOf::new(V::ZERO, FRESH_STATUS)
    }
}

// From and to the pairs as a device holds them.
impl From<Pair> for PairOf<u32> {
    fn from(pair: Pair) -> PairOf<u32>
        ensures { result ≡ of_pair pair }
    {
        PairOf::new(pair.bits, pair.status)
    }
}

impl From<PairOf<u32>> for Pair {
    fn from(pair: PairOf<u32>) -> Pair
        ensures { result ≡ as_pair pair }
    {
        Pair {
            bits: pair.value,
            status: pair.status,
        }
    }
}

impl From<Discrete> for PairOf<u8> {
    fn from(pair: Discrete) -> PairOf<u8>
        ensures { result ≡ of_discrete pair }
    {
        PairOf::new(pair.value, pair.status)
    }
}

impl From<PairOf<u8>> for Discrete {
    fn from(pair: PairOf<u8>) -> Discrete
        ensures { result ≡ as_discrete pair }
    {
        Discrete {
            value: pair.value,
            status: pair.status,
        }
    }
}

// Whether a write of the target changes it to Man from another.
fn enters_man(old: u32, new: u32) -> bool
    ensures { result ≡ entered_man old new }
{
    new == MAN && old != MAN
}

// The operator's pair, of any type, after a write of the target: on entering Man it is the pair last given.
#[tactic(auto, unfolding(crate::specs::Common::operator_after))]
pub fn operator_after<P: Copy>(old: u32, new: u32, given: P, operator: P) -> P
    ensures { result ≡ operator_after old new given operator }
{
    if enters_man(old, new) {
        return given;
    }
    operator
}

// ---- input blocks

// A float that may be missing, as a device holds it: C knows no Option. While it is missing, the value is 0.
#[repr(C)]
#[derive(Clone, Copy)]
pub struct Kept {
    pub some: bool,
    pub value: f32,
}

impl From<Option<f32>> for Kept {
    fn from(value: Option<f32>) -> Kept
        ensures { result ≡ as_kept value }
    {
        match value {
            Some(value) => Kept { some: true, value },
            None => Kept {
                some: false,
                value: 0.0,
            },
        }
    }
}

impl From<Kept> for Option<f32> {
    fn from(kept: Kept) -> Option<f32>
        ensures { result ≡ present kept.some kept.value }
    {
        kept.some.then_some(kept.value)
    }
}

// What a tick goes by: the status received, whether the value is finite, and whether what is calculated of it is. On Err
// the input is not usable, and counts as Bad with that status.
#[tactic(auto, unfolding(crate::specs::Common::input_status))]
pub fn input_status(status: u8, value: bool, calculated: bool) -> Result<(), u8>
    ensures { result ≡ input_status status value calculated }
{
    match wire::quality(status) {
        Quality::GoodCascade => Err(0x04),
        Quality::Bad => Err(status),
        _ if !value => Err(0x10),
        _ if !calculated => Err(0x04),
        _ => Ok(()),
    }
}

// What is given in an Auto tick that is not usable, by FSAFE_TYPE's code: FSAFE_VALUE, the value last usable, if any, or
// the scaled one under the Bad status, and the old one where that is missing. The code is matched here alone, and an enum
// would be one conversion more.
#[tactic(auto, unfolding(crate::specs::InputBlock::fail_safe_pair))]
pub fn fail_safe_pair<V: Value>(
    kind: u32,
    fsafe_value: V,
    last: Option<V>,
    scaled: Option<V>,
    old: V,
    bad: u8,
) -> PairOf<V>
    ensures { result ≡ fail_safe_pair V.ZERO kind fsafe_value last scaled old bad }
{
    match kind {
        0 => PairOf::new(fsafe_value, 0x48),
        1 => match last {
            Some(value) => PairOf::new(value, 0x44),
            None => PairOf::new(V::ZERO, 0x4c),
        },
        _ => PairOf::new(scaled.unwrap_or(old), bad),
    }
}

// ---- discrete values

pub fn is_discrete(value: u8) -> bool
    ensures { result ≡ is_discrete value }
{
    matches!(value, 0 | 1)
}

// A value under INVERT.
#[tactic(auto, unfolding(crate::specs::Discrete::inverted))]
pub fn inverted(invert: u32, value: u8) -> u8
    ensures { result ≡ inverted invert value }
{
    match (invert, value) {
        (1, 0) => 1,
        (1, 1) => 0,
        _ => value,
    }
}

// The value of FSAFE_VAL_D's code.
#[tactic(auto, unfolding(crate::specs::Discrete::discrete_value))]
pub fn discrete_value(code: u32) -> u8
    ensures { result ≡ discrete_value code }
{
    u8::from(code == 1)
}
