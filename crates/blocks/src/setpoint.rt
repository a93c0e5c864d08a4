// Setpoint inputs, the fail-safe decision and what an output block gives (document 01, AO tick), over the kind of value:
// V is a setpoint's, O is OUT's.

ghost use Rattle.std.specs.Prelude.{◌≡◌, Option};
ghost use Rattle.blocks.specs.declared.setpoint.FailSafe.{FailSafe};
ghost use Rattle.blocks.specs.FailSafe.{class_of, emptied, after_telegram, after_tick, fail_safe_acts, fail_safe_case, case_of, positioned, leads_to, by_mode};

use crate::{MAN, OUT_OF_SERVICE, PairOf, Value};
use std::cmp::min;
use wire::status::Quality;

// What a status byte makes of a telegram, its value left aside.
#[derive(Clone, Copy, PartialEq, Eq)]
pub enum Class {
    Usable,
    InitiateFailSafe,
    Neither,
}

// What came on a setpoint input: whether a usable telegram came since start, the value of the last one (its type's zero
// while there is none), the ticks since (up to 65,536; 0 while there is none), and whether an IFS came with no usable one
// after it. A flag stands beside the value: an Option would lose the value of a state whose flag is false, which no call
// makes but which every contract speaks of.
#[derive(Clone, Copy)]
pub struct Setpoint<V> {
    pub some: bool,
    pub value: V,
    pub silence: u32,
    pub ifs: bool,
}

// What decides value, status and order in Auto and RCas: the last usable setpoint; by FSAFE_TYPE the fail-safe value, the
// last usable setpoint or none, or the safe position.
#[derive(Clone, Copy)]
pub enum Case<V> {
    Following(V),
    Fallback(V),
    Held(Option<V>),
    Safety,
}

// The drive order.
#[derive(Clone, Copy)]
pub enum Order<O> {
    Position(O),
    Safe,
    Rest,
}

// What a tick gives: OUT, and the drive order.
#[derive(Clone, Copy)]
pub struct Given<O> {
    pub out: PairOf<O>,
    pub order: Order<O>,
}

// FSAFE_TIME, FSAFE_TYPE and the value to fall back on. The type is a code, as the settings have it: it is matched in one
// place, and an enum would be one conversion more.
#[derive(Clone, Copy)]
pub struct FailSafe<V> {
    pub time: u32,
    pub kind: u32,
    pub value: V,
}

// An output block's settings, as far as its decision asks for them.
pub trait Drive {
    // Of a setpoint, and of OUT.
    type Value: Copy;

    type Out: Value;

    ghost fail_safe: { Self → FailSafe Self.Value };

    ghost scaled: { Self → Self.Value → Option Self.Out };

    fn fail_safe(&self) -> FailSafe<Self::Value>
        ensures { result ≡ fail_safe self.now };

    // OUT by a working value; none where that is not finite.
    fn scaled(&self, w: Self::Value) -> Option<Self::Out>
        ensures { result ≡ scaled self.now w };
}

#[tactic(auto, unfolding(crate::specs::FailSafe::class_of))]
pub fn class_of(status: u8) -> Class
    ensures { result ≡ class_of status }
{
    let good = matches!(wire::quality(status), Quality::Good | Quality::GoodCascade);
    if !good {
        return Class::Neither;
    }
    if wire::sub_status(status) == 8 {
        return Class::InitiateFailSafe;
    }
    Class::Usable
}

// The last n that is counted.
const LONGEST_SILENCE: u32 = 65_536;

impl<V: Copy> Setpoint<V> {
    #[tactic(auto, unfolding(crate::specs::FailSafe::emptied))]
    pub fn emptied(zero: V) -> Setpoint<V>
        ensures { result ≡ emptied zero }
    {
        Setpoint {
            some: false,
            value: zero,
            silence: 0,
            ifs: false,
        }
    }

    // A telegram: its status, and its value where that may be followed.
    #[tactic(auto, unfolding(crate::specs::FailSafe::after_telegram, crate::specs::FailSafe::usable, crate::specs::FailSafe::initiates))]
    pub fn hear(&mut self, status: u8, value: Option<V>)
        ensures { self.new ≡ after_telegram status value self.old }
    {
        match class_of(status) {
            Class::Usable => {
                if let Some(value) = value {
                    *self = Setpoint {
                        some: true,
                        value,
                        silence: 0,
                        ifs: false,
                    };
                }
            }
            Class::InitiateFailSafe => self.ifs = true,
            Class::Neither => {}
        }
    }

    #[tactic(auto, unfolding(crate::specs::FailSafe::after_tick, crate::specs::FailSafe::silence_after))]
    pub fn tick(&mut self)
        ensures { self.new ≡ after_tick self.old }
    {
        self.silence = if self.some {
            min(self.silence, LONGEST_SILENCE - 1) + 1
        } else {
            0
        };
    }

    // Whether fail-safe acts.
    #[tactic(auto, unfolding(crate::specs::FailSafe::fail_safe_acts))]
    fn acts(&self, time: u32) -> bool
        ensures { result ≡ fail_safe_acts self.now.some self.now.silence self.now.ifs time }
    {
        !self.some | (self.silence > time) | self.ifs
    }

    // The case of a tick in Auto or RCas.
    #[tactic(auto, unfolding(crate::specs::FailSafe::case_of, crate::specs::FailSafe::fail_safe_case))]
    pub fn case(&self, by: FailSafe<V>) -> Case<V>
        ensures { result ≡ case_of by.time by.kind by.value self.now }
    {
        if !self.acts(by.time) {
            return Case::Following(self.value);
        }
        match by.kind {
            0 => Case::Fallback(by.value),
            1 => Case::Held(self.some.then_some(self.value)),
            _ => Case::Safety,
        }
    }
}

impl<O: Copy> Given<O> {
    // A pair, and the order to go to its value.
    pub fn positioned(out: PairOf<O>) -> Given<O>
        ensures { result ≡ positioned out }
    {
        Given {
            out,
            order: Order::Position(out.value),
        }
    }
}

impl<V: Copy> Case<V> {
    // What the case gives, by OUT's old value.
    #[tactic(auto, unfolding(crate::specs::FailSafe::leads_to))]
    pub fn leads_to<S: Drive<Value = V>>(self, settings: &S, old: S::Out) -> Given<S::Out>
        ensures { result ≡ leads_to (S.scaled settings.now) old self }
    {
        let (w, status) = match self {
            Case::Following(w) => (w, 0x80),
            Case::Fallback(w) => (w, 0x48),
            Case::Held(Some(w)) => (w, 0x44),
            Case::Held(None) => return Given::positioned(PairOf::new(old, 0x4c)),
            Case::Safety => {
                return Given {
                    out: PairOf::new(old, 0x00),
                    order: Order::Safe,
                };
            }
        };
        Given::positioned(match settings.scaled(w) {
            Some(out) => PairOf::new(out, status),
            None => PairOf::new(old, 0x04),
        })
    }
}

// What a tick gives in its actual mode, by OUT's old value, the operator's pair and the input that the mode uses. AO and DO
// pick it themselves: handed both inputs to pick by RCAS, this made a device's tick 19 instructions dearer.
#[tactic(auto, unfolding(crate::specs::FailSafe::by_mode))]
pub fn given_in<S: Drive>(
    settings: &S,
    mode: u32,
    old: S::Out,
    operator: PairOf<S::Out>,
    input: &Setpoint<S::Value>,
) -> Given<S::Out>
    ensures { result ≡ by_mode mode old operator (leads_to (S.scaled settings.now) old (case_of (S.fail_safe settings.now).time (S.fail_safe settings.now).kind (S.fail_safe settings.now).value input.now)) }
{
    match mode {
        OUT_OF_SERVICE => Given {
            out: PairOf::held(old),
            order: Order::Rest,
        },
        MAN => Given::positioned(operator),
        _ => input.case(settings.fail_safe()).leads_to(settings, old),
    }
}
