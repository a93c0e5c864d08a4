// AO, the analog output block (document 01, AO tick): setpoint telegrams on two inputs, fail-safe, scaling, and the
// order that drives the valve. What DO has too is in `blocks`, over the kind of value, but for `Input` and the methods of
// `State`: C holds these structs, so they are not generic, and a trait over AO's and DO's would need an accessor with a
// contract for each field that a method touches, more lines than the methods have.
#![tactic(auto)]

ghost use Rattle.std.specs.Prelude.{◌≡◌};
ghost use Rattle.ao.specs.State.{input_of, input_from, fresh_state, started, warm_started, operated_by};
ghost use Rattle.ao.specs.Telegram.{input_after, telegram_of};
ghost use Rattle.ao.specs.Tick.{fail_safe_of, scaled_out, out_of, drive_order, given_in, input_after_tick, tick_of};

use blocks::PairOf;
use blocks::setpoint::{Drive, FailSafe, Given, Order, Setpoint};
use numbers::floats::{bits_of, float_of, is_finite};
use scaling::Scale;
use wire::{Pair, Refusal};

// The stored parameters that the tick goes by; codes are numbers, as C holds them and as words are stored.
#[repr(C)]
#[derive(Clone, Copy)]
pub struct Settings {
    pub target: u32,
    pub pv_scale: Scale,
    pub out_scale: Scale,
    pub fsafe_time: u32,
    pub fsafe_type: u32,
    pub fsafe_value: f32,
    pub increase_close: u32,
}

// A setpoint input, by the fields of a Setpoint.
#[repr(C)]
#[derive(Clone, Copy)]
pub struct Input {
    pub some: bool,
    pub value: f32,
    pub silence: u32,
    pub ifs: bool,
}

// OUT as last given, the actual mode of the last tick, the operator's pair, and the inputs SP and RCAS_IN.
#[repr(C)]
#[derive(Clone, Copy)]
pub struct State {
    pub out: Pair,
    pub mode: u32,
    pub operator: Pair,
    pub sp: Input,
    pub rcas_in: Input,
}

// ---- a setpoint input

impl From<Input> for Setpoint<f32> {
    fn from(input: Input) -> Setpoint<f32>
        ensures { result ≡ input_of input }
    {
        Setpoint {
            some: input.some,
            value: input.value,
            silence: input.silence,
            ifs: input.ifs,
        }
    }
}

impl From<Setpoint<f32>> for Input {
    fn from(setpoint: Setpoint<f32>) -> Input
        ensures { result ≡ input_from setpoint }
    {
        Input {
            some: setpoint.some,
            value: setpoint.value,
            silence: setpoint.silence,
            ifs: setpoint.ifs,
        }
    }
}

impl Input {
    #[tactic(auto, unfolding(crate::specs::Telegram::input_after))]
    fn hear(&mut self, pair: Pair)
        ensures { self.new ≡ input_after self.old pair }
    {
        let mut setpoint = Setpoint::from(*self);
        let value = float_of(pair.bits);
        setpoint.hear(pair.status, is_finite(value).then_some(value));
        *self = Input::from(setpoint);
    }

    fn tick(&mut self)
        ensures { self.new ≡ input_after_tick self.old }
    {
        let mut setpoint = Setpoint::from(*self);
        setpoint.tick();
        *self = Input::from(setpoint);
    }
}

// ---- the settings

impl Settings {
    // OUT by a working value, also where it is not finite.
    #[tactic(auto, unfolding(crate::specs::Tick::scaled_out))]
    fn scaled_out(&self, w: f32) -> f32
        ensures { result ≡ scaled_out self.now w }
    {
        let f = self.pv_scale.fraction(w);
        if self.increase_close == 1 {
            return self.out_scale.at_fraction(1.0 - f);
        }
        self.out_scale.at_fraction(f)
    }
}

impl Drive for Settings {
    type Value = f32;

    type Out = u32;

    ghost fail_safe = { fail_safe_of };

    ghost scaled = { out_of };

    fn fail_safe(&self) -> FailSafe<f32> {
        FailSafe {
            time: self.fsafe_time,
            kind: self.fsafe_type,
            value: self.fsafe_value,
        }
    }

    #[tactic(auto, unfolding(crate::specs::Tick::out_of))]
    fn scaled(&self, w: f32) -> Option<u32> {
        let out = self.scaled_out(w);
        is_finite(out).then_some(bits_of(out))
    }
}

// ---- the state

impl State {
    #[tactic(auto, unfolding(crate::specs::State::started, crate::specs::State::no_telegrams))]
    fn start(bits: u32) -> State
        ensures { result ≡ started bits }
    {
        let no_telegrams = Input::from(Setpoint::emptied(0.0));
        State {
            out: Pair::from(PairOf::held(bits)),
            mode: blocks::OUT_OF_SERVICE,
            operator: Pair::from(PairOf::fresh()),
            sp: no_telegrams,
            rcas_in: no_telegrams,
        }
    }

    #[tactic(auto, unfolding(crate::specs::State::fresh_state))]
    pub fn fresh() -> State
        ensures { result ≡ fresh_state }
    {
        State::start(0)
    }

    #[tactic(auto, unfolding(crate::specs::State::warm_started))]
    pub fn warm_start(&mut self)
        ensures { self.new ≡ warm_started self.old }
    {
        *self = State::start(self.out.bits);
    }

    // An accepted write of OUT.
    #[tactic(auto, unfolding(crate::specs::State::operated_by))]
    pub fn operate(&mut self, pair: Pair)
        ensures { self.new ≡ operated_by self.old pair }
    {
        self.operator = pair;
    }

    // A telegram on the input 0 (SP) or 1 (RCAS_IN).
    #[tactic(auto, unfolding(crate::specs::Telegram::telegram_of, crate::specs::Telegram::taken_on))]
    pub fn telegram(&mut self, input: u8, bytes: &[u8]) -> Result<(), Refusal>
        ensures answer { result ≡ (telegram_of self.old input bytes.now).answer }
        ensures state { self.new ≡ (telegram_of self.old input bytes.now).state }
    {
        if input > 1 {
            return Err(Refusal::NoSuchInput);
        }
        let pair = Pair::try_from(bytes)?;
        if input == 0 {
            self.sp.hear(pair);
        } else {
            self.rcas_in.hear(pair);
        }
        Ok(())
    }

    // What a tick gives in its actual mode.
    #[tactic(auto, unfolding(crate::specs::Tick::given_in, crate::specs::Tick::given_by_input, crate::specs::Tick::given_by, crate::specs::Tick::input_used))]
    fn given(&self, settings: &Settings, mode: u32) -> Given<u32>
        ensures { result ≡ given_in settings.now self.now mode }
    {
        let input = if mode == blocks::RCAS {
            self.rcas_in
        } else {
            self.sp
        };
        blocks::setpoint::given_in(
            settings,
            mode,
            self.out.bits,
            PairOf::from(self.operator),
            &Setpoint::from(input),
        )
    }

    #[tactic(auto, unfolding(crate::specs::Tick::tick_of, crate::specs::Tick::ticked_with))]
    pub fn tick(&mut self, settings: &Settings, fault: bool) -> Order<f32>
        ensures order { result ≡ (tick_of settings.now self.old fault).order }
        ensures state { self.new ≡ (tick_of settings.now self.old fault).state }
    {
        let mode = blocks::actual_mode(fault, settings.target);
        let given = self.given(settings, mode);
        self.out = Pair::from(given.out);
        self.mode = mode;
        self.sp.tick();
        self.rcas_in.tick();
        driven(given.order)
    }
}

// An order as the tick answers it, OUT's bits as a value. No From, as both types are of `blocks`, which knows no `float_of`.
fn driven(order: Order<u32>) -> Order<f32>
    ensures { result ≡ drive_order order }
{
    match order {
        Order::Position(bits) => Order::Position(float_of(bits)),
        Order::Safe => Order::Safe,
        Order::Rest => Order::Rest,
    }
}
