// DO, the discrete output block (document 02, request 3, by document 01, AO tick): setpoint telegrams on two inputs,
// fail-safe, INVERT, and the order that drives the sluice. What AO has too is in `blocks`, over the kind of value, but for
// `Input` and the methods of `State`, which are as AO's: `ao` says why.
#![tactic(auto)]

ghost use Rattle.std.specs.Prelude.{◌≡◌};
ghost use Rattle.dout.specs.State.{input_of, input_from, fresh_state, started, warm_started, operated_by};
ghost use Rattle.dout.specs.Telegram.{input_after, telegram_of};
ghost use Rattle.dout.specs.Tick.{fail_safe_of, scaled_of, given_in, input_after_tick, tick_of};

use blocks::PairOf;
use blocks::setpoint::{Drive, FailSafe, Given, Order, Setpoint};
use wire::{Discrete, Refusal};

// The stored parameters that the tick goes by; codes are numbers, as C holds them and as words are stored.
#[repr(C)]
#[derive(Clone, Copy)]
pub struct Settings {
    pub target: u32,
    pub invert: u32,
    pub fsafe_type: u32,
    pub fsafe_val_d: u32,
    pub fsafe_time: u32,
}

// A setpoint input, by the fields of a Setpoint.
#[repr(C)]
#[derive(Clone, Copy)]
pub struct Input {
    pub some: bool,
    pub value: u8,
    pub silence: u32,
    pub ifs: bool,
}

// OUT_D as last given, the actual mode of the last tick, the operator's pair, and the inputs SP_D and RCAS_IN_D.
#[repr(C)]
#[derive(Clone, Copy)]
pub struct State {
    pub out: Discrete,
    pub mode: u32,
    pub operator: Discrete,
    pub sp: Input,
    pub rcas_in: Input,
}

// ---- a setpoint input

impl From<Input> for Setpoint<u8> {
    fn from(input: Input) -> Setpoint<u8>
        ensures { result ≡ input_of input }
    {
        Setpoint {
            some: input.some,
            value: input.value,
            silence: input.silence,
            ifs: input.ifs,
        }
    }
}

impl From<Setpoint<u8>> for Input {
    fn from(setpoint: Setpoint<u8>) -> Input
        ensures { result ≡ input_from setpoint }
    {
        Input {
            some: setpoint.some,
            value: setpoint.value,
            silence: setpoint.silence,
            ifs: setpoint.ifs,
        }
    }
}

impl Input {
    #[tactic(auto, unfolding(crate::specs::Telegram::input_after))]
    fn hear(&mut self, pair: Discrete)
        ensures { self.new ≡ input_after self.old pair }
    {
        let mut setpoint = Setpoint::from(*self);
        let value = blocks::is_discrete(pair.value).then_some(pair.value);
        setpoint.hear(pair.status, value);
        *self = Input::from(setpoint);
    }

    fn tick(&mut self)
        ensures { self.new ≡ input_after_tick self.old }
    {
        let mut setpoint = Setpoint::from(*self);
        setpoint.tick();
        *self = Input::from(setpoint);
    }
}

// ---- the settings

impl Drive for Settings {
    type Value = u8;

    type Out = u8;

    ghost fail_safe = { fail_safe_of };

    ghost scaled = { scaled_of };

    fn fail_safe(&self) -> FailSafe<u8> {
        FailSafe {
            time: self.fsafe_time,
            kind: self.fsafe_type,
            value: blocks::discrete_value(self.fsafe_val_d),
        }
    }

    fn scaled(&self, w: u8) -> Option<u8> {
        Some(blocks::inverted(self.invert, w))
    }
}

// ---- the state

impl State {
    #[tactic(auto, unfolding(crate::specs::State::started, crate::specs::State::no_telegrams))]
    fn start(value: u8) -> State
        ensures { result ≡ started value }
    {
        let no_telegrams = Input::from(Setpoint::emptied(0));
        State {
            out: Discrete::from(PairOf::held(value)),
            mode: blocks::OUT_OF_SERVICE,
            operator: Discrete::from(PairOf::fresh()),
            sp: no_telegrams,
            rcas_in: no_telegrams,
        }
    }

    #[tactic(auto, unfolding(crate::specs::State::fresh_state))]
    pub fn fresh() -> State
        ensures { result ≡ fresh_state }
    {
        State::start(0)
    }

    #[tactic(auto, unfolding(crate::specs::State::warm_started))]
    pub fn warm_start(&mut self)
        ensures { self.new ≡ warm_started self.old }
    {
        *self = State::start(self.out.value);
    }

    // An accepted write of OUT_D.
    #[tactic(auto, unfolding(crate::specs::State::operated_by))]
    pub fn operate(&mut self, pair: Discrete)
        ensures { self.new ≡ operated_by self.old pair }
    {
        self.operator = pair;
    }

    // A telegram on the input 2 (SP_D) or 3 (RCAS_IN_D).
    #[tactic(auto, unfolding(crate::specs::Telegram::telegram_of, crate::specs::Telegram::taken_on))]
    pub fn telegram(&mut self, input: u8, bytes: &[u8]) -> Result<(), Refusal>
        ensures answer { result ≡ (telegram_of self.old input bytes.now).answer }
        ensures state { self.new ≡ (telegram_of self.old input bytes.now).state }
    {
        if !((input == 2) | (input == 3)) {
            return Err(Refusal::NoSuchInput);
        }
        let pair = Discrete::try_from(bytes)?;
        if input == 2 {
            self.sp.hear(pair);
        } else {
            self.rcas_in.hear(pair);
        }
        Ok(())
    }

    // What a tick gives in its actual mode.
    #[tactic(auto, unfolding(crate::specs::Tick::given_in, crate::specs::Tick::given_by_input, crate::specs::Tick::given_by, crate::specs::Tick::input_used))]
    fn given(&self, settings: &Settings, mode: u32) -> Given<u8>
        ensures { result ≡ given_in settings.now self.now mode }
    {
        let input = if mode == blocks::RCAS {
            self.rcas_in
        } else {
            self.sp
        };
        blocks::setpoint::given_in(
            settings,
            mode,
            self.out.value,
            PairOf::from(self.operator),
            &Setpoint::from(input),
        )
    }

    #[tactic(auto, unfolding(crate::specs::Tick::tick_of, crate::specs::Tick::ticked_with))]
    pub fn tick(&mut self, settings: &Settings, fault: bool) -> Order<u8>
        ensures order { result ≡ (tick_of settings.now self.old fault).order }
        ensures state { self.new ≡ (tick_of settings.now self.old fault).state }
    {
        let mode = blocks::actual_mode(fault, settings.target);
        let given = self.given(settings, mode);
        self.out = Discrete::from(given.out);
        self.mode = mode;
        self.sp.tick();
        self.rcas_in.tick();
        given.order
    }
}
