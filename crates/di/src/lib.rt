// DI, the discrete input block: its settings, its state and its tick (document 02, request 3, by document 01, AIN tick
// and Mode).
#![tactic(auto)]

ghost use Rattle.std.specs.Prelude.{◌≡◌};
ghost use Rattle.blocks.specs.InputBlock.{present};
ghost use Rattle.di.specs.Kept.{as_kept};
ghost use Rattle.di.specs.Tick.{fail_safe_out, usable_tick, unusable_tick, auto_tick, man_tick, out_of_service_tick, tick_of};
ghost use Rattle.di.specs.State.{fresh_state, operated_state, warm_started};

use blocks::PairOf;
use wire::Discrete;

// The stored parameters; codes are numbers, as C holds them and as words are stored.
#[repr(C)]
#[derive(Clone, Copy)]
pub struct Settings {
    pub target: u32,
    pub invert: u32,
    pub fsafe_type: u32,
    pub fsafe_val_d: u32,
}

// A value that may be missing, as a device holds it: C knows no Option. While it is missing, the value is 0.
#[repr(C)]
#[derive(Clone, Copy)]
pub struct Kept {
    pub some: bool,
    pub value: u8,
}

// What ticks change, and the operator's pair.
#[repr(C)]
#[derive(Clone, Copy)]
pub struct State {
    // OUT_D as last given.
    pub out: Discrete,
    // The actual mode's code.
    pub mode: u32,
    // The last usable Auto value.
    pub last: Kept,
    pub operator: Discrete,
}

impl From<Option<u8>> for Kept {
    fn from(value: Option<u8>) -> Kept
        ensures { result ≡ as_kept value }
    {
        match value {
            Some(value) => Kept { some: true, value },
            None => Kept {
                some: false,
                value: 0,
            },
        }
    }
}

impl From<Kept> for Option<u8> {
    fn from(kept: Kept) -> Option<u8>
        ensures { result ≡ present kept.some kept.value }
    {
        kept.some.then_some(kept.value)
    }
}

impl Settings {
    // OUT_D of an Auto tick that is not usable.
    #[tactic(auto, unfolding(crate::specs::Tick::fail_safe_out))]
    fn fail_safe(&self, last: Kept, value: u8, old: Discrete, bad: u8) -> Discrete
        ensures { result ≡ fail_safe_out self.now last value old bad }
    {
        let pair = blocks::fail_safe_pair(
            self.fsafe_type,
            blocks::discrete_value(self.fsafe_val_d),
            Option::<u8>::from(last),
            blocks::is_discrete(value).then_some(blocks::inverted(self.invert, value)),
            old.value,
            bad,
        );
        Discrete::from(pair)
    }
}

// As AIN's, without a filter and alarms: two, as the states that C holds are two types.
impl State {
    pub fn fresh() -> State
        ensures { result ≡ fresh_state }
    {
        State {
            out: Discrete::from(PairOf::held(0)),
            mode: blocks::OUT_OF_SERVICE,
            last: Kept::from(None),
            operator: Discrete::from(PairOf::fresh()),
        }
    }

    // The block's tick: the fault flag, and the transducer's value with its status.
    #[tactic(auto, unfolding(crate::specs::Tick::tick_of, crate::specs::Tick::tick_by))]
    pub fn tick(&mut self, settings: &Settings, fault: bool, input: Discrete)
        ensures { self.new ≡ tick_of settings.now self.old fault input.value input.status }
    {
        match blocks::actual_mode(fault, settings.target) {
            blocks::OUT_OF_SERVICE => self.tick_out_of_service(),
            blocks::MAN => self.tick_man(),
            mode => self.tick_auto(settings, mode, input),
        }
    }

    #[tactic(auto, unfolding(crate::specs::Tick::out_of_service_tick))]
    fn tick_out_of_service(&mut self)
        ensures { self.new ≡ out_of_service_tick self.old }
    {
        self.out = Discrete::from(PairOf::held(self.out.value));
        self.mode = blocks::OUT_OF_SERVICE;
    }

    #[tactic(auto, unfolding(crate::specs::Tick::man_tick))]
    fn tick_man(&mut self)
        ensures { self.new ≡ man_tick self.old }
    {
        self.out = self.operator;
        self.mode = blocks::MAN;
    }

    #[tactic(auto, unfolding(crate::specs::Tick::auto_tick, crate::specs::Tick::input_of))]
    fn tick_auto(&mut self, settings: &Settings, mode: u32, input: Discrete)
        ensures { self.new ≡ auto_tick settings.now self.old mode input.value input.status }
    {
        let value = input.value;
        match blocks::input_status(input.status, true, blocks::is_discrete(value)) {
            Ok(()) => self.tick_usable(settings, mode, value, input.status),
            Err(bad) => self.tick_unusable(settings, mode, value, bad),
        }
    }

    #[tactic(auto, unfolding(crate::specs::Tick::usable_tick))]
    fn tick_usable(&mut self, settings: &Settings, mode: u32, value: u8, status: u8)
        ensures { self.new ≡ usable_tick settings.now self.old mode value status }
    {
        let value = blocks::inverted(settings.invert, value);
        self.out = Discrete { value, status };
        self.mode = mode;
        self.last = Kept::from(Some(value));
    }

    #[tactic(auto, unfolding(crate::specs::Tick::unusable_tick))]
    fn tick_unusable(&mut self, settings: &Settings, mode: u32, value: u8, bad: u8)
        ensures { self.new ≡ unusable_tick settings.now self.old mode value bad }
    {
        self.out = settings.fail_safe(self.last, value, self.out, bad);
        self.mode = mode;
    }

    // The operator's pair is taken for Man ticks; OUT_D shows it only then.
    pub fn operate(&mut self, pair: Discrete)
        ensures { self.new ≡ operated_state self.old pair }
    {
        self.operator = pair;
    }

    pub fn warm_start(&mut self)
        ensures { self.new ≡ warm_started self.old }
    {
        let out = Discrete::from(PairOf::held(self.out.value));
        *self = State {
            out,
            ..State::fresh()
        };
    }
}
