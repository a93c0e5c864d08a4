// TOT, the totalizer: its settings, its state and its tick (document 01, TOT tick and Mode).
#![tactic(auto)]

ghost use Rattle.std.specs.Prelude.{◌≡◌};
ghost use Rattle.tot.specs.Total.{increment_of, wanted, thousandths_of, given_bits, next_total};
ghost use Rattle.tot.specs.Tick.{fail_rate, added_rate, adds, fail_status, auto_status, auto_tick, man_tick, out_of_service_tick, tick_of};
ghost use Rattle.tot.specs.State.{fresh_state, written_state, warm_started};

use blocks::{Kept, PairOf};
use numbers::floats::{bits_of, float_of, is_finite};
use numbers::whole::{cut, limited, limited_sum, value_of};
use wire::Pair;

// The total counts thousandths: of a rate of 1 a tick of 0.1 s adds 100, and a value of 1 is 1000.
const RATE_FACTOR: f32 = 100.0;

const TOTAL_FACTOR: f32 = 1000.0;

const INCREMENT_LIMIT: i64 = 1_000_000_000;

const TOTAL_LIMIT: i64 = 1_000_000_000_000;

// The stored parameters; codes are numbers, as C holds them and as words are stored.
#[repr(C)]
#[derive(Clone, Copy)]
pub struct Settings {
    pub target: u32,
    pub set_tot: u32,
    pub mode_tot: u32,
    pub fail_tot: u32,
    pub preset_tot: f32,
}

// The total, and what ticks and the operator change.
#[repr(C)]
#[derive(Clone, Copy)]
pub struct State {
    // In thousandths.
    pub total: i64,
    // TOTAL as last given.
    pub out: Pair,
    // The actual mode's code.
    pub mode: u32,
    // The last usable Auto rate.
    pub rate: Kept,
    pub operator_status: u8,
}

// A value in thousandths.
pub fn thousandths(value: f32) -> i64
    ensures { result ≡ thousandths_of value }
{
    cut(value * TOTAL_FACTOR)
}

// What a rate adds in a tick, before MODE_TOT.
pub fn increment(rate: f32) -> i64
    ensures { result ≡ increment_of rate }
{
    limited(cut(rate * RATE_FACTOR), INCREMENT_LIMIT)
}

// The bits of the value that a total is given as.
pub fn given(total: i64) -> u32
    ensures { result ≡ given_bits total }
{
    bits_of(value_of(total) / TOTAL_FACTOR)
}

impl Settings {
    // An increment, or 0 where MODE_TOT drops it.
    #[tactic(auto, unfolding(crate::specs::Total::wanted))]
    fn wanted(&self, z: i64) -> i64
        ensures { result ≡ wanted self.now.mode_tot z }
    {
        match self.mode_tot {
            0 => z,
            1 if z >= 0 => z,
            2 if z < 0 => z,
            _ => 0,
        }
    }

    // What is added for a rate, if there is one.
    fn added(&self, rate: Option<f32>) -> i64
        ensures { result ≡ adds self.now.mode_tot rate }
    {
        rate.map_or(0, |rate| self.wanted(increment(rate)))
    }

    // The rate that is added for in an Auto tick that is not usable.
    #[tactic(auto, unfolding(crate::specs::Tick::fail_rate))]
    fn fail_rate(&self, last: Option<f32>, rate: f32) -> Option<f32>
        ensures { result ≡ fail_rate self.now.fail_tot last rate }
    {
        match self.fail_tot {
            0 => is_finite(rate).then_some(rate),
            1 => None,
            _ => last,
        }
    }

    // The rate that is added for in an Auto tick.
    fn added_rate(&self, last: Option<f32>, rate: f32, input: Result<(), u8>) -> Option<f32>
        ensures { result ≡ added_rate self.now.fail_tot last rate input }
    {
        match input {
            Ok(()) => Some(rate),
            Err(_) => self.fail_rate(last, rate),
        }
    }

    // The status of an Auto tick that is not usable.
    #[tactic(auto, unfolding(crate::specs::Tick::fail_status))]
    fn fail_status(&self, last: Option<f32>, bad: u8) -> u8
        ensures { result ≡ fail_status self.now.set_tot self.now.fail_tot last bad }
    {
        if self.set_tot != 0 {
            return bad;
        }
        match (self.fail_tot, last) {
            (0, _) => bad,
            (1, _) => 0x40,
            (_, Some(_)) => 0x44,
            (_, None) => 0x4c,
        }
    }

    // The status of an Auto tick.
    fn status(&self, last: Option<f32>, status: u8, input: Result<(), u8>) -> u8
        ensures { result ≡ auto_status self.now.set_tot self.now.fail_tot last status input }
    {
        match input {
            Ok(()) => status,
            Err(bad) => self.fail_status(last, bad),
        }
    }

    // The total after an Auto tick that adds z where SET_TOT lets it.
    #[tactic(auto, unfolding(crate::specs::Total::next_total, crate::specs::Total::sum_of))]
    fn next_total(&self, total: i64, z: i64) -> i64
        ensures { result ≡ next_total self.now.set_tot self.now.preset_tot total z }
    {
        match self.set_tot {
            0 => limited_sum(total, z, TOTAL_LIMIT),
            1 => 0,
            _ => thousandths(self.preset_tot),
        }
    }
}

impl State {
    pub fn fresh() -> State
        ensures { result ≡ fresh_state }
    {
        State {
            total: 0,
            out: Pair::from(PairOf::held(0)),
            mode: blocks::OUT_OF_SERVICE,
            rate: Kept::from(None),
            operator_status: blocks::FRESH_STATUS,
        }
    }

    // The block's tick: the fault flag, and the transducer's value with its status.
    #[tactic(auto, unfolding(crate::specs::Tick::tick_of, crate::specs::Tick::tick_by))]
    pub fn tick(&mut self, settings: &Settings, fault: bool, input: Pair)
        ensures { self.new ≡ tick_of settings.now self.old fault input.bits input.status }
    {
        match blocks::actual_mode(fault, settings.target) {
            blocks::OUT_OF_SERVICE => self.tick_out_of_service(),
            blocks::MAN => self.tick_man(),
            mode => self.tick_auto(settings, mode, input),
        }
    }

    #[tactic(auto, unfolding(crate::specs::Tick::out_of_service_tick))]
    fn tick_out_of_service(&mut self)
        ensures { self.new ≡ out_of_service_tick self.old }
    {
        self.out = Pair::from(PairOf::held(self.out.bits));
        self.mode = blocks::OUT_OF_SERVICE;
    }

    #[tactic(auto, unfolding(crate::specs::Tick::man_tick))]
    fn tick_man(&mut self)
        ensures { self.new ≡ man_tick self.old }
    {
        self.out = Pair {
            bits: given(self.total),
            status: self.operator_status,
        };
        self.mode = blocks::MAN;
    }

    #[tactic(auto, unfolding(crate::specs::Tick::auto_tick, crate::specs::Tick::auto_total, crate::specs::Tick::tick_adds, crate::specs::Tick::tick_rate, crate::specs::Tick::tick_status, crate::specs::Tick::input_of))]
    fn tick_auto(&mut self, settings: &Settings, mode: u32, input: Pair)
        ensures { self.new ≡ auto_tick settings.now self.old mode input.bits input.status }
    {
        let rate = float_of(input.bits);
        let judged = blocks::input_status(input.status, is_finite(rate), true);
        let last = Option::from(self.rate);
        let added = settings.added_rate(last, rate, judged);
        self.total = settings.next_total(self.total, settings.added(added));
        self.out = Pair {
            bits: given(self.total),
            status: settings.status(last, input.status, judged),
        };
        self.mode = mode;
        if judged.is_ok() {
            self.rate = Kept::from(Some(rate));
        }
    }

    // An accepted write of TOTAL: the total is set, the status kept for Man ticks; what was given shows it only then.
    pub fn operate(&mut self, pair: Pair)
        ensures { self.new ≡ written_state self.old pair.bits pair.status }
    {
        self.total = thousandths(float_of(pair.bits));
        self.operator_status = pair.status;
    }

    pub fn warm_start(&mut self)
        ensures { self.new ≡ warm_started self.old }
    {
        *self = State {
            total: self.total,
            out: Pair::from(PairOf::held(self.out.bits)),
            ..State::fresh()
        };
    }
}
