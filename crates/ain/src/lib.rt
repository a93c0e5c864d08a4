// AIN, the analog input block: its settings, its state and its tick (document 01, AIN tick and Mode;
// document 02, request 1).
#![tactic(auto)]

ghost use Rattle.std.specs.Prelude.{◌≡◌, true, false};
ghost use Rattle.ain.specs.Scaling.{scaled_of, filtered};
ghost use Rattle.ain.specs.Alarm.{alarm_stands, alarms_of, alarm_byte, alarm_status, no_alarms};
ghost use Rattle.ain.specs.Tick.{measured, fail_safe_out, usable_tick, unusable_tick, auto_tick, man_tick, out_of_service_tick, tick_of};
ghost use Rattle.ain.specs.State.{fresh_state, operated_state, warm_started};

use blocks::{Kept, PairOf};
use linearisation::Table;
use numbers::floats::{bits_of, float_of, is_finite};
use scaling::Scale;
use wire::Pair;
use wire::status::Quality;

// The stored parameters; codes are numbers, as C holds them and as words are stored.
#[repr(C)]
#[derive(Clone, Copy)]
pub struct Settings {
    pub target: u32,
    pub pv_scale: Scale,
    pub out_scale: Scale,
    pub lin_type: u32,
    pub pv_ftime: f32,
    pub fsafe_type: u32,
    pub fsafe_value: f32,
    pub alarm_hys: f32,
    pub hi_hi_lim: f32,
    pub hi_lim: f32,
    pub lo_lim: f32,
    pub lo_lo_lim: f32,
}

// Which alarms stand.
#[repr(C)]
#[derive(Clone, Copy, Default)]
pub struct Alarms {
    pub hi_hi: bool,
    pub hi: bool,
    pub lo: bool,
    pub lo_lo: bool,
}

// What ticks change, and the operator's pair.
#[repr(C)]
#[derive(Clone, Copy)]
pub struct State {
    // OUT as last given.
    pub out: Pair,
    // The actual mode's code.
    pub mode: u32,
    // The filter value.
    pub filter: Kept,
    // The last usable Auto value.
    pub last: Kept,
    pub operator: Pair,
    pub alarms: Alarms,
}

// What a tick makes of a transducer's value.
impl Settings {
    // The value that is scaled: under LIN_TYPE 1 by the table.
    #[tactic(auto, unfolding(crate::specs::Tick::measured))]
    fn measured(&self, table: &Table, x: f32) -> f32
        ensures { result ≡ measured self.now.lin_type table.now x }
    {
        match self.lin_type {
            1 => table.value_at(x),
            _ => x,
        }
    }

    #[tactic(auto, unfolding(crate::specs::Scaling::scaled_of))]
    fn scaled(&self, x: f32) -> f32
        ensures { result ≡ scaled_of self.now.pv_scale self.now.out_scale x }
    {
        self.out_scale.at_fraction(self.pv_scale.fraction(x))
    }

    // One filter step.
    fn filtered(&self, old: Kept, scaled: f32) -> f32
        ensures { result ≡ filtered self.now.pv_ftime old scaled }
    {
        if self.pv_ftime == 0.0 {
            return scaled;
        }
        match Option::<f32>::from(old) {
            Some(pv) => pv + (scaled - pv) / (self.pv_ftime * 10.0 + 1.0),
            None => scaled,
        }
    }

    // OUT of an Auto tick that is not usable.
    #[tactic(auto, unfolding(crate::specs::Tick::fail_safe_out))]
    fn fail_safe(&self, last: Kept, scaled: f32, old: Pair, bad: u8) -> Pair
        ensures { result ≡ fail_safe_out self.now.fsafe_type self.now.fsafe_value last scaled old bad }
    {
        let pair = blocks::fail_safe_pair(
            self.fsafe_type,
            bits_of(self.fsafe_value),
            Option::<f32>::from(last).map(bits_of),
            is_finite(scaled).then_some(bits_of(scaled)),
            old.bits,
            bad,
        );
        Pair::from(pair)
    }
}

// Whether a high alarm stands after a tick.
#[tactic(auto, unfolding(crate::specs::Alarm::alarm_stands, crate::specs::Alarm::rises, crate::specs::Alarm::falls))]
fn high_stands(stood: bool, limit: f32, hysteresis: f32, out: f32) -> bool
    ensures { result ≡ alarm_stands false stood limit hysteresis out }
{
    out >= limit || stood && !(out < limit - hysteresis)
}

// Whether a low alarm stands after a tick.
#[tactic(auto, unfolding(crate::specs::Alarm::alarm_stands, crate::specs::Alarm::rises, crate::specs::Alarm::falls))]
fn low_stands(stood: bool, limit: f32, hysteresis: f32, out: f32) -> bool
    ensures { result ≡ alarm_stands true stood limit hysteresis out }
{
    out <= limit || stood && !(out > limit + hysteresis)
}

impl Alarms {
    // The alarms after a tick outside O/S.
    #[tactic(auto, unfolding(crate::specs::Alarm::alarms_of))]
    fn judge(&mut self, s: &Settings, out: f32)
        ensures { self.new ≡ alarms_of s.now self.old out }
    {
        let hys = s.alarm_hys;
        self.hi_hi = high_stands(self.hi_hi, s.hi_hi_lim, hys, out);
        self.hi = high_stands(self.hi, s.hi_lim, hys, out);
        self.lo = low_stands(self.lo, s.lo_lim, hys, out);
        self.lo_lo = low_stands(self.lo_lo, s.lo_lo_lim, hys, out);
    }

    // The byte by which they are read: a bit for each.
    #[tactic(auto, unfolding(crate::specs::Alarm::alarm_byte))]
    pub fn byte(self) -> u8
        ensures { result ≡ alarm_byte self }
    {
        u8::from(self.hi_hi)
            + 2 * u8::from(self.hi)
            + 4 * u8::from(self.lo)
            + 8 * u8::from(self.lo_lo)
    }

    // The status of a usable tick: the alarms' in its place where the input's quality is 2.
    #[tactic(auto, unfolding(crate::specs::Alarm::alarm_status))]
    fn status(self, status: u8) -> u8
        ensures { result ≡ alarm_status self status }
    {
        if wire::quality(status) != Quality::Good {
            return status;
        }
        match self {
            Alarms { hi_hi: true, .. } => 0x8e,
            Alarms { lo_lo: true, .. } => 0x8d,
            Alarms { hi: true, .. } => 0x8a,
            Alarms { lo: true, .. } => 0x89,
            _ => status,
        }
    }
}

impl State {
    pub fn fresh() -> State
        ensures { result ≡ fresh_state }
    {
        State {
            out: Pair::from(PairOf::held(0)),
            mode: blocks::OUT_OF_SERVICE,
            filter: Kept::from(None),
            last: Kept::from(None),
            operator: Pair::from(PairOf::fresh()),
            alarms: Alarms::default(),
        }
    }

    // The block's tick: the table, the fault flag, and the transducer's value with its status.
    #[tactic(auto, unfolding(crate::specs::Tick::tick_of, crate::specs::Tick::tick_by))]
    pub fn tick(&mut self, settings: &Settings, table: &Table, fault: bool, input: Pair)
        ensures { self.new ≡ tick_of settings.now table.now self.old fault input.bits input.status }
    {
        match blocks::actual_mode(fault, settings.target) {
            blocks::OUT_OF_SERVICE => self.tick_out_of_service(),
            blocks::MAN => self.tick_man(settings),
            mode => self.tick_auto(settings, table, mode, input),
        }
    }

    #[tactic(auto, unfolding(crate::specs::Tick::out_of_service_tick))]
    fn tick_out_of_service(&mut self)
        ensures { self.new ≡ out_of_service_tick self.old }
    {
        self.out = Pair::from(PairOf::held(self.out.bits));
        self.mode = blocks::OUT_OF_SERVICE;
        self.filter = Kept::from(None);
        self.alarms = Alarms::default();
    }

    #[tactic(auto, unfolding(crate::specs::Tick::man_tick))]
    fn tick_man(&mut self, settings: &Settings)
        ensures { self.new ≡ man_tick settings.now self.old }
    {
        self.out = self.operator;
        self.mode = blocks::MAN;
        self.filter = Kept::from(None);
        self.alarms.judge(settings, float_of(self.operator.bits));
    }

    #[tactic(auto, unfolding(crate::specs::Tick::auto_tick, crate::specs::Tick::input_of, crate::specs::Tick::scaled_value, crate::specs::Tick::calculated))]
    fn tick_auto(&mut self, settings: &Settings, table: &Table, mode: u32, input: Pair)
        ensures { self.new ≡ auto_tick settings.now table.now self.old mode input.bits input.status }
    {
        let x = float_of(input.bits);
        let scaled = settings.scaled(settings.measured(table, x));
        let pv = settings.filtered(self.filter, scaled);
        let calculated = is_finite(scaled) && is_finite(pv);
        match blocks::input_status(input.status, is_finite(x), calculated) {
            Ok(()) => self.tick_usable(settings, mode, pv, input.status),
            Err(bad) => self.tick_unusable(settings, mode, scaled, bad),
        }
    }

    #[tactic(auto, unfolding(crate::specs::Tick::usable_tick))]
    fn tick_usable(&mut self, settings: &Settings, mode: u32, pv: f32, status: u8)
        ensures { self.new ≡ usable_tick settings.now self.old mode pv status }
    {
        let bits = bits_of(pv);
        self.alarms.judge(settings, float_of(bits));
        let status = self.alarms.status(status);
        self.out = Pair { bits, status };
        self.mode = mode;
        self.filter = Kept::from(Some(pv));
        self.last = Kept::from(Some(pv));
    }

    #[tactic(auto, unfolding(crate::specs::Tick::unusable_tick))]
    fn tick_unusable(&mut self, settings: &Settings, mode: u32, scaled: f32, bad: u8)
        ensures { self.new ≡ unusable_tick settings.now self.old mode scaled bad }
    {
        self.out = settings.fail_safe(self.last, scaled, self.out, bad);
        self.mode = mode;
        self.alarms.judge(settings, float_of(self.out.bits));
    }

    // The operator's pair is taken for Man ticks; OUT shows it only then.
    pub fn operate(&mut self, pair: Pair)
        ensures { self.new ≡ operated_state self.old pair }
    {
        self.operator = pair;
    }

    pub fn warm_start(&mut self)
        ensures { self.new ≡ warm_started self.old }
    {
        let out = Pair::from(PairOf::held(self.out.bits));
        *self = State {
            out,
            ..State::fresh()
        };
    }
}
