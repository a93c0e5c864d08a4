// The device: the five function blocks and write protection on one value that C can hold, and the calls on it
// (document 01, Calls on the device; document 02, requests 1 to 3).
#![tactic(auto)]

ghost use Rattle.std.specs.Prelude.{◌≡◌, refl, ◌==◌, ◌%◌, ℕ, true};
ghost use Rattle.wire.specs.Image.{image_answer, image_bytes, part_of, part_place};
ghost use Rattle.blocks.specs.Common.{operator_after};
ghost use Rattle.ain.specs.State.{operated_state as operated_ain};
ghost use Rattle.tot.specs.State.{written_state};
ghost use Rattle.ao.specs.Tick.{tick_of as ao_tick};
ghost use Rattle.ao.specs.State.{operated_by as operated_ao};
ghost use Rattle.di.specs.State.{operated_state as operated_di};
ghost use Rattle.dout.specs.Tick.{tick_of as dout_tick};
ghost use Rattle.dout.specs.State.{operated_by as operated_dout};
ghost use Rattle.parameters.specs.Table.{is_static};
ghost use Rattle.parameters.specs.Words.{pair_of, discrete_pair};
ghost use Rattle.parameters.specs.declared.Words.{Words};
ghost use Rattle.device.specs.declared.Head.{Head};
ghost use Rattle.device.specs.Factory.{factory_device};
ghost use Rattle.device.specs.Stored.{ain_settings, tot_settings, ao_settings, di_settings, dout_settings, rev_after};
ghost use Rattle.device.specs.Stored.{ain_written, tot_written, ao_written, di_written, dout_written, stored_in};
ghost use Rattle.device.specs.Steps.{head_of, ain_with, tot_with, ao_with, di_with, dout_with, in_steps};
ghost use Rattle.device.specs.Steps.{ain-in-steps, tot-in-steps, ao-in-steps, di-in-steps, dout-in-steps};
ghost use Rattle.device.specs.Read.{headed_words, ain_more, tot_more, ao_more, di_more, dout_more};
ghost use Rattle.device.specs.Read.{ain_words, tot_words, ao_words, di_words, dout_words, words_of, read_of};
ghost use Rattle.device.specs.Blocks.{ain_ticked, tot_ticked, ao_ticked, di_ticked, dout_ticked};
ghost use Rattle.device.specs.Calls.{standing_of, write_of, tick_of, telegram_of, tabled_by, load_of, warm_started};

use blocks::setpoint::Order;
use linearisation::Table;
use numbers::floats::float_of;
use parameters::{Standing, Words};
use scaling::Scale;
use wire::{Discrete, Pair, Refusal};

#[repr(C)]
#[derive(Clone, Copy)]
pub struct AinBlock {
    pub settings: ain::Settings,
    pub state: ain::State,
    pub st_rev: u16,
    pub table: Table,
}

#[repr(C)]
#[derive(Clone, Copy)]
pub struct TotBlock {
    pub settings: tot::Settings,
    pub state: tot::State,
    pub st_rev: u16,
}

#[repr(C)]
#[derive(Clone, Copy)]
pub struct AoBlock {
    pub settings: ao::Settings,
    pub state: ao::State,
    pub st_rev: u16,
}

#[repr(C)]
#[derive(Clone, Copy)]
pub struct DiBlock {
    pub settings: di::Settings,
    pub state: di::State,
    pub st_rev: u16,
}

#[repr(C)]
#[derive(Clone, Copy)]
pub struct DoutBlock {
    pub settings: dout::Settings,
    pub state: dout::State,
    pub st_rev: u16,
}

#[repr(C)]
#[derive(Clone, Copy)]
pub struct Device {
    pub write_locking: u32,
    pub ain: AinBlock,
    pub tot: TotBlock,
    pub ao: AoBlock,
    pub di: DiBlock,
    pub dout: DoutBlock,
}

// What a tick is fed beside the fault flag: the transducers' pairs of AIN, TOT and DI.
#[derive(Clone, Copy)]
pub struct Fed {
    pub ain: Pair,
    pub tot: Pair,
    pub di: Discrete,
}

// The drive orders of a tick.
#[derive(Clone, Copy)]
pub struct Orders {
    pub ao: Order<f32>,
    pub dout: Order<u8>,
}

// ---- factory

impl Default for AinBlock {
    ghost is_default = { λ block. block ≡ factory_device.ain };

    fn default() -> AinBlock {
        let scale = Scale {
            low: 0.0,
            high: 100.0,
        };
        AinBlock {
            settings: ain::Settings {
                target: blocks::AUTO,
                pv_scale: scale,
                out_scale: scale,
                lin_type: 0,
                pv_ftime: 0.0,
                fsafe_type: 1,
                fsafe_value: 0.0,
                alarm_hys: 0.5,
                hi_hi_lim: 1.0 / 0.0,
                hi_lim: 1.0 / 0.0,
                lo_lim: -1.0 / 0.0,
                lo_lo_lim: -1.0 / 0.0,
            },
            state: ain::State::fresh(),
            st_rev: 0,
            table: Table::default(),
        }
    }
}

impl Default for TotBlock {
    ghost is_default = { λ block. block ≡ factory_device.tot };

    fn default() -> TotBlock {
        TotBlock {
            settings: tot::Settings {
                target: blocks::AUTO,
                set_tot: 0,
                mode_tot: 0,
                fail_tot: 0,
                preset_tot: 0.0,
            },
            state: tot::State::fresh(),
            st_rev: 0,
        }
    }
}

impl Default for AoBlock {
    ghost is_default = { λ block. block ≡ factory_device.ao };

    fn default() -> AoBlock {
        let scale = Scale {
            low: 0.0,
            high: 100.0,
        };
        AoBlock {
            settings: ao::Settings {
                target: blocks::AUTO,
                pv_scale: scale,
                out_scale: scale,
                fsafe_time: 0,
                fsafe_type: 1,
                fsafe_value: 0.0,
                increase_close: 0,
            },
            state: ao::State::fresh(),
            st_rev: 0,
        }
    }
}

impl Default for DiBlock {
    ghost is_default = { λ block. block ≡ factory_device.di };

    fn default() -> DiBlock {
        DiBlock {
            settings: di::Settings {
                target: blocks::AUTO,
                invert: 0,
                fsafe_type: 0,
                fsafe_val_d: 0,
            },
            state: di::State::fresh(),
            st_rev: 0,
        }
    }
}

impl Default for DoutBlock {
    ghost is_default = { λ block. block ≡ factory_device.dout };

    fn default() -> DoutBlock {
        DoutBlock {
            settings: dout::Settings {
                target: blocks::AUTO,
                invert: 0,
                fsafe_type: 0,
                fsafe_val_d: 0,
                fsafe_time: 0,
            },
            state: dout::State::fresh(),
            st_rev: 0,
        }
    }
}

impl Device {
    pub fn factory() -> Device
        ensures { result ≡ factory_device }
    {
        Device {
            write_locking: 2457,
            ain: AinBlock::default(),
            tot: TotBlock::default(),
            ao: AoBlock::default(),
            di: DiBlock::default(),
            dout: DoutBlock::default(),
        }
    }
}

// ---- writes and reads of a block

// What every block has: ST_REV, the target and the actual mode.
#[derive(Clone, Copy)]
struct Head {
    st_rev: u16,
    target: u32,
    mode: u32,
}

// A block, as writes and reads know it: what all have alike is written once, and by two laws that is what the definitions
// say of each block. What a block hands over of its own fields stands in each: C holds five structs, and a trait has no fields.
trait Block {
    ghost NUMBER: { ℕ };

    const NUMBER: u8;

    // The number of its output: OUT, TOTAL or OUT_D.
    ghost OUTPUT: { ℕ };

    const OUTPUT: u8;

    ghost head: { Self → Head };

    ghost set: { Self → ℕ → ℕ → ℕ → Self };

    ghost operated: { Self → ℕ → ℕ → Self };

    ghost entered: { Self → ℕ → ℕ → Self };

    ghost counted: { Self → Self };

    ghost more: { Self → ℕ → Words };

    // A block after an accepted write, and what its parameters read as.
    ghost after_write: { Self → ℕ → ℕ → ℕ → Self };

    ghost reads: { Self → ℕ → Words };

    fn head(&self) -> Head
        ensures { result ≡ head self.now };

    // Stores a parameter of the settings.
    fn set(&mut self, parameter: u8, words: Words)
        ensures { self.new ≡ set self.old parameter words.first words.second };

    // A written output is the operator's.
    fn operate(&mut self, words: Words)
        ensures { self.new ≡ operated self.old words.first words.second };

    // A write of the target: where it enters Man, the operator's pair is the one last given.
    fn enter(&mut self, old: u32, new: u32)
        ensures { self.new ≡ entered self.old old new };

    // One static write more.
    fn count(&mut self)
        ensures { self.new ≡ counted self.old };

    // The words of a parameter that not every block has.
    fn more(&self, parameter: u8) -> Words
        ensures { result ≡ more self.now parameter };

    ghost write_in_steps: { (b : Self) (number first second : ℕ) → after_write b number first second
        ≡ in_steps (operated b first second) (entered b (head b).target first) b (λ c. set c number first second) counted (number == OUTPUT)
        (number == 5) (is_static NUMBER number) };

    ghost reads_headed: { (b : Self) (number : ℕ) → reads b number
        ≡ headed_words (head b).st_rev (head b).target (head b).mode (more b number) number };

    // An accepted write.
    final fn write(&mut self, parameter: u8, words: Words)
        ensures { self.new ≡ after_write self.old parameter words.first words.second }
    {
        if parameter == Self::OUTPUT {
            self.operate(words);
        } else if parameter == 5 {
            self.enter(self.head().target, words.first);
        }
        self.set(parameter, words);
        if parameters::counts(Self::NUMBER, parameter) {
            self.count();
        }
    }

    final fn words(&self, parameter: u8) -> Words
        ensures { result ≡ reads self.now parameter }
    {
        let head = self.head();
        match parameter {
            1 => Words::from(u32::from(head.st_rev)),
            5 => Words::from(head.target),
            6 => Words::from(head.mode),
            _ => self.more(parameter),
        }
    }
}

#[tactic(auto, unfolding(crate::specs::Stored::ain_settings, crate::specs::Stored::rev_after))]
impl Block for AinBlock {
    ghost NUMBER = { 1 };

    const NUMBER: u8 = 1;

    ghost OUTPUT = { 10 };

    const OUTPUT: u8 = 10;

    ghost head = { λ b. head_of b.st_rev b.settings.target b.state.mode };

    ghost set = { λ b number first second. ain_with b (ain_settings b.settings number first second) b.state b.st_rev };

    ghost operated = { λ b first second. ain_with b b.settings (operated_ain b.state (pair_of first second)) b.st_rev };

    ghost entered = { λ b old new. ain_with b b.settings (operated_ain b.state (operator_after old new b.state.out b.state.operator)) b.st_rev };

    ghost counted = { λ b. ain_with b b.settings b.state (rev_after true b.st_rev) };

    ghost more = { ain_more };

    ghost after_write = { ain_written };

    ghost reads = { ain_words };

    fn head(&self) -> Head {
        Head {
            st_rev: self.st_rev,
            target: self.settings.target,
            mode: self.state.mode,
        }
    }

    fn set(&mut self, parameter: u8, words: Words) {
        match parameter {
            5 => self.settings.target = words.first,
            11 => self.settings.pv_scale = Scale::from(words),
            12 => self.settings.out_scale = Scale::from(words),
            13 => self.settings.lin_type = words.first,
            16 => self.settings.pv_ftime = float_of(words.first),
            17 => self.settings.fsafe_type = words.first,
            18 => self.settings.fsafe_value = float_of(words.first),
            19 => self.settings.alarm_hys = float_of(words.first),
            21 => self.settings.hi_hi_lim = float_of(words.first),
            23 => self.settings.hi_lim = float_of(words.first),
            25 => self.settings.lo_lim = float_of(words.first),
            27 => self.settings.lo_lo_lim = float_of(words.first),
            _ => {}
        }
    }

    fn operate(&mut self, out: Words) {
        self.state.operate(Pair::from(out));
    }

    fn enter(&mut self, old: u32, new: u32) {
        let pair = blocks::operator_after(old, new, self.state.out, self.state.operator);
        self.state.operate(pair);
    }

    fn count(&mut self) {
        self.st_rev = self.st_rev.wrapping_add(1);
    }

    fn more(&self, parameter: u8) -> Words {
        match parameter {
            7 => Words::from(u32::from(self.state.alarms.byte())),
            10 => Words::from(self.state.out),
            11 => Words::from(self.settings.pv_scale),
            12 => Words::from(self.settings.out_scale),
            13 => Words::from(self.settings.lin_type),
            16 => Words::from(self.settings.pv_ftime),
            17 => Words::from(self.settings.fsafe_type),
            18 => Words::from(self.settings.fsafe_value),
            19 => Words::from(self.settings.alarm_hys),
            21 => Words::from(self.settings.hi_hi_lim),
            23 => Words::from(self.settings.hi_lim),
            25 => Words::from(self.settings.lo_lim),
            27 => Words::from(self.settings.lo_lo_lim),
            _ => Words::from(0),
        }
    }

    ghost write_in_steps = { λ b number first second. ain-in-steps number first second b };

    ghost reads_headed = { λ b number. unfold ain_words in refl };
}

#[tactic(auto, unfolding(crate::specs::Stored::tot_settings, crate::specs::Stored::rev_after))]
impl Block for TotBlock {
    ghost NUMBER = { 2 };

    const NUMBER: u8 = 2;

    ghost OUTPUT = { 10 };

    const OUTPUT: u8 = 10;

    ghost head = { λ b. head_of b.st_rev b.settings.target b.state.mode };

    ghost set = { λ b number first second. tot_with (tot_settings b.settings number first) b.state b.st_rev };

    ghost operated = { λ b first second. tot_with b.settings (written_state b.state first (second % 256)) b.st_rev };

    ghost entered = { λ b old new. b };

    ghost counted = { λ b. tot_with b.settings b.state (rev_after true b.st_rev) };

    ghost more = { tot_more };

    ghost after_write = { tot_written };

    ghost reads = { tot_words };

    fn head(&self) -> Head {
        Head {
            st_rev: self.st_rev,
            target: self.settings.target,
            mode: self.state.mode,
        }
    }

    fn set(&mut self, parameter: u8, words: Words) {
        match parameter {
            5 => self.settings.target = words.first,
            13 => self.settings.set_tot = words.first,
            14 => self.settings.mode_tot = words.first,
            15 => self.settings.fail_tot = words.first,
            16 => self.settings.preset_tot = float_of(words.first),
            _ => {}
        }
    }

    fn operate(&mut self, total: Words) {
        self.state.operate(Pair::from(total));
    }

    fn enter(&mut self, _: u32, _: u32) {}

    fn count(&mut self) {
        self.st_rev = self.st_rev.wrapping_add(1);
    }

    fn more(&self, parameter: u8) -> Words {
        match parameter {
            10 => Words::from(self.state.out),
            13 => Words::from(self.settings.set_tot),
            14 => Words::from(self.settings.mode_tot),
            15 => Words::from(self.settings.fail_tot),
            16 => Words::from(self.settings.preset_tot),
            _ => Words::from(0),
        }
    }

    ghost write_in_steps = { λ b number first second. tot-in-steps number first second b };

    ghost reads_headed = { λ b number. unfold tot_words in refl };
}

#[tactic(auto, unfolding(crate::specs::Stored::ao_settings, crate::specs::Stored::rev_after))]
impl Block for AoBlock {
    ghost NUMBER = { 3 };

    const NUMBER: u8 = 3;

    ghost OUTPUT = { 37 };

    const OUTPUT: u8 = 37;

    ghost head = { λ b. head_of b.st_rev b.settings.target b.state.mode };

    ghost set = { λ b number first second. ao_with (ao_settings b.settings number first second) b.state b.st_rev };

    ghost operated = { λ b first second. ao_with b.settings (operated_ao b.state (pair_of first second)) b.st_rev };

    ghost entered = { λ b old new. ao_with b.settings (operated_ao b.state (operator_after old new b.state.out b.state.operator)) b.st_rev };

    ghost counted = { λ b. ao_with b.settings b.state (rev_after true b.st_rev) };

    ghost more = { ao_more };

    ghost after_write = { ao_written };

    ghost reads = { ao_words };

    fn head(&self) -> Head {
        Head {
            st_rev: self.st_rev,
            target: self.settings.target,
            mode: self.state.mode,
        }
    }

    fn set(&mut self, parameter: u8, words: Words) {
        match parameter {
            5 => self.settings.target = words.first,
            11 => self.settings.pv_scale = Scale::from(words),
            38 => self.settings.out_scale = Scale::from(words),
            23 => self.settings.fsafe_time = words.first,
            24 => self.settings.fsafe_type = words.first,
            25 => self.settings.fsafe_value = float_of(words.first),
            36 => self.settings.increase_close = words.first,
            _ => {}
        }
    }

    fn operate(&mut self, words: Words) {
        self.state.operate(Pair::from(words));
    }

    fn enter(&mut self, old: u32, new: u32) {
        let pair = blocks::operator_after(old, new, self.state.out, self.state.operator);
        self.state.operate(pair);
    }

    fn count(&mut self) {
        self.st_rev = self.st_rev.wrapping_add(1);
    }

    fn more(&self, parameter: u8) -> Words {
        match parameter {
            11 => Words::from(self.settings.pv_scale),
            23 => Words::from(self.settings.fsafe_time),
            24 => Words::from(self.settings.fsafe_type),
            25 => Words::from(self.settings.fsafe_value),
            36 => Words::from(self.settings.increase_close),
            37 => Words::from(self.state.out),
            38 => Words::from(self.settings.out_scale),
            _ => Words::from(0),
        }
    }

    ghost write_in_steps = { λ b number first second. ao-in-steps number first second b };

    ghost reads_headed = { λ b number. unfold ao_words in refl };
}

#[tactic(auto, unfolding(crate::specs::Stored::di_settings, crate::specs::Stored::rev_after, crate::specs::Read::discrete_words))]
impl Block for DiBlock {
    ghost NUMBER = { 4 };

    const NUMBER: u8 = 4;

    ghost OUTPUT = { 10 };

    const OUTPUT: u8 = 10;

    ghost head = { λ b. head_of b.st_rev b.settings.target b.state.mode };

    ghost set = { λ b number first second. di_with (di_settings b.settings number first) b.state b.st_rev };

    ghost operated = { λ b first second. di_with b.settings (operated_di b.state (discrete_pair first second)) b.st_rev };

    ghost entered = { λ b old new. di_with b.settings (operated_di b.state (operator_after old new b.state.out b.state.operator)) b.st_rev };

    ghost counted = { λ b. di_with b.settings b.state (rev_after true b.st_rev) };

    ghost more = { di_more };

    ghost after_write = { di_written };

    ghost reads = { di_words };

    fn head(&self) -> Head {
        Head {
            st_rev: self.st_rev,
            target: self.settings.target,
            mode: self.state.mode,
        }
    }

    fn set(&mut self, parameter: u8, words: Words) {
        match parameter {
            5 => self.settings.target = words.first,
            15 => self.settings.invert = words.first,
            20 => self.settings.fsafe_type = words.first,
            21 => self.settings.fsafe_val_d = words.first,
            _ => {}
        }
    }

    fn operate(&mut self, out_d: Words) {
        self.state.operate(Discrete::from(out_d));
    }

    fn enter(&mut self, old: u32, new: u32) {
        let pair = blocks::operator_after(old, new, self.state.out, self.state.operator);
        self.state.operate(pair);
    }

    fn count(&mut self) {
        self.st_rev = self.st_rev.wrapping_add(1);
    }

    fn more(&self, parameter: u8) -> Words {
        match parameter {
            10 => Words::from(self.state.out),
            15 => Words::from(self.settings.invert),
            20 => Words::from(self.settings.fsafe_type),
            21 => Words::from(self.settings.fsafe_val_d),
            _ => Words::from(0),
        }
    }

    ghost write_in_steps = { λ b number first second. di-in-steps number first second b };

    ghost reads_headed = { λ b number. unfold di_words in refl };
}

#[tactic(auto, unfolding(crate::specs::Stored::dout_settings, crate::specs::Stored::rev_after, crate::specs::Read::discrete_words))]
impl Block for DoutBlock {
    ghost NUMBER = { 5 };

    const NUMBER: u8 = 5;

    ghost OUTPUT = { 10 };

    const OUTPUT: u8 = 10;

    ghost head = { λ b. head_of b.st_rev b.settings.target b.state.mode };

    ghost set = { λ b number first second. dout_with (dout_settings b.settings number first) b.state b.st_rev };

    ghost operated = { λ b first second. dout_with b.settings (operated_dout b.state (discrete_pair first second)) b.st_rev };

    ghost entered = { λ b old new. dout_with b.settings (operated_dout b.state (operator_after old new b.state.out b.state.operator)) b.st_rev };

    ghost counted = { λ b. dout_with b.settings b.state (rev_after true b.st_rev) };

    ghost more = { dout_more };

    ghost after_write = { dout_written };

    ghost reads = { dout_words };

    fn head(&self) -> Head {
        Head {
            st_rev: self.st_rev,
            target: self.settings.target,
            mode: self.state.mode,
        }
    }

    fn set(&mut self, parameter: u8, words: Words) {
        match parameter {
            5 => self.settings.target = words.first,
            15 => self.settings.invert = words.first,
            20 => self.settings.fsafe_type = words.first,
            21 => self.settings.fsafe_val_d = words.first,
            22 => self.settings.fsafe_time = words.first,
            _ => {}
        }
    }

    fn operate(&mut self, words: Words) {
        self.state.operate(Discrete::from(words));
    }

    fn enter(&mut self, old: u32, new: u32) {
        let pair = blocks::operator_after(old, new, self.state.out, self.state.operator);
        self.state.operate(pair);
    }

    fn count(&mut self) {
        self.st_rev = self.st_rev.wrapping_add(1);
    }

    fn more(&self, parameter: u8) -> Words {
        match parameter {
            10 => Words::from(self.state.out),
            15 => Words::from(self.settings.invert),
            20 => Words::from(self.settings.fsafe_type),
            21 => Words::from(self.settings.fsafe_val_d),
            22 => Words::from(self.settings.fsafe_time),
            _ => Words::from(0),
        }
    }

    ghost write_in_steps = { λ b number first second. dout-in-steps number first second b };

    ghost reads_headed = { λ b number. unfold dout_words in refl };
}

// ---- writes and reads

impl Device {
    // An accepted write.
    #[tactic(auto, unfolding(crate::specs::Stored::stored_in))]
    fn store(&mut self, block: u8, parameter: u8, words: Words)
        ensures { self.new ≡ stored_in self.old block parameter words.first words.second }
    {
        match block {
            0 => self.write_locking = words.first,
            1 => self.ain.write(parameter, words),
            2 => self.tot.write(parameter, words),
            3 => self.ao.write(parameter, words),
            4 => self.di.write(parameter, words),
            5 => self.dout.write(parameter, words),
            _ => {}
        }
    }

    fn standing(&self) -> Standing
        ensures { result ≡ standing_of self.now }
    {
        Standing {
            lock: self.write_locking,
            ain: self.ain.settings.target,
            tot: self.tot.settings.target,
            ao: self.ao.settings.target,
            di: self.di.settings.target,
            dout: self.dout.settings.target,
            table: self.ain.table.is_loaded(),
        }
    }

    #[tactic(auto, unfolding(crate::specs::Calls::write_of))]
    pub fn write(&mut self, block: u8, parameter: u8, words: Words) -> Result<(), Refusal>
        ensures answer { result ≡ (write_of self.old block parameter words.first words.second).answer }
        ensures device { self.new ≡ (write_of self.old block parameter words.first words.second).device }
    {
        self.standing().answer_to(block, parameter, words)?;
        self.store(block, parameter, words);
        Ok(())
    }

    #[tactic(auto, unfolding(crate::specs::Read::words_of))]
    fn words(&self, block: u8, parameter: u8) -> Words
        ensures { result ≡ words_of self.now block parameter }
    {
        match block {
            0 => Words::from(self.write_locking),
            1 => self.ain.words(parameter),
            2 => self.tot.words(parameter),
            3 => self.ao.words(parameter),
            4 => self.di.words(parameter),
            _ => self.dout.words(parameter),
        }
    }

    #[tactic(auto, unfolding(crate::specs::Read::read_of))]
    pub fn read(&self, block: u8, parameter: u8) -> Result<Words, Refusal>
        ensures { result ≡ read_of self.now block parameter }
    {
        parameters::entry_of(block, parameter)?;
        Ok(self.words(block, parameter))
    }
}

// ---- tick, telegram, load, warm start

impl AinBlock {
    fn tick(&mut self, fault: bool, input: Pair)
        ensures { self.new ≡ ain_ticked self.old fault input }
    {
        self.state.tick(&self.settings, &self.table, fault, input);
    }

    // Another table: one static write more.
    fn load(&mut self, table: Table)
        ensures { self.new ≡ tabled_by self.old table }
    {
        self.count();
        self.table = table;
    }
}

impl TotBlock {
    fn tick(&mut self, fault: bool, input: Pair)
        ensures { self.new ≡ tot_ticked self.old fault input }
    {
        self.state.tick(&self.settings, fault, input);
    }
}

impl AoBlock {
    fn tick(&mut self, fault: bool) -> Order<f32>
        ensures order { result ≡ (ao_tick self.old.settings self.old.state fault).order }
        ensures block { self.new ≡ ao_ticked self.old fault }
    {
        self.state.tick(&self.settings, fault)
    }
}

impl DiBlock {
    fn tick(&mut self, fault: bool, input: Discrete)
        ensures { self.new ≡ di_ticked self.old fault input }
    {
        self.state.tick(&self.settings, fault, input);
    }
}

impl DoutBlock {
    fn tick(&mut self, fault: bool) -> Order<u8>
        ensures order { result ≡ (dout_tick self.old.settings self.old.state fault).order }
        ensures block { self.new ≡ dout_ticked self.old fault }
    {
        self.state.tick(&self.settings, fault)
    }
}

impl Device {
    // Block by block, each in its place.
    #[tactic(auto, unfolding(crate::specs::Calls::tick_of))]
    pub fn tick(&mut self, fault: bool, fed: Fed) -> Orders
        ensures ao { result.ao ≡ (tick_of self.old fault fed.ain fed.tot fed.di).order }
        ensures dout { result.dout ≡ (tick_of self.old fault fed.ain fed.tot fed.di).order_d }
        ensures device { self.new ≡ (tick_of self.old fault fed.ain fed.tot fed.di).device }
    {
        self.ain.tick(fault, fed.ain);
        self.tot.tick(fault, fed.tot);
        self.di.tick(fault, fed.di);
        Orders {
            ao: self.ao.tick(fault),
            dout: self.dout.tick(fault),
        }
    }

    // A telegram: AO's inputs are 0 and 1, and any other is DO's, which refuses those that it lacks.
    #[tactic(auto, unfolding(crate::specs::Calls::telegram_of))]
    pub fn telegram(&mut self, input: u8, bytes: &[u8]) -> Result<(), Refusal>
        ensures answer { result ≡ (telegram_of self.old input bytes.now).answer }
        ensures device { self.new ≡ (telegram_of self.old input bytes.now).device }
    {
        if input > 1 {
            return self.dout.state.telegram(input, bytes);
        }
        self.ao.state.telegram(input, bytes)
    }

    // Loads a linearisation table for AIN, eight bytes to a pair.
    #[tactic(auto, unfolding(crate::specs::Calls::load_of))]
    pub fn load(&mut self, bytes: &[u8]) -> Result<(), Refusal>
        ensures answer { result ≡ (load_of self.old bytes.now).answer }
        ensures device { self.new ≡ (load_of self.old bytes.now).device }
    {
        if self.write_locking == 0 {
            return Err(Refusal::Locked);
        }
        self.ain.load(Table::try_from(bytes)?);
        Ok(())
    }

    #[tactic(auto, unfolding(crate::specs::Calls::warm_started))]
    pub fn warm_start(&mut self)
        ensures { self.new ≡ warm_started self.old }
    {
        self.ain.state.warm_start();
        self.tot.state.warm_start();
        self.ao.state.warm_start();
        self.di.state.warm_start();
        self.dout.state.warm_start();
    }

    // The blocks' values and statuses as last given, into the front of a buffer.
    pub fn image(&self, buf: &mut [u8]) -> Result<(), Refusal>
        ensures value { result ≡ image_answer buf.old }
        ensures buf_after { buf.new ≡ image_bytes buf.old self.now.ain.state.out self.now.tot.state.out self.now.ao.state.out self.now.di.state.out self.now.dout.state.out }
    {
        wire::image(
            buf,
            self.ain.state.out,
            self.tot.state.out,
            self.ao.state.out,
            self.di.state.out,
            self.dout.state.out,
        )
    }

    // The total in thousandths, whole; a read of TOTAL gives it cut.
    pub fn total(&self) -> i64
        ensures { result ≡ self.now.tot.state.total }
    {
        self.tot.state.total
    }
}

// One block's bytes of an image, lent out of the buffer itself.
pub fn part(buf: &[u8], block: u8) -> &[u8]
    ensures result_value { result.now ≡ part_of buf.now block }
    ensures ref_ptr_value { result.ref_ptr ≡ part_place buf.entry.ref_ptr buf.now block }
{
    wire::part(buf, block)
}
