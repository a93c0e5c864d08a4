// The device as bytes, to be stored over a loss of power or moved to another machine: 141 words of 32 bits, highest
// byte first. The first is the layout's version, 3; then every field of the device in the order of its struct, a word
// each: numbers as they are, flags as 1 or 0, floats by their bits with 0x7FC00000 for a NaN. The total has two words,
// two's complement, the higher first. The linearisation table has 43: its count, then x and y of each of its 21 places.
#![tactic(auto)]

ghost use Rattle.std.specs.Prelude.{◌≡◌, ◌+◌, ◌*◌, ◌≤◌, ◌<◌, ℕ, List, [], ◌∷◌, ◌++◌, length, drop, IfOk};
ghost use Rattle.packing.specs.Words.{Read, written};
ghost use Rattle.packing.specs.Words as Words;
ghost use Rattle.packing.specs.Packed.{bytes_of, packed_of, pack_answer, pack_bytes, words_in, not_unpacked_number, unpacked_of};

use ain::Alarms;
use ao::Input;
use blocks::Kept;
use device::{AinBlock, AoBlock, Device, DiBlock, DoutBlock, TotBlock};
use linearisation::{Point, Table};
use numbers::floats::{bits_of, float_of};
use scaling::Scale;
use wire::{Discrete, Pair, Refusal};

// The bytes of a packed device.
pub const PACKED: usize = 564;

const WORDS: usize = 141;

const LAYOUT_VERSION: u32 = 3;

// Why bytes are no device.
#[derive(Clone, Copy, Debug, PartialEq, Eq)]
pub enum NotUnpacked {
    // Another length than PACKED.
    WrongLength = 7,
    // Bytes that no device packs to.
    NotPacked = 255,
}

impl NotUnpacked {
    // The number that such a call is answered.
    pub fn number(self) -> u8
        ensures { result ≡ not_unpacked_number self }
    {
        self as u8
    }
}

// ---- words one after the other

// The words of a device, as far as they are written: an array and a count, since the head has no heap.
#[derive(Drop)]
struct Writer {
    words: [u32; WORDS],
    count: usize,
}

impl Writer {
    fn new() -> Writer
        ensures { result.count ≡ 0 }
    {
        Writer {
            words: [0; WORDS],
            count: 0,
        }
    }

    fn push(&mut self, word: u32)
        requires { self.old.count < 141 }
        ensures count { self.new.count ≡ self.old.count + 1 }
        ensures self_after { written self.new ≡ written self.old ++ (word ∷ []) }
    {
        self.words[self.count] = word;
        self.count += 1;
    }

    fn words(&self) -> &[u32]
        requires { self.now.count ≤ 141 }
        ensures { result.now ≡ written self.now }
    {
        &self.words[..self.count]
    }
}

// Bytes that are read word by word.
#[derive(Drop)]
struct Reader<'a> {
    left: &'a [u8],
}

impl Reader<'_> {
    // The next word, and 0 after the last.
    fn next_word(&mut self) -> u32
        ensures value { result ≡ (Words.word (words_in self.old.left.now)).value }
        ensures self_after { words_in self.new.left.now ≡ (Words.word (words_in self.old.left.now)).rest }
    {
        let [a, b, c, d, left @ ..] = self.left else {
            self.left = &[];
            return 0;
        };
        self.left = left;
        u32::from_be_bytes([*a, *b, *c, *d])
    }
}

// A value with a place in the packed form. What is put is read again: that is no law of the trait but a promise of put,
// as it holds of the values that fit their types, and the laws would speak of all numbers.
trait Layout: Copy {
    ghost words: { Self → List ℕ };

    // What the first words are read as.
    ghost read: { List ℕ → Read Self };

    // How many words there are.
    ghost width: { ℕ };

    fn put(self, to: &mut Writer)
        requires { to.old.count + width ≤ 141 }
        ensures count { to.new.count ≡ to.old.count + width }
        ensures to_after { written to.new ≡ written to.old ++ words self }
        ensures back { (rest : List ℕ) → (read (words self ++ rest)).value ≡ self }
        ensures behind { (rest : List ℕ) → (read (words self ++ rest)).rest ≡ rest };

    fn take(from: &mut Reader) -> Self
        ensures value { result ≡ (read (words_in from.old.left.now)).value }
        ensures from_after { words_in from.new.left.now ≡ (read (words_in from.old.left.now)).rest };
}

// ---- numbers, flags and floats

impl Layout for u32 {
    ghost words = { Words.number_words };

    ghost read = { Words.word };

    ghost width = { 1 };

    fn put(self, to: &mut Writer) {
        to.push(self);
    }

    fn take(from: &mut Reader) -> u32 {
        from.next_word()
    }
}

impl Layout for u16 {
    ghost words = { Words.number_words };

    ghost read = { Words.half };

    ghost width = { 1 };

    fn put(self, to: &mut Writer) {
        to.push(u32::from(self));
    }

    fn take(from: &mut Reader) -> u16 {
        (from.next_word() & 0xffff) as u16
    }
}

impl Layout for u8 {
    ghost words = { Words.number_words };

    ghost read = { Words.byte };

    ghost width = { 1 };

    fn put(self, to: &mut Writer) {
        to.push(u32::from(self));
    }

    fn take(from: &mut Reader) -> u8 {
        (from.next_word() & 0xff) as u8
    }
}

impl Layout for bool {
    ghost words = { Words.flag_words };

    ghost read = { Words.is_set };

    ghost width = { 1 };

    fn put(self, to: &mut Writer) {
        to.push(u32::from(self));
    }

    fn take(from: &mut Reader) -> bool {
        from.next_word() == 1
    }
}

impl Layout for f32 {
    ghost words = { Words.float_words };

    ghost read = { Words.float };

    ghost width = { 1 };

    fn put(self, to: &mut Writer) {
        to.push(bits_of(self));
    }

    fn take(from: &mut Reader) -> f32 {
        float_of(from.next_word())
    }
}

impl Layout for i64 {
    ghost words = { Words.total_words };

    ghost read = { Words.total };

    ghost width = { 2 };

    fn put(self, to: &mut Writer) {
        let bits = self.cast_unsigned();
        to.push((bits / 0x1_0000_0000) as u32);
        to.push((bits % 0x1_0000_0000) as u32);
    }

    fn take(from: &mut Reader) -> i64 {
        let high = from.next_word();
        let low = from.next_word();
        (u64::from(high) * 0x1_0000_0000 + u64::from(low)).cast_signed()
    }
}

// ---- the parts of the blocks

impl Layout for Scale {
    ghost words = { Words.scale_words };

    ghost read = { Words.scale };

    ghost width = { 2 };

    fn put(self, to: &mut Writer) {
        self.low.put(to);
        self.high.put(to);
    }

    fn take(from: &mut Reader) -> Scale {
        Scale {
            low: Layout::take(from),
            high: Layout::take(from),
        }
    }
}

impl Layout for Pair {
    ghost words = { Words.pair_words };

    ghost read = { Words.pair };

    ghost width = { 2 };

    fn put(self, to: &mut Writer) {
        self.bits.put(to);
        self.status.put(to);
    }

    fn take(from: &mut Reader) -> Pair {
        Pair {
            bits: Layout::take(from),
            status: Layout::take(from),
        }
    }
}

impl Layout for Discrete {
    ghost words = { Words.discrete_words };

    ghost read = { Words.discrete };

    ghost width = { 2 };

    fn put(self, to: &mut Writer) {
        self.value.put(to);
        self.status.put(to);
    }

    fn take(from: &mut Reader) -> Discrete {
        Discrete {
            value: Layout::take(from),
            status: Layout::take(from),
        }
    }
}

impl Layout for Kept {
    ghost words = { Words.kept_words };

    ghost read = { Words.kept };

    ghost width = { 2 };

    fn put(self, to: &mut Writer) {
        self.some.put(to);
        self.value.put(to);
    }

    fn take(from: &mut Reader) -> Kept {
        Kept {
            some: Layout::take(from),
            value: Layout::take(from),
        }
    }
}

impl Layout for di::Kept {
    ghost words = { Words.kept_d_words };

    ghost read = { Words.kept_d };

    ghost width = { 2 };

    fn put(self, to: &mut Writer) {
        self.some.put(to);
        self.value.put(to);
    }

    fn take(from: &mut Reader) -> di::Kept {
        di::Kept {
            some: Layout::take(from),
            value: Layout::take(from),
        }
    }
}

impl Layout for Alarms {
    ghost words = { Words.alarms_words };

    ghost read = { Words.alarms };

    ghost width = { 4 };

    fn put(self, to: &mut Writer) {
        self.hi_hi.put(to);
        self.hi.put(to);
        self.lo.put(to);
        self.lo_lo.put(to);
    }

    fn take(from: &mut Reader) -> Alarms {
        Alarms {
            hi_hi: Layout::take(from),
            hi: Layout::take(from),
            lo: Layout::take(from),
            lo_lo: Layout::take(from),
        }
    }
}

impl Layout for Input {
    ghost words = { Words.input_words };

    ghost read = { Words.input };

    ghost width = { 4 };

    fn put(self, to: &mut Writer) {
        self.some.put(to);
        self.value.put(to);
        self.silence.put(to);
        self.ifs.put(to);
    }

    fn take(from: &mut Reader) -> Input {
        Input {
            some: Layout::take(from),
            value: Layout::take(from),
            silence: Layout::take(from),
            ifs: Layout::take(from),
        }
    }
}

impl Layout for dout::Input {
    ghost words = { Words.input_d_words };

    ghost read = { Words.input_d };

    ghost width = { 4 };

    fn put(self, to: &mut Writer) {
        self.some.put(to);
        self.value.put(to);
        self.silence.put(to);
        self.ifs.put(to);
    }

    fn take(from: &mut Reader) -> dout::Input {
        dout::Input {
            some: Layout::take(from),
            value: Layout::take(from),
            silence: Layout::take(from),
            ifs: Layout::take(from),
        }
    }
}

impl Layout for Point {
    ghost words = { Words.place_words };

    ghost read = { Words.point };

    ghost width = { 2 };

    fn put(self, to: &mut Writer) {
        self.x.put(to);
        self.y.put(to);
    }

    fn take(from: &mut Reader) -> Point {
        Point {
            x: Layout::take(from),
            y: Layout::take(from),
        }
    }
}

// Q1.3: the count, and the 21 places.
#[tactic(auto, unfolding(crate::specs::Words::table_words, crate::specs::Words::table))]
impl Layout for Table {
    ghost words = { Words.table_words };

    ghost read = { Words.table };

    ghost width = { 43 };

    fn put(self, to: &mut Writer) {
        self.count.put(to);
        for point in self.points {
            point.put(to);
        }
    }

    fn take(from: &mut Reader) -> Table {
        let count = Layout::take(from);
        let mut points = [Point::default(); 21];
        for point in points.iter_mut() {
            *point = Layout::take(from);
        }
        Table { count, points }
    }
}

// ---- the blocks

impl Layout for ain::Settings {
    ghost words = { Words.ain_settings_words };

    ghost read = { Words.ain_settings };

    ghost width = { 14 };

    fn put(self, to: &mut Writer) {
        self.target.put(to);
        self.pv_scale.put(to);
        self.out_scale.put(to);
        self.lin_type.put(to);
        self.pv_ftime.put(to);
        self.fsafe_type.put(to);
        self.fsafe_value.put(to);
        self.alarm_hys.put(to);
        self.hi_hi_lim.put(to);
        self.hi_lim.put(to);
        self.lo_lim.put(to);
        self.lo_lo_lim.put(to);
    }

    fn take(from: &mut Reader) -> ain::Settings {
        ain::Settings {
            target: Layout::take(from),
            pv_scale: Layout::take(from),
            out_scale: Layout::take(from),
            lin_type: Layout::take(from),
            pv_ftime: Layout::take(from),
            fsafe_type: Layout::take(from),
            fsafe_value: Layout::take(from),
            alarm_hys: Layout::take(from),
            hi_hi_lim: Layout::take(from),
            hi_lim: Layout::take(from),
            lo_lim: Layout::take(from),
            lo_lo_lim: Layout::take(from),
        }
    }
}

impl Layout for ain::State {
    ghost words = { Words.ain_state_words };

    ghost read = { Words.ain_state };

    ghost width = { 13 };

    fn put(self, to: &mut Writer) {
        self.out.put(to);
        self.mode.put(to);
        self.filter.put(to);
        self.last.put(to);
        self.operator.put(to);
        self.alarms.put(to);
    }

    fn take(from: &mut Reader) -> ain::State {
        ain::State {
            out: Layout::take(from),
            mode: Layout::take(from),
            filter: Layout::take(from),
            last: Layout::take(from),
            operator: Layout::take(from),
            alarms: Layout::take(from),
        }
    }
}

#[tactic(auto, unfolding(crate::specs::Words::ain_words, crate::specs::Words::ain_of))]
impl Layout for AinBlock {
    ghost words = { Words.ain_words };

    ghost read = { Words.ain_of };

    ghost width = { 71 };

    fn put(self, to: &mut Writer) {
        self.settings.put(to);
        self.state.put(to);
        self.st_rev.put(to);
        self.table.put(to);
    }

    fn take(from: &mut Reader) -> AinBlock {
        AinBlock {
            settings: Layout::take(from),
            state: Layout::take(from),
            st_rev: Layout::take(from),
            table: Layout::take(from),
        }
    }
}

impl Layout for tot::Settings {
    ghost words = { Words.tot_settings_words };

    ghost read = { Words.tot_settings };

    ghost width = { 5 };

    fn put(self, to: &mut Writer) {
        self.target.put(to);
        self.set_tot.put(to);
        self.mode_tot.put(to);
        self.fail_tot.put(to);
        self.preset_tot.put(to);
    }

    fn take(from: &mut Reader) -> tot::Settings {
        tot::Settings {
            target: Layout::take(from),
            set_tot: Layout::take(from),
            mode_tot: Layout::take(from),
            fail_tot: Layout::take(from),
            preset_tot: Layout::take(from),
        }
    }
}

impl Layout for tot::State {
    ghost words = { Words.tot_state_words };

    ghost read = { Words.tot_state };

    ghost width = { 8 };

    fn put(self, to: &mut Writer) {
        self.total.put(to);
        self.out.put(to);
        self.mode.put(to);
        self.rate.put(to);
        self.operator_status.put(to);
    }

    fn take(from: &mut Reader) -> tot::State {
        tot::State {
            total: Layout::take(from),
            out: Layout::take(from),
            mode: Layout::take(from),
            rate: Layout::take(from),
            operator_status: Layout::take(from),
        }
    }
}

#[tactic(auto, unfolding(crate::specs::Words::tot_words, crate::specs::Words::tot_of))]
impl Layout for TotBlock {
    ghost words = { Words.tot_words };

    ghost read = { Words.tot_of };

    ghost width = { 14 };

    fn put(self, to: &mut Writer) {
        self.settings.put(to);
        self.state.put(to);
        self.st_rev.put(to);
    }

    fn take(from: &mut Reader) -> TotBlock {
        TotBlock {
            settings: Layout::take(from),
            state: Layout::take(from),
            st_rev: Layout::take(from),
        }
    }
}

impl Layout for ao::Settings {
    ghost words = { Words.ao_settings_words };

    ghost read = { Words.ao_settings };

    ghost width = { 9 };

    fn put(self, to: &mut Writer) {
        self.target.put(to);
        self.pv_scale.put(to);
        self.out_scale.put(to);
        self.fsafe_time.put(to);
        self.fsafe_type.put(to);
        self.fsafe_value.put(to);
        self.increase_close.put(to);
    }

    fn take(from: &mut Reader) -> ao::Settings {
        ao::Settings {
            target: Layout::take(from),
            pv_scale: Layout::take(from),
            out_scale: Layout::take(from),
            fsafe_time: Layout::take(from),
            fsafe_type: Layout::take(from),
            fsafe_value: Layout::take(from),
            increase_close: Layout::take(from),
        }
    }
}

impl Layout for ao::State {
    ghost words = { Words.ao_state_words };

    ghost read = { Words.ao_state };

    ghost width = { 13 };

    fn put(self, to: &mut Writer) {
        self.out.put(to);
        self.mode.put(to);
        self.operator.put(to);
        self.sp.put(to);
        self.rcas_in.put(to);
    }

    fn take(from: &mut Reader) -> ao::State {
        ao::State {
            out: Layout::take(from),
            mode: Layout::take(from),
            operator: Layout::take(from),
            sp: Layout::take(from),
            rcas_in: Layout::take(from),
        }
    }
}

#[tactic(auto, unfolding(crate::specs::Words::ao_words, crate::specs::Words::ao_of))]
impl Layout for AoBlock {
    ghost words = { Words.ao_words };

    ghost read = { Words.ao_of };

    ghost width = { 23 };

    fn put(self, to: &mut Writer) {
        self.settings.put(to);
        self.state.put(to);
        self.st_rev.put(to);
    }

    fn take(from: &mut Reader) -> AoBlock {
        AoBlock {
            settings: Layout::take(from),
            state: Layout::take(from),
            st_rev: Layout::take(from),
        }
    }
}

impl Layout for di::Settings {
    ghost words = { Words.di_settings_words };

    ghost read = { Words.di_settings };

    ghost width = { 4 };

    fn put(self, to: &mut Writer) {
        self.target.put(to);
        self.invert.put(to);
        self.fsafe_type.put(to);
        self.fsafe_val_d.put(to);
    }

    fn take(from: &mut Reader) -> di::Settings {
        di::Settings {
            target: Layout::take(from),
            invert: Layout::take(from),
            fsafe_type: Layout::take(from),
            fsafe_val_d: Layout::take(from),
        }
    }
}

impl Layout for di::State {
    ghost words = { Words.di_state_words };

    ghost read = { Words.di_state };

    ghost width = { 7 };

    fn put(self, to: &mut Writer) {
        self.out.put(to);
        self.mode.put(to);
        self.last.put(to);
        self.operator.put(to);
    }

    fn take(from: &mut Reader) -> di::State {
        di::State {
            out: Layout::take(from),
            mode: Layout::take(from),
            last: Layout::take(from),
            operator: Layout::take(from),
        }
    }
}

#[tactic(auto, unfolding(crate::specs::Words::di_words, crate::specs::Words::di_of))]
impl Layout for DiBlock {
    ghost words = { Words.di_words };

    ghost read = { Words.di_of };

    ghost width = { 12 };

    fn put(self, to: &mut Writer) {
        self.settings.put(to);
        self.state.put(to);
        self.st_rev.put(to);
    }

    fn take(from: &mut Reader) -> DiBlock {
        DiBlock {
            settings: Layout::take(from),
            state: Layout::take(from),
            st_rev: Layout::take(from),
        }
    }
}

impl Layout for dout::Settings {
    ghost words = { Words.dout_settings_words };

    ghost read = { Words.dout_settings };

    ghost width = { 5 };

    fn put(self, to: &mut Writer) {
        self.target.put(to);
        self.invert.put(to);
        self.fsafe_type.put(to);
        self.fsafe_val_d.put(to);
        self.fsafe_time.put(to);
    }

    fn take(from: &mut Reader) -> dout::Settings {
        dout::Settings {
            target: Layout::take(from),
            invert: Layout::take(from),
            fsafe_type: Layout::take(from),
            fsafe_val_d: Layout::take(from),
            fsafe_time: Layout::take(from),
        }
    }
}

impl Layout for dout::State {
    ghost words = { Words.dout_state_words };

    ghost read = { Words.dout_state };

    ghost width = { 13 };

    fn put(self, to: &mut Writer) {
        self.out.put(to);
        self.mode.put(to);
        self.operator.put(to);
        self.sp.put(to);
        self.rcas_in.put(to);
    }

    fn take(from: &mut Reader) -> dout::State {
        dout::State {
            out: Layout::take(from),
            mode: Layout::take(from),
            operator: Layout::take(from),
            sp: Layout::take(from),
            rcas_in: Layout::take(from),
        }
    }
}

#[tactic(auto, unfolding(crate::specs::Words::dout_words, crate::specs::Words::dout_of))]
impl Layout for DoutBlock {
    ghost words = { Words.dout_words };

    ghost read = { Words.dout_of };

    ghost width = { 19 };

    fn put(self, to: &mut Writer) {
        self.settings.put(to);
        self.state.put(to);
        self.st_rev.put(to);
    }

    fn take(from: &mut Reader) -> DoutBlock {
        DoutBlock {
            settings: Layout::take(from),
            state: Layout::take(from),
            st_rev: Layout::take(from),
        }
    }
}

#[tactic(auto, unfolding(crate::specs::Words::device_words, crate::specs::Words::fields_of))]
impl Layout for Device {
    ghost words = { Words.device_words };

    ghost read = { Words.fields_of };

    ghost width = { 140 };

    fn put(self, to: &mut Writer) {
        self.write_locking.put(to);
        self.ain.put(to);
        self.tot.put(to);
        self.ao.put(to);
        self.di.put(to);
        self.dout.put(to);
    }

    fn take(from: &mut Reader) -> Device {
        Device {
            write_locking: Layout::take(from),
            ain: Layout::take(from),
            tot: Layout::take(from),
            ao: Layout::take(from),
            di: Layout::take(from),
            dout: Layout::take(from),
        }
    }
}

// ---- pack and unpack

// Puts words into the front of a buffer, each highest byte first.
fn put_words(buf: &mut [u8], words: &[u32])
    requires { 4 * length words.now ≤ length buf.old }
    ensures { buf.new ≡ bytes_of words.now ++ drop (4 * length words.now) buf.old }
{
    for (i, word) in words.iter().enumerate() {
        buf[4 * i..4 * i + 4].copy_from_slice(&word.to_be_bytes());
    }
}

// Packs a device into the front of a buffer, or changes nothing where it is too short.
pub fn pack(d: Device, buf: &mut [u8]) -> Result<(), Refusal>
    ensures value { result ≡ pack_answer buf.old }
    ensures buf_after { buf.new ≡ pack_bytes buf.old d }
    ensures d_value { unpacked_of (packed_of d) ≡ Ok d }
{
    let mut to = Writer::new();
    to.push(LAYOUT_VERSION);
    d.put(&mut to);
    let words = to.words();
    if buf.len() < PACKED {
        return Err(Refusal::WrongLength);
    }
    put_words(buf, words);
    Ok(())
}

// The device that exactly these bytes are packed from.
pub fn unpack(bytes: &[u8]) -> Result<Device, NotUnpacked>
    ensures value { result ≡ unpacked_of bytes.now }
    ensures device_value { IfOk result (λ d. packed_of d ≡ bytes.now) }
{
    if bytes.len() != PACKED {
        return Err(NotUnpacked::WrongLength);
    }
    let mut from = Reader { left: bytes };
    // The version is judged with all other bytes below.
    from.next_word();
    let device: Device = Layout::take(&mut from);
    let mut again = [0; PACKED];
    let _ = pack(device, &mut again);
    if check::same(bytes, &again) {
        Ok(device)
    } else {
        Err(NotUnpacked::NotPacked)
    }
}
