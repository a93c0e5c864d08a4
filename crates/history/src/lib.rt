// The claim about every list of calls (document 01, History rules), as what a running function promises: it
// replays an encoded list of calls from the factory device.
//
// A call is encoded as a byte that says which, and its arguments, words highest byte first:
//   0                                                     warm start
//   1 fault, AIN's bits (4) and status, TOT's bits (4) and status, DI's value and status   tick; fault is 0 or 1
//   2 block, parameter, first word (4), second word (4)   write
//   3 input, length (8), that many bytes                  telegram
//   4 length (8), that many bytes                         load
#![tactic(auto)]

ghost use Rattle.std.specs.Prelude.{◌≡◌, take, drop};
ghost use Rattle.history.specs.Encoded.{Reads, ReadsBy, called, next_bytes, next_byte, next_word, next_pair, next_discrete, next_lent, next_tick, next_write, next_telegram, next_load, next_call, decoded, Replays, listed, heard};
ghost use Rattle.history.specs.Calls.{after, reached};
ghost use Rattle.history.specs.Rules as Rules;

use blocks::setpoint::Order;
use device::{Device, Fed};
use parameters::Words;
use wire::{Discrete, Pair, Refusal};

// A call of an encoded list.
#[derive(Clone, Copy)]
enum Call<'a> {
    WarmStart,
    Tick(bool, Fed),
    Write(u8, u8, Words),
    Telegram(u8, &'a [u8]),
    Load(&'a [u8]),
}

impl Call<'_> {
    // An answer goes: the calls that follow are judged by the device.
    #[tactic(auto, unfolding(crate::specs::Calls::after))]
    fn make(self, device: &mut Device)
        ensures { device.new ≡ after device.old (called self.entry) }
    {
        match self {
            Call::WarmStart => device.warm_start(),
            Call::Tick(fault, fed) => {
                device.tick(fault, fed);
            }
            Call::Write(block, parameter, words) => {
                let _ = device.write(block, parameter, words);
            }
            Call::Telegram(input, bytes) => {
                let _ = device.telegram(input, bytes);
            }
            Call::Load(bytes) => {
                let _ = device.load(bytes);
            }
        }
    }
}

// An encoded list, read from its front. Each method gives none where the bytes are not there.
#[derive(Drop)]
struct Reader<'a> {
    left: &'a [u8],
}

impl<'a> Reader<'a> {
    #[tactic(auto, unfolding(crate::specs::Encoded::next_bytes))]
    fn bytes(&mut self, n: usize) -> Option<&'a [u8]>
        ensures { ReadsBy (λ b. b.now) (next_bytes n self.old.left.now) result self.new.left.now }
    {
        let (front, left) = self.left.split_at_checked(n)?;
        self.left = left;
        Some(front)
    }

    #[tactic(auto, unfolding(crate::specs::Encoded::next_bytes))]
    fn array<const N: usize>(&mut self) -> Option<[u8; N]>
        ensures { Reads (next_bytes N self.old.left.now) result self.new.left.now }
    {
        let (front, left) = self.left.split_first_chunk::<N>()?;
        self.left = left;
        Some(*front)
    }

    #[tactic(auto, unfolding(crate::specs::Encoded::next_byte))]
    fn byte(&mut self) -> Option<u8>
        ensures { Reads (next_byte self.old.left.now) result self.new.left.now }
    {
        let [byte] = self.array::<1>()?;
        Some(byte)
    }

    #[tactic(auto, unfolding(crate::specs::Encoded::next_word))]
    fn word(&mut self) -> Option<u32>
        ensures { Reads (next_word self.old.left.now) result self.new.left.now }
    {
        Some(u32::from_be_bytes(self.array()?))
    }

    #[tactic(auto, unfolding(crate::specs::Encoded::next_pair))]
    fn pair(&mut self) -> Option<Pair>
        ensures { Reads (next_pair self.old.left.now) result self.new.left.now }
    {
        Pair::try_from(self.bytes(5)?).ok()
    }

    #[tactic(auto, unfolding(crate::specs::Encoded::next_discrete))]
    fn discrete(&mut self) -> Option<Discrete>
        ensures { Reads (next_discrete self.old.left.now) result self.new.left.now }
    {
        Discrete::try_from(self.bytes(2)?).ok()
    }

    // The bytes that a call lends, behind their length.
    #[tactic(auto, unfolding(crate::specs::Encoded::next_lent))]
    fn lent(&mut self) -> Option<&'a [u8]>
        ensures { ReadsBy (λ b. b.now) (next_lent self.old.left.now) result self.new.left.now }
    {
        let high = self.word()?;
        let low = self.word()?;
        self.bytes(high as usize * 0x1_0000_0000 + low as usize)
    }

    #[tactic(auto, unfolding(crate::specs::Encoded::next_tick))]
    fn tick(&mut self) -> Option<Call<'a>>
        ensures { ReadsBy called (next_tick self.old.left.now) result self.new.left.now }
    {
        let fault = self.byte()?;
        if fault > 1 {
            return None;
        }
        let fed = Fed {
            ain: self.pair()?,
            tot: self.pair()?,
            di: self.discrete()?,
        };
        Some(Call::Tick(fault == 1, fed))
    }

    #[tactic(auto, unfolding(crate::specs::Encoded::next_write))]
    fn write(&mut self) -> Option<Call<'a>>
        ensures { ReadsBy called (next_write self.old.left.now) result self.new.left.now }
    {
        let block = self.byte()?;
        let parameter = self.byte()?;
        let words = Words {
            first: self.word()?,
            second: self.word()?,
        };
        Some(Call::Write(block, parameter, words))
    }

    #[tactic(auto, unfolding(crate::specs::Encoded::next_telegram))]
    fn telegram(&mut self) -> Option<Call<'a>>
        ensures { ReadsBy called (next_telegram self.old.left.now) result self.new.left.now }
    {
        Some(Call::Telegram(self.byte()?, self.lent()?))
    }

    #[tactic(auto, unfolding(crate::specs::Encoded::next_load))]
    fn load(&mut self) -> Option<Call<'a>>
        ensures { ReadsBy called (next_load self.old.left.now) result self.new.left.now }
    {
        Some(Call::Load(self.lent()?))
    }

    #[tactic(auto, unfolding(crate::specs::Encoded::next_call))]
    fn call(&mut self) -> Option<Call<'a>>
        ensures { ReadsBy called (next_call self.old.left.now) result self.new.left.now }
    {
        match self.byte()? {
            0 => Some(Call::WarmStart),
            1 => self.tick(),
            2 => self.write(),
            3 => self.telegram(),
            4 => self.load(),
            _ => None,
        }
    }
}

// Replays an encoded list of calls from the factory device; none where the list is malformed.
pub fn replay(calls: &[u8]) -> Option<Device>
    ensures { Replays calls.now result }
{
    let mut device = Device::factory();
    let mut reader = Reader { left: calls };
    while !reader.left.is_empty() {
        reader.call()?.make(&mut device);
    }
    Some(device)
}

// The device that a list leads to; a malformed one to the factory device.
#[tactic(auto, using(crate::proofs::After::reached_or_factory))]
fn device_after(calls: &[u8]) -> Device
    ensures { result ≡ reached (listed (decoded calls.now)) }
{
    replay(calls).unwrap_or(Device::factory())
}

// ---- what is answered after a list of calls; after a malformed one, what the factory device answers

#[tactic(auto, using(crate::proofs::After::read_is))]
pub fn read_after(calls: &[u8], block: u8, parameter: u8) -> Result<Words, Refusal>
    ensures { result ≡ Rules.reading (heard calls.now) block parameter }
{
    device_after(calls).read(block, parameter)
}

#[tactic(auto, using(crate::proofs::After::total_is))]
pub fn total_after(calls: &[u8]) -> i64
    ensures { result ≡ Rules.total (heard calls.now) }
{
    device_after(calls).total()
}

// The drive orders of a tick, AO's and DO's.
#[tactic(auto, using(crate::proofs::After::drive_is))]
pub fn order_after(calls: &[u8], fault: bool, fed: Fed) -> Order<f32>
    ensures { result ≡ Rules.order (heard calls.now) fault }
{
    let mut device = device_after(calls);
    device.tick(fault, fed).ao
}

#[tactic(auto, using(crate::proofs::After::drive_d_is))]
pub fn order_d_after(calls: &[u8], fault: bool, fed: Fed) -> Order<u8>
    ensures { result ≡ Rules.order_d (heard calls.now) fault }
{
    let mut device = device_after(calls);
    device.tick(fault, fed).dout
}

#[tactic(auto, using(crate::proofs::After::write_is))]
pub fn write_after(calls: &[u8], block: u8, parameter: u8, words: Words) -> Result<(), Refusal>
    ensures { result ≡ Rules.to_write (heard calls.now) block parameter words.first words.second }
{
    let mut device = device_after(calls);
    device.write(block, parameter, words)
}

#[tactic(auto, using(crate::proofs::After::telegram_is))]
pub fn telegram_after(calls: &[u8], input: u8, bytes: &[u8]) -> Result<(), Refusal>
    ensures { result ≡ Rules.to_telegram input bytes.now }
{
    let mut device = device_after(calls);
    device.telegram(input, bytes)
}

#[tactic(auto, using(crate::proofs::After::load_is))]
pub fn load_after(calls: &[u8], bytes: &[u8]) -> Result<(), Refusal>
    ensures { result ≡ Rules.to_load (heard calls.now) bytes.now }
{
    let mut device = device_after(calls);
    device.load(bytes)
}

// The bus image, from a buffer's first byte on.
#[tactic(auto, using(crate::proofs::After::image_is, crate::proofs::After::image_answered))]
pub fn image_after(calls: &[u8], buf: &mut [u8]) -> Result<(), Refusal>
    ensures value { result ≡ Rules.to_image buf.old }
    ensures buf_after { buf.new ≡ Rules.image (heard calls.now) buf.old }
{
    device_after(calls).image(buf)
}
