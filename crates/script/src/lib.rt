// The call script: what a line asks for, and the line that answers it. Text is bytes.
#![tactic(auto)]

mod answers;
mod words;

ghost use Rattle.std.specs.Prelude.{◌≡◌, length, drop};
ghost use Rattle.script.specs.Words.{words_of, bytes_of};
ghost use Rattle.script.specs.Command.{name_of, alone_call, tick_call, telegram_call, write_call, read_call, image_call, part_call, load_call, call_of, named_call, command_of};

pub use answers::{fit_answer, put_answer};
use words::{Words, same};

// What a line asks for.
#[derive(Clone, Copy)]
pub enum Command {
    Factory,
    Tick {
        fault: bool,
        ain_bits: u32,
        ain_status: u8,
        tot_bits: u32,
        tot_status: u8,
        di_value: u8,
        di_status: u8,
    },
    // `bytes_after` two words gives the telegram's bytes, of which there are `length`.
    Telegram {
        input: u8,
        length: usize,
    },
    Write {
        block: u8,
        parameter: u8,
        first: u32,
        second: u32,
    },
    Warm,
    Read {
        block: u8,
        parameter: u8,
    },
    Image {
        length: usize,
    },
    Part {
        block: u8,
        length: usize,
    },
    Total,
    // `bytes_after` one word gives the table's bytes, of which there are `length`.
    Load {
        length: usize,
    },
}

// A line that is answered `error`.
#[derive(Clone, Copy, Debug, PartialEq, Eq)]
pub struct BadLine;

// A drive order: AO's position is a float by its bits, DO's a discrete value.
#[derive(Clone, Copy)]
pub enum Order {
    Position(u32),
    PositionD(u8),
    Safe,
    Rest,
}

// What a call is answered. A refusal is its number: this crate knows no other than `text`.
#[derive(Clone, Copy)]
pub enum Answer<'a> {
    Ok,
    Error,
    Refused(u8),
    // AO's order, and DO's.
    Orders(Order, Order),
    Words(u32, u32),
    Bytes(&'a [u8]),
    Total(i64),
}

// The first word of a line.
#[derive(Clone, Copy)]
pub enum Name {
    Factory,
    Tick,
    Telegram,
    Write,
    Warm,
    Read,
    Image,
    Part,
    Total,
    Load,
}

// The highest number that a word of 32 bits stands for.
const WORD: u32 = u32::MAX;

// Tried as a `match` on the byte strings: its 57 goals do not close.
fn name_of(word: &[u8]) -> Option<Name>
    ensures { result ≡ name_of word.now }
{
    if same(word, b"tick") {
        return Some(Name::Tick);
    }
    if same(word, b"factory") {
        return Some(Name::Factory);
    }
    if same(word, b"telegram") {
        return Some(Name::Telegram);
    }
    if same(word, b"write") {
        return Some(Name::Write);
    }
    if same(word, b"warm") {
        return Some(Name::Warm);
    }
    if same(word, b"read") {
        return Some(Name::Read);
    }
    if same(word, b"image") {
        return Some(Name::Image);
    }
    if same(word, b"part") {
        return Some(Name::Part);
    }
    if same(word, b"total") {
        return Some(Name::Total);
    }
    if same(word, b"load") {
        return Some(Name::Load);
    }
    None
}

// A call with no argument.
fn alone(mut words: Words, command: Command) -> Option<Command>
    ensures { result ≡ alone_call command (words_of words.entry.rest.now) }
{
    words.next().is_none().then_some(command)
}

fn tick(words: Words) -> Option<Command>
    ensures { result ≡ tick_call (words_of words.entry.rest.now) }
{
    let [
        fault,
        ain_bits,
        ain_status,
        tot_bits,
        tot_status,
        di_value,
        di_status,
    ] = words.numbers(&[1, WORD, 255, WORD, 255, 255, 255])?;
    Some(Command::Tick {
        fault: fault == 1,
        ain_bits,
        ain_status: ain_status as u8,
        tot_bits,
        tot_status: tot_status as u8,
        di_value: di_value as u8,
        di_status: di_status as u8,
    })
}

fn telegram(mut words: Words) -> Option<Command>
    ensures { result ≡ telegram_call (words_of words.entry.rest.now) }
{
    let input = words.number(255)? as u8;
    let length = words.bytes(64)?;
    Some(Command::Telegram { input, length })
}

fn write(words: Words) -> Option<Command>
    ensures { result ≡ write_call (words_of words.entry.rest.now) }
{
    let [block, parameter, first, second] = words.numbers(&[255, 255, WORD, WORD])?;
    Some(Command::Write {
        block: block as u8,
        parameter: parameter as u8,
        first,
        second,
    })
}

fn read(words: Words) -> Option<Command>
    ensures { result ≡ read_call (words_of words.entry.rest.now) }
{
    let [block, parameter] = words.numbers(&[255, 255])?;
    Some(Command::Read {
        block: block as u8,
        parameter: parameter as u8,
    })
}

fn image(words: Words) -> Option<Command>
    ensures { result ≡ image_call (words_of words.entry.rest.now) }
{
    let [length] = words.numbers(&[64])?;
    Some(Command::Image {
        length: length as usize,
    })
}

fn part(words: Words) -> Option<Command>
    ensures { result ≡ part_call (words_of words.entry.rest.now) }
{
    let [block, length] = words.numbers(&[255, 64])?;
    Some(Command::Part {
        block: block as u8,
        length: length as usize,
    })
}

fn load(words: Words) -> Option<Command>
    ensures { result ≡ load_call (words_of words.entry.rest.now) }
{
    let length = words.bytes(256)?;
    Some(Command::Load { length })
}

// The call of a name, whose arguments are the words that follow it.
#[tactic(auto, unfolding(crate::specs::Command::call_of))]
fn call(name: Name, words: Words) -> Option<Command>
    ensures { result ≡ call_of name (words_of words.entry.rest.now) }
{
    match name {
        Name::Factory => alone(words, Command::Factory),
        Name::Tick => tick(words),
        Name::Telegram => telegram(words),
        Name::Write => write(words),
        Name::Warm => alone(words, Command::Warm),
        Name::Read => read(words),
        Name::Image => image(words),
        Name::Part => part(words),
        Name::Total => alone(words, Command::Total),
        Name::Load => load(words),
    }
}

// The call of a line's first word, and of the words that follow it.
fn named(word: &[u8], words: Words) -> Option<Command>
    ensures { result ≡ named_call (name_of word.now) (words_of words.entry.rest.now) }
{
    call(name_of(word)?, words)
}

// What a line asks for, given without its 0x0A: nothing where it has no word or is a remark.
pub fn parse(line: &[u8]) -> Result<Option<Command>, BadLine>
    ensures { result ≡ command_of line.now }
{
    if line.len() > 4096 {
        return Err(BadLine);
    }
    let mut words = Words { rest: line };
    let Some(word) = words.next() else {
        return Ok(None);
    };
    if line[0] == b'#' {
        return Ok(None);
    }
    // (By `ok_or` the proof did not close.)
    match named(word, words) {
        Some(command) => Ok(Some(command)),
        None => Err(BadLine),
    }
}

// The bytes of a line after its first `count` words: the numbers of the words that follow, one for each byte of out.
pub fn bytes_after(line: &[u8], count: usize, out: &mut [u8])
    ensures { out.new ≡ bytes_of (length out.old) (drop count (words_of line.now)) }
{
    let mut words = Words { rest: line };
    for _ in 0..count {
        words.next();
    }
    for byte in out.iter_mut() {
        *byte = words.low_byte();
    }
}
