// The parameters (document 01, Parameters): block and number decide storage class and allowed words, and with what
// stands they decide whether a write is accepted (Refused calls). DI and DO are those of document 02, request 3.
#![tactic(auto)]

ghost use Rattle.std.specs.Prelude.{◌≡◌};
ghost use Rattle.parameters.specs.Table.{entry_of, is_static};
ghost use Rattle.parameters.specs.Words.{allows_of, code, float, ends, given, given_d, scale_of, pair_of, discrete_pair};
ghost use Rattle.parameters.specs.Refused.{output, target_in, lacks_table, ground};

use numbers::floats::{bits_of, float_of, is_finite, is_finite_or, is_within};
use scaling::Scale;
use wire::{Discrete, Pair, Refusal};

// Storage class: static, kept but not in ST_REV, dynamic, read-only.
#[derive(Clone, Copy, PartialEq, Eq)]
pub enum Class {
    S,
    N,
    D,
    R,
}

// Which words a parameter takes. The second word is 0 where the case does not speak of it.
#[derive(Clone, Copy)]
pub enum Allowed {
    // None: the parameter is read-only.
    Nothing,
    // 0 or 2457.
    Lock,
    // The code of O/S, Man or Auto.
    Mode,
    // One of these, or that of RCas.
    ModeOrRcas,
    // A whole number up to this one.
    UpTo(u32),
    // Low and high end, finite and of different numbers.
    Ends,
    // A float from the first to the second.
    Within(f32, f32),
    Finite,
    // Finite, at least 0.
    AtLeastZero,
    // Finite, or the infinity above all.
    FiniteOrInfinity,
    // Finite, or the infinity below all.
    FiniteOrMinusInfinity,
    // A finite value, and a status in the second word.
    Output,
    // 0 or 1, and a status in the second word.
    OutputD,
    // A value from the first to the second, and a status in the second word.
    Total(f32, f32),
}

// What a block has at a number.
#[derive(Clone, Copy)]
pub struct Parameter {
    pub class: Class,
    pub allowed: Allowed,
}

// A parameter's two words.
#[repr(C)]
#[derive(Clone, Copy)]
pub struct Words {
    pub first: u32,
    pub second: u32,
}

// What stands when a write comes: WRITE_LOCKING, the blocks' targets, and whether a linearisation table is loaded. All five
// targets: which of them a write meets is part of the rule, and a block that is not there has none.
#[derive(Clone, Copy)]
pub struct Standing {
    pub lock: u32,
    pub ain: u32,
    pub tot: u32,
    pub ao: u32,
    pub di: u32,
    pub dout: u32,
    pub table: bool,
}

// ---- the table

impl Parameter {
    const fn new(class: Class, allowed: Allowed) -> Parameter
        ensures { result ≡ record { class = class; allowed = allowed } }
    {
        Parameter { class, allowed }
    }
}

#[tactic(auto, unfolding(crate::specs::Table::entry_of, crate::specs::Table::entry_in, crate::specs::Table::physical, crate::specs::Table::ain, crate::specs::Table::tot, crate::specs::Table::ao, crate::specs::Table::discrete, crate::specs::Table::di, crate::specs::Table::dout))]
pub fn entry_of(block: u8, parameter: u8) -> Result<Parameter, Refusal>
    ensures { result ≡ entry_of block parameter }
{
    Ok(match (block, parameter) {
        (0, 18) => Parameter::new(Class::N, Allowed::Lock),
        // every block of these: ST_REV, the target and the actual mode
        (1..=5, 1 | 6) => Parameter::new(Class::R, Allowed::Nothing),
        (3 | 5, 5) => Parameter::new(Class::S, Allowed::ModeOrRcas),
        (1..=5, 5) => Parameter::new(Class::S, Allowed::Mode),
        (1, 7) => Parameter::new(Class::R, Allowed::Nothing),
        (1, 10) => Parameter::new(Class::D, Allowed::Output),
        (1, 11 | 12) => Parameter::new(Class::S, Allowed::Ends),
        (1, 13) => Parameter::new(Class::S, Allowed::UpTo(1)),
        (1, 16) => Parameter::new(Class::S, Allowed::Within(0.0, 3600.0)),
        (1, 17) => Parameter::new(Class::S, Allowed::UpTo(2)),
        (1, 18) => Parameter::new(Class::S, Allowed::Finite),
        (1, 19) => Parameter::new(Class::S, Allowed::AtLeastZero),
        (1, 21 | 23) => Parameter::new(Class::S, Allowed::FiniteOrInfinity),
        (1, 25 | 27) => Parameter::new(Class::S, Allowed::FiniteOrMinusInfinity),
        (2, 10) => Parameter::new(Class::N, Allowed::Total(-1_000_000_000.0, 1_000_000_000.0)),
        (2, 13) => Parameter::new(Class::N, Allowed::UpTo(2)),
        (2, 14) => Parameter::new(Class::N, Allowed::UpTo(3)),
        (2, 15) => Parameter::new(Class::S, Allowed::UpTo(2)),
        (2, 16) => Parameter::new(Class::S, Allowed::Within(-1_000_000_000.0, 1_000_000_000.0)),
        (3, 11 | 38) => Parameter::new(Class::S, Allowed::Ends),
        (3, 23) => Parameter::new(Class::S, Allowed::UpTo(65535)),
        (3, 24) => Parameter::new(Class::S, Allowed::UpTo(2)),
        (3, 25) => Parameter::new(Class::S, Allowed::Finite),
        (3, 36) => Parameter::new(Class::S, Allowed::UpTo(1)),
        (3, 37) => Parameter::new(Class::D, Allowed::Output),
        (4 | 5, 10) => Parameter::new(Class::D, Allowed::OutputD),
        (4 | 5, 15 | 21) => Parameter::new(Class::S, Allowed::UpTo(1)),
        (4 | 5, 20) => Parameter::new(Class::S, Allowed::UpTo(2)),
        (5, 22) => Parameter::new(Class::S, Allowed::UpTo(65535)),
        (0..=5, _) => return Err(Refusal::NoSuchParameter),
        _ => return Err(Refusal::NoSuchBlock),
    })
}

// Whether a write of the parameter counts in ST_REV.
#[tactic(auto, unfolding(crate::specs::Table::is_static))]
pub fn counts(block: u8, parameter: u8) -> bool
    ensures { result ≡ is_static block parameter }
{
    matches!(
        entry_of(block, parameter),
        Ok(Parameter {
            class: Class::S,
            ..
        })
    )
}

// ---- words

// A parameter of one word reads with 0 as the other: a code, a time in ticks or a float.
impl From<u32> for Words {
    fn from(n: u32) -> Words
        ensures { result ≡ code n }
    {
        Words {
            first: n,
            second: 0,
        }
    }
}

impl From<f32> for Words {
    fn from(x: f32) -> Words
        ensures { result ≡ float x }
    {
        Words::from(bits_of(x))
    }
}

impl From<Scale> for Words {
    fn from(scale: Scale) -> Words
        ensures { result ≡ ends scale }
    {
        Words {
            first: bits_of(scale.low),
            second: bits_of(scale.high),
        }
    }
}

impl From<Words> for Scale {
    fn from(words: Words) -> Scale
        ensures { result ≡ scale_of words.first words.second }
    {
        Scale {
            low: float_of(words.first),
            high: float_of(words.second),
        }
    }
}

// An output's words are its value and its status.
impl From<Pair> for Words {
    fn from(pair: Pair) -> Words
        ensures { result ≡ given pair }
    {
        Words {
            first: pair.bits,
            second: u32::from(pair.status),
        }
    }
}

impl From<Words> for Pair {
    fn from(words: Words) -> Pair
        ensures { result ≡ pair_of words.first words.second }
    {
        Pair {
            bits: words.first,
            status: (words.second & 0xff) as u8,
        }
    }
}

impl From<Discrete> for Words {
    fn from(pair: Discrete) -> Words
        ensures { result ≡ given_d pair }
    {
        Words {
            first: u32::from(pair.value),
            second: u32::from(pair.status),
        }
    }
}

impl From<Words> for Discrete {
    fn from(words: Words) -> Discrete
        ensures { result ≡ discrete_pair words.first words.second }
    {
        Discrete {
            value: (words.first & 0xff) as u8,
            status: (words.second & 0xff) as u8,
        }
    }
}

impl Allowed {
    // Whether the words may be written.
    #[tactic(auto, unfolding(crate::specs::Words::allows_of))]
    pub fn takes(self, words: Words) -> bool
        ensures { result ≡ allows_of self words.first words.second }
    {
        let code = words.first;
        let x = float_of(code);
        let one = words.second == 0;
        let status = words.second <= 255;
        let mode = (code == blocks::OUT_OF_SERVICE)
            | (code == blocks::MAN)
            | (code == blocks::AUTO);
        match self {
            Allowed::Nothing => false,
            Allowed::Lock => ((code == 0) | (code == 2457)) & one,
            Allowed::Mode => mode & one,
            Allowed::ModeOrRcas => (mode | (code == blocks::RCAS)) & one,
            Allowed::UpTo(n) => (code <= n) & one,
            Allowed::Ends => Scale::from(words).is_allowed(),
            Allowed::Within(low, high) => is_within(x, low, high) & one,
            Allowed::Finite => is_finite(x) & one,
            Allowed::AtLeastZero => is_finite(x) & (x >= 0.0) & one,
            Allowed::FiniteOrInfinity => is_finite_or(x, false) & one,
            Allowed::FiniteOrMinusInfinity => is_finite_or(x, true) & one,
            Allowed::Output => is_finite(x) & status,
            Allowed::OutputD => (code <= 1) & status,
            Allowed::Total(low, high) => is_within(x, low, high) & status,
        }
    }

    // OUT, TOTAL or OUT_D.
    fn is_output(self) -> bool
        ensures { result ≡ output self }
    {
        matches!(
            self,
            Allowed::Output | Allowed::OutputD | Allowed::Total(_, _)
        )
    }
}

// ---- writes

impl Standing {
    // The target of a block; asked of blocks 1 to 5 alone.
    #[tactic(auto, unfolding(crate::specs::Refused::target_in))]
    fn target(&self, block: u8) -> u32
        ensures { result ≡ target_in self.now block }
    {
        match block {
            1 => self.ain,
            2 => self.tot,
            3 => self.ao,
            4 => self.di,
            _ => self.dout,
        }
    }

    // Whether the write asks for a table, and none is there.
    fn lacks_table(&self, block: u8, parameter: u8, words: Words) -> bool
        ensures { result ≡ lacks_table self.now block parameter words.first }
    {
        (block == 1) & (parameter == 13) & (words.first == 1) & !self.table
    }

    // What a write is answered.
    #[tactic(auto, unfolding(crate::specs::Refused::ground))]
    pub fn answer_to(&self, block: u8, parameter: u8, words: Words) -> Result<(), Refusal>
        ensures { result ≡ ground self.now block parameter words.first words.second }
    {
        let Parameter { class, allowed } = entry_of(block, parameter)?;
        if class == Class::R {
            return Err(Refusal::ReadOnly);
        }
        if self.lock == 0 && block != 0 {
            return Err(Refusal::Locked);
        }
        if !allowed.takes(words) || self.lacks_table(block, parameter, words) {
            return Err(Refusal::WordsNotAllowed);
        }
        if allowed.is_output() && self.target(block) != blocks::MAN {
            return Err(Refusal::NotMan);
        }
        Ok(())
    }
}
