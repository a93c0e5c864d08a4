// The words of a line, and the numbers that they stand for.
ghost use Rattle.std.specs.Prelude.{◌≡◌, ◌==◌, not, true, false, position, MatchOption, length};
ghost use Rattle.std.specs.Iterator.{YieldsFirstRef, item_count};
ghost use Rattle.script.specs.Words.{words_of, first_of, rest_of, number_of, up_to, word_value, word_byte, fitting, values_of, are_bytes, same_bytes};

// The place of the first byte that is no space.
fn first_byte(line: &[u8]) -> Option<usize>
    ensures { result ≡ position (λ b. not (b == 32)) line.now }
{
    line.iter().position(|byte| *byte != b' ')
}

fn first_space(line: &[u8]) -> Option<usize>
    ensures { result ≡ position (λ b. b == 32) line.now }
{
    line.iter().position(|byte| *byte == b' ')
}

// The words of what is left of a line.
#[derive(Clone, Copy)]
pub struct Words<'a> {
    pub rest: &'a [u8],
}

impl<'a> Iterator for Words<'a> {
    type Item = &'a [u8];

    ghost next_gives = { YieldsFirstRef (λ s. words_of s.rest.now) };

    ghost remaining = { item_count (λ s. words_of s.rest.now) };

    fn next(&mut self) -> Option<&'a [u8]> {
        let line = &self.rest[first_byte(self.rest)?..];
        let (word, rest) = line.split_at(first_space(line).unwrap_or(line.len()));
        self.rest = rest;
        Some(word)
    }
}

// Whether two byte strings are the same.
pub fn same(a: &[u8], b: &[u8]) -> bool
    ensures { result ≡ same_bytes a.now b.now }
{
    a == b
}

fn is_byte(word: &[u8]) -> bool
    ensures { result ≡ up_to 255 (number_of word.now) }
{
    text::number(word, 255).is_some()
}

impl Words<'_> {
    // The number that the next word stands for, up to a limit.
    pub fn number(&mut self, limit: u32) -> Option<u32>
        ensures { MatchOption result (up_to limit (number_of (first_of (words_of self.old.rest.now))) ≡ false)
            (λ n. (up_to limit (number_of (first_of (words_of self.old.rest.now))) ≡ true)
            × (n ≡ word_value (first_of (words_of self.old.rest.now)))
            × (words_of self.new.rest.now ≡ rest_of (words_of self.old.rest.now))) }
    {
        Some(text::number(self.next()?, limit.into())? as u32)
    }

    // The lowest byte of the number that the next word stands for, 0 where there is none.
    pub fn low_byte(&mut self) -> u8
        ensures byte { result ≡ word_byte (first_of (words_of self.old.rest.now)) }
        ensures rest { words_of self.new.rest.now ≡ rest_of (words_of self.old.rest.now) }
    {
        match self.next() {
            Some(word) => (text::number(word, crate::WORD as u64).unwrap_or(0) % 256) as u8,
            None => 0,
        }
    }

    // The numbers that the words stand for, where there is one for each limit, up to that limit, and no word is left.
    pub fn numbers<const N: usize>(mut self, limits: &[u32; N]) -> Option<[u32; N]>
        ensures { MatchOption result (fitting limits.now (words_of self.entry.rest.now) ≡ false)
            (λ v. (fitting limits.now (words_of self.entry.rest.now) ≡ true)
            × (v ≡ values_of N (words_of self.entry.rest.now))) }
    {
        let mut values = [0; N];
        // (By `iter_mut().zip(limits)` a proof knows nothing of the values after the loop.)
        for (i, limit) in limits.iter().enumerate() {
            values[i] = self.number(*limit)?;
        }
        self.next().is_none().then_some(values)
    }

    // How many words there are, where there are at most so many, and each is a number up to 255.
    pub fn bytes(self, most: usize) -> Option<usize>
        ensures { MatchOption result (are_bytes most (words_of self.entry.rest.now) ≡ false)
            (λ n. (are_bytes most (words_of self.entry.rest.now) ≡ true) × (n ≡ length (words_of self.entry.rest.now))) }
    {
        let mut words = self;
        if !words.all(is_byte) {
            return None;
        }
        let count = self.count();
        (count <= most).then_some(count)
    }
}
