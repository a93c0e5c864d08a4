// The linearisation table of AIN (document 02, request 1): what bytes stand for, and what a value becomes by a table.
#![tactic(auto)]

ghost use Rattle.std.specs.Prelude.{◌≡◌, ◌≤◌, length, map};
ghost use Rattle.linearisation.specs.Table.{no_table, has_table, pairs_of, pair_from, padded, whole_pairs, allowed, loaded_of};
ghost use Rattle.linearisation.specs.Value.{between, value_at};

use numbers::floats::{float_of, is_finite};
use wire::Refusal;

// A pair of the table: a measured value, and what it becomes.
#[repr(C)]
#[derive(Clone, Copy, Default)]
pub struct Point {
    pub x: f32,
    pub y: f32,
}

impl Point {
    // The pair of eight bytes: x, then y, each from its highest byte on.
    fn from_bytes(bytes: [u8; 8]) -> Point
        ensures { result ≡ pair_from bytes }
    {
        let [a, b, c, d, e, f, g, h] = bytes;
        Point {
            x: float_of(u32::from_be_bytes([a, b, c, d])),
            y: float_of(u32::from_be_bytes([e, f, g, h])),
        }
    }

    // What a value becomes on the straight line to another pair.
    #[tactic(auto, unfolding(crate::specs::Value::between))]
    fn on_line_to(self, next: Point, x: f32) -> f32
        ensures { result ≡ between self next x }
    {
        self.y + (x - self.x) * (next.y - self.y) / (next.x - self.x)
    }
}

// A table: its pairs from the first place on, and how many they are, 0 without a table. Places after the last pair hold
// zeros, so that one table has one form. An array and a count: C holds a table, and the head has no heap.
#[repr(C)]
#[derive(Clone, Copy)]
pub struct Table {
    pub count: u32,
    pub points: [Point; 21],
}

// No table; by hand, as what it is has a definition.
impl Default for Table {
    ghost is_default = { λ table. table ≡ no_table };

    fn default() -> Table {
        Table {
            count: 0,
            points: [Point::default(); 21],
        }
    }
}

// The table that bytes stand for, eight to a pair.
impl<'a> TryFrom<&'a [u8]> for Table {
    type Error = Refusal;

    fn try_from(bytes: &'a [u8]) -> Result<Table, Refusal>
        ensures { result ≡ loaded_of bytes.now }
    {
        if !is_whole(bytes.len()) {
            return Err(Refusal::NotWholePairs);
        }
        let (pairs, _) = bytes.as_chunks::<8>();
        let points = points_of(pairs);
        if !is_allowed(&points[..pairs.len()]) {
            return Err(Refusal::NotRising);
        }
        Ok(Table {
            count: pairs.len() as u32,
            points,
        })
    }
}

// Whether so many bytes are whole pairs, from 2 to 21.
#[tactic(auto, unfolding(crate::specs::Table::whole_pairs))]
fn is_whole(length: usize) -> bool
    ensures { result ≡ whole_pairs length }
{
    length % 8 == 0 && (2..=21).contains(&(length / 8))
}

// Pairs in their places, and zeros after them.
fn points_of(pairs: &[[u8; 8]]) -> [Point; 21]
    requires { length pairs.now ≤ 21 }
    ensures { result ≡ padded (map pair_from pairs.now) }
{
    let mut points = [Point::default(); 21];
    for (i, pair) in pairs.iter().enumerate() {
        points[i] = Point::from_bytes(*pair);
    }
    points
}

// Whether all numbers are finite and each x lies above the one before.
fn is_allowed(pairs: &[Point]) -> bool
    ensures { result ≡ allowed pairs.now }
{
    pairs.iter().all(|p| is_finite(p.x) && is_finite(p.y)) && pairs.is_sorted_by(|p, q| p.x < q.x)
}

impl Table {
    // Whether a table is there.
    pub fn is_loaded(&self) -> bool
        ensures { result ≡ has_table self.now }
    {
        self.count != 0
    }

    // The pairs, as many of them as the places hold.
    fn pairs(&self) -> &[Point]
        ensures { result.now ≡ pairs_of self.now }
    {
        &self.points[..(self.count as usize).min(21)]
    }

    // What a value becomes: by the last pair at or below it, on the line to the next one; below the first x its y.
    pub fn value_at(&self, x: f32) -> f32
        ensures { result ≡ value_at (pairs_of self.now) x }
    {
        if !is_finite(x) {
            return x;
        }
        let pairs = self.pairs();
        match pairs.iter().rposition(|p| p.x <= x) {
            Some(i) => match pairs.get(i + 1) {
                Some(next) => pairs[i].on_line_to(*next, x),
                None => pairs[i].y,
            },
            None => pairs.first().map_or(x, |first| first.y),
        }
    }
}
