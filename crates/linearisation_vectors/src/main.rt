// Tables of bytes, and values by them (document 02, request 1), one line each. The expected lines were worked apart from this code, in
// exact fractions rounded to singles. What it would catch: a table of the wrong length taken, or refused under another number, x that
// do not rise or numbers that are not finite let in, places left filled, a byte order turned round, another pair used than the last
// at or below the value, the quotient before the product, an end's y computed and not given, a value not finite changed.
#![tactic(auto)]

use linearisation::Table;
use numbers::floats::{bits_of, float_of};
use std::io;
use wire::Refusal;

// ---- bytes

// Four bytes from a place on, the highest first.
fn put_word(bytes: &mut [u8], at: usize, bits: u32) {
    let _ = wire::put(bytes, at, bits.to_be_bytes());
}

// Up to 23 pairs, as there is room: x is 1, 2, .. subnormal steps, y 256 times as many.
fn rising<const N: usize>() -> [u8; N] {
    let mut bytes = [0u8; N];
    for (pair, i) in bytes.chunks_exact_mut(8).zip(1..24) {
        let _ = wire::put(pair, 0, [0, 0, 0, i, 0, 0, i, 0]);
    }
    bytes
}

// x and y of one pair, then of another.
fn two_pairs(words: [u32; 4]) -> Result<Table, Refusal> {
    let mut bytes = [0u8; 16];
    for (place, word) in bytes.chunks_exact_mut(4).zip(words) {
        put_word(place, 0, word);
    }
    Table::try_from(bytes.as_slice())
}

// ---- tables of bytes

// How many places of a table hold zeros.
fn zeros(table: Table) -> usize {
    table
        .points
        .iter()
        .filter(|p| bits_of(p.x) == 0 && bits_of(p.y) == 0)
        .count()
}

// The answer's number, and how many pairs the table has.
fn print_loaded(rt: &impl Print, loaded: Result<Table, Refusal>) -> io::Result<()> {
    let (number, count) = match loaded {
        Ok(table) => (0, table.count),
        Err(refusal) => (refusal.number(), 0),
    };
    print!(rt; ": {number} {count}")
}

// How many bytes of the rising pairs: answer, pairs, and places that hold zeros. Whole pairs, 2 to 21 of them: 8 and 176 bytes are
// whole pairs, and refused as well.
fn lengths(rt: &impl Print) -> io::Result<()> {
    println!(rt; "lengths")?;
    let bytes = rising::<185>();
    for length in [0, 8, 15, 16, 17, 24, 160, 168, 169, 176, 184] {
        let loaded = Table::try_from(&bytes[..length]);
        let zeros = zeros(loaded.unwrap_or_default());
        print!(rt; "{length}")?;
        print_loaded(rt, loaded)?;
        println!(rt; " {zeros}")?;
    }
    Ok(())
}

fn contents(rt: &impl Print) -> io::Result<()> {
    println!(rt; "contents")?;
    for words in [
        // zeros of both signs are one number, and do not rise
        [0x80000000, 0x00000000, 0x00000000, 0x41200000],
        [0x00000000, 0x00000000, 0x80000000, 0x41200000],
        // equal x, falling x, falling below 0, where bits rise
        [0x3f800000, 0x00000000, 0x3f800000, 0x41200000],
        [0x3f800000, 0x00000000, 0x00000000, 0x41200000],
        [0xbf800000, 0x00000000, 0xc0000000, 0x41200000],
        // x that are not finite, though the infinite ones rise
        [0xff800000, 0x00000000, 0x3f800000, 0x41200000],
        [0x00000000, 0x00000000, 0x7f800000, 0x41200000],
        [0x7fc00000, 0x00000000, 0x3f800000, 0x41200000],
        [0x00000000, 0x00000000, 0xff800001, 0x41200000],
        // y that are not finite
        [0x00000000, 0x7f800000, 0x3f800000, 0x41200000],
        [0x00000000, 0xff800000, 0x3f800000, 0x41200000],
        [0x00000000, 0x00000000, 0x3f800000, 0x7fc00000],
        // accepted: a subnormal step above -0, with equal y; rising below 0, with falling y; the ends of the finite numbers
        [0x80000000, 0x41200000, 0x00000001, 0x41200000],
        [0xc0000000, 0x41200000, 0xbf800000, 0x00000000],
        [0xff7fffff, 0xff7fffff, 0x7f7fffff, 0x7f7fffff],
    ] {
        let [x0, y0, x1, y1] = words;
        print!(rt; "{x0:08x} {y0:08x}, {x1:08x} {y1:08x}")?;
        print_loaded(rt, two_pairs(words))?;
        println!(rt)?;
    }
    // the last of 21 x: equal to the one before, below it, infinite, and the largest single
    let mut bytes = rising::<168>();
    for x in [0x00000014, 0x00000013, 0x7f800000, 0x7f7fffff] {
        put_word(&mut bytes, 160, x);
        print!(rt; "{x:08x}")?;
        print_loaded(rt, Table::try_from(bytes.as_slice()))?;
        println!(rt)?;
    }
    Ok(())
}

// ---- values by a table

fn values(
    rt: &impl Print,
    title: &str,
    loaded: Result<Table, Refusal>,
    xs: &[u32],
) -> io::Result<()> {
    println!(rt; "{title}")?;
    let table = loaded.unwrap_or_default();
    for x in xs {
        let bits = *x;
        let given = bits_of(table.value_at(float_of(bits)));
        println!(rt; "{bits:08x}: {given:08x}")?;
    }
    Ok(())
}

fn weir(rt: &impl Print) -> io::Result<()> {
    let table = Table::try_from(
        b"\x00\x00\x00\x00\x00\x00\x00\x00\x3f\x80\x00\x00\x41\x20\x00\x00\x40\x80\x00\x00\x42\x8c\x00\x00\x40\xe0\x00\x00\x42\xc8\x00\x00".as_slice(),
    );
    let xs = [
        // at the first x (a zero of either sign), the inner ones, the last
        0x00000000, 0x80000000, 0x3f800000, 0x40800000, 0x40e00000,
        // between: 0.5, 5.5
        0x3f000000, 0x40b00000,
        // below the first x and above the last
        0xbf800000, 0xff7fffff, 0x447a0000, 0x7f7fffff,
        // product, then quotient: a quotient before the product gives 41dfffff, then 417fffff; a slope 41e00000, then 417fffff
        0x3ff33333, 0x3fa66666,
        // not finite
        0x7fc00000, 0x7f800000, 0xff800000,
    ];
    values(rt, "pairs 0 0, 1 10, 4 70, 7 100", table, &xs)
}

// The sign of a zero, at the first pair by the line and below it the y itself; the last y itself.
fn zero_signs(rt: &impl Print) -> io::Result<()> {
    let first = two_pairs([0x00000000, 0x80000000, 0x3f800000, 0x41200000]);
    values(
        rt,
        "pairs 0 -0, 1 10",
        first,
        &[0x00000000, 0x80000000, 0x80000001],
    )?;
    let last = two_pairs([0x00000000, 0x41200000, 0x3f800000, 0x80000000]);
    values(rt, "pairs 0 10, 1 -0", last, &[0x3f800000])
}

// Where a span or a product overflows the line is infinite or a NaN, at its own pair too (0 times infinity); the ends' y are not
// computed. A span of x that overflows makes a quotient of 0 or a NaN. Products that overflow and underflow, of values in between.
fn overflows(rt: &impl Print) -> io::Result<()> {
    let high = two_pairs([0x00000000, 0xff61b1e6, 0x40000000, 0x7f61b1e6]);
    let xs = [0x00000000, 0x00000001, 0x3f800000, 0x40000000, 0xbf800000];
    values(rt, "pairs 0 -3e38, 2 3e38", high, &xs)?;
    let wide = two_pairs([0xff61b1e6, 0x40a00000, 0x7f61b1e6, 0x40c00000]);
    let xs = [0xff61b1e6, 0x00000000, 0x7f000000, 0x7f61b1e6];
    values(rt, "pairs -3e38 5, 3e38 6", wide, &xs)?;
    let large = two_pairs([0x00000000, 0x00000000, 0x71800000, 0x71800000]);
    values(
        rt,
        "pairs 0 0, 2^100 2^100",
        large,
        &[0x49800000, 0x71000000],
    )?;
    let small = two_pairs([0x00000000, 0x00000000, 0x0d800000, 0x0d800000]);
    values(rt, "pairs 0 0, 2^-100 2^-100", small, &[0x0d000000])
}

// Spans of subnormal steps: of x, and of y with ties to even in quotient and product.
fn subnormals(rt: &impl Print) -> io::Result<()> {
    let steps = two_pairs([0x00000001, 0x00000000, 0x00000003, 0x40000000]);
    values(rt, "pairs 1 step 0, 3 steps 2", steps, &[0x00000002])?;
    let step = two_pairs([0x00000000, 0x00000000, 0x40000000, 0x00000001]);
    values(rt, "pairs 0 0, 2 1 step", step, &[0x3f800000, 0x3fc00000])
}

// All 21 places: the first x, one step below it, a pair in the middle, the last but one, the last and one step above.
fn all_places(rt: &impl Print) -> io::Result<()> {
    let bytes = rising::<168>();
    let xs = [
        0x00000001, 0x00000000, 0x0000000b, 0x00000014, 0x00000015, 0x00000016,
    ];
    values(rt, "21 pairs", Table::try_from(bytes.as_slice()), &xs)
}

fn main(rt: HostRuntime) -> io::Result<()> {
    lengths(&rt)?;
    contents(&rt)?;
    weir(&rt)?;
    zero_signs(&rt)?;
    overflows(&rt)?;
    subnormals(&rt)?;
    all_places(&rt)
}
