// Whole numbers: a float cut toward zero, a number limited to plus or minus another, and the highest 24 bits of a number as
// a float. Every function takes every argument.
ghost use Rattle.std.specs.Prelude.{◌≡◌, pos, ◌+ℤ◌};
ghost use Rattle.std.specs.Float.{binary32};
ghost use Rattle.std.specs.Float.Ieee.{of_int};
ghost use Rattle.numbers.specs.Whole.{cut_of, limit, bound, highest24, highest24ℤ};

// x cut toward zero. A NaN gives 0, and what lies beyond an i64 the nearest end.
pub fn cut(x: f32) -> i64
    ensures { result ≡ cut_of x }
{
    std::num::saturating_f32_to_i64(x)
}

// z limited to plus or minus n. An n below 0 counts as 0.
pub fn limited(z: i64, n: i64) -> i64
    ensures { result ≡ limit (bound n) z }
{
    let high = n.max(0);
    z.clamp(-high, high)
}

// The exact sum a + b limited to plus or minus n.
pub fn limited_sum(a: i64, b: i64, n: i64) -> i64
    ensures { result ≡ limit (bound n) (a +ℤ b) }
{
    limited(a.saturating_add(b), n)
}

// m as a float, after its bits below the 24 highest are cleared: exact.
pub fn highest(m: u64) -> f32
    ensures { result ≡ of_int binary32 (pos (highest24 m)) }
{
    let zeros = m.leading_zeros();
    let low = 40u32.saturating_sub(zeros);
    std::num::nearest_u64_to_f32(m >> low << low)
}

// A total as a float, after the bits of its magnitude below the 24 highest are cleared.
pub fn value_of(total: i64) -> f32
    ensures { result ≡ of_int binary32 (highest24ℤ total) }
{
    let value = highest(total.unsigned_abs());
    if total < 0 { -value } else { value }
}
