// Singles: their 32 bits, and the tests that parameters need. A NaN has no bits of its own in the language, so
// what must keep its bits is held as a `u32` and what is computed with as an `f32`.
ghost use Rattle.std.specs.Prelude.{◌≡◌};
ghost use Rattle.std.specs.Float.Ieee.Scale.{finite};
ghost use Rattle.numbers.specs.Floats.{float_of, bits_of, within, finite_or};

// The single with these bits; any of the NaN patterns gives the one NaN.
pub fn float_of(bits: u32) -> f32
    ensures { result ≡ float_of bits }
{
    std::num::f32_from_bits_with_nan(bits)
}

// The bits of a single; 0x7FC00000 for a NaN.
pub fn bits_of(x: f32) -> u32
    ensures { result ≡ bits_of x }
{
    std::num::f32_to_bits_with_nan(x)
}

#[tactic(auto, using(crate::proofs::Tests::same_test))]
pub fn is_finite(x: f32) -> bool
    ensures { result ≡ finite x }
{
    x.is_finite()
}

// Finite or that infinity: the range of a limit. An enum would be no plainer: the flag is the infinity's sign bit.
pub fn is_finite_or(x: f32, negative: bool) -> bool
    ensures { result ≡ finite_or negative x }
{
    if negative {
        x < f32::INFINITY
    } else {
        f32::NEG_INFINITY < x
    }
}

// From low to high as numbers: -0 is 0, and a NaN is in no range.
pub fn is_within(x: f32, low: f32, high: f32) -> bool
    ensures { result ≡ within low high x }
{
    low <= x && x <= high
}
