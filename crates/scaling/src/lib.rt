// Scaling by two ends, shared by AIN and AO (document 01, AIN tick and AO tick).
#![tactic(auto)]

ghost use Rattle.std.specs.Prelude.{◌≡◌};
ghost use Rattle.scaling.specs.Scaling.{fraction_of, at_fraction, allowed_scale};

use numbers::floats::is_finite;

#[repr(C)]
#[derive(Clone, Copy)]
pub struct Scale {
    pub low: f32,
    pub high: f32,
}

impl Scale {
    // Where x lies between the ends: 0 at the low one, 1 at the high one.
    #[tactic(auto, unfolding(crate::specs::Scaling::fraction_of))]
    pub fn fraction(self, x: f32) -> f32
        ensures { result ≡ fraction_of self x }
    {
        (x - self.low) / (self.high - self.low)
    }

    // What lies at that fraction between the ends.
    #[tactic(auto, unfolding(crate::specs::Scaling::at_fraction))]
    pub fn at_fraction(self, f: f32) -> f32
        ensures { result ≡ at_fraction self f }
    {
        f * (self.high - self.low) + self.low
    }

    // Whether a scale may be written.
    #[tactic(auto, unfolding(crate::specs::Scaling::allowed_scale))]
    pub fn is_allowed(self) -> bool
        ensures { result ≡ allowed_scale self }
    {
        is_finite(self.low) && is_finite(self.high) && self.low != self.high
    }
}
