// The status byte taken apart and put together.
ghost use Rattle.std.specs.Prelude.{◌≡◌};
ghost use Rattle.wire.specs.Status.{case_of, split_of, built_of, quality_case, limits_case, quality_number, limits_number};

#[derive(Clone, Copy, Debug, PartialEq, Eq)]
pub enum Quality {
    Bad,
    Uncertain,
    Good,
    GoodCascade,
}

#[derive(Clone, Copy, Debug, PartialEq, Eq)]
pub enum Limits {
    Unlimited,
    Low,
    High,
    Constant,
}

#[derive(Clone, Copy, Debug, PartialEq, Eq)]
pub struct Status {
    pub quality: Quality,
    pub sub_status: u8,
    pub limits: Limits,
}

// The case of a number 0 to 3; a larger one counts as 3. The three others are dropped.
fn case_of<T: Drop>(n: u8, zero: T, one: T, two: T, three: T) -> T
    ensures { result ≡ case_of zero one two three n }
{
    match n {
        0 => zero,
        1 => one,
        2 => two,
        _ => three,
    }
}

impl From<u8> for Quality {
    fn from(n: u8) -> Quality
        ensures { result ≡ quality_case n }
    {
        case_of(
            n,
            Quality::Bad,
            Quality::Uncertain,
            Quality::Good,
            Quality::GoodCascade,
        )
    }
}

impl From<Quality> for u8 {
    fn from(quality: Quality) -> u8
        ensures { result ≡ quality_number quality }
    {
        quality as u8
    }
}

impl From<u8> for Limits {
    fn from(n: u8) -> Limits
        ensures { result ≡ limits_case n }
    {
        case_of(
            n,
            Limits::Unlimited,
            Limits::Low,
            Limits::High,
            Limits::Constant,
        )
    }
}

impl From<Limits> for u8 {
    fn from(limits: Limits) -> u8
        ensures { result ≡ limits_number limits }
    {
        limits as u8
    }
}

// What a status byte says.
impl From<u8> for Status {
    #[tactic(auto, unfolding(crate::specs::Status::split_of))]
    fn from(status: u8) -> Status
        ensures { result ≡ split_of status }
    {
        Status {
            quality: crate::quality(status),
            sub_status: crate::sub_status(status),
            limits: crate::limits(status),
        }
    }
}

// The status byte that says it.
impl From<Status> for u8 {
    fn from(s: Status) -> u8
        ensures { result ≡ built_of s }
    {
        64 * u8::from(s.quality) + 4 * (s.sub_status % 16) + u8::from(s.limits)
    }
}
