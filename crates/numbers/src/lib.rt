// Floats and whole numbers as document 01 uses them: conversions, tests and limits, each for every argument.
#![tactic(auto)]

pub mod floats;
pub mod whole;
