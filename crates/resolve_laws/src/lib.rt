// What the resolution by outcomes asks and answers: the definitions and laws are in specs/. An answer is a number.
#![tactic(auto)]

// The fuel is spent; the scratch is full; codes 9 and 10. Every greater number is an outcome.
pub const NO_FUEL: usize = 0;

pub const NO_ROOM: usize = 1;

pub const NINE: usize = 2;

pub const TEN: usize = 3;

pub const VALUE: usize = 4;

// What becomes of a name.
pub const GONE: usize = 0;

pub const NEWTYPE: usize = 1;

pub const ABBREVIATION: usize = 2;

pub const STAYS: usize = 3;
