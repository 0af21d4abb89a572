// Row 4's counts and limits, by the letter of a line.
#![tactic(auto)]

ghost use Rattle.std.specs.Prelude.{◌≡◌};
ghost use Rattle.sheet.specs.Format.{base};
ghost use Rattle.row4_limits.specs.Limits as limits;

// The limits (FORMAT, section 2).
pub const NAMES: usize = 256;

pub const ARGS: usize = 512;

pub const TYPES: usize = 1024;

const DECLS: usize = 96;

pub const CTORS: usize = 256;

pub const FIELDS: usize = 512;

const PARAMS: usize = 8;

// How many lines there are of each kind before a line; P lines since the last D or I line.
#[derive(Clone, Copy)]
pub struct Tally {
    pub names: usize,
    pub args: usize,
    pub types: usize,
    pub decls: usize,
    pub params: usize,
    pub ctors: usize,
    pub fields: usize,
}

// What the lines of a sheet declare.
#[derive(Clone, Copy)]
pub struct Counts {
    pub names: usize,
    pub args: usize,
    pub types: usize,
    pub decls: usize,
    pub ctors: usize,
    pub fields: usize,
}

// After a line of this letter.
#[tactic(auto, unfolding(crate::specs::Limits::counted))]
pub fn counted(t: Tally, letter: u32) -> Tally
    requires { limits.Small t }
    ensures { result ≡ limits.counted t letter }
{
    let mut next = t;
    match letter {
        78 => {
            next.names += 1;
            next
        }
        65 => {
            next.args += 1;
            next
        }
        89 => {
            next.types += 1;
            next
        }
        68 | 73 => {
            next.decls += 1;
            next.params = 0;
            next
        }
        80 => {
            next.params += 1;
            next
        }
        67 => {
            next.ctors += 1;
            next
        }
        70 => {
            next.fields += 1;
            next
        }
        _ => next,
    }
}

// A line of this letter is past the limit of its kind.
#[tactic(auto, unfolding(crate::specs::Limits::past))]
pub fn past(t: Tally, letter: u32) -> bool
    ensures { result ≡ limits.past base t letter }
{
    match letter {
        78 => t.names >= NAMES,
        65 => t.args >= ARGS,
        89 => t.types >= TYPES,
        68 | 73 => t.decls >= DECLS,
        80 => t.params >= PARAMS,
        67 => t.ctors >= CTORS,
        70 => t.fields >= FIELDS,
        _ => false,
    }
}
