// What a build answers.
#![tactic(auto)]

ghost use Rattle.std.specs.Prelude.{◌≡◌};
ghost use Rattle.answer_built.specs.Built.{refused_as};

// Code, place and rounds, and the lengths of the two sheets that were written.
#[derive(Clone, Copy)]
pub struct Built {
    pub code: u32,
    pub place: usize,
    pub rounds: usize,
    pub verdict: usize,
    pub left: usize,
}

// A refusal writes nothing.
pub fn refused(code: u32, place: usize) -> Built
    ensures { result ≡ refused_as code place }
{
    Built {
        code,
        place,
        rounds: 0,
        verdict: 0,
        left: 0,
    }
}
