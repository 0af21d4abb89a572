// The line R that a program writes: code, place and rounds.
#![tactic(auto)]

ghost use Rattle.std.specs.Prelude.{◌≡◌, ◌∷◌, [], length};
ghost use Rattle.sheet.specs.Line.{row, encode};
ghost use Rattle.sheet_answer.specs.Shown.{shown};

// A place as it is written.
#[tactic(auto, unfolding(crate::specs::Shown::shown))]
fn shown_place(place: usize) -> u32
    ensures { result ≡ shown place }
{
    place.min(999999) as u32
}

// Line R, into the 32 bytes that hold it.
pub fn put_answer(out: &mut [u8], code: u32, place: usize, rounds: usize)
    requires { length out.old ≡ 32 }
    ensures { out.new ≡ encode 6 (row 82 (code ∷ shown place ∷ shown rounds ∷ 0 ∷ 0 ∷ [])) }
{
    sheet_writer::put_row(
        out,
        b'R',
        [code, shown_place(place), shown_place(rounds), 0, 0],
    );
}
