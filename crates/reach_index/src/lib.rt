// The reach index of a sheet: for each declaration the set of those that it reaches, as bits in words; or how many these are, as lines X.
#![tactic(auto)]

ghost use Rattle.std.specs.Prelude.{◌≡◌, false, ◌+◌, ◌*◌, ◌≤◌, length};
ghost use Rattle.sheet.specs.Format.{base};
ghost use Rattle.sheet.specs.Sheet.{count, row1};
ghost use Rattle.answer_reach.specs.Given.{Indexes, Lists};
ghost use Rattle.table_access.specs.Tables.{TabledIn, decls_of, lines_in};
ghost use Rattle.reach_index.specs.Indexing.{Room, Names, Taken, Finds, Counted, Put};

use answer::Refusal;
use answer_reach::Listing;
use reach_sets::WORDS;
use sheet_parts::LINE;

// The refusal, and how many declarations an accepted sheet has.
#[derive(Clone, Copy)]
pub struct Index {
    pub refusal: Refusal,
    pub decls: usize,
}

// Bytes of 58 and 386 lines, whose tables fit 480 and 3,104 cells.
const TINY: usize = 1856;

const LARGE: usize = 12352;

// The names of the table's declarations.
fn put_names(t: &[u32], names: &mut [u32])
    requires { TabledIn base t.now × (decls_of (lines_in t.now) ≤ length names.old) }
    ensures { Names (lines_in t.now) (decls_of (lines_in t.now)) names.old names.new }
{
    let n = table_access::decls(t);
    for d in 0..n {
        names[d] = table_access::decl_number(t, d, 0);
    }
}

// The sets and the names of an accepted sheet.
fn taken(t: &[u32], sets: &mut [u64], names: &mut [u32])
    requires { TabledIn base t.now × Room sets.old names.old }
    ensures { Taken (lines_in t.now) sets.new names.new }
{
    reach_sets::fill(t, sets);
    put_names(t, names);
}

// The rows that look at no output, with memory for the table; and the sets and names of a sheet that passes them.
fn checked(s: &[u8], t: &mut [u32], sets: &mut [u64], names: &mut [u32]) -> Index
    requires { (row1 base s.now ≡ false) × (8 * count 6 s.now + 16 ≤ length t.old) × Room sets.old names.old }
    ensures { Finds s.now sets.old result sets.new names.new }
{
    let mut keep = [0u8; 512];
    let mut u = [0u16; 192];
    let mut rank = [0u16; 96];
    let d = input_rows::decide(s, t, &mut keep, &mut u, &mut rank);
    let Refusal::Accepted = d.refusal else {
        return Index {
            refusal: d.refusal,
            decls: 0,
        };
    };
    taken(&t[0..d.cells], sets, names);
    Index {
        refusal: Refusal::Accepted,
        decls: d.decls,
    }
}

// The same of any bytes. Cells that a sheet does not need are not cleared.
fn found(s: &[u8], sets: &mut [u64], names: &mut [u32]) -> Index
    requires { Room sets.old names.old }
    ensures { Finds s.now sets.old result sets.new names.new }
{
    if walk_cells::format::row1(s) {
        return Index {
            refusal: Refusal::Refused { code: 1, place: 0 },
            decls: 0,
        };
    }
    if s.len() <= TINY {
        let mut t = [0u32; 480];
        return checked(s, &mut t, sets, names);
    }
    if s.len() <= LARGE {
        let mut t = [0u32; 3104];
        return checked(s, &mut t, sets, names);
    }
    let mut t = [0u32; 16400];
    checked(s, &mut t, sets, names)
}

// Line X of each of the first n declarations, by their names and sets.
fn put_lines(sets: &[u64], names: &[u32], n: usize, out: &mut [u8])
    requires { Counted sets.now names.now n (length out.old) }
    ensures { Put sets.now names.now n out.old out.new }
{
    for d in 0..n {
        let ones = set_closure::ones(sets, d * WORDS, WORDS) as u32;
        sheet_writer::row_at(out, d, b'X', [names[d], ones, 0, 0, 0]);
    }
}

// The sets of a sheet's declarations, two words each. The refusal is the build's but for the rows of its outputs; it changes no word, and
// else every word is written.
pub fn reach_index(s: &[u8], sets: &mut [u64; 192]) -> Refusal
    ensures { Indexes base 2 s.now sets.old result sets.new }
{
    let mut names = [0u32; 96];
    found(s, sets, &mut names).refusal
}

// The lines X of a sheet's declarations: a name, and how many it reaches. A refusal changes no byte of the output.
pub fn reach_lines(s: &[u8], out: &mut [u8]) -> Listing
    requires { 3072 ≤ length out.old }
    ensures { Lists base s.now out.old result out.new }
{
    let mut sets = [0u64; 192];
    let mut names = [0u32; 96];
    let r = found(s, &mut sets, &mut names);
    let Refusal::Accepted = r.refusal else {
        return Listing {
            refusal: r.refusal,
            length: 0,
        };
    };
    put_lines(&sets, &names, r.decls, out);
    Listing {
        refusal: Refusal::Accepted,
        length: r.decls * LINE,
    }
}
