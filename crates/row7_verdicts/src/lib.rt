// Row 7: keep numbers and verdicts (FORMAT, section 5).
#![tactic(auto)]

mod verdict_lines;

ghost use Rattle.std.specs.Prelude.{◌≡◌, ◌/◌, ◌≤◌, ◌<◌, length};
ghost use Rattle.walk_cells.specs.Cells.{lines_of};
ghost use Rattle.sheet.specs.Sheet as sheet;
ghost use Rattle.meaning.specs.Rows as rows;
ghost use Rattle.rows_header.specs.Header.{Headed, Lettered};
ghost use Rattle.row7_verdicts.specs.Verdicts as verdicts;

use choices::pick;
use walk_cells::CELLS;

// The declaration that a line is in: the line at which it begins, the largest keep number in it, how many of its fields up to that
// line are kept, the tag number that its next C line is to have, and how much that grows with each C line.
#[derive(Clone, Copy)]
pub struct Decl {
    pub head: usize,
    pub most: usize,
    pub kept: usize,
    pub tag: usize,
    pub step: usize,
}

// The V line i of the declaration that begins at line `head`, of whose fields so many are kept.
fn declared_verdict(t: &[u32], head: usize, kept: usize, i: usize) -> bool
    requires { i < length t.now / 6 }
    ensures { result ≡ verdicts.declared_verdict (rows.nth_line (lines_of t.now) head) kept (rows.nth_line (lines_of t.now) i) }
{
    if head >= t.len() / CELLS {
        return verdict_lines::no_verdict(t, i);
    }
    let begins = walk_cells::letter(t, head);
    match begins {
        73 => verdict_lines::good_verdict(t, head, kept, i),
        _ => verdict_lines::no_verdict(t, i),
    }
}

// Line i, where the line before it is in d. What a C or F line is to have is picked, and not jumped to: which of the two comes next
// cannot be foreseen. The largest keep number is 0 or 1, so its bit is all that a keep number may have.
fn good_line(t: &[u32], d: Decl, i: usize) -> bool
    requires { (i < length t.now / 6) × (d.most ≤ 1) × Lettered (rows.nth_line (lines_of t.now) i) }
    ensures { result ≡ verdicts.good_with d.tag d.most (rows.nth_line (lines_of t.now) d.head) d.kept (rows.nth_line (lines_of t.now) i) }
{
    let letter = walk_cells::letter(t, i);
    if letter > 70 {
        if letter == 86 {
            return declared_verdict(t, d.head, d.kept, i);
        }
        return true;
    }
    if letter == 68 {
        return true;
    }
    let third = walk_cells::number(t, i, 2) as usize;
    third == pick(letter == 70, third & d.most, d.tag)
}

// The declaration that line i is in, where the line before it is in d, and line i is as it should be. The keep number of an F line
// is then its count of kept fields, and the tag number of a C line the one that it was to have.
fn decl_at(t: &[u32], d: Decl, i: usize) -> Decl
    requires i_in_bounds { (i < length t.now / 6) × (d.kept ≤ i) × (d.step ≤ 1) }
    requires lettered { Lettered (rows.nth_line (lines_of t.now) i) × verdicts.Third d.tag (rows.nth_line (lines_of t.now) i) }
    ensures { result ≡ verdicts.decl_at d i (rows.nth_line (lines_of t.now) i) }
{
    let letter = walk_cells::letter(t, i);
    if letter > 70 {
        if letter == 73 {
            let step = pick(walk_cells::number(t, i, 4) == 1, 0, 1);
            return Decl {
                head: i,
                most: 1,
                kept: 0,
                tag: step,
                step,
            };
        }
        return d;
    }
    if letter == 68 {
        return Decl {
            head: i,
            most: 0,
            kept: 0,
            tag: 0,
            step: 0,
        };
    }
    let third = walk_cells::number(t, i, 2) as usize;
    let keep = pick(letter == 70, third, 0);
    let tag = pick(letter == 70, d.tag, third + d.step);
    Decl {
        head: d.head,
        most: d.most,
        kept: d.kept + keep,
        tag,
        step: d.step,
    }
}

// Row 7 of a sheet that passed rows 2 and 3 and whose declarations begin at line `from`.
pub fn row7(t: &[u32], from: usize) -> usize
    requires { Headed (lines_of t.now) from }
    ensures { result ≡ sheet.first (rows.row7 (lines_of t.now)) (length (lines_of t.now)) }
{
    let n = t.len() / CELLS;
    let mut d = Decl {
        head: n,
        most: 0,
        kept: 0,
        tag: 0,
        step: 0,
    };
    for i in from..n {
        if !good_line(t, d, i) {
            return i;
        }
        d = decl_at(t, d, i);
    }
    n
}
