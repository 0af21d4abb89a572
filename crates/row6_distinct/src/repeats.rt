// Row 6 for one line: whether its name is that of an earlier line from which it is to differ. There
// are four ways: the names of all declarations are to differ, of the parameters of one declaration,
// of the fields of one constructor or record, and of all constructors and record types. For each way
// the last group is kept in which each name was seen: those of constructors and of fields in one array.
ghost use Rattle.std.specs.Prelude.{◌≡◌, ◌⊎◌, ◌/◌, ◌<◌, eqb, length, get_or, set};
ghost use Rattle.sheet.specs.Line.{letter};
ghost use Rattle.walk_cells.specs.Cells.{lines_of};
ghost use Rattle.meaning.specs.Rows as rows;
ghost use Rattle.rows_header.specs.Header.{Lettered};
ghost use Rattle.row6_distinct.specs.Ways as ways;

use choices::pick;
use row4_limits::NAMES;

// Room for constructors, and behind them for fields.
pub const MEMBERS: usize = 512;

// The groups within which the names of parameters and of fields are to differ, counted from 1. All
// declarations are one group, and so are all constructors: group 1.
#[derive(Clone, Copy)]
pub struct Groups {
    pub params: u16,
    pub fields: u16,
}

// Whether the name at place x was seen in this group, and it is from now on.
fn seen<const N: usize>(last: &mut [u16; N], x: usize, group: u16) -> bool
    requires { x < N }
    ensures value { result ≡ eqb (get_or last.old x 0) group }
    ensures last_after { last.new ≡ set last.old x group }
{
    let before = last[x];
    last[x] = group;
    before == group
}

// Line i, a D or I line.
fn head_repeats(
    t: &[u32],
    i: usize,
    declared: &mut [u16; NAMES],
    members: &mut [u16; MEMBERS],
) -> bool
    requires i_in_bounds { (i < length t.now / 6) × ways.Named (rows.nth_line (lines_of t.now) i) }
    requires fact { (letter (rows.nth_line (lines_of t.now) i) ≡ 68) ⊎ (letter (rows.nth_line (lines_of t.now) i) ≡ 73) }
    ensures { ways.HeadAfter (rows.nth_line (lines_of t.now) i) declared.old members.old result declared.new members.new }
{
    let x = walk_cells::number(t, i, 0) as usize;
    let again = seen(declared, x, 1);
    if walk_cells::number(t, i, 2) == 2 {
        return again | seen(members, x, 1);
    }
    again
}

// Line i, whose letter is after F.
fn later_repeats(
    t: &[u32],
    i: usize,
    g: Groups,
    declared: &mut [u16; NAMES],
    params: &mut [u16; NAMES],
    members: &mut [u16; MEMBERS],
) -> bool
    requires i_in_bounds { (i < length t.now / 6) × ways.Named (rows.nth_line (lines_of t.now) i) }
    requires bound { 70 < letter (rows.nth_line (lines_of t.now) i) }
    ensures { ways.MembersAfter (rows.nth_line (lines_of t.now) i) g declared.old params.old members.old result declared.new params.new members.new }
{
    let letter = walk_cells::letter(t, i);
    match letter {
        73 => head_repeats(t, i, declared, members),
        80 => {
            let x = walk_cells::number(t, i, 0) as usize;
            seen(params, x, g.params)
        }
        _ => false,
    }
}

// Whether line i repeats an earlier one in one of the ways; its name is seen in them from now on. The place of a C or F line's name is
// picked, and not jumped to: which of the two comes next cannot be foreseen.
pub fn repeats(
    t: &[u32],
    i: usize,
    g: Groups,
    declared: &mut [u16; NAMES],
    params: &mut [u16; NAMES],
    members: &mut [u16; MEMBERS],
) -> bool
    requires i_in_bounds { (i < length t.now / 6) × ways.Named (rows.nth_line (lines_of t.now) i) }
    requires lettered { Lettered (rows.nth_line (lines_of t.now) i) }
    ensures { ways.MembersAfter (rows.nth_line (lines_of t.now) i) g declared.old params.old members.old result declared.new params.new members.new }
{
    let letter = walk_cells::letter(t, i);
    if letter > 70 {
        return later_repeats(t, i, g, declared, params, members);
    }
    if letter == 68 {
        return head_repeats(t, i, declared, members);
    }
    let x = walk_cells::number(t, i, 0) as usize;
    let place = pick(letter == 70, NAMES, 0) + x;
    let group = pick(letter == 70, g.fields, 1);
    seen(members, place, group)
}

// The groups after line i: a declaration begins one for its parameters, and one for its fields, and
// so does each constructor.
pub fn groups_after(t: &[u32], i: usize, g: Groups) -> Groups
    requires i_in_bounds { (i < length t.now / 6) × Lettered (rows.nth_line (lines_of t.now) i) }
    requires params_bound { (g.params < 65535) × (g.fields < 65535) }
    ensures { result ≡ ways.groups_after (rows.nth_line (lines_of t.now) i) g }
{
    let letter = walk_cells::letter(t, i);
    if letter > 70 {
        if letter == 73 {
            return Groups {
                params: g.params + 1,
                fields: g.fields + 1,
            };
        }
        return g;
    }
    if letter == 68 {
        return Groups {
            params: g.params + 1,
            fields: g.fields + 1,
        };
    }
    Groups {
        params: g.params,
        fields: g.fields + u16::from(letter < 68),
    }
}
