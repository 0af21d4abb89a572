// Every row that looks at no output, with the table of an accepted sheet and what the passes find on the way: rows 2 to 7, and then, over
// the table, rows 8 to 10 and row 13 of the Q lines.
#![tactic(auto)]

ghost use Rattle.std.specs.Prelude.{◌≡◌, [], ◌∷◌, false, ◌+◌, ◌*◌, ◌≤◌, length};
ghost use Rattle.sheet.specs.Format.{base};
ghost use Rattle.sheet.specs.Sheet.{first, count, row1};
ghost use Rattle.walk_cells.specs.Cells.{lines_of};
ghost use Rattle.meaning.specs.Program.{name_line, field_line, program};
ghost use Rattle.meaning.specs.Rows.{count_of};
ghost use Rattle.meaning_patterns.specs.Patterns as patterns;
ghost use Rattle.answer.specs.Answer as answer;
ghost use Rattle.table_access.specs.Tables.{TabledIn, decls_of, lines_in};
ghost use Rattle.rows_heads.specs.HeadRows.{faults_row};
ghost use Rattle.row9_faults.specs.Attempts.{Asked};
ghost use Rattle.input_table.specs.Table.{Parts};
ghost use Rattle.input_rows.specs.Judging.{Uncounted, Listed, miscounts_row, Judges, Room, refused_decided, Decides};

use answer::Refusal;
use sheet_parts::LINE;
use walk_cells::CELLS;

// The refusal, and the rounds of erasure where there is none.
#[derive(Clone, Copy)]
pub struct Judged {
    pub refusal: Refusal,
    pub rounds: usize,
}

// The refusal; and of an accepted sheet the rounds, the lines before its Q lines, the cells of their table, and the declarations.
#[derive(Clone, Copy)]
pub struct Decided {
    pub refusal: Refusal,
    pub rounds: usize,
    pub lines: usize,
    pub cells: usize,
    pub decls: usize,
}

// The first Q line with another number of parts than its constructor has fields, by the numbers of fields in fields.
fn miscounted_by(t: &[u32], q: &[u32], m: &[u16], fields: &mut [u16]) -> usize
    requires { Uncounted t.now q.now m.now (length fields.old) }
    ensures { result ≡ first (patterns.row13 (program (lines_in t.now)) (lines_of q.now)) (length (lines_of q.now)) }
{
    pattern_ctors::counts(t, m, fields);
    pattern_counts::row13(q, fields)
}

// That line, of at most 256 names.
fn miscounted(t: &[u32], q: &[u32], m: &[u16], names: usize) -> usize
    requires { Uncounted t.now q.now m.now names }
    ensures { result ≡ first (patterns.row13 (program (lines_in t.now)) (lines_of q.now)) (length (lines_of q.now)) }
{
    let mut fields = [0u16; 256];
    miscounted_by(t, q, m, &mut fields[0..names])
}

// The same, with where constructors are declared in m.
fn sited(t: &[u32], q: &[u32], m: &mut [u16]) -> usize
    requires { TabledIn base t.now × Listed (count_of name_line (lines_in t.now)) q.now × (length m.old ≡ 3 * count_of name_line (lines_in t.now)) }
    ensures { result ≡ first (patterns.row13 (program (lines_in t.now)) (lines_of q.now)) (length (lines_of q.now)) }
{
    pattern_ctors::fill(t, m);
    miscounted(t, q, m, table_access::names(t))
}

// Row 13.
fn row13(t: &[u32], q: &[u32]) -> Refusal
    requires { TabledIn base t.now × Listed (count_of name_line (lines_in t.now)) q.now }
    ensures { result ≡ answer.refusal (miscounts_row (lines_in t.now) (lines_of q.now) ∷ []) }
{
    let n = q.len() / CELLS;
    if n == 0 {
        return Refusal::Accepted;
    }
    let names = table_access::names(t);
    let end = table_access::line_of(t, table_access::decls(t));
    let mut m = [0u16; 768];
    let wrong = sited(t, q, &mut m[0..3 * names]);
    if wrong < n {
        return Refusal::Refused {
            code: 13,
            place: end + wrong,
        };
    }
    Refusal::Accepted
}

// Rows 9, 10 and 13, where nothing returns to itself.
fn resolved(t: &[u32], q: &[u32], u: &[u16], keep: &[u8]) -> Refusal
    requires { TabledIn base t.now × Listed (count_of name_line (lines_in t.now)) q.now × Asked (lines_in t.now) t.now u.now keep.now }
    ensures { result ≡ answer.refusal (faults_row base (lines_in t.now) ∷ miscounts_row (lines_in t.now) (lines_of q.now) ∷ []) }
{
    match row9_faults::rows9_10(t, u, keep) {
        Refusal::Accepted => row13(t, q),
        refused => refused,
    }
}

// The passes and these rows, in memory that is lent for the keep table, for what becomes of each name, and for ranks; q are the cells
// of the Q lines, if there are any.
fn judge(t: &[u32], q: &[u32], keep: &mut [u8], u: &mut [u16], rank: &mut [u16]) -> Judged
    requires tabled_in { TabledIn base t.now × Listed (count_of name_line (lines_in t.now)) q.now × (count_of field_line (lines_in t.now) ≤ length keep.old) }
    requires u_len { (length u.old ≡ 2 * decls_of (lines_in t.now)) × (length rank.old ≡ decls_of (lines_in t.now)) }
    ensures { Judges t.now q.now keep.new u.new rank.new result }
{
    let p = build_passes::passes(t, keep, u, rank);
    let returning = p.returning;
    if returning < table_access::decls(t) {
        return Judged {
            refusal: Refusal::Refused {
                code: 8,
                place: table_access::line_of(t, returning),
            },
            rounds: 0,
        };
    }
    Judged {
        refusal: resolved(t, q, u, keep),
        rounds: p.rounds,
    }
}

// A refusal has no table.
fn refuse(code: u32, place: usize) -> Decided
    ensures { result ≡ refused_decided code place }
{
    Decided {
        refusal: Refusal::Refused { code, place },
        rounds: 0,
        lines: 0,
        cells: 0,
        decls: 0,
    }
}

// The passes and these rows of the parts of a sheet, in as much of the memory as its declarations need.
fn parted(
    s: &[u8],
    lines: usize,
    cells: usize,
    t: &[u32],
    keep: &mut [u8],
    u: &mut [u16],
    rank: &mut [u16],
) -> Decided
    requires { Parts s.now t.now lines cells × Room keep.old u.old rank.old }
    ensures { Decides s.now t.now keep.new u.new rank.new result }
{
    let at = lines * LINE;
    let z = &s[at..s.len()];
    let room = 8 * lines + 16;
    let last = room + z.len() / LINE * CELLS;
    let n = table_access::decls(&t[0..cells]);
    let j = judge(
        &t[0..cells],
        &t[room..last],
        keep,
        &mut u[0..2 * n],
        &mut rank[0..n],
    );
    let refusal = j.refusal;
    Decided {
        refusal,
        rounds: j.rounds,
        lines,
        cells,
        decls: n,
    }
}

// All rows of a sheet that passed row 1, in lent memory: eight cells for each line, and 16 for the header and the end; and as much for the
// passes as any sheet needs.
pub fn decide(s: &[u8], t: &mut [u32], keep: &mut [u8], u: &mut [u16], rank: &mut [u16]) -> Decided
    requires { (row1 base s.now ≡ false) × (8 * count 6 s.now + 16 ≤ length t.old) × Room keep.old u.old rank.old }
    ensures { Decides s.now t.new keep.new u.new rank.new result }
{
    let f = input_table::tabled(s, t);
    let refusal = f.refusal;
    match refusal {
        Refusal::Accepted => parted(s, f.lines, f.cells, t, keep, u, rank),
        Refusal::Refused { code, place } => refuse(code, place),
    }
}
