// Writes the lines around the body of a declaration that is left: its D and P lines before it, and a V line of zeros
// behind it.
ghost use Rattle.std.specs.Prelude.{◌≡◌, map, ◌+◌, ◌≤◌, ◌<◌};
ghost use Rattle.sheet.specs.Sheet.{lines};
ghost use Rattle.meaning.specs.Program.{param_line};
ghost use Rattle.meaning.specs.Rows.{count_of};
ghost use Rattle.table_access.specs.Tables.{Tabled, decls_of, lines_in};
ghost use Rattle.resolve_kids.specs.Params.{params_from};
ghost use Rattle.left_places.specs.Places.{one, Room, Writes};
ghost use Rattle.left_decls.specs.Heads.{fixed, param_row, verdict_row, head_rows, bare};

use left_places::{Place, put_line};

// The n P lines from line i on.
fn put_params(t: &[u32], out: &mut [u8], i: usize, n: usize, p: Place) -> Place
    requires tabled { Tabled t.now × (i + n ≤ count_of param_line (lines_in t.now)) }
    requires room { Room (fixed (map param_row (params_from (lines_in t.now) i n))) p out.old }
    ensures { Writes (fixed (map param_row (params_from (lines_in t.now) i n))) p result out.old out.new }
{
    let mut q = p;
    for j in 0..n {
        let x = table_access::param(t, i + j);
        q = put_line(out, b'P', [x as u32, 0, 0, 0, 0], q);
    }
    q
}

// The D line of declaration d, with a body of this kind and last number, and its P lines.
pub fn put_head(t: &[u32], out: &mut [u8], d: usize, kind: u32, end: u32, p: Place) -> Place
    requires tabled { Tabled t.now × (d < decls_of (lines_in t.now)) }
    requires room { Room (fixed (head_rows (lines_in t.now) d kind end)) p out.old }
    ensures { Writes (fixed (head_rows (lines_in t.now) d kind end)) p result out.old out.new }
{
    let n = resolve_kids::params(t, d);
    let i = table_access::first_param(t, d);
    let name = table_access::decl_number(t, d, 0);
    let flags = table_access::decl_number(t, d, 1);
    let q = put_line(out, b'D', [name, flags, kind, n as u32, end], p);
    put_params(t, out, i, n, q)
}

// The V line.
pub fn put_end(out: &mut [u8], p: Place) -> Place
    requires { Room (one verdict_row) p out.old }
    ensures { Writes (one verdict_row) p result out.old out.new }
{
    put_line(out, b'V', [0, 0, 0, 0, 0], p)
}

// A declaration whose body has no lines.
pub fn put_bare(t: &[u32], out: &mut [u8], d: usize, kind: u32, end: u32, p: Place) -> Place
    requires tabled { Tabled t.now × (d < decls_of (lines_in t.now)) }
    requires room { Room (bare (lines_in t.now) d kind end) p out.old }
    ensures { Writes (bare (lines_in t.now) d kind end) p result out.old out.new }
{
    let q = put_head(t, out, d, kind, end, p);
    put_end(out, q)
}
