// A declaration's normal form, written behind those that are there.
ghost use Rattle.std.specs.Prelude.{◌≡◌, ◌++◌, ◌+◌, ◌*◌, ◌≤◌, ◌<◌, length, take, drop};
ghost use Rattle.table_access.specs.Tables.{decls_of, lines_in};
ghost use Rattle.form_emit.specs.Emit.{Asked};
ghost use Rattle.form_normal.specs.Tables.{own_words, Added};
ghost use Rattle.keep_layouts.specs.States.{body_of};

// Copies the first n words of ws to place `at`.
fn copy_words(f: &mut [u64], at: usize, ws: &[u64], n: usize)
    requires { (at + n ≤ length f.old) × (n ≤ length ws.now) }
    ensures { f.new ≡ take at f.old ++ (take n ws.now ++ drop (at + n) f.old) }
{
    // A loop, for the reason in `sheet_copier::copy_lines`.
    for i in 0..n {
        f[at + i] = ws[i];
    }
}

// The normal form of declaration d at place pos of the list, and the place after it; a place past the end where the list or
// the scratch is too short.
pub fn normal_form(
    t: &[u32],
    u: &[u16],
    f: &mut [u64],
    d: usize,
    scratch: &mut [u64],
    pos: usize,
) -> usize
    requires { Asked (lines_in t.now) t.now u.now f.old (body_of u.now d) d × (2 * d + 1 < length u.now) × (2 * decls_of (lines_in t.now) ≤ pos) × (pos ≤ length f.old) }
    ensures { Added (own_words (lines_in t.now) u.now f.old d) (length scratch.old) d pos f.old f.new result }
{
    let y = u[2 * d + 1] as usize;
    let n = form_emit::emit(t, u, f, y, d, true, scratch, 0);
    if n > scratch.len() {
        return f.len() + 1;
    }
    if pos + n > f.len() {
        return f.len() + 1;
    }
    copy_words(f, pos, scratch, n);
    f[2 * d] = pos as u64;
    f[2 * d + 1] = n as u64;
    pos + n
}
