// What erasure starts from: the first type that names each declaration, and the imports that are erased.
ghost use Rattle.std.specs.Prelude.{◌≡◌, ◌<◌, length, set};
ghost use Rattle.model.specs.Decl as decls;
ghost use Rattle.model.specs.Erasure as model;
ghost use Rattle.meaning.specs.Program as program;
ghost use Rattle.meaning.specs.Rows as rows;
ghost use Rattle.table_access.specs.Tables as tables;
ghost use Rattle.erasure_marks.specs.Marks as marks;
ghost use Rattle.erasure_laws.specs.Rounds as rounds;
ghost use Rattle.erasure_laws.specs.Fixpoint as fixpoint;

// The declaration that type y names, the number of declarations where it names none.
fn named(t: &[u32], y: usize) -> usize
    requires tabled { tables.Tabled t.now }
    requires y_bound { y < rows.count_of program.type_line (tables.lines_in t.now) }
    ensures { result ≡ fixpoint.named (tables.lines_in t.now) y }
{
    if table_access::type_number(t, y, 0) == 8 {
        return table_access::decl_of(t, table_access::type_number(t, y, 1) as usize);
    }
    table_access::decls(t)
}

// Type y names declaration d, where there is such a declaration.
fn put_use(used: &mut [u16], d: usize, y: usize)
    requires { y < 65536 }
    ensures { used.new ≡ set used.old d y }
{
    if d < used.len() {
        used[d] = y as u16;
    }
}

// The first type that names each declaration.
pub fn first_uses(t: &[u32], used: &mut [u16])
    requires tabled { tables.Tabled t.now }
    requires used_len { length used.old ≡ tables.decls_of (tables.lines_in t.now) }
    ensures { rounds.Uses (tables.lines_in t.now) used.new }
{
    for y in (0..table_access::types(t)).rev() {
        put_use(used, named(t, y), y);
    }
}

// Declaration d is erased before the first round: an import whose verdict says so.
fn starts_erased(t: &[u32], d: usize) -> bool
    requires tabled { tables.Tabled t.now }
    requires d_bound { d < tables.decls_of (tables.lines_in t.now) }
    ensures { result ≡ model.start_of (decls.origin_at (program.program (tables.lines_in t.now)) d) }
{
    if table_access::is_import(t, d) {
        return table_access::verdict_number(t, d, 0) == 1;
    }
    false
}

// Nothing is erased but imports with that verdict.
pub fn start(t: &[u32], decl: &mut [u8])
    requires tabled { tables.Tabled t.now }
    requires decl_len { length decl.old ≡ tables.decls_of (tables.lines_in t.now) }
    ensures { marks.marks_of decl.new ≡ model.start (program.program (tables.lines_in t.now)) }
{
    for (d, mark) in decl.iter_mut().enumerate() {
        *mark = u8::from(starts_erased(t, d));
    }
}
