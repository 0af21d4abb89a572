// Where each constructor is declared: for each name three cells, its declaration's number plus one (0 where no constructor
// has that name), its first F line and how many F lines it has. A record type is a constructor of its own name. Declarations
// and constructors are walked from the last to the first, so that the first of a name is found, as `ctor_owner` finds it.
#![tactic(auto)]

ghost use Rattle.std.specs.Prelude.{◌≡◌, suc, ◌+◌, ◌*◌, ◌≤◌, ◌<◌, length, get_or};
ghost use Rattle.meaning.specs.Program.{name_line};
ghost use Rattle.meaning.specs.Rows.{count_of};
ghost use Rattle.keep_layouts.specs.Kept.{body_kind};
ghost use Rattle.table_access.specs.Tables as tables;
ghost use Rattle.pattern_ctors.specs.Sites as sites;
ghost use Rattle.pattern_ctors.specs.Owners as owners;

// The cells of name n: a constructor of declaration d whose k F lines begin with line f.
fn put(m: &mut [u16], n: usize, d: usize, f: usize, k: usize)
    requires { (3 * n + 2 < length m.old) × (d < 512) × (f ≤ 2048) × (k ≤ 2048) }
    ensures { m.new ≡ sites.put_site m.old n (sites.site_at d f k) }
{
    let i = 3 * n;
    m[i] = (d + 1) as u16;
    m[i + 1] = f as u16;
    m[i + 2] = k as u16;
}

// The constructors of declaration d, a variant.
fn put_ctors(t: &[u32], m: &mut [u16], d: usize)
    requires tabled { tables.Tabled t.now × (d < tables.decls_of (tables.lines_in t.now)) × (body_kind (tables.lines_in t.now) d ≡ 3) }
    requires sited_from { sites.SitedFrom (tables.lines_in t.now) m.old (suc d) }
    ensures { sites.SitedFrom (tables.lines_in t.now) m.new d }
{
    let first = table_access::first_ctor(t, d);
    let end = table_access::first_ctor(t, d + 1);
    let mut f = table_access::first_field(t, d + 1);
    for c in (first..end).rev() {
        let k = table_access::ctor_number(t, c, 1) as usize;
        f -= k;
        put(m, table_access::ctor_number(t, c, 0) as usize, d, f, k);
    }
}

// The constructors of declaration d, those of later declarations being there.
fn put_decl(t: &[u32], m: &mut [u16], d: usize)
    requires tabled { tables.Tabled t.now × (d < tables.decls_of (tables.lines_in t.now)) }
    requires sited_from { sites.SitedFrom (tables.lines_in t.now) m.old (suc d) }
    ensures { sites.SitedFrom (tables.lines_in t.now) m.new d }
{
    let kind = table_access::decl_number(t, d, 2);
    if kind == 3 {
        put_ctors(t, m, d);
    } else if kind == 2 {
        let n = table_access::decl_number(t, d, 0) as usize;
        let f = table_access::first_field(t, d);
        put(m, n, d, f, table_access::decl_number(t, d, 4) as usize);
    }
}

// The cells of every name.
pub fn fill(t: &[u32], m: &mut [u16])
    requires { tables.Tabled t.now × (length m.old ≡ 3 * count_of name_line (tables.lines_in t.now)) }
    ensures { sites.Sited (tables.lines_in t.now) m.new }
{
    m.fill(0);
    for d in (0..table_access::decls(t)).rev() {
        put_decl(t, m, d);
    }
}

// How many fields are declared of the constructor named n, plus one; 0 where no constructor has that name.
fn count_of(m: &[u16], n: usize) -> u16
    requires { (3 * n + 2 < length m.now) × (get_or m.now (3 * n + 2) 0 ≤ 2048) }
    ensures { result ≡ owners.count_told (get_or m.now (3 * n) 0) (get_or m.now (3 * n + 2) 0) }
{
    if m[3 * n] == 0 {
        return 0;
    }
    m[3 * n + 2] + 1
}

// The same of every name.
pub fn counts(t: &[u32], m: &[u16], fields: &mut [u16])
    requires tabled { tables.Tabled t.now × sites.Sited (tables.lines_in t.now) m.now }
    requires fields_len { length fields.old ≡ count_of name_line (tables.lines_in t.now) }
    ensures { owners.CountsTo (tables.lines_in t.now) fields.new (length fields.new) }
{
    for n in 0..table_access::names(t) {
        fields[n] = count_of(m, n);
    }
}
