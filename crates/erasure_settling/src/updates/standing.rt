// Declarations that a round of erasure passes.
ghost use Rattle.std.specs.Prelude.{◌≡◌, ◌≤◌, ◌<◌, length};
ghost use Rattle.table_access.specs.Tables as tables;
ghost use Rattle.erasure_laws.specs.Rounds as rounds;

// Declaration d stays as it is: an erased one does, an import has its verdict, and one that waits for a kept type is kept.
pub fn stands(t: &[u32], decl: &[u8], node: &[u8], wait: &[u16], d: usize, right: usize) -> bool
    requires tabled { tables.Tabled t.now }
    requires d_bound { (d < tables.decls_of (tables.lines_in t.now)) × (length decl.now ≡ tables.decls_of (tables.lines_in t.now)) × (length wait.now ≡ tables.decls_of (tables.lines_in t.now)) × (right ≤ length node.now) }
    ensures { rounds.Stands (tables.lines_in t.now) decl.now node.now wait.now d right result }
{
    if decl[d] == 1 {
        return true;
    }
    let y = wait[d] as usize;
    if y < right {
        if node[y] == 0 {
            return true;
        }
    }
    table_access::is_import(t, d)
}
