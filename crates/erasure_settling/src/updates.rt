// A declaration in a round of erasure.
mod standing;

ghost use Rattle.std.specs.Prelude.{◌<◌};
ghost use Rattle.table_access.specs.Tables as tables;
ghost use Rattle.erasure_laws.specs.Rounds as rounds;

use erasure_laws::Round;

// Declaration d in a round. An erased one stays so, an import has its verdict, and one that waits for a kept type is kept.
pub fn update(
    t: &[u32],
    used: &[u16],
    decl: &mut [u8],
    node: &mut [u8],
    member: &mut [u16],
    field: &mut [u16],
    wait: &mut [u16],
    d: usize,
    right: usize,
) -> Round
    requires tabled { tables.Tabled t.now }
    requires d_bound { d < tables.decls_of (tables.lines_in t.now) }
    requires running { rounds.Running (tables.lines_in t.now) used.now decl.old node.old member.old field.old wait.old right }
    ensures { rounds.Updated (tables.lines_in t.now) used.now decl.old decl.new node.new member.new field.new wait.new d result }
{
    if standing::stands(t, decl, node, wait, d, right) {
        return Round { erased: 0, right };
    }
    let r = erasure_rulings::dtype_erased(t, decl, node, member, field, wait, d, right);
    let low = r.right;
    if r.erased {
        decl[d] = 1;
        return Round {
            erased: 1,
            right: low.min(used[d] as usize),
        };
    }
    Round {
        erased: 0,
        right: low,
    }
}
