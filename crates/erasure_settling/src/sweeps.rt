// A round of erasure: each declaration sees what the round has set so far.
ghost use Rattle.std.specs.Prelude.{◌<◌};
ghost use Rattle.table_access.specs.Tables as tables;
ghost use Rattle.erasure_laws.specs.Rounds as rounds;

use erasure_laws::Round;

// One round over the declarations, each of which sees what the round has set so far.
pub fn sweep(
    t: &[u32],
    used: &[u16],
    decl: &mut [u8],
    node: &mut [u8],
    member: &mut [u16],
    field: &mut [u16],
    wait: &mut [u16],
    right: usize,
) -> Round
    requires tabled { tables.Tabled t.now }
    requires running { rounds.Running (tables.lines_in t.now) used.now decl.old node.old member.old field.old wait.old right }
    ensures { rounds.Swept (tables.lines_in t.now) used.now decl.old decl.new node.new member.new field.new wait.new result }
{
    let n = decl.len();
    let mut erased = 0;
    let mut low = right;
    for d in 0..n {
        let r = crate::updates::update(t, used, decl, node, member, field, wait, d, low);
        erased += r.erased;
        low = r.right;
    }
    Round { erased, right: low }
}
