// Rounds until one erases nothing.
#![tactic(auto)]

mod sweeps;
mod updates;

ghost use Rattle.table_access.specs.Tables as tables;
ghost use Rattle.erasure_laws.specs.Rounds as rounds;

// Rounds until one erases nothing; then the marks of all types.
pub fn settle(
    t: &[u32],
    used: &[u16],
    decl: &mut [u8],
    node: &mut [u8],
    member: &mut [u16],
    field: &mut [u16],
    wait: &mut [u16],
) -> usize
    requires tabled { tables.Tabled t.now }
    requires running { rounds.Running (tables.lines_in t.now) used.now decl.old node.old member.old field.old wait.old 0 }
    ensures { rounds.Ended (tables.lines_in t.now) decl.old decl.new node.new result }
{
    let mut n = 0;
    let mut right = 0;
    // A loop and no for: nothing but its end says how many rounds there are.
    loop {
        n += 1;
        let r = sweeps::sweep(t, used, decl, node, member, field, wait, right);
        right = r.right;
        if r.erased == 0 {
            break;
        }
    }
    erasure_marks::mark_types(t, decl, node, member, right, table_access::types(t));
    n
}
