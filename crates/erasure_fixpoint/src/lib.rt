// Erasure: `erasure_fixpoint` over the table of a sheet that passed rows 1 to 7, and `cty_erased` of every type under it.
#![tactic(auto)]

mod first_marks;

ghost use Rattle.sheet.specs.Format.{base};
ghost use Rattle.table_access.specs.Tables as tables;
ghost use Rattle.erasure_laws.specs.Fixpoint as fixpoint;

use erasure_laws::erasure::Erasure;

const TYPES: usize = 1024;

const DECLS: usize = 96;

// The marks, in lent memory.
fn fixpoint(
    t: &[u32],
    used: &mut [u16],
    decl: &mut [u8],
    node: &mut [u8],
    member: &mut [u16],
    field: &mut [u16],
    wait: &mut [u16],
) -> usize
    requires tabled { tables.Tabled t.now }
    requires fresh { fixpoint.Fresh (tables.lines_in t.now) used.old decl.old node.old member.old field.old wait.old }
    ensures { fixpoint.Fixed (tables.lines_in t.now) decl.new node.new result }
{
    first_marks::first_uses(t, used);
    first_marks::start(t, decl);
    erasure_settling::settle(t, used, decl, node, member, field, wait)
}

// Layout's `erasure_fixpoint`.
pub fn erasure_fixpoint(t: &[u32]) -> Erasure
    requires { tables.TabledIn base t.now }
    ensures { fixpoint.Fixpoint (tables.lines_in t.now) result }
{
    let n = table_access::decls(t);
    let types = table_access::types(t);
    let none = types as u16;
    let mut node = [0u8; TYPES];
    let mut decl = [0u8; DECLS];
    let mut member = [0u16; TYPES];
    let mut field = [0u16; DECLS];
    let mut used = [0u16; DECLS];
    let mut wait = [none; DECLS];
    let rounds = fixpoint(
        t,
        &mut used[0..n],
        &mut decl[0..n],
        &mut node[0..types],
        &mut member[0..types],
        &mut field[0..n],
        &mut wait[0..n],
    );
    Erasure { node, decl, rounds }
}
