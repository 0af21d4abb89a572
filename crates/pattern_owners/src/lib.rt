// Of each Q line the line that owns it, and its place in that line's list of parts. Owners are found from the last line down:
// a line owns its last part, and the part before a line has that line's owner. Places are found going up.
#![tactic(auto)]

ghost use Rattle.std.specs.Prelude.{◌≡◌, ◌≤◌, ◌<◌, length};
ghost use Rattle.walk_cells.specs.Cells.{lines_of};
ghost use Rattle.pattern_laws.specs.Linked.{Linked};
ghost use Rattle.pattern_laws.specs.Marks as marks;
ghost use Rattle.pattern_owners.specs.Places as places;

use walk_cells::CELLS;

// The line that a link names has the owner v.
fn claim(own: &mut [u16], link: usize, v: u16)
    requires { link ≤ length own.old }
    ensures { own.new ≡ marks.claim own.old link v }
{
    if link != 0 {
        own[link - 1] = v;
    }
}

// The parts that line i names.
fn claim_parts(q: &[u32], own: &mut [u16], i: usize)
    requires linked { Linked (lines_of q.now) × (i < length (lines_of q.now)) × (i < 256) }
    requires own_len { length own.old ≡ length (lines_of q.now) }
    ensures { own.new ≡ places.claimed (lines_of q.now) i own.old }
{
    let v = own[i];
    let last = walk_cells::number(q, i, 2) as usize;
    let previous = walk_cells::number(q, i, 3) as usize;
    claim(own, last, (i + 1) as u16);
    claim(own, previous, v);
}

// The owner of each of at most 256 Q lines: its number plus one, or 0 for none.
pub fn owners(q: &[u32], own: &mut [u16])
    requires linked { Linked (lines_of q.now) × (length q.now ≤ 1536) }
    requires own_len { length own.old ≡ length (lines_of q.now) }
    ensures { own.new ≡ marks.owners_of (lines_of q.now) }
{
    let n = q.len() / CELLS;
    own.fill(0);
    for i in (0..n).rev() {
        claim_parts(q, own, i);
    }
}

// The place behind the part that a link names, the first where it names none.
fn place_behind(place: &[u16], link: usize) -> u16
    requires { (link ≤ length place.now) × (places.ended place.now link < 65536) }
    ensures { result ≡ places.ended place.now link }
{
    if link == 0 {
        return 0;
    }
    place[link - 1] + 1
}

// The place of each of at most 256 Q lines in the list that it is in: how many parts stand before it.
pub fn places(q: &[u32], place: &mut [u16])
    requires linked { Linked (lines_of q.now) × (length q.now ≤ 1536) }
    requires place_len { length place.old ≡ length (lines_of q.now) }
    ensures { places.Placed (lines_of q.now) place.new }
{
    let n = q.len() / CELLS;
    for i in 0..n {
        place[i] = place_behind(place, walk_cells::number(q, i, 3) as usize);
    }
}
