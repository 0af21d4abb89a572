// Where the declarations of each rank begin and end, so that those of one rank are found without a walk over all.
ghost use Rattle.std.specs.Prelude.{ℕ, ◌≤◌, ◌<◌, length, get_or};
ghost use Rattle.form_tables.specs.Bounds.{Marked, Ends, Starts};

// Cell r becomes x, where there is one.
fn mark(a: &mut [u16], r: usize, x: u16)
    requires { r < 65536 }
    ensures { Marked a.old r x a.new }
{
    if r < a.len() {
        a[r] = x;
    }
}

// For each rank the place after its last declaration, from the first declaration on.
pub fn ends(rank: &[u16], end: &mut [u16])
    requires { (length rank.now < 65536) × ((r : ℕ) → get_or end.old r 0 ≤ length rank.now) }
    ensures { Ends rank.now (length end.old) end.new }
{
    for (d, r) in rank.iter().enumerate() {
        mark(end, *r as usize, (d + 1) as u16);
    }
}

// For each rank the place of its first declaration, from the last declaration on.
pub fn starts(rank: &[u16], start: &mut [u16])
    requires { length rank.now < 65536 }
    ensures { Starts rank.now (length start.old) start.new }
{
    for d in (0..rank.len()).rev() {
        mark(start, rank[d] as usize, d as u16);
    }
}
