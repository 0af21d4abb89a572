// Values picked by a test and not jumped to, where which of them comes next cannot be foreseen.
#![tactic(auto)]

ghost use Rattle.std.specs.Prelude.{◌≡◌};
ghost use Rattle.number_columns.specs.Column as col;

// The first value where the test holds, else the second.
pub fn pick<T: Copy>(b: bool, x: T, y: T) -> T
    ensures { result ≡ col.pick b x y }
{
    if b { x } else { y }
}
