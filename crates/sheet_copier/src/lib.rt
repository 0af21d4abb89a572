// Copies lines into the part of an output that holds them.
#![tactic(auto)]

ghost use Rattle.std.specs.Prelude.{◌≡◌, length};

// A copy of lines' bytes, into a part as long.
pub fn copy_lines(out: &mut [u8], lines: &[u8])
    requires { length out.old ≡ length lines.now }
    ensures { out.new ≡ lines.now }
{
    // A loop: `copy_from_slice` is compiled to `memmove`, which a caller in C would then have to bring.
    for i in 0..lines.len() {
        out[i] = lines[i];
    }
}
