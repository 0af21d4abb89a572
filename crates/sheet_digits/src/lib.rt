// Writing numbers in columns.
#![tactic(auto)]

ghost use Rattle.std.specs.Prelude.{◌≡◌, length};
ghost use Rattle.number_columns.specs.Column as col;

// The column of a digit that is not the last: a space where nothing is left of the number.
fn column(m: u32) -> u8
    ensures { result ≡ col.mark m }
{
    if m == 0 { 32 } else { 48 + (m % 10) as u8 }
}

// Writes n into the columns, from the right; of a number that does not fit, its last digits.
pub fn write_number(out: &mut [u8], n: u32)
    ensures { out.new ≡ col.write (length out.old) n }
{
    if out.is_empty() {
        return;
    }
    let last = out.len() - 1;
    out[last] = 48 + (n % 10) as u8;
    let mut m = n / 10;
    for i in (0..last).rev() {
        out[i] = column(m);
        m = m / 10;
    }
}

// The same for six columns, where most numbers have one or two digits.
pub fn write_six(out: &mut [u8], n: u32)
    requires { length out.old ≡ 6 }
    ensures { out.new ≡ col.write 6 n }
{
    if n > 99 {
        write_number(out, n);
        return;
    }
    out[0] = 32;
    out[1] = 32;
    out[2] = 32;
    out[3] = 32;
    if n > 9 {
        out[4] = 48 + (n / 10) as u8;
        out[5] = 48 + (n % 10) as u8;
        return;
    }
    out[4] = 32;
    out[5] = 48 + n as u8;
}
