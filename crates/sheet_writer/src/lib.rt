// Writes lines of a letter and five numbers into the parts of an output that hold them.
#![tactic(auto)]

ghost use Rattle.std.specs.Prelude.{◌≡◌, suc, ◌*◌, ◌≤◌, length};
ghost use Rattle.sheet.specs.Line.{row, encode};
ghost use Rattle.sheet.specs.Output.{put_at};

use sheet_digits::write_six;
use sheet_parts::{COLUMNS, LAST, LINE, NUMBERS};

// A line of a letter and five numbers, into the 32 bytes that hold it.
pub fn put_row(out: &mut [u8], letter: u8, numbers: [u32; 5])
    requires { length out.old ≡ 32 }
    ensures { out.new ≡ encode 6 (row letter numbers) }
{
    out[0] = letter;
    let mut at: usize = 1;
    for i in 0..NUMBERS {
        let end = at + COLUMNS;
        write_six(&mut out[at..end], numbers[i]);
        at = end;
    }
    out[LAST] = 10;
}

// A line of a letter and five numbers, as line i of a larger output.
pub fn row_at(out: &mut [u8], i: usize, letter: u8, numbers: [u32; 5])
    requires { 32 * suc i ≤ length out.old }
    ensures { out.new ≡ put_at 6 out.old i (encode 6 (row letter numbers)) }
{
    let at = i * LINE;
    put_row(&mut out[at..at + LINE], letter, numbers);
}
