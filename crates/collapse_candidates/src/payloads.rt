// The payload of a newtype, as a Y line.
ghost use Rattle.std.specs.Prelude.{◌≡◌, ◌<◌};
ghost use Rattle.meaning.specs.Program as program;
ghost use Rattle.meaning.specs.Rows as rows;
ghost use Rattle.table_access.specs.Tables as tables;
ghost use Rattle.collapse_candidates.specs.Payloads.{Payload};

// The type of F line f, less one outer `TInline`.
pub fn payload(t: &[u32], f: usize) -> usize
    requires tabled { tables.Tabled t.now }
    requires f_bound { f < rows.count_of program.field_line (tables.lines_in t.now) }
    ensures { Payload (tables.lines_in t.now) f result }
{
    let y = table_access::field_number(t, f, 1) as usize;
    let kind = table_access::type_number(t, y, 0);
    if kind == 12 {
        return table_access::type_number(t, y, 1) as usize;
    }
    y
}
