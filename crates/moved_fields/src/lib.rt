// Places that move, and refusal 12: whether the records can hold them.
#![tactic(auto)]

ghost use Rattle.std.specs.Prelude.{◌≡◌, true, not, ◌<◌};
ghost use Rattle.bits.specs.Choice.{both, either};
ghost use Rattle.format.specs.Table.{row_of, legacy_info};
ghost use Rattle.format.specs.Move.{moved};
ghost use Rattle.records.specs.Records.{is_record_row};
ghost use Rattle.edits.specs.Fit.{beyond, offset_row, fields_fit};
ghost use Rattle.sections.specs.Places.{Laid};
ghost use Rattle.function_table.specs.Functions.{WordSized};

use format::Layout;
use function_table::Function;
use sections::Places;

// Where a place goes.
pub fn move_place(from: usize, to: usize, p: usize) -> usize
    requires { (p < 4294967296) × (to < 4294967296) }
    ensures { (result ≡ moved from to p) × (result < 8589934592) }
{
    if p < from { p } else { p - from + to }
}

// ---- refusal 12

// Whether a field of a record has too few bits for a number.
pub fn is_beyond(k: usize, x: usize) -> bool
    requires { is_record_row k ≡ true }
    ensures { result ≡ beyond (row_of k) x }
{
    1usize << format::width(k) <= x
}

// The offset field of a record, by the name of its row.
fn offset_field(layout: Layout) -> usize
    ensures { (row_of result ≡ offset_row layout) × (is_record_row result ≡ true) }
{
    match layout {
        Layout::Modern => format::MODERN_OFFSET,
        Layout::Legacy { .. } => format::LEGACY_OFFSET,
    }
}

// Whether a record without a large header could hold a function's moved places.
fn does_fit(f: Function, offset: usize, from: usize, to: usize) -> bool
    requires { WordSized f × (to < 4294967296) × (is_record_row offset ≡ true) }
    ensures { result ≡ not
        (both (not f.large) (either (beyond (row_of offset) (moved from to f.begin)) (beyond legacy_info (moved from to f.info)))) }
{
    f.large
        || !(is_beyond(offset, move_place(from, to, f.begin))
            || is_beyond(format::LEGACY_INFO, move_place(from, to, f.info)))
}

// Whether every record without a large header can hold its moved places.
pub fn fields_fit(image: &[u8], p: Places, from: usize, to: usize) -> bool
    requires laid { Laid p image.now }
    requires to_bound { to < 4294967296 }
    ensures { result ≡ fields_fit p.layout image.now (moved from to) }
{
    let layout = p.layout;
    let offset = offset_field(layout);
    for i in 0..p.functions {
        let f = function_table::function_at(image, layout, i);
        if !does_fit(f, offset, from, to) {
            return false;
        }
    }
    true
}
