// What is judged of a body and of what takes its place: the refusals 9, 10 and 11, and the part of 12
// that speaks of the body's size.
#![tactic(auto)]

ghost use Rattle.std.specs.Prelude.{◌≡◌, true, not, ◌+◌, ◌-◌, ◌≤◌, ◌<◌, leb, ltb, eqb, length};
ghost use Rattle.bits.specs.Choice.{both, either, implies};
ghost use Rattle.format.specs.Table.{row_of, header_length};
ghost use Rattle.records.specs.Records.{is_record_row};
ghost use Rattle.footer.specs.Finalize.{size_limit};
ghost use Rattle.image.specs.Sections.{debug_in};
ghost use Rattle.edits.specs.Fit.{beyond, size_row};
ghost use Rattle.sections.specs.Places.{Laid};
ghost use Rattle.function_table.specs.Functions.{as_func, WordSized};
ghost use Rattle.function_checks.specs.Checks.{shares_with, body_alone, info_within, infos_outside, from_nothing, FunctionIs};

use format::Layout;
use function_table::Function;
use sections::Places;

// ---- 9

// Whether body `g` shares a byte with body `f`, or is empty and starts strictly within it.
fn shares_with(f: Function, g: Function) -> bool
    requires { WordSized f × WordSized g }
    ensures { result ≡ shares_with (as_func f) (as_func g) }
{
    f.size > 0 && g.begin < f.begin + f.size && f.begin < g.begin + g.size
}

// Whether the info place of `g` lies in body `f`.
fn has_info_within(f: Function, g: Function) -> bool
    requires { WordSized f }
    ensures { result ≡ info_within (as_func f) (as_func g) }
{
    f.begin <= g.info && g.info < f.begin + f.size
}

// Whether function `g` leaves body `f` alone; `other` says that it is not the body's own.
fn leaves_alone(f: Function, g: Function, other: bool) -> bool
    requires { WordSized f × WordSized g }
    ensures { result ≡ both (implies other (not (shares_with (as_func f) (as_func g)))) (not (info_within (as_func f) (as_func g))) }
{
    !has_info_within(f, g) && !(other && shares_with(f, g))
}

// Whether every function leaves body `id` alone, the own info place too.
pub fn stands_alone(image: &[u8], p: Places, id: usize, f: Function) -> bool
    requires laid { Laid p image.now }
    requires function_is { FunctionIs p.layout image.now id f }
    ensures { result ≡ both (body_alone p.layout image.now id) (infos_outside p.layout image.now id) }
{
    let layout = p.layout;
    for j in 0..p.functions {
        let g = function_table::function_at(image, layout, j);
        if !leaves_alone(f, g, j != id) {
            return false;
        }
    }
    true
}

// Whether the debug offset is 0 or at or past the threshold.
pub fn is_debug_past(image: &[u8], layout: Layout, threshold: usize) -> bool
    requires { header_length ≤ length image.now }
    ensures { result ≡ implies (not (eqb (debug_in layout image.now) 0))
        (leb threshold (debug_in layout image.now)) }
{
    let debug = sections::debug_of(image, layout);
    debug == 0 || threshold <= debug
}

// ---- 10, 11 and 12

// Whether bytes are to be put where there were none.
pub fn is_from_nothing(old: usize, new: usize) -> bool
    ensures { result ≡ from_nothing old new }
{
    old == 0 && new > 0
}

// Whether an image of `length` bytes is too long once `new` bytes take the place of `old`. A body
// over the limit is told before it is part of a sum.
pub fn is_too_long(length: usize, old: usize, new: usize) -> bool
    requires { (old ≤ length) × (length ≤ size_limit) }
    ensures { result ≡ ltb size_limit (length - old + new) }
{
    footer::SIZE_LIMIT < new || footer::SIZE_LIMIT < length - old + new
}

// The size field of a record, by the name of its row.
fn size_field(layout: Layout) -> usize
    ensures { (row_of result ≡ size_row layout) × (is_record_row result ≡ true) }
{
    match layout {
        Layout::Modern => format::MODERN_SIZE,
        Layout::Legacy { .. } => format::LEGACY_SIZE,
    }
}

// Whether a function can have a body of `size` bytes: its record holds the size, unless a large
// header does.
pub fn does_size_fit(layout: Layout, f: Function, size: usize) -> bool
    ensures { result ≡ either f.large (not (beyond (size_row layout) size)) }
{
    f.large || !moved_fields::is_beyond(size_field(layout), size)
}
