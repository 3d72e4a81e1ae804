// The strings of an image, some of them with other values: what each is, and how much room they take.
#![tactic(auto)]

ghost use Rattle.std.specs.Prelude.{◌≡◌, List, ℕ, ◌+◌, ◌*◌, ◌≤◌, ◌<◌};
ghost use Rattle.bits.specs.Bytes.{up4};
ghost use Rattle.format.specs.declared.Mode.{Mode};
ghost use Rattle.format.specs.Table.{overflow_entry};
ghost use Rattle.format.specs.Number.{entry_at};
ghost use Rattle.format.specs.Entry.{is_over};
ghost use Rattle.footer.specs.Finalize.{size_limit};
ghost use Rattle.image.specs.Strings.{Str};
ghost use Rattle.edits.specs.Packing.{gap_of};
ghost use Rattle.sections.specs.declared.Places.{Places};
ghost use Rattle.sections.specs.Places.{Placed, Laid};
ghost use Rattle.string_tables.specs.Strings.{as_place};
ghost use Rattle.string_packing.specs.declared.Shape.{Shape};
ghost use Rattle.string_edits.specs.Lists.{Within};
ghost use Rattle.string_edits.specs.Told.{told, values_in, coming_in, Listed};
ghost use Rattle.string_packing.specs.Strings.{as_string, string_with, Shaped, place_with};
ghost use Rattle.string_packing.specs.Pass.{string_most, Reached, InTurn, Turned, StretchOf, Measured};

use format::Mode;
use sections::Places;
use string_edits::{Form, Next};
use string_tables::Place;
use string_walk::{Cursor, StringRecord};

// What is known of a string without its bytes. The count is of bytes for a narrow string, of 16-bit
// units for a wide one.
#[derive(Clone, Copy)]
pub struct Shape {
    pub wide: bool,
    pub count: usize,
}

// How far the strings are packed: the cursor behind those that are, how many of them go to the
// overflow table, and how many bytes they take.
#[derive(Clone, Copy)]
pub struct Packer {
    pub old: Cursor,
    pub over: usize,
    pub at: usize,
}

// A string in its turn: as it stands in the image, where it goes, and how far the strings are packed with
// it.
#[derive(Clone, Copy)]
pub struct Turn {
    pub old: StringRecord,
    pub new: Place,
    pub next: Packer,
}

// Strings in a row, up to `end`, of which one at most gets a value: the edit that comes next, and the
// shape of its value.
#[derive(Clone, Copy)]
pub struct Stretch {
    pub next: Next,
    pub new: Shape,
    pub end: usize,
}

// The bytes of all strings, and how many of them go to the overflow table.
#[derive(Clone, Copy)]
pub struct Sizes {
    pub storage: usize,
    pub overflows: usize,
}

// A value as a string: narrow if it is ASCII, else UTF-16.
pub fn shape_of(value: &[u8]) -> Shape
    ensures { Shaped result (as_string value.now) }
{
    if bits::ascii(value) {
        return Shape {
            wide: false,
            count: value.len(),
        };
    }
    Shape {
        wide: true,
        count: utf::count_units(value),
    }
}

// Whether a string at a place goes to the overflow table: by its offset, or by its length.
pub fn is_over(place: Place) -> bool
    ensures { result ≡ is_over (as_place place) }
{
    format::FAR <= place.at || format::LONG <= place.count
}

// The zero bytes before a string that is packed next, where those before it take `at` bytes.
fn gap(mode: Mode, wide: bool, at: usize) -> usize
    ensures { (result ≡ gap_of mode wide at) × (result ≤ 1) }
{
    match mode {
        Mode::Plain => 0,
        Mode::Even => format::if_set(wide, at % 2),
    }
}

// Where a string goes that is packed next: the new one, or the one that stood at `old`.
fn new_place(old: Place, new: Shape, is_new: bool, mode: Mode, at: usize) -> Place
    requires { at < 9223372036854775808 }
    ensures result_value { as_place result ≡ place_with mode is_new new (as_place old) at }
    ensures at_le_at { (at ≤ result.at) × (result.at ≤ at + 1) }
{
    if is_new {
        return Place {
            wide: new.wide,
            at: at + gap(mode, new.wide, at),
            count: new.count,
        };
    }
    Place {
        wide: old.wide,
        at: at + gap(mode, old.wide, at),
        count: old.count,
    }
}

// Before the first string is packed.
pub fn nothing_packed() -> Packer
    ensures { ((m : Mode) (p : Places) (s : List ℕ) → Placed p s → (f : ℕ → Str) → Reached m p s f result)
        × (result.old.id ≡ 0) }
{
    Packer {
        old: string_walk::first_string(),
        over: 0,
        at: 0,
    }
}

// The turn of the string at the cursor; the string at `id` is the new one.
pub fn take_turn(image: &[u8], p: Places, mode: Mode, id: usize, new: Shape, c: Packer) -> Turn
    requires { InTurn p image.now new c }
    ensures { Turned mode p image.now id new c result }
{
    let from = c.old;
    let step = string_walk::string_at(image, p, from);
    let old = step.string;
    let place = new_place(old.place, new, from.id == id, mode, c.at);
    let behind = step.next;
    let over = c.over + format::if_set(is_over(place), 1);
    let at = place.at + string_tables::size_of(place);
    let next = Packer {
        old: behind,
        over,
        at,
    };
    Turn {
        old,
        new: place,
        next,
    }
}

// The strings from `from` on up to the next that gets a value, that one too, or to the last.
pub fn next_stretch(
    form: Form,
    words: &[u32],
    text: &[u8],
    ends: &[u32],
    from: usize,
    strings: usize,
) -> Stretch
    requires listed { Listed (told form words.now) text.now ends.now }
    requires from_lt_strings { (from < strings) × (strings ≤ size_limit) }
    ensures stretch_of { StretchOf (values_in (told form words.now) text.now ends.now)
        (coming_in text.now ends.now result.next) from strings result }
    ensures within { result.next.id < 4294967296 → Within text.now ends.now result.next.edit }
{
    let next = string_edits::next_edit(form, words, from);
    let new = shape_of(string_edits::value_of(text, ends, next));
    if next.id < strings {
        return Stretch {
            next,
            new,
            end: next.id + 1,
        };
    }
    Stretch {
        next,
        new,
        end: strings,
    }
}

// The turns of the strings from the cursor on up to the next that gets a value, that one too.
fn measure_stretch(
    image: &[u8],
    p: Places,
    mode: Mode,
    form: Form,
    words: &[u32],
    text: &[u8],
    ends: &[u32],
    from: Packer,
) -> Packer
    requires laid { Laid p image.now × Listed (told form words.now) text.now ends.now × (from.old.id < p.strings) }
    requires reached { Reached mode p image.now (string_with p.layout image.now
        (values_in (told form words.now) text.now ends.now)) from }
    ensures reached_2 { Reached mode p image.now (string_with p.layout image.now
        (values_in (told form words.now) text.now ends.now)) result }
    ensures id_lt_id { (from.old.id < result.old.id) × (result.old.id ≤ p.strings) }
{
    let s = next_stretch(form, words, text, ends, from.old.id, p.strings);
    let next = s.next;
    let new = s.new;
    let mut c = from;
    for _id in from.old.id..s.end {
        c = take_turn(image, p, mode, next.id, new, c).next;
    }
    c
}

// How much room the strings take with their new values: one pass, exact sums.
pub fn measure(
    image: &[u8],
    p: Places,
    mode: Mode,
    form: Form,
    words: &[u32],
    text: &[u8],
    ends: &[u32],
) -> Sizes
    requires laid { Laid p image.now }
    requires listed { Listed (told form words.now) text.now ends.now }
    ensures { Measured mode p (string_with p.layout image.now
        (values_in (told form words.now) text.now ends.now)) result }
{
    let mut c = nothing_packed();
    // Stays a while loop: it goes on by whole stretches, and counts no index.
    while c.old.id < p.strings {
        c = measure_stretch(image, p, mode, form, words, text, ends, c);
    }
    Sizes {
        storage: c.at,
        overflows: c.over,
    }
}

// Where the tail starts behind tables and storage of these sizes; the small table stays as it is.
pub fn new_tail(p: Places, sizes: Sizes) -> usize
    requires { (p.over_at ≤ size_limit) × (sizes.overflows ≤ size_limit)
        × (sizes.storage ≤ size_limit * string_most) }
    ensures { result ≡ up4 (entry_at p.over_at overflow_entry sizes.overflows + sizes.storage) }
{
    let storage_at = sections::entry_at(p.over_at, sizes.overflows, format::OVERFLOW_ENTRY);
    bits::up4(storage_at + sizes.storage)
}
