// The tables and the storage of an image's strings, written anew: one pass over the old image, with
// the new values at their ids.
#![tactic(auto)]

ghost use Rattle.std.specs.Prelude.{◌≡◌, ◌+◌, ◌≤◌, ◌<◌, length};
ghost use Rattle.std.proofs.lemmas.List.Edits.{sets};
ghost use Rattle.bits.specs.Choice.{both};
ghost use Rattle.string_tables.specs.Strings.{as_place};
ghost use Rattle.edits.specs.Rebuild.{region, padded};
ghost use Rattle.string_edits.specs.Values.{only};
ghost use Rattle.string_edits.specs.Told.{told, values_in};
ghost use Rattle.string_packing.specs.Strings.{as_string, string_with, strings_with, Shaped};
ghost use Rattle.string_packing.specs.Pass.{Reached, InTurn};
ghost use Rattle.string_packing_write.specs.Region.{put_entry, put_string, region_put, EntryFits, StringFits, source_of, stored_bytes};
ghost use Rattle.string_packing_write.specs.Written.{Behind, LaidOn, Writable, Sized};

use format::Mode;
use sections::Places;
use string_edits::Form;
use string_packing::{Packer, Shape, Sizes};
use string_tables::Place;

// Where the new tables and the new storage start.
#[derive(Clone, Copy)]
pub struct RegionPlaces {
    pub small_at: usize,
    pub over_at: usize,
    pub storage_at: usize,
}

// Entry `i`, of a place: its small entry, and its pair if it is overflow entry `k`.
fn put_entry(out: &mut [u8], to: RegionPlaces, i: usize, k: usize, place: Place)
    requires { EntryFits to i k (as_place place) (length out.old) }
    ensures { out.new ≡ put_entry to i k (as_place place) out.old }
{
    let small = sections::entry_at(to.small_at, i, format::SMALL_ENTRY);
    if string_packing::is_over(place) {
        bits::put_word(
            out,
            small,
            format::entry(place.wide, k as u64, format::FULL),
        );
        let pair = sections::entry_at(to.over_at, k, format::OVERFLOW_ENTRY);
        format::put_word(out, pair, format::OVERFLOW_OFFSET, place.at as u64);
        format::put_word(out, pair, format::OVERFLOW_LENGTH, place.count as u64);
        return;
    }
    bits::put_word(
        out,
        small,
        format::entry(place.wide, place.at as u64, place.count as u64),
    );
}

// The bytes that are copied for a string: a part of the old image or, for the new one, the value.
fn source<'a>(image: &'a [u8], value: &'a [u8], is_new: bool, at: usize, n: usize) -> &'a [u8]
    requires { at + n ≤ length image.now }
    ensures { result.now ≡ source_of is_new image.now value.now at n }
{
    if is_new {
        return value;
    }
    &image[at..at + n]
}

// Whether the bytes of a string are the units of the value, which stand in no input.
fn is_made(new: bool, wide: bool) -> bool
    ensures { result ≡ both new wide }
{
    new && wide
}

// The bytes of a string, stored from `to` on. The units of a wide value are made as they are stored.
fn put_stored<'a>(
    out: &mut [u8],
    to: usize,
    image: &'a [u8],
    value: &'a [u8],
    is_new: bool,
    wide: bool,
    at: usize,
    n: usize,
)
    requires n_in_bounds { at + n ≤ length image.now }
    requires n_in_bounds_2 { to + length (stored_bytes is_new wide image.now value.now at n) ≤ length out.old }
    ensures { out.new ≡ sets out.old to
        (stored_bytes is_new wide image.now value.now at n) }
{
    if is_made(is_new, wide) {
        utf::put_units(out, to, value);
        return;
    }
    bits::put_bytes(out, to, source(image, value, is_new, at, n));
}

// The string at the cursor: its entry, the zeros before it and its bytes. Answers the cursor behind it.
fn put_string<'a>(
    out: &mut [u8],
    image: &'a [u8],
    value: &'a [u8],
    p: Places,
    mode: Mode,
    to: RegionPlaces,
    id: usize,
    new: Shape,
    c: Packer,
) -> Packer
    requires in_turn { InTurn p image.now new c × Shaped new (as_string value.now) }
    requires string_fits { StringFits mode to c.old.id c.over c.at
        (string_with p.layout image.now (only id value.now) c.old.id) (length out.old) }
    ensures behind { Behind mode p image.now c
        (string_with p.layout image.now (only id value.now) c.old.id) result }
    ensures out_after { out.new ≡ put_string mode to c.old.id c.over c.at
        (string_with p.layout image.now (only id value.now) c.old.id) out.old }
{
    let i = c.old.id;
    let t = string_packing::take_turn(image, p, mode, id, new, c);
    let old = t.old;
    let size = string_tables::size_of(old.place);
    let place = t.new;
    put_entry(out, to, i, c.over, place);
    bits::put_zeros(out, to.storage_at + c.at, place.at - c.at);
    put_stored(
        out,
        to.storage_at + place.at,
        image,
        value,
        i == id,
        new.wide,
        old.start,
        size,
    );
    t.next
}

// The strings from the cursor on up to the next that gets a value, that one too.
fn put_stretch<'a>(
    out: &mut [u8],
    image: &'a [u8],
    p: Places,
    mode: Mode,
    to: RegionPlaces,
    form: Form,
    words: &[u32],
    text: &'a [u8],
    ends: &[u32],
    from: Packer,
) -> Packer
    requires writable { Writable mode p image.now (told form words.now) text.now ends.now to (length out.old)
        × (from.old.id < p.strings) }
    requires reached { Reached mode p image.now (string_with p.layout image.now
        (values_in (told form words.now) text.now ends.now)) from }
    ensures reached_2 { Reached mode p image.now (string_with p.layout image.now
        (values_in (told form words.now) text.now ends.now)) result }
    ensures id_lt_id { (from.old.id < result.old.id) × (result.old.id ≤ p.strings) }
    ensures laid_on { LaidOn mode to (string_with p.layout image.now
        (values_in (told form words.now) text.now ends.now)) from.old.id result.old.id
        out.old out.new }
{
    let s = string_packing::next_stretch(form, words, text, ends, from.old.id, p.strings);
    let next = s.next;
    let new = s.new;
    let value = string_edits::value_of(text, ends, next);
    let mut c = from;
    for _id in from.old.id..s.end {
        c = put_string(out, image, value, p, mode, to, next.id, new, c);
    }
    c
}

// All strings in order: one pass, with a place that goes on in each of the three parts.
fn put_strings<'a>(
    out: &mut [u8],
    image: &'a [u8],
    p: Places,
    mode: Mode,
    to: RegionPlaces,
    form: Form,
    words: &[u32],
    text: &'a [u8],
    ends: &[u32],
)
    requires { Writable mode p image.now (told form words.now) text.now ends.now to (length out.old) }
    ensures { out.new ≡ region_put to p.strings (strings_with mode p.layout image.now
        (values_in (told form words.now) text.now ends.now)) out.old }
{
    let mut c = string_packing::nothing_packed();
    // Stays a while loop: it goes on by whole stretches, and counts no index.
    while c.old.id < p.strings {
        c = put_stretch(out, image, p, mode, to, form, words, text, ends, c);
    }
}

// The small table, the overflow table and the storage of all strings, and zeros to a multiple of 4,
// from the small table's place on.
pub fn put_region<'a>(
    out: &mut [u8],
    image: &'a [u8],
    p: Places,
    mode: Mode,
    form: Form,
    words: &[u32],
    text: &'a [u8],
    ends: &[u32],
    sizes: Sizes,
)
    requires { Sized mode p image.now (told form words.now) text.now ends.now sizes (length out.old) }
    ensures { out.new ≡ sets out.old p.small_at (padded p.small_at
        (region p.strings (strings_with mode p.layout image.now
        (values_in (told form words.now) text.now ends.now)))) }
{
    let storage_at = sections::entry_at(p.over_at, sizes.overflows, format::OVERFLOW_ENTRY);
    let to = RegionPlaces {
        small_at: p.small_at,
        over_at: p.over_at,
        storage_at,
    };
    put_strings(out, image, p, mode, to, form, words, text, ends);
    let end = storage_at + sizes.storage;
    bits::put_zeros(out, end, bits::up4(end) - end);
}
