// Strings of an admitted image get other values: what becomes of the image is defined here, and the
// case in which every value goes over its string's own bytes.
#![tactic(auto)]

ghost use Rattle.std.specs.Prelude.{◌≡◌, true, ℕ, ◌<◌, length};
ghost use Rattle.bits.specs.Outcome.{Answers, made, roomed};
ghost use Rattle.utf.specs.Utf8.{utf16};
ghost use Rattle.image.specs.Sections.{strings_in};
ghost use Rattle.sections.specs.Places.{Laid};
ghost use Rattle.string_tables.specs.Strings.{as_place};
ghost use Rattle.string_walk.specs.Places.{Stands};
ghost use Rattle.string_edits.specs.Values.{all_edited};
ghost use Rattle.string_edits.specs.Told.{told, Tells, values_in};
ghost use Rattle.string_in_place.specs.Known.{FirstOf, Given, sized_at, tested, Overwritten, slotted, SlotFits, Finishable};
ghost use Rattle.string_in_place.specs.Patch.{fits_in_place, fits_all, in_place, rehashed, finished, patched_in_place};

use refusals::Refusal;
use sections::Places;
use string_edits::Form;
use string_tables::Place;
use string_walk::{Cursor, StringRecord};

// Where a pass over the edited strings starts: at the first of them.
pub fn first_edited(image: &[u8], p: Places, form: Form, words: &[u32]) -> Cursor
    requires laid { Laid p image.now }
    requires by_index { (id j : ℕ) → Tells (told form words.now) id j → id < p.strings }
    ensures { FirstOf p image.now (told form words.now) result }
{
    let next = string_edits::next_edit(form, words, 0);
    let first = string_walk::first_string();
    if next.id < string_edits::NONE {
        return string_walk::string_from(image, p, first, next.id);
    }
    first
}

// ---- the end of every patch

// The hash of a value in the slot of a rank; a plain string has none.
fn put_hash(out: &mut [u8], slots: usize, rank: Option<usize>, value: &[u8])
    requires { SlotFits slots rank (length out.old) }
    ensures { out.new ≡ slotted slots rank (utf16 value.now) out.old }
{
    let Some(k) = rank else {
        return;
    };
    let slot = sections::entry_at(slots, k, format::HASH_ENTRY);
    bits::put_word(out, slot, utf::hash_value(value) as u64);
}

// The hash of each new value in its slot.
fn put_hashes(
    out: &mut [u8],
    image: &[u8],
    p: Places,
    from: Cursor,
    form: Form,
    words: &[u32],
    text: &[u8],
    ends: &[u32],
)
    requires { Given p image.now (told form words.now) text.now ends.now from × Finishable p (length out.old) }
    ensures { out.new ≡ rehashed p.layout image.now
        (values_in (told form words.now) text.now ends.now) out.old }
{
    let mut c = from;
    let mut due = string_edits::next_edit(form, words, c.id);
    // Stays a while loop: it goes on from edit to edit, and counts no index.
    while due.id < string_edits::NONE {
        let at = string_walk::string_from(image, p, c, due.id);
        let step = string_walk::string_at(image, p, at);
        let own = step.string;
        let rank = own.rank;
        put_hash(
            out,
            p.hashes_at,
            rank,
            string_edits::value_of(text, ends, due),
        );
        c = step.next;
        due = string_edits::next_edit(form, words, c.id);
    }
}

// The hash slots, the file length and the footer.
pub fn finish(
    out: &mut [u8],
    image: &[u8],
    p: Places,
    from: Cursor,
    form: Form,
    words: &[u32],
    text: &[u8],
    ends: &[u32],
) -> Result<usize, Refusal>
    requires { Given p image.now (told form words.now) text.now ends.now from × Finishable p (length out.old) }
    ensures { Answers (made (finished p.layout image.now
        (values_in (told form words.now) text.now ends.now) out.old)) result out.old
        out.new }
{
    put_hashes(out, image, p, from, form, words, text, ends);
    footer::finalize_raw_image(out)
}

// ---- in place

// Whether a value may go over a string's bytes, if these are its own.
fn is_sized(place: Place, value: &[u8]) -> bool
    requires { place.count < 4294967296 }
    ensures { result ≡ sized_at (as_place place) value.now }
{
    !place.wide && bits::ascii(value) && value.len() == string_tables::size_of(place)
}

// Whether an edit of string `id`, whose record is `own`, passes a test: that of its size or, for
// `overlaps`, whether the string has its bytes for itself, which looks at all strings.
fn passes(
    image: &[u8],
    p: Places,
    id: usize,
    own: StringRecord,
    value: &[u8],
    overlaps: bool,
) -> bool
    requires laid { Laid p image.now }
    requires stands { Stands p image.now id own }
    ensures { result ≡ tested overlaps p.layout image.now id value.now }
{
    if overlaps {
        return string_overlap::is_alone(image, p, id, own);
    }
    is_sized(own.place, value)
}

// Whether a value may go over the bytes of string `id`, whose record is `own`.
pub fn fits_in_place(image: &[u8], p: Places, id: usize, own: StringRecord, value: &[u8]) -> bool
    requires laid { Laid p image.now }
    requires stands { Stands p image.now id own }
    ensures { result ≡ fits_in_place p.layout image.now id value.now }
{
    passes(image, p, id, own, value, false) && passes(image, p, id, own, value, true)
}

// Whether each edit passes that test.
fn all_pass(
    image: &[u8],
    p: Places,
    from: Cursor,
    form: Form,
    words: &[u32],
    text: &[u8],
    ends: &[u32],
    overlaps: bool,
) -> bool
    requires { Given p image.now (told form words.now) text.now ends.now from }
    ensures { result ≡ all_edited (values_in (told form words.now) text.now ends.now)
        (tested overlaps p.layout image.now) (strings_in image.now) }
{
    let mut c = from;
    let mut next = string_edits::next_edit(form, words, c.id);
    // Stays a while loop: it goes on from edit to edit, and counts no index.
    while next.id < string_edits::NONE {
        let at = string_walk::string_from(image, p, c, next.id);
        let step = string_walk::string_at(image, p, at);
        let own = step.string;
        let value = string_edits::value_of(text, ends, next);
        if !passes(image, p, next.id, own, value, overlaps) {
            return false;
        }
        c = step.next;
        next = string_edits::next_edit(form, words, c.id);
    }
    true
}

// Whether no edited string overlaps another: one pass tells it of all strings that stand in a row; else
// each is held to all others. For a list of one edit the first pass would spare nothing.
fn are_alone(
    image: &[u8],
    p: Places,
    from: Cursor,
    form: Form,
    words: &[u32],
    text: &[u8],
    ends: &[u32],
) -> bool
    requires { Given p image.now (told form words.now) text.now ends.now from }
    ensures { result ≡ all_edited (values_in (told form words.now) text.now ends.now)
        (tested true p.layout image.now) (strings_in image.now) }
{
    (words.len() > 1 && string_overlap::are_in_row(image, p))
        || all_pass(image, p, from, form, words, text, ends, true)
}

// Whether every edit could be in place on the image as given. The sizes of all come first: one edit
// that does not fit by its size spares the overlaps of all.
pub fn fits_all(
    image: &[u8],
    p: Places,
    from: Cursor,
    form: Form,
    words: &[u32],
    text: &[u8],
    ends: &[u32],
) -> bool
    requires { Given p image.now (told form words.now) text.now ends.now from }
    ensures { result ≡ fits_all p.layout image.now
        (values_in (told form words.now) text.now ends.now) }
{
    all_pass(image, p, from, form, words, text, ends, false)
        && are_alone(image, p, from, form, words, text, ends)
}

// The values over the old bytes, in a buffer of the image's length.
fn put_values(
    out: &mut [u8],
    image: &[u8],
    p: Places,
    from: Cursor,
    form: Form,
    words: &[u32],
    text: &[u8],
    ends: &[u32],
)
    requires { Overwritten p image.now (told form words.now) text.now ends.now from
        × (length out.old ≡ length image.now) }
    ensures { out.new ≡ in_place p.layout image.now
        (values_in (told form words.now) text.now ends.now) out.old }
{
    let mut c = from;
    let mut next = string_edits::next_edit(form, words, c.id);
    // Stays a while loop: it goes on from edit to edit, and counts no index.
    while next.id < string_edits::NONE {
        let at = string_walk::string_from(image, p, c, next.id);
        let step = string_walk::string_at(image, p, at);
        let own = step.string;
        bits::put_bytes(out, own.start, string_edits::value_of(text, ends, next));
        c = step.next;
        next = string_edits::next_edit(form, words, c.id);
    }
}

// The image with the values over the old bytes, in a buffer of its length.
fn put_in_place(
    out: &mut [u8],
    image: &[u8],
    p: Places,
    from: Cursor,
    form: Form,
    words: &[u32],
    text: &[u8],
    ends: &[u32],
) -> Result<usize, Refusal>
    requires { Overwritten p image.now (told form words.now) text.now ends.now from
        × (length out.old ≡ length image.now) }
    ensures { Answers (made (patched_in_place p.layout image.now
        (values_in (told form words.now) text.now ends.now))) result out.old out.new }
{
    bits::put_bytes(out, 0, image);
    put_values(out, image, p, from, form, words, text, ends);
    finish(out, image, p, from, form, words, text, ends)
}

// The same in a buffer of any length. 11 and 12 never come up, and the mode does not matter: nothing
// moves.
pub fn patch_in_place(
    out: &mut [u8],
    image: &[u8],
    p: Places,
    from: Cursor,
    form: Form,
    words: &[u32],
    text: &[u8],
    ends: &[u32],
) -> Result<usize, Refusal>
    requires { Overwritten p image.now (told form words.now) text.now ends.now from }
    ensures { Answers (roomed (length out.old) (made (patched_in_place p.layout image.now
        (values_in (told form words.now) text.now ends.now)))) result out.old out.new }
{
    let n = image.len();
    if out.len() < n {
        return Err(refusals::ROOM);
    }
    put_in_place(&mut out[0..n], image, p, from, form, words, text, ends)
}
