// String patches: a label that is read gets another value, by its id or by what it was; or many of
// them, by their ids, in one pass.
#![tactic(auto)]

ghost use Rattle.std.specs.Prelude.{◌≡◌, true, ℕ, ◌<◌, length};
ghost use Rattle.bits.specs.Outcome.{Answers, roomed};
ghost use Rattle.sections.specs.Places.{Laid};
ghost use Rattle.string_edits.specs.Values.{only};
ghost use Rattle.string_edits.specs.Told.{told, Tells, values_in, Listed};
ghost use Rattle.utf.specs.Utf8.{is_utf8};
ghost use Rattle.string_in_place.specs.Patch.{patch_known};
ghost use Rattle.strings.specs.Patch.{patch_by_id, patch_by_value};
ghost use Rattle.strings.specs.Pass.{patch_strings};

use format::{Layout, Mode};
use refusals::Refusal;
use sections::Places;
use string_edits::Form;

// A value of more bytes is longer than any image, as a string too.
pub const LONGEST: usize = 4294967295;

// Strings of an admitted image get the values that words tell: in place where each fits there, else
// by one rebuild.
pub fn patch_known<'a>(
    out: &mut [u8],
    image: &'a [u8],
    p: Places,
    mode: Mode,
    form: Form,
    words: &[u32],
    text: &'a [u8],
    ends: &[u32],
) -> Result<usize, Refusal>
    requires laid { Laid p image.now × Listed (told form words.now) text.now ends.now }
    requires by_index { (id j : ℕ) → Tells (told form words.now) id j → id < p.strings }
    ensures { Answers (roomed (length out.old) (patch_known mode p.layout image.now
        (values_in (told form words.now) text.now ends.now))) result out.old out.new }
{
    let from = string_in_place::first_edited(image, p, form, words);
    if string_in_place::fits_all(image, p, from, form, words, text, ends) {
        return string_in_place::patch_in_place(out, image, p, from, form, words, text, ends);
    }
    string_rebuild::rebuild(out, image, p, mode, from, form, words, text, ends)
}

// One string gets a value: the list of one.
fn patch_one<'a>(
    out: &mut [u8],
    image: &'a [u8],
    value: &'a [u8],
    p: Places,
    mode: Mode,
    id: usize,
) -> Result<usize, Refusal>
    requires { Laid p image.now × (id < p.strings) × (is_utf8 value.now ≡ true) }
    ensures { Answers
        (roomed (length out.old) (patch_known mode p.layout image.now (only id value.now))) result
        out.old out.new }
{
    if LONGEST < value.len() {
        return Err(refusals::LIMIT);
    }
    let ids = [id as u32; 1];
    let ends = [value.len() as u32; 1];
    patch_known(out, image, p, mode, Form::Ids, &ids, value, &ends)
}

// String `id` gets a value. Answers the new length; the image is at the front of `out`. Refused with
// 1 to 6 where the image is not admitted, 7 where there is no such string, 8 where the value is not
// UTF-8, 11 where the image would be too long, 12 where a place that moves does not fit its record,
// 13 where `out` has no room: then no byte changes.
pub fn patch_string_by_id<'a>(
    image: &'a [u8],
    layout: Layout,
    mode: Mode,
    id: usize,
    value: &'a [u8],
    out: &mut [u8],
) -> Result<usize, Refusal>
    ensures { Answers (roomed (length out.old) (patch_by_id mode layout image.now id value.now)) result
        out.old out.new }
{
    let p = admission::admit(image, layout)?;
    if p.strings <= id {
        return Err(refusals::ID);
    }
    if !utf::is_utf8(value) {
        return Err(refusals::VALUE);
    }
    patch_one(out, image, value, p, mode, id)
}

// The lowest string that has the units of `old` gets the value `new`. Refused as by id, but for 8
// where either value is not UTF-8, and 14 where no string has those units.
pub fn patch_string_replace<'a>(
    image: &'a [u8],
    layout: Layout,
    mode: Mode,
    old: &[u8],
    new: &'a [u8],
    out: &mut [u8],
) -> Result<usize, Refusal>
    ensures { Answers
        (roomed (length out.old) (patch_by_value mode layout image.now old.now new.now)) result
        out.old out.new }
{
    let p = admission::admit(image, layout)?;
    if !utf::is_utf8(old) {
        return Err(refusals::VALUE);
    }
    if !utf::is_utf8(new) {
        return Err(refusals::VALUE);
    }
    let found = string_find::find(image, p, old)?;
    patch_one(out, image, new, p, mode, found.id)
}

// The strings of a list of ids get values, which are one text and their end places, in one pass: in
// place where each could be on the image as given, else by one rebuild; with no ids the image is only
// finalized. Refused with 15 where the three are no list; then as by id, each number for any edit of
// the list, and 17 where an id is given twice, after 7 and before 8. 11 to 13 are of the end image.
pub fn patch_strings<'a>(
    image: &'a [u8],
    layout: Layout,
    mode: Mode,
    ids: &[u32],
    text: &'a [u8],
    ends: &[u32],
    out: &mut [u8],
) -> Result<usize, Refusal>
    ensures { Answers (roomed (length out.old) (patch_strings mode layout image.now
        ids.now text.now ends.now)) result out.old out.new }
{
    if !string_edits::is_list(ids, text, ends) {
        return Err(refusals::JOB);
    }
    let p = admission::admit(image, layout)?;
    if !string_edits::are_known(ids, p.strings) {
        return Err(refusals::ID);
    }
    if !string_edits::are_different(ids) {
        return Err(refusals::TWICE);
    }
    if !string_edits::are_utf8(text, ends) {
        return Err(refusals::VALUE);
    }
    patch_known(out, image, p, mode, Form::Ids, ids, text, ends)
}
