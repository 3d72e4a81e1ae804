// The single string patches by which strings get their values, one after the other in id order: judged
// without being made, and made in one pass. Each is judged as the one patch of all strings up to its own.
#![tactic(auto)]

ghost use Rattle.std.specs.Prelude.{◌≡◌, ℕ, suc, ◌*◌, ◌≤◌, ◌<◌, length};
ghost use Rattle.bits.specs.Choice.{both};
ghost use Rattle.bits.specs.Outcome.{Answers, roomed, passed};
ghost use Rattle.footer.specs.Finalize.{size_limit};
ghost use Rattle.image.specs.Sections.{strings_in};
ghost use Rattle.sections.specs.Places.{Laid};
ghost use Rattle.string_walk.specs.Places.{Stands};
ghost use Rattle.string_edits.specs.Lists.{Within};
ghost use Rattle.string_edits.specs.Told.{told, marked, values_in, Listed};
ghost use Rattle.string_edits.specs.declared.Form.TheVariants.{Marks};
ghost use Rattle.string_packing.specs.Pass.{string_most};
ghost use Rattle.string_in_place.specs.Patch.{fits_in_place, fits_all, patch_known};
ghost use Rattle.string_rebuild.specs.Ready.{number_of};
ghost use Rattle.string_steps.specs.Steps.{stepwise, first_stop};
ghost use Rattle.string_steps.specs.Room.{new_size, old_bytes, new_bytes, is_roomy};
ghost use Rattle.string_steps.specs.Marked.{Marked};

use format::Mode;
use refusals::Refusal;
use sections::Places;
use string_edits::{Form, Next};
use string_packing::Sizes;
use string_tables::Place;
use string_walk::StringRecord;

// ---- room in which no single patch meets a limit

// The bytes of all strings of an image.
fn old_bytes(image: &[u8], p: Places) -> usize
    requires { Laid p image.now }
    ensures { (result ≡ old_bytes p.layout image.now p.strings) × (result ≤ p.strings * size_limit) }
{
    let mut c = string_walk::first_string();
    let mut sum = 0;
    for _id in 0..p.strings {
        let step = string_walk::string_at(image, p, c);
        let own = step.string;
        sum += string_tables::size_of(own.place);
        c = step.next;
    }
    sum
}

// The bytes of the value that a string gets by its mark.
fn marked_bytes(text: &[u8], ends: &[u32], mark: u32) -> usize
    requires { (j : ℕ) → mark ≡ suc j → Within text.now ends.now j }
    ensures { (result ≡ new_size (marked text.now ends.now mark)) × (result ≤ string_most) }
{
    if mark == 0 {
        return 0;
    }
    let next = Next {
        edit: mark as usize - 1,
        id: 0,
    };
    let shape = string_packing::shape_of(string_edits::value_of(text, ends, next));
    string_tables::size_of(Place {
        wide: shape.wide,
        at: 0,
        count: shape.count,
    })
}

// The bytes of all values that strings get.
fn new_bytes(marks: &[u32], text: &[u8], ends: &[u32]) -> usize
    requires { Listed (told Marks marks.now) text.now ends.now × (length marks.now ≤ size_limit) }
    ensures { (result ≡ new_bytes (values_in (told Marks marks.now) text.now ends.now)
        (length marks.now)) × (result ≤ length marks.now * string_most) }
{
    let mut sum = 0;
    for mark in marks {
        sum += marked_bytes(text, ends, *mark);
    }
    sum
}

// Whether in so much room no single patch meets a limit: that of all old strings, all new ones and every
// entry in the overflow table would not.
fn is_roomy(image: &[u8], p: Places, marks: &[u32], text: &[u8], ends: &[u32], room: usize) -> bool
    requires { Marked p image.now marks.now text.now ends.now }
    ensures { result ≡ is_roomy p.layout image.now room
        (values_in (told Marks marks.now) text.now ends.now) }
{
    if room < image.len() {
        return false;
    }
    let most = Sizes {
        storage: old_bytes(image, p) + new_bytes(marks, text, ends) + p.strings,
        overflows: p.strings,
    };
    let plan = string_rebuild::plan_sizes(image, p, most);
    string_rebuild::judge(image, p, plan, room).is_ok()
}

// ---- one patch after the other

// Whether all strings fit in place, this one and those before it.
fn fits_too(
    image: &[u8],
    p: Places,
    before: bool,
    id: usize,
    own: StringRecord,
    value: &[u8],
) -> bool
    requires laid { Laid p image.now }
    requires stands { Stands p image.now id own }
    ensures { result ≡ both (fits_in_place p.layout image.now id value.now) before }
{
    before && string_in_place::fits_in_place(image, p, id, own, value)
}

// Whether the patch of the strings of these marks is refused, where it is known whether all of them fit in
// place.
fn stop_at(
    image: &[u8],
    p: Places,
    mode: Mode,
    marks: &[u32],
    text: &[u8],
    ends: &[u32],
    fits: bool,
    room: usize,
) -> Result<(), Refusal>
    requires fits_value { fits ≡ fits_all p.layout image.now (values_in (told Marks marks.now) text.now ends.now) }
    requires laid { Laid p image.now × Listed (told Marks marks.now) text.now ends.now }
    ensures { result ≡ passed (number_of (roomed room (patch_known mode p.layout image.now
        (values_in (told Marks marks.now) text.now ends.now)))) }
{
    if !fits {
        let plan = string_rebuild::plan_rebuild(image, p, mode, Form::Marks, marks, text, ends);
        return string_rebuild::judge(image, p, plan, room);
    }
    if room < image.len() {
        return Err(refusals::ROOM);
    }
    Ok(())
}

// The refusal of the first single patch that is refused.
fn first_stop(
    image: &[u8],
    p: Places,
    mode: Mode,
    marks: &[u32],
    text: &[u8],
    ends: &[u32],
    room: usize,
) -> Result<(), Refusal>
    requires { Marked p image.now marks.now text.now ends.now }
    ensures { result ≡ passed (first_stop mode p.layout image.now room
        (values_in (told Marks marks.now) text.now ends.now) (strings_in image.now)) }
{
    let mut c = string_walk::first_string();
    let mut fits = true;
    let mut next = string_edits::next_edit(Form::Marks, marks, c.id);
    // Stays a while loop: it goes on from edit to edit, and counts no index.
    while next.id < string_edits::NONE {
        let at = string_walk::string_from(image, p, c, next.id);
        let step = string_walk::string_at(image, p, at);
        let own = step.string;
        let value = string_edits::value_of(text, ends, next);
        fits = fits_too(image, p, fits, next.id, own, value);
        c = step.next;
        let end = c.id;
        stop_at(image, p, mode, &marks[0..end], text, ends, fits, room)?;
        next = string_edits::next_edit(Form::Marks, marks, end);
    }
    Ok(())
}

// The same, with no look at single patches where there is room for any of them.
fn stop_of(
    image: &[u8],
    p: Places,
    mode: Mode,
    marks: &[u32],
    text: &[u8],
    ends: &[u32],
    room: usize,
) -> Result<(), Refusal>
    requires { Marked p image.now marks.now text.now ends.now }
    ensures { result ≡ passed (first_stop mode p.layout image.now room
        (values_in (told Marks marks.now) text.now ends.now) (strings_in image.now)) }
{
    if is_roomy(image, p, marks, text, ends, room) {
        return Ok(());
    }
    first_stop(image, p, mode, marks, text, ends, room)
}

// The strings of an admitted image that have a mark get their values, by the single patches in id order:
// refused as the first of them that is, and made in one pass.
pub fn patch_stepwise<'a>(
    out: &mut [u8],
    image: &'a [u8],
    p: Places,
    mode: Mode,
    marks: &[u32],
    text: &'a [u8],
    ends: &[u32],
) -> Result<usize, Refusal>
    requires { Marked p image.now marks.now text.now ends.now }
    ensures { Answers (stepwise mode p.layout image.now (length out.old)
        (values_in (told Marks marks.now) text.now ends.now)) result out.old out.new }
{
    stop_of(image, p, mode, marks, text, ends, out.len())?;
    strings::patch_known(out, image, p, mode, Form::Marks, marks, text, ends)
}
