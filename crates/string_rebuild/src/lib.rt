// Strings of an admitted image get values that do not all fit in place: the strings are packed anew,
// and what lies behind them moves. What is refused is judged before the first byte is written, by a plan:
// so a patch may also be judged without being made.
#![tactic(auto)]

ghost use Rattle.std.specs.Prelude.{◌≡◌, ◌*◌, ◌≤◌, length};
ghost use Rattle.bits.specs.Outcome.{Answers, made, passed, roomed};
ghost use Rattle.footer.specs.Finalize.{size_limit};
ghost use Rattle.sections.specs.Places.{Placed, Laid};
ghost use Rattle.string_edits.specs.Told.{told, values_in, Listed};
ghost use Rattle.string_packing.specs.Pass.{string_most};
ghost use Rattle.string_in_place.specs.Patch.{patched_strings, patch_known};
ghost use Rattle.string_rebuild.specs.Ready.{Asked, plan_of, Planned, plan_refusal, Ready};

use format::Mode;
use refusals::Refusal;
use relocate::{Cause, Move};
use sections::Places;
use string_edits::Form;
use string_packing::Sizes;
use string_walk::Cursor;

// What is known of a rebuild before its first byte is written: the sizes of the strings, where the tail
// goes, and how long the image gets.
#[derive(Clone, Copy)]
pub struct Plan {
    pub sizes: Sizes,
    pub tail: usize,
    pub length: usize,
}

// The image with its strings packed anew, in a buffer of its length.
fn put_rebuilt<'a>(
    out: &mut [u8],
    image: &'a [u8],
    p: Places,
    mode: Mode,
    from: Cursor,
    form: Form,
    words: &[u32],
    text: &'a [u8],
    ends: &[u32],
    sizes: Sizes,
    tail: usize,
) -> Result<usize, Refusal>
    requires { Ready mode p image.now (told form words.now) text.now ends.now from sizes tail (length out.old) }
    ensures { Answers (made (patched_strings mode p.layout image.now
        (values_in (told form words.now) text.now ends.now))) result out.old out.new }
{
    let layout = p.layout;
    let m = Move {
        from: p.tail,
        to: tail,
        cause: Cause::Strings,
    };
    relocate::copy_around(out, image, p.small_at, p.tail, tail);
    string_packing_write::put_region(out, image, p, mode, form, words, text, ends, sizes);
    relocate::put_counts(out, sizes.overflows, sizes.storage);
    relocate::relocate(out, image, layout, m);
    string_in_place::finish(out, image, p, from, form, words, text, ends)
}

// The plan for strings of these sizes.
pub fn plan_sizes(image: &[u8], p: Places, sizes: Sizes) -> Plan
    requires placed { Placed p image.now }
    requires overflows_le_size_limit { (sizes.overflows ≤ size_limit) × (sizes.storage ≤ size_limit * string_most) }
    ensures { result ≡ plan_of p (length image.now) sizes }
{
    let tail = string_packing::new_tail(p, sizes);
    let length = image.len() - p.tail + tail;
    Plan {
        sizes,
        tail,
        length,
    }
}

// The plan for strings with their new values.
pub fn plan_rebuild(
    image: &[u8],
    p: Places,
    mode: Mode,
    form: Form,
    words: &[u32],
    text: &[u8],
    ends: &[u32],
) -> Plan
    requires { Laid p image.now × Listed (told form words.now) text.now ends.now }
    ensures { Planned mode p image.now
        (values_in (told form words.now) text.now ends.now) result }
{
    let sizes = string_packing::measure(image, p, mode, form, words, text, ends);
    plan_sizes(image, p, sizes)
}

// Whether a plan can be carried out in so much room: 11 where the image would be too long, 12 where a place
// that moves does not fit its record, 13 where there is no room.
pub fn judge(image: &[u8], p: Places, plan: Plan, room: usize) -> Result<(), Refusal>
    requires { Laid p image.now × (plan.tail ≤ plan.length) }
    ensures { result ≡ passed (plan_refusal p image.now plan room) }
{
    if footer::SIZE_LIMIT < plan.length {
        return Err(refusals::LIMIT);
    }
    if !moved_fields::fields_fit(image, p, p.tail, plan.tail) {
        return Err(refusals::FIELD);
    }
    if room < plan.length {
        return Err(refusals::ROOM);
    }
    Ok(())
}

// The image with its strings packed anew, in a buffer of any length: refused as its plan is.
pub fn rebuild<'a>(
    out: &mut [u8],
    image: &'a [u8],
    p: Places,
    mode: Mode,
    from: Cursor,
    form: Form,
    words: &[u32],
    text: &'a [u8],
    ends: &[u32],
) -> Result<usize, Refusal>
    requires { Asked p image.now (told form words.now) text.now ends.now from }
    ensures { Answers (roomed (length out.old) (patch_known mode p.layout image.now
        (values_in (told form words.now) text.now ends.now))) result out.old out.new }
{
    let plan = plan_rebuild(image, p, mode, form, words, text, ends);
    judge(image, p, plan, out.len())?;
    let n = plan.length;
    let sizes = plan.sizes;
    put_rebuilt(
        &mut out[0..n],
        image,
        p,
        mode,
        from,
        form,
        words,
        text,
        ends,
        sizes,
        plan.tail,
    )
}
