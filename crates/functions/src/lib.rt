// Body patches: a port of the Rust's patch/functions.rs, `patch_function_bytes`. Everything is judged
// before the first byte is written, and the image is hashed once.
#![tactic(auto)]

ghost use Rattle.std.specs.Prelude.{◌≡◌, ◌<◌, length};
ghost use Rattle.bits.specs.Choice.{judge};
ghost use Rattle.bits.specs.Outcome.{made, answered, roomed, Answers};
ghost use Rattle.image.specs.Sections.{functions_in};
ghost use Rattle.sections.specs.Places.{Laid};
ghost use Rattle.function_checks.specs.Checks.{moved_past_body, FunctionIs};
ghost use Rattle.functions.specs.Patch.{bodied, patched_body, body_checks, patch_body, answer_for};
ghost use Rattle.functions.specs.Stages.{Accepted};

use format::Layout;
use function_table::Function;
use refusals::Refusal;
use relocate::{Cause, Move};
use sections::Places;

// Numbers 9 to 12 for the body of function `id`, which is `f`, or the length of the result.
fn judge_body(
    image: &[u8],
    p: Places,
    id: usize,
    f: Function,
    body: &[u8],
) -> Result<usize, Refusal>
    requires laid { Laid p image.now }
    requires id_bound { (id < functions_in image.now) × FunctionIs p.layout image.now id f }
    ensures { result ≡ answer_for (judge (body_checks p.layout image.now id body.now))
        (moved_past_body p.layout image.now id body.now (length image.now)) }
{
    let layout = p.layout;
    let begin = f.begin;
    let old = f.size;
    let new = body.len();
    if !function_checks::stands_alone(image, p, id, f)
        || !function_checks::is_debug_past(image, layout, begin + old)
    {
        return Err(refusals::INSIDE);
    }
    if function_checks::is_from_nothing(old, new) {
        return Err(refusals::EMPTY);
    }
    if function_checks::is_too_long(image.len(), old, new) {
        return Err(refusals::LIMIT);
    }
    if !function_checks::does_size_fit(layout, f, new)
        || !moved_fields::fields_fit(image, p, begin + old, begin + new)
    {
        return Err(refusals::FIELD);
    }
    Ok(image.len() - old + new)
}

// The length of the patched image, or the first number that refuses it.
fn measure(image: &[u8], layout: Layout, id: usize, body: &[u8]) -> Result<usize, Refusal>
    ensures { result ≡ answered (patch_body layout image.now id body.now) }
{
    let p = admission::admit(image, layout)?;
    if p.functions <= id {
        return Err(refusals::ID);
    }
    let f = function_table::function_at(image, layout, id);
    judge_body(image, p, id, f, body)
}

// The image with the new body, in a buffer of its new length. A body of another length moves what
// lies at or past the old one's end.
fn put_body(out: &mut [u8], image: &[u8], layout: Layout, id: usize, body: &[u8])
    requires { Accepted layout image.now id body.now (length out.old) }
    ensures { out.new ≡ bodied layout image.now id body.now }
{
    let f = function_table::function_at(image, layout, id);
    let begin = f.begin;
    let end = begin + f.size;
    let size = body.len();
    relocate::put_spliced(out, image, begin, end, body);
    if size == f.size {
        return;
    }
    let m = Move {
        from: end,
        to: begin + size,
        cause: Cause::Body { id, size },
    };
    relocate::relocate(out, image, layout, m);
}

// The patched image, in a buffer of its length.
fn put_patched(
    out: &mut [u8],
    image: &[u8],
    layout: Layout,
    id: usize,
    body: &[u8],
) -> Result<usize, Refusal>
    requires { Accepted layout image.now id body.now (length out.old) }
    ensures { Answers (made (patched_body layout image.now id body.now)) result out.old
        out.new }
{
    put_body(out, image, layout, id, body);
    footer::finalize_raw_image(out)
}

// Puts `body` in the place of the body of function `id`, makes the new image in the first bytes of
// `out` and answers its length. Refusals in order: 1 to 6 of the image; 7 where there is no such
// function; 9 where another body, an info place or the debug offset is in the way; 10 where the old
// body is empty and the new one is not; 11 where the result is too long; 12 where a record cannot
// hold what it has to; 13 where `out` has no room for the result.
pub fn patch_function_bytes(
    image: &[u8],
    layout: Layout,
    id: usize,
    body: &[u8],
    out: &mut [u8],
) -> Result<usize, Refusal>
    ensures { Answers (roomed (length out.old) (patch_body layout image.now id body.now)) result
        out.old out.new }
{
    let length = measure(image, layout, id, body)?;
    if out.len() < length {
        return Err(refusals::ROOM);
    }
    put_patched(&mut out[0..length], image, layout, id, body)
}
