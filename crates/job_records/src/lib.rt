// The job: an image, then patches of it, as records. The definition of a job stands in specs/Job, and
// in specs/Pieces the same in the pieces in which a program reads it. A program only reads and writes:
// what a record means and what is written at the end is decided here.
#![tactic(auto)]

ghost use Rattle.std.specs.Prelude.{◌≡◌, ◌≤◌, length, Ok};
ghost use Rattle.bits.specs.Outcome.{Answers};
ghost use Rattle.text.specs.Text.{Wrote};
ghost use Rattle.input_records.specs.Heads.{image_head, patch_head};
ghost use Rattle.job_records.specs.Job.{stated_of, record_of, record_outcome, refused_at_line};
ghost use Rattle.job_records.specs.Pieces.{image_stated, begun_head, begun, turn_of, Steps, is_refused, held_at_end, closing, Closes};

use format::{Layout, Mode};
use input_records::PatchHead;
use refusals::Refusal;

// How far a job has come: an image of so many bytes is held, and the record at this place is next; or
// the record at this place was refused with this number, which may be any: `finish` writes what it gets.
// It stays an enum: a refused job is a state that the functions below take like any other, no plainer as a `Result`.
#[derive(Clone, Copy)]
pub enum Progress {
    Under(Layout, usize, u64),
    Refused(u64, u8),
}

// The most bytes that a patch record states behind its head.
pub const CONTENT_MOST: usize = 65535;

// How many bytes the head of an image record states behind it; none where it is not well formed.
pub fn stated_image(head: &[u8]) -> usize
    ensures { (result ≡ image_stated (image_head head.now)) × (result ≤ 65536) }
{
    match input_records::image_head(head) {
        Ok((_, length)) => length,
        Err(_) => 0,
    }
}

// How many bytes the head of a patch record states behind it; none where it is not well formed.
pub fn stated_patch(head: &[u8]) -> usize
    ensures { (result ≡ stated_of (patch_head head.now)) × (result ≤ 65535) }
{
    match input_records::patch_head(head) {
        Ok(PatchHead::String(_, length)) => length,
        Ok(PatchHead::Body(_, length)) => length,
        Err(_) => 0,
    }
}

// Judges an image behind a head that is well formed: 15 where it is cut short, then 1 to 6.
fn begin_image(image: &[u8], layout: Layout, stated: usize) -> Progress
    ensures { result ≡ begun_head (Ok (layout, stated)) image.now }
{
    if image.len() < stated {
        return Progress::Refused(0, refusals::JOB.number());
    }
    if let Err(refusal) = admission::admit(image, layout) {
        return Progress::Refused(0, refusal.number());
    }
    Progress::Under(layout, image.len(), 1)
}

// Begins a job with the image record: its head, and the bytes behind it as far as they are there.
pub fn begin(head: &[u8], image: &[u8]) -> Progress
    ensures { result ≡ begun head.now image.now }
{
    match input_records::image_head(head) {
        Ok((layout, stated)) => begin_image(image, layout, stated),
        Err(refusal) => Progress::Refused(0, refusal.number()),
    }
}

// What a patch record makes of an image: its head, and the bytes behind it as far as they are there.
// 15 where the record is not well formed or cut short, then what the patch is refused with.
pub fn apply<'a>(
    image: &'a [u8],
    layout: Layout,
    head: &[u8],
    bytes: &'a [u8],
    out: &mut [u8],
) -> Result<usize, Refusal>
    ensures { Answers
        (record_outcome layout (length out.old) image.now (record_of head.now bytes.now)) result
        out.old out.new }
{
    if bytes.len() < stated_patch(head) {
        return Err(refusals::JOB);
    }
    match input_records::patch_head(head)? {
        PatchHead::String(id, _) => strings::patch_string_by_id(
            image,
            layout,
            Mode::Plain,
            id,
            bytes,
            out,
        ),
        PatchHead::Body(id, _) => functions::patch_function_bytes(image, layout, id, bytes, out),
    }
}

// Takes the next record. The image is held in the first bytes of `image`; the new one is made in
// `out`, and is then held in its place. Nothing is done behind a refusal.
pub fn step(
    progress: Progress,
    head: &[u8],
    bytes: &[u8],
    image: &mut [u8],
    out: &mut [u8],
) -> Progress
    requires { length out.old ≤ length image.old }
    ensures { Steps (turn_of (length out.old) progress image.old head.now bytes.now)
        progress result image.old image.new out.old out.new }
{
    let Progress::Under(layout, length, place) = progress else {
        return progress;
    };
    let held = bits::least(length, image.len());
    let answer = apply(&image[0..held], layout, head, bytes, out);
    match answer {
        Err(refusal) => Progress::Refused(place, refusal.number()),
        Ok(new) => {
            bits::put_bytes(image, 0, &out[0..new]);
            Progress::Under(layout, new, std::num::wrapping_add_u64(place, 1))
        }
    }
}

// Whether a record was refused: nothing more is read then.
pub fn is_refused(progress: Progress) -> bool
    ensures { result ≡ is_refused progress }
{
    matches!(progress, Progress::Refused(_, _))
}

// The line `refused K N`, which has at most 50 bytes.
pub fn put_refused(out: &mut [u8], k: u64, number: u64) -> usize
    requires { 50 ≤ length out.old }
    ensures { Wrote out.old 0 (refused_at_line k number) result out.new × (result ≤ 50) }
{
    let a = text::put_text(out, 0, b"refused ");
    let b = text::put_number(out, a, k, b' ');
    text::put_number(out, b, number, b'\n')
}

// The image that is held, finalized where no patch was there.
fn close_image(image: &mut [u8], length: usize, place: u64) -> usize
    ensures { Closes (held_at_end length place image.old) result image.old image.new }
{
    let held = bits::least(length, image.len());
    if place == 1 {
        let _ = footer::finalize_raw_image(&mut image[0..held]);
    }
    held
}

// Ends a job: makes what is to be written in the first bytes of `image`, the last image or the line
// of the refusal, and answers its length.
pub fn finish(progress: Progress, image: &mut [u8]) -> usize
    requires { 50 ≤ length image.old }
    ensures { Closes (closing progress image.old) result image.old image.new }
{
    match progress {
        Progress::Under(_, length, place) => close_image(image, length, place),
        Progress::Refused(place, number) => put_refused(image, place, number as u64),
    }
}
