// The records that the programs read, judged by the bytes before their contents: a two-byte mark,
// then what the record is about. A record that is not well formed is refused with 15.
#![tactic(auto)]

ghost use Rattle.std.specs.Prelude.{◌≡◌, ◌+◌, ◌≤◌, ◌<◌, length};
ghost use Rattle.bits.specs.Bytes.{number_at};
ghost use Rattle.format.specs.declared.Layout.TheVariants.{Legacy};
ghost use Rattle.input_records.specs.Heads.{marked, layout_of, image_head, patch_head};

use format::Layout;
use refusals::Refusal;

// What the bytes before a patch say: the id of a string or a function, and the length of what is
// patched in.
#[derive(Clone, Copy)]
pub enum PatchHead {
    String(usize, usize),
    Body(usize, usize),
}

// The bytes before an image: mark, layout, length.
pub const IMAGE_HEAD: usize = 7;

// The bytes before what is patched in: mark, id, length.
pub const PATCH_HEAD: usize = 8;

// The longest image that a program takes.
pub const IMAGE_MOST: usize = 65536;

fn has_mark(s: &[u8], a: u8, b: u8) -> bool
    requires { 2 ≤ length s.now }
    ensures { result ≡ marked s.now a b }
{
    if s[0] != a {
        return false;
    }
    s[1] == b
}

fn legacy(big_integers: bool, function_sources: bool) -> Layout
    ensures { result ≡ Legacy big_integers function_sources }
{
    Layout::Legacy {
        big_integers,
        function_sources,
    }
}

// The layout that a byte stands for.
pub fn layout_of(b: u8) -> Layout
    ensures { result ≡ layout_of b }
{
    if b == 0 {
        return Layout::Modern;
    }
    if b == 1 {
        return legacy(false, false);
    }
    if b == 2 {
        return legacy(true, false);
    }
    if b == 3 {
        return legacy(false, true);
    }
    legacy(true, true)
}

// Judges the bytes before an image: the layout of the image and its length, or 15. The image itself
// need not be there yet.
pub fn image_head(s: &[u8]) -> Result<(Layout, usize), Refusal>
    ensures { result ≡ image_head s.now }
{
    if s.len() < IMAGE_HEAD {
        return Err(refusals::JOB);
    }
    if !has_mark(s, b'I', b'M') {
        return Err(refusals::JOB);
    }
    if 4 < s[2] {
        return Err(refusals::JOB);
    }
    let length = bits::word(s, 3) as usize;
    if IMAGE_MOST < length {
        return Err(refusals::JOB);
    }
    Ok((layout_of(s[2]), length))
}

// The 2 bytes from `at` on, as a number.
fn half_word(s: &[u8], at: usize) -> usize
    requires { at + 2 ≤ length s.now }
    ensures { (result ≡ number_at s.now at 2) × (result < 65536) }
{
    s[at] as usize + s[at + 1] as usize * 256
}

// Judges the bytes before a new value or body: what is patched, its id and the length of what is
// patched in, or 15.
pub fn patch_head(s: &[u8]) -> Result<PatchHead, Refusal>
    ensures { result ≡ patch_head s.now }
{
    if s.len() < PATCH_HEAD {
        return Err(refusals::JOB);
    }
    let id = bits::word(s, 2) as usize;
    let length = half_word(s, 6);
    if has_mark(s, b'S', b'T') {
        return Ok(PatchHead::String(id, length));
    }
    if has_mark(s, b'F', b'B') {
        return Ok(PatchHead::Body(id, length));
    }
    Err(refusals::JOB)
}
