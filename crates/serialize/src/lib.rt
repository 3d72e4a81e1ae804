// Builds a minimal modern image: one function, whose record is only the pointer to its large header,
// and a table of strings. A port of `build_minimal_modern` of the Rust's serialize.rs.
//
// The strings come as one text and their end places: string i is the text from the end before it to
// its own. They stay two slices: callers in C lend them so. Everything is judged before the first byte is written.
#![tactic(auto)]

ghost use Rattle.std.specs.Prelude.{◌≡◌, true, false, ◌+◌, ◌≤◌, ◌<◌, ◌^◌, length};
ghost use Rattle.std.proofs.lemmas.List.Edits.{sets};
ghost use Rattle.bits.specs.Bytes.{bytes_of};
ghost use Rattle.bits.specs.Words.{whole};
ghost use Rattle.bits.specs.Outcome.{Answers, answered, made, roomed};
ghost use Rattle.format.specs.Table.{header_length, modern_record, modern_large_whole};
ghost use Rattle.footer.specs.Finalize.{size_limit};
ghost use Rattle.serialize.specs.Parts.{start_of, kinds_at, small_at, storage_at, body_at, large_at, length_of};
ghost use Rattle.serialize.specs.Parts.{header_of, record_of, small_table, sections, large_header, tail_of, minimal};
ghost use Rattle.serialize.specs.Builder.{ends_ascend, all_small, length_answer, built};

use bits::Words;
use header_write::headers;
use refusals::Refusal;

// The first version with modern headers.
const LEAST_VERSION: u32 = 97;

// What the builder sets in a large header: the one parameter is `this`; a function may be called
// with and without `new`.
const PARAMS: u64 = 1;

const NON_PTR_REGS: u64 = 1;

const FRAME_SIZE: u64 = 1;

const PROHIBIT_NONE: u8 = 2;

// ---- Places.

// The place of the kinds, behind the one function record.
fn kinds_at() -> usize
    ensures { result ≡ kinds_at }
{
    format::at(format::MODERN_RECORD) + format::width(format::MODERN_RECORD)
}

// The place of the small entries, behind the one kind.
fn small_at() -> usize
    ensures { result ≡ small_at }
{
    kinds_at() + format::width(format::KIND_ENTRY)
}

// The place of the storage, behind the small entries of `strings` strings.
fn storage_at(strings: usize) -> usize
    requires { strings ≤ size_limit }
    ensures { result ≡ storage_at strings }
{
    small_at() + strings * format::width(format::SMALL_ENTRY)
}

// The place of the body, behind a storage of `size` bytes.
fn body_at(strings: usize, size: usize) -> usize
    requires { (strings ≤ size_limit) × (size < 2 ^ 32) }
    ensures { result ≡ body_at strings size }
{
    bits::up4(storage_at(strings) + size)
}

// ---- Strings.

// Where string `i` starts, and the one before it ends.
fn start_of(ends: &[u32], i: usize) -> usize
    requires { i ≤ length ends.now }
    ensures { (result ≡ start_of ends.now i) × (result < 2 ^ 32) }
{
    if i == 0 { 0 } else { ends[i - 1] as usize }
}

// Whether no end is below the one before; the first is held to 0.
fn ends_ascend(ends: &[u32]) -> bool
    ensures { result ≡ ends_ascend ends.now }
{
    for i in 0..ends.len() {
        if start_of(ends, i + 1) < start_of(ends, i) {
            return false;
        }
    }
    true
}

// Whether every string fits a small entry.
fn all_small(ends: &[u32]) -> bool
    ensures { result ≡ all_small ends.now }
{
    for i in 0..ends.len() {
        let start = start_of(ends, i);
        if format::FAR <= start {
            return false;
        }
        if start + format::LONG <= start_of(ends, i + 1) {
            return false;
        }
    }
    true
}

// ---- What is judged.

// The length of an image, or the refusal of one that is too long. A count that is over the limit by
// itself is refused before it is part of a sum.
fn limited(strings: usize, size: usize, body: usize) -> Result<usize, Refusal>
    requires { size < 2 ^ 32 }
    ensures { result ≡ length_answer (length_of strings size body) }
{
    if footer::SIZE_LIMIT < strings {
        return Err(refusals::LIMIT);
    }
    if footer::SIZE_LIMIT < body {
        return Err(refusals::LIMIT);
    }
    let large_at = bits::up4(body_at(strings, size) + body);
    let length = large_at + format::width(format::MODERN_LARGE_WHOLE) + footer::FOOTER_LEN;
    if footer::SIZE_LIMIT < length {
        return Err(refusals::LIMIT);
    }
    Ok(length)
}

// The length of the image, or why there is none.
fn measure(version: u32, text: &[u8], ends: &[u32], body: &[u8]) -> Result<usize, Refusal>
    ensures { result ≡ answered (built version text.now ends.now body.now) }
{
    if !ends_ascend(ends) {
        return Err(refusals::JOB);
    }
    let size = start_of(ends, ends.len());
    let given = text.len();
    if given < size {
        return Err(refusals::JOB);
    }
    if version < LEAST_VERSION {
        return Err(refusals::JOB);
    }
    let storage = &text[0..size];
    if !bits::ascii(storage) {
        return Err(refusals::VALUE);
    }
    if !all_small(ends) {
        return Err(refusals::FIELD);
    }
    limited(ends.len(), size, body.len())
}

// ---- The parts, each written at its place.

// The file header. Its buffer is as long as a header is, so that it is never refused.
fn put_header(image: &mut [u8], version: u32, strings: u32, size: u32)
    requires { header_length ≤ length image.old }
    ensures { image.new ≡ sets image.old 0 (header_of version strings size) }
{
    let mut header = [0u8; format::HEADER_LEN];
    let hash = [0u8; format::SOURCE_HASH_LEN];
    let _ = headers::write_modern_header(&mut header, version, hash, 1, 1, 0, strings, size);
    bits::put_bytes(image, 0, &header);
}

// A record with nothing but the flag and the pointer of a large header.
fn pointing_record(large_at: usize) -> Words
    requires { large_at < 4294967296 }
    ensures { whole result ≡ record_of large_at }
{
    let at = format::at(format::LARGE_FLAG);
    let flags = bits::with_field(0, at, format::width(format::LARGE_FLAG), 1);
    let zero = Words { low: 0, high: 0 };
    let flagged = records::with_value(zero, format::MODERN_FLAGS, flags);
    records::with_modern_pointer(flagged, large_at as u64)
}

// That record in its slot.
fn put_record(image: &mut [u8], large_at: usize)
    requires { (kinds_at ≤ length image.old) × (large_at < 4294967296) }
    ensures { image.new ≡ sets image.old modern_record.at
        (bytes_of modern_record.width (record_of large_at)) }
{
    let at = format::at(format::MODERN_RECORD);
    let end = kinds_at();
    bits::store12(&mut image[at..end], pointing_record(large_at));
}

// The small entries of all strings, which are narrow.
fn put_small_table(image: &mut [u8], ends: &[u32])
    requires ends_in_bounds { storage_at (length ends.now) ≤ length image.old }
    requires image_len_bound { length image.old ≤ size_limit }
    requires ends_value { ends_ascend ends.now ≡ true }
    ensures { image.new ≡ sets image.old small_at
        (small_table ends.now (length ends.now)) }
{
    for i in 0..ends.len() {
        let start = start_of(ends, i);
        let len = start_of(ends, i + 1) - start;
        bits::put_word(
            image,
            storage_at(i),
            format::entry(false, start as u64, len as u64),
        );
    }
}

// All before the tail. The record points to `large_at`.
fn put_sections(image: &mut [u8], version: u32, storage: &[u8], ends: &[u32], large_at: usize)
    requires storage_in_bounds { body_at (length ends.now) (length storage.now) ≤ length image.old }
    requires large_at_in_bounds { (large_at ≤ length image.old) × (length image.old ≤ size_limit) }
    requires ends_value { ends_ascend ends.now ≡ true }
    ensures { image.new ≡ sets image.old 0
        (sections version storage.now ends.now large_at) }
{
    let strings = ends.len();
    put_header(image, version, strings as u32, storage.len() as u32);
    put_record(image, large_at);
    bits::put_word(image, kinds_at(), strings as u64);
    put_small_table(image, ends);
    let at = storage_at(strings);
    bits::put_bytes(image, at, storage);
    let end = at + storage.len();
    bits::put_zeros(image, end, bits::up4(end) - end);
}

// The large header of a body: zeros, and in them the fields that are not 0.
fn put_large_header(image: &mut [u8], at: usize, begin: u32, size: u32)
    requires { at + modern_large_whole.width ≤ length image.old }
    ensures { image.new ≡ sets image.old at (large_header begin size) }
{
    bits::put_zeros(image, at, format::width(format::MODERN_LARGE_WHOLE));
    format::put_word(image, at, format::LARGE_OFFSET, begin as u64);
    format::put_word(image, at, format::MODERN_LARGE_PARAMS, PARAMS);
    format::put_word(image, at, format::MODERN_LARGE_SIZE, size as u64);
    format::put_word(image, at, format::MODERN_LARGE_NON_PTR_REGS, NON_PTR_REGS);
    format::put_word(image, at, format::MODERN_LARGE_FRAME, FRAME_SIZE);
    let flags_at = at + format::at(format::MODERN_LARGE_FLAGS);
    image[flags_at] = PROHIBIT_NONE;
}

// The body, from `begin` on, and its large header.
fn put_tail(image: &mut [u8], begin: usize, body: &[u8])
    requires width_in_bounds { large_at begin (length body.now) + modern_large_whole.width ≤ length image.old }
    requires image_len_bound { length image.old ≤ size_limit }
    ensures { image.new ≡ sets image.old begin (tail_of begin body.now) }
{
    bits::put_bytes(image, begin, body);
    let end = begin + body.len();
    let at = bits::up4(end);
    bits::put_zeros(image, end, at - end);
    put_large_header(image, at, begin as u32, body.len() as u32);
}

// The whole image, in a buffer of its length.
fn put_image(
    image: &mut [u8],
    version: u32,
    storage: &[u8],
    ends: &[u32],
    body: &[u8],
) -> Result<usize, Refusal>
    requires image_len { length image.old ≡ length_of (length ends.now) (length storage.now) (length body.now) }
    requires image_len_bound { length image.old ≤ size_limit }
    requires ends_value { ends_ascend ends.now ≡ true }
    ensures { Answers (made (minimal version storage.now ends.now body.now)) result
        image.old image.new }
{
    let begin = body_at(ends.len(), storage.len());
    let large_at = bits::up4(begin + body.len());
    put_sections(image, version, storage, ends, large_at);
    put_tail(image, begin, body);
    footer::finalize_raw_image(image)
}

// Builds the image of a version, of strings and of the body of its one function in the first bytes
// of `out`, and answers its length. Refusals in order: 15 where an end is below the one before or
// past the text, or the version is under 97; 8 where a string is not ASCII; 12 where one does not
// fit a small entry; 11 where the image is too long; 13 where `out` has no room for it.
pub fn build_minimal_modern(
    version: u32,
    text: &[u8],
    ends: &[u32],
    body: &[u8],
    out: &mut [u8],
) -> Result<usize, Refusal>
    ensures { Answers
        (roomed (length out.old) (built version text.now ends.now body.now)) result
        out.old out.new }
{
    let length = measure(version, text, ends, body)?;
    if out.len() < length {
        return Err(refusals::ROOM);
    }
    let size = start_of(ends, ends.len());
    put_image(&mut out[0..length], version, &text[0..size], ends, body)
}
