// The product for callers in C and in Rust: numbers and slices in, one number out. Each function here
// hands on to the one that it is named for.
#![tactic(auto)]

ghost use Rattle.std.specs.Prelude.{◌≡◌, [], ◌∷◌, ◌+◌, ◌≤◌, length};
ghost use Rattle.bits.specs.Bytes.{bytes_at};
ghost use Rattle.bits.specs.Outcome.{made, roomed, Answers};
ghost use Rattle.footer.specs.Finalize.{finalize_of};
ghost use Rattle.serialize.specs.Builder.{built};
ghost use Rattle.strings.specs.Patch.{patch_by_id, patch_by_value};
ghost use Rattle.strings.specs.Pass.{patch_strings};
ghost use Rattle.image.specs.Sections.{strings_in};
ghost use Rattle.translate.specs.Space.{lent, is_read, read_po, LeavesSpace};
ghost use Rattle.po_write.specs.File.{write_po, work_after};
ghost use Rattle.functions.specs.Patch.{patch_body};
ghost use Rattle.listing_pieces.specs.Listing.{part_room, listing_part};
ghost use Rattle.string_index.specs.Index.{filled_as, index_after, look_up};
ghost use Rattle.string_reasons.specs.Reasons.{reason_of};
ghost use Rattle.facts.specs.Facts.{image_facts, string_facts, string_facts_from};
ghost use Rattle.hbc.specs.Reads.{string_reading, body_reading, looked_up, reason_words};
ghost use Rattle.hbc.specs.Numbers.{admit_number, numbered, mode_of, Codes, stated, chosen, used_by, work_by};
ghost use Rattle.hbc.specs.Numbers.{count_stated, work_in};

use format::{Layout, Mode};
use refusals::Refusal;
use string_index::Entry;
use string_reasons::Reason;

// Layouts, modes, reasons and answers are numbers in this crate: callers in C pass and get them.

// A layout byte is at most that.
const LAST_LAYOUT: u8 = 4;

// Whether the bytes are an image of the layout that the byte states: 0, or the number of the refusal.
#[unsafe(no_mangle)]
pub extern "C" fn nepuladrim_admit(image: &[u8], layout: u8) -> u8
    ensures { result ≡ admit_number layout image.now }
{
    if LAST_LAYOUT < layout {
        return refusals::JOB.number();
    }
    match admission::admit(image, input_records::layout_of(layout)) {
        Ok(_) => 0,
        Err(refusal) => refusal.number(),
    }
}

// What is added to the number of a refusal, so that it is no length.
const REFUSED: u64 = 4294967296;

// 15, where the answer could be a length: for a layout byte over 4 or a mode byte over 1.
const REFUSED_JOB: u64 = 4294967311;

// A mode byte is at most that.
const LAST_MODE: u8 = 1;

// The mode that a byte states.
fn mode_of(b: u8) -> Mode
    ensures { result ≡ mode_of b }
{
    if b == 0 {
        return Mode::Plain;
    }
    Mode::Even
}

// The number of an answer: its length or count, or 2^32 and the refusal's number.
fn number(answer: Result<usize, Refusal>) -> u64
    ensures { result ≡ numbered answer }
{
    match answer {
        Ok(length) => length as u64,
        Err(refusal) => REFUSED + bits::wide(refusal.number()),
    }
}

// Puts file length and footer into an image.
#[unsafe(no_mangle)]
pub extern "C" fn nepuladrim_finalize(image: &mut [u8]) -> u64
    ensures { Codes (finalize_of image.old) result image.old image.new }
{
    number(footer::finalize_raw_image(image))
}

// The smallest modern image of strings, which are one text and their ends, and one body.
#[unsafe(no_mangle)]
pub extern "C" fn nepuladrim_build(
    version: u32,
    text: &[u8],
    ends: &[u32],
    body: &[u8],
    out: &mut [u8],
) -> u64
    ensures { Codes (roomed (length out.old)
        (built version text.now ends.now body.now)) result out.old out.new }
{
    number(serialize::build_minimal_modern(version, text, ends, body, out))
}

// String `id` gets a value.
#[unsafe(no_mangle)]
pub extern "C" fn nepuladrim_patch_string_by_id<'a>(
    image: &'a [u8],
    layout: u8,
    mode: u8,
    id: u32,
    value: &'a [u8],
    out: &mut [u8],
) -> u64
    ensures { Codes (stated layout (λ l. chosen mode
        (λ m. roomed (length out.old) (patch_by_id m l image.now id value.now)))) result out.old
        out.new }
{
    if LAST_LAYOUT < layout {
        return REFUSED_JOB;
    }
    if LAST_MODE < mode {
        return REFUSED_JOB;
    }
    number(strings::patch_string_by_id(
        image,
        input_records::layout_of(layout),
        mode_of(mode),
        id as usize,
        value,
        out,
    ))
}

// The lowest string that has the units of `old` gets the value `new`.
#[unsafe(no_mangle)]
pub extern "C" fn nepuladrim_patch_string_replace<'a>(
    image: &'a [u8],
    layout: u8,
    mode: u8,
    old: &[u8],
    new: &'a [u8],
    out: &mut [u8],
) -> u64
    ensures { Codes (stated layout (λ l. chosen mode
        (λ m. roomed (length out.old) (patch_by_value m l image.now old.now new.now)))) result
        out.old out.new }
{
    if LAST_LAYOUT < layout {
        return REFUSED_JOB;
    }
    if LAST_MODE < mode {
        return REFUSED_JOB;
    }
    number(strings::patch_string_replace(
        image,
        input_records::layout_of(layout),
        mode_of(mode),
        old,
        new,
        out,
    ))
}

// The strings of a list of ids get values, which are one text and their ends, in one pass.
#[unsafe(no_mangle)]
pub extern "C" fn nepuladrim_patch_strings<'a>(
    image: &'a [u8],
    layout: u8,
    mode: u8,
    ids: &[u32],
    text: &'a [u8],
    ends: &[u32],
    out: &mut [u8],
) -> u64
    ensures { Codes (stated layout (λ l. chosen mode
        (λ m. roomed (length out.old) (patch_strings m l image.now ids.now text.now
        ends.now)))) result out.old out.new }
{
    if LAST_LAYOUT < layout {
        return REFUSED_JOB;
    }
    if LAST_MODE < mode {
        return REFUSED_JOB;
    }
    number(strings::patch_strings(
        image,
        input_records::layout_of(layout),
        mode_of(mode),
        ids,
        text,
        ends,
        out,
    ))
}

// ---- translators' files

// Every plain string that has the msgid of a pair gets its msgstr. Text, ends and work are lent for work.
#[unsafe(no_mangle)]
pub extern "C" fn nepuladrim_read_po(
    image: &[u8],
    layout: u8,
    mode: u8,
    file: &[u8],
    text: &mut [u8],
    ends: &mut [u32],
    work: &mut [u32],
    out: &mut [u8],
) -> u64
    ensures codes { Codes (stated layout (λ l. chosen mode (λ m. read_po m l image.now (length out.old)
        file.now (lent text.old ends.old work.old)))) result out.old
        out.new }
    ensures leaves_space { LeavesSpace (used_by layout mode (λ l. is_read l image.now file.now
        (lent text.old ends.old work.old))) (length file.now) (strings_in image.now)
        text.old text.new ends.old ends.new work.old work.new }
{
    if LAST_LAYOUT < layout {
        return REFUSED_JOB;
    }
    if LAST_MODE < mode {
        return REFUSED_JOB;
    }
    number(translate::read_po(
        image,
        input_records::layout_of(layout),
        mode_of(mode),
        file,
        text,
        ends,
        work,
        out,
    ))
}

// A translators' file of the plain strings of an image. Work is lent for work.
#[unsafe(no_mangle)]
pub extern "C" fn nepuladrim_write_po(
    image: &[u8],
    layout: u8,
    work: &mut [u32],
    out: &mut [u8],
) -> u64
    ensures { Codes (stated layout (λ l. write_po l image.now (length work.old)
        (length out.old))) result
        out.old out.new × (work.new ≡ work_by layout (λ l. work_after l image.now
        work.old) work.old) }
{
    if LAST_LAYOUT < layout {
        return REFUSED_JOB;
    }
    number(po_write::write_po(image, input_records::layout_of(layout), work, out))
}

// ---- bodies

// The body of function `id` is replaced.
#[unsafe(no_mangle)]
pub extern "C" fn nepuladrim_patch_function_bytes(
    image: &[u8],
    layout: u8,
    id: u32,
    body: &[u8],
    out: &mut [u8],
) -> u64
    ensures { Codes (stated layout
        (λ l. roomed (length out.old) (patch_body l image.now id body.now))) result out.old
        out.new }
{
    if LAST_LAYOUT < layout {
        return REFUSED_JOB;
    }
    number(functions::patch_function_bytes(
        image,
        input_records::layout_of(layout),
        id as usize,
        body,
        out,
    ))
}

// ---- readings

// Bytes of an image at the front of a buffer.
fn copied(image: &[u8], start: usize, size: usize, out: &mut [u8]) -> Result<usize, Refusal>
    requires { start + size ≤ length image.now }
    ensures { Answers (roomed (length out.old) (made (bytes_at image.now start size))) result out.old
        out.new }
{
    if out.len() < size {
        return Err(refusals::ROOM);
    }
    bits::put_bytes(out, 0, &image[start..start + size]);
    Ok(size)
}

fn read_string(image: &[u8], layout: Layout, id: usize, out: &mut [u8]) -> Result<usize, Refusal>
    ensures { Answers (roomed (length out.old) (string_reading layout image.now id)) result out.old
        out.new }
{
    let string = reader::string(image, layout, id)?.string;
    copied(
        image,
        string.start,
        string_tables::size_of(string.place),
        out,
    )
}

fn read_body(image: &[u8], layout: Layout, id: usize, out: &mut [u8]) -> Result<usize, Refusal>
    ensures { Answers (roomed (length out.old) (body_reading layout image.now id)) result out.old
        out.new }
{
    let body = reader::body(image, layout, id)?;
    copied(image, body.begin, body.size, out)
}

// The bytes of string `id`: ASCII where it is narrow, else UTF-16, low byte first.
#[unsafe(no_mangle)]
pub extern "C" fn nepuladrim_string(image: &[u8], layout: u8, id: u32, out: &mut [u8]) -> u64
    ensures { Codes (stated layout (λ l. roomed (length out.old) (string_reading l image.now id))) result
        out.old out.new }
{
    if LAST_LAYOUT < layout {
        return REFUSED_JOB;
    }
    number(read_string(image, input_records::layout_of(layout), id as usize, out))
}

// The bytes of the body of function `id`.
#[unsafe(no_mangle)]
pub extern "C" fn nepuladrim_body(image: &[u8], layout: u8, id: u32, out: &mut [u8]) -> u64
    ensures { Codes (stated layout (λ l. roomed (length out.old) (body_reading l image.now id))) result
        out.old out.new }
{
    if LAST_LAYOUT < layout {
        return REFUSED_JOB;
    }
    number(read_body(image, input_records::layout_of(layout), id as usize, out))
}

// A part of the listing of an image: from byte `from` on, as much as there is room for. The index is lent,
// and filled anew.
#[unsafe(no_mangle)]
pub extern "C" fn nepuladrim_list(
    image: &[u8],
    layout: u8,
    from: usize,
    index: &mut [u32],
    out: &mut [u8],
) -> u64
    ensures codes { Codes (stated layout (λ l. listing_part (part_room (length out.old)) from l image.now
        (length index.old))) result out.old out.new }
    ensures index_after { index.new ≡ work_by layout (λ l. index_after l image.now index.old)
        index.old }
{
    if LAST_LAYOUT < layout {
        return REFUSED_JOB;
    }
    number(listing_pieces::list(image, input_records::layout_of(layout), from, index, out))
}

// ---- the index of an image's strings

// Fills an index: three runs of words, with the offset, the length and the flags of each string. Answers how
// many strings there are.
#[unsafe(no_mangle)]
pub extern "C" fn nepuladrim_fill_index(image: &[u8], layout: u8, index: &mut [u32]) -> u64
    ensures value { result ≡ count_stated layout (λ l. filled_as l image.now (length index.old)) }
    ensures index_after { index.new ≡ work_by layout (λ l. index_after l image.now index.old)
        index.old }
{
    if LAST_LAYOUT < layout {
        return REFUSED_JOB;
    }
    number(string_index::fill_index(image, input_records::layout_of(layout), index))
}

// How many words an entry has, and a reason.
const ENTRY: usize = 3;

// Three words at the front of a buffer.
fn put_words(first: u32, second: u32, third: u32, out: &mut [u32]) -> Result<usize, Refusal>
    ensures { Answers (roomed (length out.old) (made (first ∷ second ∷ third ∷ []))) result out.old
        out.new }
{
    if out.len() < ENTRY {
        return Err(refusals::ROOM);
    }
    out[0] = first;
    out[1] = second;
    out[2] = third;
    Ok(ENTRY)
}

// The words of an entry that was looked up, or its refusal.
fn put_looked_up(looked: Result<Entry, Refusal>, out: &mut [u32]) -> Result<usize, Refusal>
    ensures { Answers (roomed (length out.old) (looked_up looked)) result out.old out.new }
{
    let entry = looked?;
    put_words(entry.offset, entry.length, entry.flags, out)
}

// What an index for `count` strings holds of string `id`.
#[unsafe(no_mangle)]
pub extern "C" fn nepuladrim_look_up(index: &[u32], count: usize, id: u32, out: &mut [u32]) -> u64
    ensures { Codes (roomed (length out.old) (looked_up (look_up index.now count id))) result out.old
        out.new }
{
    number(put_looked_up(string_index::look_up(index, count, id as usize), out))
}

// ---- why a string patch takes the path that it takes

const IN_PLACE: u32 = 0;

const WIDE: u32 = 1;

const NOT_ASCII: u32 = 2;

const LENGTHS: u32 = 3;

const OVERLAP: u32 = 4;

// The code of a reason and its two words, or the number that it is refused with, as one answer.
fn put_reason(reason: Reason, out: &mut [u32]) -> u64
    ensures { Codes (roomed (length out.old) (reason_words reason)) result out.old out.new }
{
    match reason {
        Reason::Refused(n) => REFUSED + bits::wide(n),
        Reason::InPlace => number(put_words(IN_PLACE, 0, 0, out)),
        Reason::Wide => number(put_words(WIDE, 0, 0, out)),
        Reason::NotAscii => number(put_words(NOT_ASCII, 0, 0, out)),
        Reason::Lengths(entry, value) => number(put_words(LENGTHS, entry, value, out)),
        Reason::Overlap(id) => number(put_words(OVERLAP, id, 0, out)),
    }
}

// Why a patch of string `id` takes the path that it takes. The index is lent, and filled anew.
#[unsafe(no_mangle)]
pub extern "C" fn nepuladrim_why<'a>(
    image: &'a [u8],
    layout: u8,
    mode: u8,
    id: u32,
    value: &'a [u8],
    index: &mut [u32],
    out: &mut [u32],
) -> u64
    ensures codes { Codes (stated layout (λ l. chosen mode (λ m. roomed (length out.old)
        (reason_words (reason_of m l image.now (length index.old) id value.now))))) result out.old
        out.new }
    ensures index_after { index.new ≡ work_in layout mode (λ l. index_after l image.now index.old)
        index.old }
{
    if LAST_LAYOUT < layout {
        return REFUSED_JOB;
    }
    if LAST_MODE < mode {
        return REFUSED_JOB;
    }
    let reason = string_reasons::why(
        image,
        input_records::layout_of(layout),
        mode_of(mode),
        id as usize,
        value,
        index,
    );
    put_reason(reason, out)
}

// ---- facts: what is known of an image, or of its strings, as numbers

// What is known of an image.
#[unsafe(no_mangle)]
pub extern "C" fn nepuladrim_image_facts(image: &[u8], layout: u8, out: &mut [u64]) -> u64
    ensures { Codes (stated layout (λ l. roomed (length out.old) (image_facts l image.now))) result
        out.old out.new }
{
    if LAST_LAYOUT < layout {
        return REFUSED_JOB;
    }
    number(facts::image_facts(image, input_records::layout_of(layout), out))
}

// What is known of string `id`.
#[unsafe(no_mangle)]
pub extern "C" fn nepuladrim_string_facts(image: &[u8], layout: u8, id: u32, out: &mut [u64]) -> u64
    ensures { Codes (stated layout (λ l. roomed (length out.old) (string_facts l image.now id))) result
        out.old out.new }
{
    if LAST_LAYOUT < layout {
        return REFUSED_JOB;
    }
    number(facts::string_facts(image, input_records::layout_of(layout), id as usize, out))
}

// What is known of the strings from `id` on, of as many as there is room for.
#[unsafe(no_mangle)]
pub extern "C" fn nepuladrim_string_facts_from(
    image: &[u8],
    layout: u8,
    id: u32,
    out: &mut [u64],
) -> u64
    ensures { Codes (stated layout (λ l. string_facts_from (length out.old) l image.now id)) result
        out.old out.new }
{
    if LAST_LAYOUT < layout {
        return REFUSED_JOB;
    }
    number(facts::string_facts_from(image, input_records::layout_of(layout), id as usize, out))
}
