// The functions of crate `hbc` for callers in C, as a static library. Each hands on to the one of its name, and promises the same.
#![tactic(auto)]

ghost use Rattle.std.specs.Prelude.{◌≡◌, length};
ghost use Rattle.bits.specs.Outcome.{roomed};
ghost use Rattle.footer.specs.Finalize.{finalize_of};
ghost use Rattle.serialize.specs.Builder.{built};
ghost use Rattle.strings.specs.Patch.{patch_by_id, patch_by_value};
ghost use Rattle.strings.specs.Pass.{patch_strings};
ghost use Rattle.image.specs.Sections.{strings_in};
ghost use Rattle.translate.specs.Space.{lent, is_read, read_po, LeavesSpace};
ghost use Rattle.po_write.specs.File.{write_po, work_after};
ghost use Rattle.functions.specs.Patch.{patch_body};
ghost use Rattle.listing_pieces.specs.Listing.{part_room, listing_part};
ghost use Rattle.string_index.specs.Index.{filled_as, index_after, look_up};
ghost use Rattle.string_reasons.specs.Reasons.{reason_of};
ghost use Rattle.facts.specs.Facts.{image_facts, string_facts, string_facts_from};
ghost use Rattle.hbc.specs.Reads.{string_reading, body_reading, looked_up, reason_words};
ghost use Rattle.hbc.specs.Numbers.{admit_number, Codes, stated, chosen, used_by, work_by};
ghost use Rattle.hbc.specs.Numbers.{count_stated, work_in};

// Whether the bytes are an image of the layout that the byte states: 0, or the number of the refusal.
#[unsafe(no_mangle)]
pub extern "C" fn nepuladrim_admit(image: &[u8], layout: u8) -> u8
    ensures { result ≡ admit_number layout image.now }
{
    hbc::nepuladrim_admit(image, layout)
}

// Puts file length and footer into an image.
#[unsafe(no_mangle)]
pub extern "C" fn nepuladrim_finalize(image: &mut [u8]) -> u64
    ensures { Codes (finalize_of image.old) result image.old image.new }
{
    hbc::nepuladrim_finalize(image)
}

// The smallest modern image of strings, which are one text and their ends, and one body.
#[unsafe(no_mangle)]
pub extern "C" fn nepuladrim_build(
    version: u32,
    text: &[u8],
    ends: &[u32],
    body: &[u8],
    out: &mut [u8],
) -> u64
    ensures { Codes (roomed (length out.old)
        (built version text.now ends.now body.now)) result out.old out.new }
{
    hbc::nepuladrim_build(version, text, ends, body, out)
}

// String `id` gets a value.
#[unsafe(no_mangle)]
pub extern "C" fn nepuladrim_patch_string_by_id<'a>(
    image: &'a [u8],
    layout: u8,
    mode: u8,
    id: u32,
    value: &'a [u8],
    out: &mut [u8],
) -> u64
    ensures { Codes (stated layout (λ l. chosen mode
        (λ m. roomed (length out.old) (patch_by_id m l image.now id value.now)))) result out.old
        out.new }
{
    hbc::nepuladrim_patch_string_by_id(image, layout, mode, id, value, out)
}

// The lowest string that has the units of `old` gets the value `new`.
#[unsafe(no_mangle)]
pub extern "C" fn nepuladrim_patch_string_replace<'a>(
    image: &'a [u8],
    layout: u8,
    mode: u8,
    old: &[u8],
    new: &'a [u8],
    out: &mut [u8],
) -> u64
    ensures { Codes (stated layout (λ l. chosen mode
        (λ m. roomed (length out.old) (patch_by_value m l image.now old.now new.now)))) result
        out.old out.new }
{
    hbc::nepuladrim_patch_string_replace(image, layout, mode, old, new, out)
}

// The strings of a list of ids get values, which are one text and their ends, in one pass.
#[unsafe(no_mangle)]
pub extern "C" fn nepuladrim_patch_strings<'a>(
    image: &'a [u8],
    layout: u8,
    mode: u8,
    ids: &[u32],
    text: &'a [u8],
    ends: &[u32],
    out: &mut [u8],
) -> u64
    ensures { Codes (stated layout (λ l. chosen mode
        (λ m. roomed (length out.old) (patch_strings m l image.now ids.now text.now
        ends.now)))) result out.old out.new }
{
    hbc::nepuladrim_patch_strings(image, layout, mode, ids, text, ends, out)
}

// Every plain string that has the msgid of a pair gets its msgstr. Text, ends and work are lent for work.
#[unsafe(no_mangle)]
pub extern "C" fn nepuladrim_read_po(
    image: &[u8],
    layout: u8,
    mode: u8,
    file: &[u8],
    text: &mut [u8],
    ends: &mut [u32],
    work: &mut [u32],
    out: &mut [u8],
) -> u64
    ensures codes { Codes (stated layout (λ l. chosen mode (λ m. read_po m l image.now (length out.old)
        file.now (lent text.old ends.old work.old)))) result out.old
        out.new }
    ensures leaves_space { LeavesSpace (used_by layout mode (λ l. is_read l image.now file.now
        (lent text.old ends.old work.old))) (length file.now) (strings_in image.now)
        text.old text.new ends.old ends.new work.old work.new }
{
    hbc::nepuladrim_read_po(image, layout, mode, file, text, ends, work, out)
}

// A translators' file of the plain strings of an image. Work is lent for work.
#[unsafe(no_mangle)]
pub extern "C" fn nepuladrim_write_po(
    image: &[u8],
    layout: u8,
    work: &mut [u32],
    out: &mut [u8],
) -> u64
    ensures { Codes (stated layout (λ l. write_po l image.now (length work.old)
        (length out.old))) result
        out.old out.new × (work.new ≡ work_by layout (λ l. work_after l image.now
        work.old) work.old) }
{
    hbc::nepuladrim_write_po(image, layout, work, out)
}

// The body of function `id` is replaced.
#[unsafe(no_mangle)]
pub extern "C" fn nepuladrim_patch_function_bytes(
    image: &[u8],
    layout: u8,
    id: u32,
    body: &[u8],
    out: &mut [u8],
) -> u64
    ensures { Codes (stated layout
        (λ l. roomed (length out.old) (patch_body l image.now id body.now))) result out.old
        out.new }
{
    hbc::nepuladrim_patch_function_bytes(image, layout, id, body, out)
}

// The bytes of string `id`: ASCII where it is narrow, else UTF-16, low byte first.
#[unsafe(no_mangle)]
pub extern "C" fn nepuladrim_string(image: &[u8], layout: u8, id: u32, out: &mut [u8]) -> u64
    ensures { Codes (stated layout (λ l. roomed (length out.old) (string_reading l image.now id))) result
        out.old out.new }
{
    hbc::nepuladrim_string(image, layout, id, out)
}

// The bytes of the body of function `id`.
#[unsafe(no_mangle)]
pub extern "C" fn nepuladrim_body(image: &[u8], layout: u8, id: u32, out: &mut [u8]) -> u64
    ensures { Codes (stated layout (λ l. roomed (length out.old) (body_reading l image.now id))) result
        out.old out.new }
{
    hbc::nepuladrim_body(image, layout, id, out)
}

// A part of the listing of an image: from byte `from` on, as much as there is room for. The index is lent,
// and filled anew.
#[unsafe(no_mangle)]
pub extern "C" fn nepuladrim_list(
    image: &[u8],
    layout: u8,
    from: usize,
    index: &mut [u32],
    out: &mut [u8],
) -> u64
    ensures codes { Codes (stated layout (λ l. listing_part (part_room (length out.old)) from l image.now
        (length index.old))) result out.old out.new }
    ensures index_after { index.new ≡ work_by layout (λ l. index_after l image.now index.old)
        index.old }
{
    hbc::nepuladrim_list(image, layout, from, index, out)
}

// Fills an index: three runs of words, with the offset, the length and the flags of each string. Answers how
// many strings there are.
#[unsafe(no_mangle)]
pub extern "C" fn nepuladrim_fill_index(image: &[u8], layout: u8, index: &mut [u32]) -> u64
    ensures value { result ≡ count_stated layout (λ l. filled_as l image.now (length index.old)) }
    ensures index_after { index.new ≡ work_by layout (λ l. index_after l image.now index.old)
        index.old }
{
    hbc::nepuladrim_fill_index(image, layout, index)
}

// What an index for `count` strings holds of string `id`.
#[unsafe(no_mangle)]
pub extern "C" fn nepuladrim_look_up(index: &[u32], count: usize, id: u32, out: &mut [u32]) -> u64
    ensures { Codes (roomed (length out.old) (looked_up (look_up index.now count id))) result out.old
        out.new }
{
    hbc::nepuladrim_look_up(index, count, id, out)
}

// Why a patch of string `id` takes the path that it takes. The index is lent, and filled anew.
#[unsafe(no_mangle)]
pub extern "C" fn nepuladrim_why<'a>(
    image: &'a [u8],
    layout: u8,
    mode: u8,
    id: u32,
    value: &'a [u8],
    index: &mut [u32],
    out: &mut [u32],
) -> u64
    ensures codes { Codes (stated layout (λ l. chosen mode (λ m. roomed (length out.old)
        (reason_words (reason_of m l image.now (length index.old) id value.now))))) result out.old
        out.new }
    ensures index_after { index.new ≡ work_in layout mode (λ l. index_after l image.now index.old)
        index.old }
{
    hbc::nepuladrim_why(image, layout, mode, id, value, index, out)
}

// What is known of an image.
#[unsafe(no_mangle)]
pub extern "C" fn nepuladrim_image_facts(image: &[u8], layout: u8, out: &mut [u64]) -> u64
    ensures { Codes (stated layout (λ l. roomed (length out.old) (image_facts l image.now))) result
        out.old out.new }
{
    hbc::nepuladrim_image_facts(image, layout, out)
}

// What is known of string `id`.
#[unsafe(no_mangle)]
pub extern "C" fn nepuladrim_string_facts(image: &[u8], layout: u8, id: u32, out: &mut [u64]) -> u64
    ensures { Codes (stated layout (λ l. roomed (length out.old) (string_facts l image.now id))) result
        out.old out.new }
{
    hbc::nepuladrim_string_facts(image, layout, id, out)
}

// What is known of the strings from `id` on, of as many as there is room for.
#[unsafe(no_mangle)]
pub extern "C" fn nepuladrim_string_facts_from(
    image: &[u8],
    layout: u8,
    id: u32,
    out: &mut [u64],
) -> u64
    ensures { Codes (stated layout (λ l. string_facts_from (length out.old) l image.now id)) result
        out.old out.new }
{
    hbc::nepuladrim_string_facts_from(image, layout, id, out)
}
