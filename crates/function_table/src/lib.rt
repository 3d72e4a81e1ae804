// The functions of an image: their records, their large headers and what lies in the tail. Here the
// part of refusal 6 is judged that speaks of one function at a time.
#![tactic(auto)]

ghost use Rattle.std.specs.Prelude.{◌≡◌, true, not, ◌+◌, ◌≤◌, ◌<◌, ◌^◌, eqb, length};
ghost use Rattle.bits.specs.Choice.{implies};
ghost use Rattle.bits.specs.Words.{whole};
ghost use Rattle.bits.specs.Bytes.{number_at};
ghost use Rattle.format.specs.Table.{row_of, row_count, record_row, large_row};
ghost use Rattle.format.specs.Record.{value_of, flags_row, is_large, pointer};
ghost use Rattle.format.specs.Number.{number_from};
ghost use Rattle.footer.specs.Finalize.{size_limit};
ghost use Rattle.image.specs.Sections.{functions_in};
ghost use Rattle.image.specs.Functions.{small, header, record_in, func_of};
ghost use Rattle.image.specs.Admission.{headers_in, debug_in_tail};
ghost use Rattle.sections.specs.Places.{Fits, Placed};
ghost use Rattle.function_table.specs.Functions.{as_func, WordSized, Readable, FoundSized, pointer_judged, function_read};
ghost use Rattle.function_table.specs.Functions.{within, function_in, functions_in_tail};

use bits::Words;
use format::Layout;
use refusals::Refusal;
use sections::Places;

// A function: whether it has a large header, the pointer to that, its body's start and size, and its
// info place; 0 where there is none.
#[derive(Clone, Copy)]
pub struct Function {
    pub large: bool,
    pub ptr: usize,
    pub begin: usize,
    pub size: usize,
    pub info: usize,
}

// ---- records

// The record in a slot of its own, as one number.
fn load_record(slot: &[u8], layout: Layout) -> Words
    requires { (record_row layout).width ≤ length slot.now }
    ensures { whole result ≡ number_at slot.now 0 (record_row layout).width }
{
    match layout {
        Layout::Modern => bits::load12(slot),
        Layout::Legacy { .. } => bits::load16(slot),
    }
}

// Function record `i`, which is handed on as its own part of the image.
pub fn record_of(image: &[u8], layout: Layout, i: usize) -> Words
    requires fits { Fits layout image.now }
    requires i_bound { i < functions_in image.now }
    ensures { whole result ≡ record_in layout image.now i }
{
    let at = sections::record_at(layout, i);
    let end = at + format::record_row(layout).width;
    load_record(&image[at..end], layout)
}

fn flags_of(words: Words, layout: Layout) -> u64
    ensures { result ≡ value_of (flags_row layout) (whole words) }
{
    match layout {
        Layout::Modern => records::value(words, format::MODERN_FLAGS),
        Layout::Legacy { .. } => records::value(words, format::LEGACY_FLAGS),
    }
}

// Whether a record has a large header.
pub fn is_large(words: Words, layout: Layout) -> bool
    ensures { result ≡ is_large layout (whole words) }
{
    format::value(flags_of(words, layout), format::LARGE_FLAG) == 1
}

// The large pointer of a record, as a whole number.
pub fn pointer_of(words: Words, layout: Layout) -> u64
    ensures { (result ≡ pointer layout (whole words)) × (result < 2 ^ 41) }
{
    match layout {
        Layout::Modern => records::modern_pointer(words),
        Layout::Legacy { .. } => records::legacy_pointer(words),
    }
}

// The function of a record without a large header.
pub fn small_function(words: Words, layout: Layout) -> Function
    ensures { (as_func result ≡ small layout (whole words)) × WordSized result }
{
    match layout {
        Layout::Modern => Function {
            large: false,
            ptr: 0,
            begin: records::value(words, format::MODERN_OFFSET) as usize,
            size: records::value(words, format::MODERN_SIZE) as usize,
            info: 0,
        },
        Layout::Legacy { .. } => Function {
            large: false,
            ptr: 0,
            begin: records::value(words, format::LEGACY_OFFSET) as usize,
            size: records::value(words, format::LEGACY_SIZE) as usize,
            info: records::value(words, format::LEGACY_INFO) as usize,
        },
    }
}

// ---- large headers

// A word of the large header at `ptr`, by the name of its row.
fn large_word(image: &[u8], ptr: usize, k: usize) -> usize
    requires k_lt_row_count { (k < row_count) × ((row_of k).width ≡ 4) }
    requires k_in_bounds { ptr + (row_of k).at + (row_of k).width ≤ length image.now }
    ensures { (result ≡ number_from ptr (row_of k) image.now) × (result < 4294967296) }
{
    format::word(image, ptr, k) as usize
}

// The function whose large header stands at `ptr`.
pub fn large_function(image: &[u8], layout: Layout, ptr: usize) -> Function
    requires { (ptr + (large_row layout).width ≤ length image.now) × (length image.now ≤ size_limit) }
    ensures { (as_func result ≡ header layout ptr image.now) × WordSized result }
{
    match layout {
        Layout::Modern => Function {
            large: true,
            ptr,
            begin: large_word(image, ptr, format::LARGE_OFFSET),
            size: large_word(image, ptr, format::MODERN_LARGE_SIZE),
            info: 0,
        },
        Layout::Legacy { .. } => Function {
            large: true,
            ptr,
            begin: large_word(image, ptr, format::LARGE_OFFSET),
            size: large_word(image, ptr, format::LEGACY_LARGE_SIZE),
            info: large_word(image, ptr, format::LEGACY_LARGE_INFO),
        },
    }
}

// Function `i` of an image whose large headers were all judged.
pub fn function_at(image: &[u8], layout: Layout, i: usize) -> Function
    requires readable { Readable layout image.now }
    requires i_bound { i < functions_in image.now }
    ensures { (as_func result ≡ func_of layout image.now i) × WordSized result }
{
    let words = record_of(image, layout, i);
    if is_large(words, layout) {
        large_function(image, layout, pointer_of(words, layout) as usize)
    } else {
        small_function(words, layout)
    }
}

// ---- the tail

// Whether `n` bytes from `at` on stand in the tail and before the footer.
fn is_in_tail(image: &[u8], tail: usize, at: usize, n: usize) -> bool
    requires { (at < 2 ^ 41) × (n < 2 ^ 32) }
    ensures { result ≡ within tail (length image.now) at n }
{
    tail <= at && at + n + footer::FOOTER_LEN <= image.len()
}

// Whether a place is 0 or stands in the tail. It has no width.
fn is_place_in_tail(image: &[u8], tail: usize, at: usize) -> bool
    requires { at < 2 ^ 32 }
    ensures { result ≡ implies (not (eqb at 0)) (within tail (length image.now) at 0) }
{
    at == 0 || is_in_tail(image, tail, at, 0)
}

// The large pointer of a record, judged as a whole number, before any modulo: refused with 6 where
// the words of the header do not stand in the tail.
fn judged_pointer(image: &[u8], p: Places, words: Words) -> Result<u32, Refusal>
    requires { Placed p image.now }
    ensures { result ≡ pointer_judged p.layout image.now (whole words) }
{
    let layout = p.layout;
    let ptr = pointer_of(words, layout) as usize;
    if !is_in_tail(image, p.tail, ptr, format::large_row(layout).width) {
        return Err(refusals::FUNCTION);
    }
    Ok(ptr as u32)
}

// Function `i`. A large header is read only after its place was judged.
fn read_function(image: &[u8], p: Places, i: usize) -> Result<Function, Refusal>
    requires placed { Placed p image.now }
    requires i_bound { i < functions_in image.now }
    ensures { (result ≡ function_read p.layout image.now i) × FoundSized result }
{
    let layout = p.layout;
    let words = record_of(image, layout, i);
    if !is_large(words, layout) {
        return Ok(small_function(words, layout));
    }
    let ptr = judged_pointer(image, p, words)?;
    Ok(large_function(image, layout, ptr as usize))
}

// Whether the large header, the body and the info place of function `i` stand in the tail.
fn is_function_in_tail(image: &[u8], p: Places, i: usize) -> bool
    requires placed { Placed p image.now }
    requires i_bound { i < functions_in image.now }
    ensures { result ≡ function_in p.layout image.now (func_of p.layout image.now i) }
{
    let Ok(f) = read_function(image, p, i) else {
        return false;
    };
    is_in_tail(image, p.tail, f.begin, f.size) && is_place_in_tail(image, p.tail, f.info)
}

// Whether those of every function do.
pub fn are_functions_in_tail(image: &[u8], p: Places) -> bool
    requires { Placed p image.now }
    ensures { result ≡ functions_in_tail p.layout image.now }
{
    for i in 0..p.functions {
        if !is_function_in_tail(image, p, i) {
            return false;
        }
    }
    true
}

// Whether the debug place is 0 or stands in the tail.
pub fn is_debug_in_tail(image: &[u8], p: Places) -> bool
    requires { Placed p image.now }
    ensures { result ≡ debug_in_tail p.layout image.now }
{
    let layout = p.layout;
    is_place_in_tail(image, p.tail, sections::debug_of(image, layout))
}
