// The relocation that every patch ends in. What it reads is the old image's, what it writes goes to
// the new one: no law about reading what was just written is needed, and no record is read twice.
// Every place and size that it writes fits where it goes, and is not cut: whoever calls it has tested
// that before (refusals 11 and 12).
#![tactic(auto)]

ghost use Rattle.std.specs.Prelude.{◌≡◌, [], ◌∷◌, ◌+◌, ◌-◌, ◌≤◌, ◌<◌, length};
ghost use Rattle.std.proofs.lemmas.List.Edits.{sets};
ghost use Rattle.bits.specs.Words.{whole};
ghost use Rattle.bits.specs.Bytes.{bytes_of};
ghost use Rattle.format.specs.Table.{header_length, record_row, large_row};
ghost use Rattle.format.specs.Record.{pointer, put_pointer};
ghost use Rattle.format.specs.Move.{moved};
ghost use Rattle.footer.specs.Finalize.{size_limit};
ghost use Rattle.image.specs.Sections.{functions_in, record_at};
ghost use Rattle.edits.specs.Fit.{FitsFields, FitsWords};
ghost use Rattle.edits.specs.Edit.{splice, write_all, groups, put_small, pointed, put_header, move_func};
ghost use Rattle.function_table.specs.Functions.{as_func, WordSized};
ghost use Rattle.relocate.specs.Relocate.{moved_place, writes_all, func_for, count_words, debug_word, function_group};
ghost use Rattle.relocate.specs.Relocate.{relocated, around, Copied, Movable};

use bits::Words;
use format::Layout;
use function_table::Function;

// Which patch moves the places: a rebuild of the strings, or that of a body to another size.
#[derive(Clone, Copy)]
pub enum Cause {
    Strings,
    Body { id: usize, size: usize },
}

// What stood at `from` goes to `to`, and all behind it with it.
#[derive(Clone, Copy)]
pub struct Move {
    pub from: usize,
    pub to: usize,
    pub cause: Cause,
}

// ---- a function after the patch

// A function whose places move.
fn moved_function(f: Function, from: usize, to: usize) -> Function
    requires { WordSized f × (to < 4294967296) }
    ensures { as_func result ≡ move_func (moved from to) (as_func f) }
{
    Function {
        ptr: moved_fields::move_place(from, to, f.ptr),
        begin: moved_fields::move_place(from, to, f.begin),
        info: moved_fields::move_place(from, to, f.info),
        ..f
    }
}

// Function `i` after the patch. A patched body stays where it starts and has its new size.
fn function_after(f: Function, m: Move, i: usize) -> Function
    requires { WordSized f × (m.to < 4294967296) }
    ensures { as_func result ≡ func_for (moved_place m) m.cause i (as_func f) }
{
    let moved = moved_function(f, m.from, m.to);
    match m.cause {
        Cause::Body { id, size } if id == i => Function {
            begin: f.begin,
            size,
            ..moved
        },
        _ => moved,
    }
}

// Whether every large pointer is written whole: a body patch writes only those that move.
fn writes_all(m: Move) -> bool
    ensures { result ≡ writes_all m.cause }
{
    matches!(m.cause, Cause::Strings)
}

// ---- its record

// The record of a function without a large header.
fn small_record(words: Words, layout: Layout, f: Function) -> Words
    requires { FitsFields layout (as_func f) }
    ensures { whole result ≡ put_small layout (as_func f) (whole words) }
{
    let begin = f.begin as u64;
    let size = f.size as u64;
    match layout {
        Layout::Modern => {
            let placed = records::with_exact(words, format::MODERN_OFFSET, begin);
            records::with_exact(placed, format::MODERN_SIZE, size)
        }
        Layout::Legacy { .. } => {
            let placed = records::with_exact(words, format::LEGACY_OFFSET, begin);
            let sized = records::with_exact(placed, format::LEGACY_SIZE, size);
            records::with_exact(sized, format::LEGACY_INFO, f.info as u64)
        }
    }
}

// A record with another large pointer.
fn with_pointer(words: Words, layout: Layout, ptr: u64) -> Words
    requires { ptr < 4294967296 }
    ensures { whole result ≡ put_pointer layout ptr (whole words) }
{
    match layout {
        Layout::Modern => records::with_modern_pointer(words, ptr),
        Layout::Legacy { .. } => records::with_legacy_pointer(words, ptr),
    }
}

// The record of a function with a large header: where its pointer `old` stays, the record does too,
// but for a rebuild.
fn large_record(words: Words, layout: Layout, all: bool, old: u64, new: u64) -> Words
    requires value { old ≡ pointer layout (whole words) }
    requires bound { new < 4294967296 }
    ensures { whole result ≡ pointed layout all new (whole words) }
{
    if all || new != old {
        with_pointer(words, layout, new)
    } else {
        words
    }
}

// A record in a slot of its own.
fn store_record(slot: &mut [u8], layout: Layout, words: Words)
    requires { (record_row layout).width ≤ length slot.old }
    ensures { slot.new ≡ sets slot.old 0 (bytes_of (record_row layout).width (whole words)) }
{
    match layout {
        Layout::Modern => bits::store12(slot, words),
        Layout::Legacy { .. } => bits::store16(slot, words),
    }
}

// Function record `i`, which is handed on as its own part of the image.
fn put_record(out: &mut [u8], layout: Layout, i: usize, words: Words)
    requires { (i < size_limit) × (record_at layout i + (record_row layout).width ≤ length out.old) }
    ensures { out.new ≡ sets out.old (record_at layout i) (bytes_of (record_row layout).width (whole words)) }
{
    let at = sections::record_at(layout, i);
    let end = at + format::record_row(layout).width;
    store_record(&mut out[at..end], layout, words);
}

// ---- its large header

// The words of a function's large header.
fn put_header(out: &mut [u8], layout: Layout, f: Function)
    requires layout_in_bounds { f.ptr + (large_row layout).width ≤ length out.old }
    requires fits_words { FitsWords (as_func f) }
    ensures { out.new ≡ write_all (put_header layout (as_func f)) out.old }
{
    let ptr = f.ptr;
    let size = f.size as u64;
    format::put_exact(out, ptr, format::LARGE_OFFSET, f.begin as u64);
    match layout {
        Layout::Modern => format::put_exact(out, ptr, format::MODERN_LARGE_SIZE, size),
        Layout::Legacy { .. } => {
            format::put_exact(out, ptr, format::LEGACY_LARGE_SIZE, size);
            format::put_exact(out, ptr, format::LEGACY_LARGE_INFO, f.info as u64);
        }
    }
}

// Function `i`: its record, and where it has one its large header.
fn relocate_function(out: &mut [u8], image: &[u8], layout: Layout, m: Move, i: usize)
    requires movable { Movable layout image.now m (length out.old) }
    requires i_bound { i < functions_in image.now }
    ensures { out.new ≡ write_all (function_group layout image.now m i) out.old }
{
    let words = function_table::record_of(image, layout, i);
    if !function_table::is_large(words, layout) {
        let f = function_after(function_table::small_function(words, layout), m, i);
        put_record(out, layout, i, small_record(words, layout, f));
        return;
    }
    let ptr = function_table::pointer_of(words, layout);
    let old = function_table::large_function(image, layout, ptr as usize);
    let f = function_after(old, m, i);
    let record = large_record(words, layout, writes_all(m), ptr, f.ptr as u64);
    put_record(out, layout, i, record);
    put_header(out, layout, f);
}

// All functions, each read once.
fn relocate_functions(out: &mut [u8], image: &[u8], layout: Layout, m: Move, n: usize)
    requires movable { Movable layout image.now m (length out.old) }
    requires n_value { n ≡ functions_in image.now }
    ensures { out.new ≡ write_all (groups n (function_group layout image.now m)) out.old }
{
    for i in 0..n {
        relocate_function(out, image, layout, m, i);
    }
}

// ---- the header

// The counts of the header that a rebuild changes.
pub fn put_counts(out: &mut [u8], overflows: usize, storage: usize)
    requires { header_length ≤ length out.old }
    ensures { out.new ≡ write_all (count_words overflows storage) out.old }
{
    format::put_word(out, 0, format::OVERFLOW_COUNT, overflows as u64);
    format::put_word(out, 0, format::STORAGE_SIZE, storage as u64);
}

// The debug offset, moved.
fn put_debug(out: &mut [u8], image: &[u8], layout: Layout, m: Move)
    requires { Movable layout image.now m (length out.old) }
    ensures { out.new ≡ write_all (debug_word layout image.now m ∷ []) out.old }
{
    let debug = moved_fields::move_place(m.from, m.to, sections::debug_of(image, layout));
    bits::put_exact(out, sections::debug_at(layout), debug as u64);
}

// The debug offset, every record and the words of every large header, as they are after the patch.
pub fn relocate(out: &mut [u8], image: &[u8], layout: Layout, m: Move)
    requires { Movable layout image.now m (length out.old) }
    ensures { out.new ≡ relocated layout image.now m out.old }
{
    let n = sections::header_word(image, format::FUNCTION_COUNT);
    put_debug(out, image, layout, m);
    relocate_functions(out, image, layout, m, n);
}

// ---- the bytes

// The bytes before `a` at the front of `out`, those from `b` on at `to`.
pub fn copy_around(out: &mut [u8], image: &[u8], a: usize, b: usize, to: usize)
    requires { Copied a b to (length image.now) (length out.old) }
    ensures { out.new ≡ around a b to image.now out.old }
{
    let end = image.len();
    bits::put_bytes(out, 0, &image[0..a]);
    bits::put_bytes(out, to, &image[b..end]);
}

// The image with new bytes for those from `a` to `b`, in a buffer of its new length.
pub fn put_spliced(out: &mut [u8], image: &[u8], a: usize, b: usize, new: &[u8])
    requires { (a ≤ b) × (b ≤ length image.now) × (length out.old ≡ length image.now - b + (a + length new.now)) }
    ensures { out.new ≡ splice a b new.now image.now }
{
    copy_around(out, image, a, b, a + new.len());
    bits::put_bytes(out, a, new);
}
