// A function record in two words: its fields by the table, its large pointer, and their shifts.
//
// These are the inner functions of crate header_write; they take what their `requires` say.
#![tactic(auto)]

ghost use Rattle.std.specs.Prelude.{◌≡◌, true, false, ◌<◌, ◌≤◌, ◌^◌};
ghost use Rattle.bits.specs.Words.{whole};
ghost use Rattle.format.specs.declared.Layout.TheVariants.{Modern, Legacy};
ghost use Rattle.format.specs.Table.{row_of};
ghost use Rattle.format.specs.Record.{value_of, with_value, pointer, put_pointer};
ghost use Rattle.records.specs.Sum.{summed};
ghost use Rattle.records.specs.Records.{is_record_row, field_sum, info_sum, packed_low, packed_middle, packed, legacy_fields};
ghost use Rattle.records.specs.Records.{modern_fields, as_edited, shift_small, shift_pointer};

use bits::Words;

// The bits of a large pointer, and of a word that holds a place.
pub const WORD_BITS: usize = 32;

// The fields of a legacy record.
#[derive(Clone, Copy)]
pub struct LegacyFunctionHeader {
    pub offset: u32,
    pub param_count: u32,
    pub bytecode_size: u32,
    pub function_name: u32,
    pub info_offset: u32,
    pub frame_size: u32,
    pub environment_size: u32,
    pub highest_read_cache: u32,
    pub highest_write_cache: u32,
    pub flags: u8,
}

// The fields of a modern record that the port reads.
#[derive(Clone, Copy)]
pub struct ModernFunctionHeader {
    pub offset: u32,
    pub bytecode_size: u32,
    pub flags: u8,
}

// What a field of a record holds.
pub fn value(w: Words, k: usize) -> u64
    requires { is_record_row k ≡ true }
    ensures { (result ≡ value_of (row_of k) (whole w)) × (result < 2 ^ (row_of k).width) × (result < 2 ^ 32) }
{
    let f = format::get(k);
    bits::words_field(w, f.at, f.width)
}

// The record with the low bits of `v` in a field.
pub fn with_value(w: Words, k: usize, v: u64) -> Words
    requires { is_record_row k ≡ true }
    ensures { whole result ≡ with_value (row_of k) v (whole w) }
{
    let f = format::get(k);
    bits::words_with_field(w, f.at, f.width, v)
}

// The record with a number in a field that can hold all of it. Whoever moves a place has tested that
// before: the leaves by their sum, a patch by refusal 12.
pub fn with_exact(w: Words, k: usize, v: u64) -> Words
    requires k_value { is_record_row k ≡ true }
    requires v_bound { v < 2 ^ (row_of k).width }
    ensures { (whole result ≡ with_value (row_of k) v (whole w)) × (value_of (row_of k) (whole result) ≡ v) }
{
    with_value(w, k, v)
}

// A signed delta added to a number, exactly, where the sum is not below 0 and has at most `width` bits.
pub fn add_delta(n: u64, delta: i32, width: usize) -> Option<u64>
    requires { (n < 2 ^ 41) × (width ≤ 32) }
    ensures { result ≡ summed width delta n }
{
    let total = n as i64 + delta as i64;
    if total < 0 {
        return None;
    }
    let sum = total as u64;
    if 1u64 << width <= sum {
        return None; // its place would cut it
    }
    Some(sum)
}

// A delta added to what a field holds.
pub fn field_sum(w: Words, k: usize, delta: i32) -> Option<u64>
    requires { is_record_row k ≡ true }
    ensures { result ≡ field_sum (row_of k) delta (whole w) }
{
    add_delta(value(w, k), delta, format::width(k))
}

// A delta added to a legacy info place, but for 0, which says that there is none.
pub fn info_sum(w: Words, delta: i32) -> Option<u64>
    ensures { result ≡ info_sum delta (whole w) }
{
    if value(w, format::LEGACY_INFO) == 0 {
        return Some(0);
    }
    field_sum(w, format::LEGACY_INFO, delta)
}

// The large pointer of a modern record.
pub fn modern_pointer(w: Words) -> u64
    ensures { (result ≡ pointer Modern (whole w)) × (result < 2 ^ 32) }
{
    let low = value(w, format::MODERN_POINTER_LOW);
    let high = value(w, format::MODERN_POINTER_HIGH);
    bits::join(high, low, format::width(format::MODERN_POINTER_LOW))
}

// The large pointer of a legacy record, as a whole number.
pub fn legacy_pointer(w: Words) -> u64
    ensures { (result ≡ pointer (Legacy false false) (whole w)) × (result < 2 ^ 41) }
{
    let low = value(w, format::LEGACY_POINTER_LOW);
    let high = value(w, format::LEGACY_INFO);
    bits::join(high, low, format::width(format::LEGACY_POINTER_LOW))
}

// A modern record with another large pointer. Bit 24 is no part of it and stays.
pub fn with_modern_pointer(w: Words, p: u64) -> Words
    requires { p < 2 ^ 32 }
    ensures { (whole result ≡ put_pointer Modern p (whole w)) × (pointer Modern (whole result) ≡ p) }
{
    let half = format::width(format::MODERN_POINTER_LOW);
    let low = with_value(w, format::MODERN_POINTER_LOW, p);
    with_value(low, format::MODERN_POINTER_HIGH, p >> half)
}

// A legacy record with another large pointer: its offset and info fields are written whole.
pub fn with_legacy_pointer(w: Words, p: u64) -> Words
    requires { p < 2 ^ 32 }
    ensures { (whole result ≡ put_pointer (Legacy false false) p (whole w)) × (pointer (Legacy false false) (whole result) ≡ p) }
{
    let half = format::width(format::LEGACY_POINTER_LOW);
    let low = with_value(w, format::LEGACY_OFFSET, bits::field(p, 0, half));
    with_value(low, format::LEGACY_INFO, p >> half)
}

// A modern record without a large header, its body offset moved.
pub fn shift_modern_offset(w: Words, delta: i32) -> Option<Words>
    ensures { as_edited result ≡ shift_small Modern delta (whole w) }
{
    let offset = field_sum(w, format::MODERN_OFFSET, delta)?;
    Some(with_exact(w, format::MODERN_OFFSET, offset))
}

// A legacy record without a large header, its body offset moved, and its info place unless that is 0.
// Where either cannot be, neither is.
pub fn shift_legacy_offsets(w: Words, delta: i32) -> Option<Words>
    ensures { as_edited result ≡ shift_small (Legacy false false) delta (whole w) }
{
    let offset = field_sum(w, format::LEGACY_OFFSET, delta)?;
    let placed = with_exact(w, format::LEGACY_OFFSET, offset);
    // No `?`: the edit that lets the offset move alone changes the line that gives it up.
    let Some(info) = info_sum(w, delta) else {
        return None; // the offset's move goes with it
    };
    Some(with_exact(placed, format::LEGACY_INFO, info))
}

// A modern record with a large header, its pointer moved.
pub fn shift_modern_pointer(w: Words, delta: i32) -> Option<Words>
    ensures { as_edited result ≡ shift_pointer Modern delta (whole w) }
{
    let pointer = add_delta(modern_pointer(w), delta, WORD_BITS)?;
    Some(with_modern_pointer(w, pointer))
}

// A legacy record with a large header, its pointer moved: the whole number, not what a reader gives
// modulo 2^32.
pub fn shift_legacy_pointer(w: Words, delta: i32) -> Option<Words>
    ensures { as_edited result ≡ shift_pointer (Legacy false false) delta (whole w) }
{
    let pointer = add_delta(legacy_pointer(w), delta, WORD_BITS)?;
    Some(with_legacy_pointer(w, pointer))
}

// The low word's fields of a legacy record, in a record that is 0 elsewhere.
pub fn pack_low(h: LegacyFunctionHeader) -> Words
    ensures { whole result ≡ packed_low h }
{
    let zero = Words { low: 0, high: 0 };
    let a = with_value(zero, format::LEGACY_OFFSET, h.offset as u64);
    let b = with_value(a, format::LEGACY_PARAMS, h.param_count as u64);
    let c = with_value(b, format::LEGACY_SIZE, h.bytecode_size as u64);
    with_value(c, format::LEGACY_NAME, h.function_name as u64)
}

// Those fields, and the info place, frame and environment beside them.
pub fn pack_middle(h: LegacyFunctionHeader) -> Words
    ensures { whole result ≡ packed_middle h }
{
    let a = with_value(pack_low(h), format::LEGACY_INFO, h.info_offset as u64);
    let b = with_value(a, format::LEGACY_FRAME, h.frame_size as u64);
    with_value(b, format::LEGACY_ENVIRONMENT, h.environment_size as u64)
}

// A legacy record from its fields, each cut to its width.
pub fn pack(h: LegacyFunctionHeader) -> Words
    ensures { whole result ≡ packed h }
{
    let a = with_value(
        pack_middle(h),
        format::LEGACY_READ_CACHE,
        h.highest_read_cache as u64,
    );
    let b = with_value(a, format::LEGACY_WRITE_CACHE, h.highest_write_cache as u64);
    with_value(b, format::LEGACY_FLAGS, h.flags as u64)
}

// The fields of a legacy record.
pub fn legacy_fields(w: Words) -> LegacyFunctionHeader
    ensures { result ≡ legacy_fields (whole w) }
{
    LegacyFunctionHeader {
        offset: value(w, format::LEGACY_OFFSET) as u32,
        param_count: value(w, format::LEGACY_PARAMS) as u32,
        bytecode_size: value(w, format::LEGACY_SIZE) as u32,
        function_name: value(w, format::LEGACY_NAME) as u32,
        info_offset: value(w, format::LEGACY_INFO) as u32,
        frame_size: value(w, format::LEGACY_FRAME) as u32,
        environment_size: value(w, format::LEGACY_ENVIRONMENT) as u32,
        highest_read_cache: value(w, format::LEGACY_READ_CACHE) as u32,
        highest_write_cache: value(w, format::LEGACY_WRITE_CACHE) as u32,
        flags: value(w, format::LEGACY_FLAGS) as u8,
    }
}

// The fields of a modern record that the port reads.
pub fn modern_fields(w: Words) -> ModernFunctionHeader
    ensures { result ≡ modern_fields (whole w) }
{
    ModernFunctionHeader {
        offset: value(w, format::MODERN_OFFSET) as u32,
        bytecode_size: value(w, format::MODERN_SIZE) as u32,
        flags: value(w, format::MODERN_FLAGS) as u8,
    }
}
