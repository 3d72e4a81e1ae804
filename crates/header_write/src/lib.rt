// Function records and file headers in a lent buffer: a port of the Rust's header_write.rs.
//
// A record is a number of 96 or 128 bits, held in two 64-bit words. Each leaf loads it from its
// slot, edits fields that the table of crate format places, and stores it. No leaf relies on a check
// by its caller: a slot, word or header buffer that is too short is refused with number 1, and a
// shift whose sum is below 0 or has more bits than its place with 12; the buffer stays as it is.
#![tactic(auto)]

pub mod headers;

ghost use Rattle.std.specs.Prelude.{◌≡◌, false};
ghost use Rattle.bits.specs.Bytes.{bytes_of};
ghost use Rattle.format.specs.Table.{modern_record, legacy_record};
ghost use Rattle.format.specs.declared.Layout.TheVariants.{Modern, Legacy};
ghost use Rattle.records.specs.Records.{shift_small, shift_pointer, put_offset_size, packed};
ghost use Rattle.header_write.specs.Slots.{Writes, on_slot, read_legacy, read_modern, read_legacy_pointer, read_modern_pointer, shift_word};

use records::{LegacyFunctionHeader, ModernFunctionHeader};
use refusals::Refusal;

// Every field of the legacy record in a slot.
pub fn read_legacy_function_header(slot: &[u8]) -> Result<LegacyFunctionHeader, Refusal>
    ensures { result ≡ read_legacy slot.now }
{
    if slot.len() < format::width(format::LEGACY_RECORD) {
        return Err(refusals::SIZE);
    }
    Ok(records::legacy_fields(bits::load16(slot)))
}

// Every field of the modern record in a slot.
pub fn read_modern_function_header(slot: &[u8]) -> Result<ModernFunctionHeader, Refusal>
    ensures { result ≡ read_modern slot.now }
{
    if slot.len() < format::width(format::MODERN_RECORD) {
        return Err(refusals::SIZE);
    }
    Ok(records::modern_fields(bits::load12(slot)))
}

// A legacy record from its fields, each cut to its width.
pub fn write_function_header_legacy_small(header: LegacyFunctionHeader) -> [u8; 16]
    ensures { result ≡ bytes_of legacy_record.width (packed header) }
{
    let mut slot = [0u8; 16];
    bits::store16(&mut slot, records::pack(header));
    slot
}

// A legacy record's body offset and size, each cut to its field.
pub fn patch_legacy_small_header_offset_size(
    slot: &mut [u8],
    offset: u32,
    size: u32,
) -> Result<(), Refusal>
    ensures { Writes (on_slot legacy_record.width (put_offset_size offset size) slot.old) result slot.old
        slot.new }
{
    if slot.len() < format::width(format::LEGACY_RECORD) {
        return Err(refusals::SIZE);
    }
    let placed = records::with_value(bits::load16(slot), format::LEGACY_OFFSET, offset as u64);
    let sized = records::with_value(placed, format::LEGACY_SIZE, size as u64);
    bits::store16(slot, sized);
    Ok(())
}

// The body offset of a modern record without a large header, moved.
pub fn shift_modern_small_header_offset(slot: &mut [u8], delta: i32) -> Result<(), Refusal>
    ensures { Writes (on_slot modern_record.width (shift_small Modern delta) slot.old) result slot.old
        slot.new }
{
    if slot.len() < format::width(format::MODERN_RECORD) {
        return Err(refusals::SIZE);
    }
    let words = records::shift_modern_offset(bits::load12(slot), delta).ok_or(refusals::FIELD)?;
    bits::store12(slot, words);
    Ok(())
}

// The body offset of a legacy record without a large header, moved, and its info place unless that
// is 0. Both sums are judged before either is written.
pub fn shift_legacy_small_header_offsets(slot: &mut [u8], delta: i32) -> Result<(), Refusal>
    ensures { Writes (on_slot legacy_record.width (shift_small (Legacy false false) delta) slot.old) result
        slot.old slot.new }
{
    if slot.len() < format::width(format::LEGACY_RECORD) {
        return Err(refusals::SIZE);
    }
    let words = records::shift_legacy_offsets(bits::load16(slot), delta).ok_or(refusals::FIELD)?;
    bits::store16(slot, words);
    Ok(())
}

// The large pointer of a legacy record, modulo 2^32.
pub fn read_legacy_large_pointer(slot: &[u8]) -> Result<u32, Refusal>
    ensures { result ≡ read_legacy_pointer slot.now }
{
    if slot.len() < format::width(format::LEGACY_RECORD) {
        return Err(refusals::SIZE);
    }
    let whole = records::legacy_pointer(bits::load16(slot));
    Ok((whole % 4294967296) as u32)
}

// The large pointer of a legacy record, moved. It is the whole number of its 16 and 25 bits; of the
// sum, 16 bits go into the offset field, whose upper bits become 0, and the rest into the info field.
pub fn shift_legacy_large_pointer(slot: &mut [u8], delta: i32) -> Result<(), Refusal>
    ensures { Writes (on_slot legacy_record.width (shift_pointer (Legacy false false) delta) slot.old) result
        slot.old slot.new }
{
    if slot.len() < format::width(format::LEGACY_RECORD) {
        return Err(refusals::SIZE);
    }
    let words = records::shift_legacy_pointer(bits::load16(slot), delta).ok_or(refusals::FIELD)?;
    bits::store16(slot, words);
    Ok(())
}

// The large pointer of a modern record.
pub fn read_modern_large_pointer(slot: &[u8]) -> Result<u32, Refusal>
    ensures { result ≡ read_modern_pointer slot.now }
{
    if slot.len() < format::width(format::MODERN_RECORD) {
        return Err(refusals::SIZE);
    }
    Ok(records::modern_pointer(bits::load12(slot)) as u32)
}

// The large pointer of a modern record, moved. Bit 24 is no part of it and stays.
pub fn shift_modern_large_pointer(slot: &mut [u8], delta: i32) -> Result<(), Refusal>
    ensures { Writes (on_slot modern_record.width (shift_pointer Modern delta) slot.old) result slot.old
        slot.new }
{
    if slot.len() < format::width(format::MODERN_RECORD) {
        return Err(refusals::SIZE);
    }
    let words = records::shift_modern_pointer(bits::load12(slot), delta).ok_or(refusals::FIELD)?;
    bits::store12(slot, words);
    Ok(())
}

// The word at a position, moved. The position may be any number: what is left of the buffer behind
// it is compared with 4, so that no sum wraps.
pub fn shift_u32_at(buf: &mut [u8], pos: usize, delta: i32) -> Result<(), Refusal>
    ensures { Writes (shift_word pos delta buf.old) result buf.old buf.new }
{
    if buf.len() < pos {
        return Err(refusals::SIZE); // the position lies past the end
    }
    if buf.len() - pos < 4 {
        return Err(refusals::SIZE); // the word is cut off
    }
    let word = records::add_delta(bits::word(buf, pos), delta, records::WORD_BITS).ok_or(
        refusals::FIELD,
    )?;
    bits::put_exact(buf, pos, word);
    Ok(())
}
