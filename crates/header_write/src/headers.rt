// The file headers, field by field at the places of the table.
ghost use Rattle.std.specs.Prelude.{◌≡◌, true, [], ◌∷◌, ◌+◌, ◌≤◌, length};
ghost use Rattle.format.specs.Table.{row_count, header_length, source_hash_row, legacy_options};
ghost use Rattle.header_write.specs.Slots.{Writes};
ghost use Rattle.header_write.specs.Headers.{put_all, put, optional, run, header_words, identity, on_header, modern_header};
ghost use Rattle.header_write.specs.Headers.{segment_of, legacy_front, legacy_back, legacy_header};

use format::Layout;
use refusals::Refusal;

// The fields of a legacy header. Big integers and function sources are there only where the version
// has them; where it has no segment id, 0 stands in its place.
#[derive(Clone, Copy)]
pub struct LegacyHeader {
    pub version: u32,
    pub source_hash: [u8; format::SOURCE_HASH_LEN],
    pub file_length: u32,
    pub global_code_index: u32,
    pub function_count: u32,
    pub string_kind_count: u32,
    pub identifier_count: u32,
    pub string_count: u32,
    pub overflow_string_count: u32,
    pub string_storage_size: u32,
    pub has_bigint: bool,
    pub big_int_count: u32,
    pub big_int_storage_size: u32,
    pub reg_exp_count: u32,
    pub reg_exp_storage_size: u32,
    pub array_buffer_size: u32,
    pub obj_key_buffer_size: u32,
    pub obj_value_buffer_size: u32,
    pub has_segment_id: bool,
    pub segment_id: u32,
    pub cjs_module_count: u32,
    pub has_function_source: bool,
    pub function_source_count: u32,
    pub debug_info_offset: u32,
    pub options: u8,
}

// A run of header words, `values[i]` in the field of row `first + i`.
fn put_rows(buf: &mut [u8], layout: Layout, first: usize, values: &[u32])
    requires header_length_in_bounds { header_length ≤ length buf.old }
    requires values_bound { first + length values.now ≤ row_count }
    requires values_value { header_words first (length values.now) ≡ true }
    ensures { buf.new ≡ put_all layout (run first values.now) buf.old }
{
    for (i, value) in values.iter().enumerate() {
        let at = format::place(format::get(first + i), layout);
        bits::put_word(buf, at, *value as u64);
    }
}

// The same where the fact holds, else nothing.
fn put_rows_if(fact: bool, buf: &mut [u8], layout: Layout, first: usize, values: &[u32])
    requires header_length_in_bounds { header_length ≤ length buf.old }
    requires values_bound { first + length values.now ≤ row_count }
    requires values_value { header_words first (length values.now) ≡ true }
    ensures { buf.new ≡ put_all layout (optional fact (run first values.now)) buf.old }
{
    if fact {
        put_rows(buf, layout, first, values);
    }
}

// The magic number, the version and the source hash.
fn put_identity(buf: &mut [u8], version: u32, source_hash: [u8; format::SOURCE_HASH_LEN])
    requires header_length_in_bounds { header_length ≤ length buf.old }
    requires source_hash_len { length source_hash ≡ source_hash_row.width }
    ensures { buf.new ≡ identity version source_hash buf.old }
{
    bits::put_word64(buf, format::at(format::MAGIC), format::MAGIC_NUMBER);
    format::put_word(buf, 0, format::VERSION, version as u64);
    bits::put_bytes(buf, format::at(format::SOURCE_HASH), &source_hash);
}

// A modern header. The file length and the word behind it are not written, nor what follows the
// options word: a builder fills them.
pub fn write_modern_header(
    buf: &mut [u8],
    version: u32,
    source_hash: [u8; format::SOURCE_HASH_LEN],
    function_count: u32,
    string_kind_count: u32,
    identifier_count: u32,
    string_count: u32,
    string_storage_size: u32,
) -> Result<(), Refusal>
    ensures { Writes (on_header
        (modern_header version source_hash function_count string_kind_count identifier_count string_count
        string_storage_size) buf.old) result buf.old buf.new }
{
    if buf.len() < format::at(format::MODERN_RECORD) {
        return Err(refusals::SIZE);
    }
    put_identity(buf, version, source_hash);
    let counts = [
        function_count,
        string_kind_count,
        identifier_count,
        string_count,
        0,
        string_storage_size,
    ];
    put_rows(buf, Layout::Modern, format::FUNCTION_COUNT, &counts);
    // Empty sections, no debug info and no options.
    let rest = [0u32; 13];
    put_rows(buf, Layout::Modern, format::MODERN_BIG_INT_COUNT, &rest);
    Ok(())
}

// The options byte, the last field of a legacy header.
fn put_options(buf: &mut [u8], layout: Layout, options: u8)
    requires { header_length ≤ length buf.old }
    ensures { buf.new ≡ put_all layout (put legacy_options options ∷ []) buf.old }
{
    let at = format::place(format::get(format::LEGACY_OPTIONS), layout);
    buf[at] = options;
}

// The segment's id, or 0 where the version has none: the field is the module offset then.
fn segment(h: LegacyHeader) -> u32
    ensures { result ≡ segment_of h }
{
    if h.has_segment_id { h.segment_id } else { 0 }
}

// The counts of a legacy header, and those of big integers where its version has them.
fn put_legacy_front(buf: &mut [u8], layout: Layout, h: LegacyHeader)
    requires { header_length ≤ length buf.old }
    ensures { buf.new ≡ put_all layout (legacy_front h) buf.old }
{
    let counts = [
        h.file_length,
        h.global_code_index,
        h.function_count,
        h.string_kind_count,
        h.identifier_count,
        h.string_count,
        h.overflow_string_count,
        h.string_storage_size,
    ];
    put_rows(buf, layout, format::FILE_LENGTH, &counts);
    let big = [h.big_int_count, h.big_int_storage_size];
    put_rows_if(
        h.has_bigint,
        buf,
        layout,
        format::LEGACY_BIG_INT_COUNT,
        &big,
    );
}

// The fields behind those, down to the options byte.
fn put_legacy_back(buf: &mut [u8], layout: Layout, h: LegacyHeader)
    requires { header_length ≤ length buf.old }
    ensures { buf.new ≡ put_all layout (legacy_back h) buf.old }
{
    let sections = [
        h.reg_exp_count,
        h.reg_exp_storage_size,
        h.array_buffer_size,
        h.obj_key_buffer_size,
        h.obj_value_buffer_size,
        segment(h),
        h.cjs_module_count,
    ];
    put_rows(buf, layout, format::LEGACY_REG_EXP_COUNT, &sections);
    let sources = [h.function_source_count];
    put_rows_if(
        h.has_function_source,
        buf,
        layout,
        format::LEGACY_FUNCTION_SOURCES,
        &sources,
    );
    put_rows(buf, layout, format::LEGACY_DEBUG, &[h.debug_info_offset]);
    put_options(buf, layout, h.options);
}

// A legacy header. What follows the options byte is not written.
pub fn write_legacy_header(buf: &mut [u8], header: LegacyHeader) -> Result<(), Refusal>
    ensures { Writes (on_header (legacy_header header) buf.old) result buf.old buf.new }
{
    if buf.len() < format::at(format::LEGACY_RECORD) {
        return Err(refusals::SIZE);
    }
    let source_hash = header.source_hash;
    put_identity(buf, header.version, source_hash);
    let layout = Layout::Legacy {
        big_integers: header.has_bigint,
        function_sources: header.has_function_source,
    };
    put_legacy_front(buf, layout, header);
    put_legacy_back(buf, layout, header);
    Ok(())
}
