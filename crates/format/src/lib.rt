// The layouts of an image, and the one table of the places and widths of its fields.
#![tactic(auto)]

ghost use Rattle.std.specs.Prelude.{◌≡◌, ◌+◌, ◌<◌, ◌≤◌, ◌^◌, length};
ghost use Rattle.std.proofs.lemmas.List.Edits.{sets};
ghost use Rattle.format.specs.Table.{row_of, row_count, header_length, place_in, if_set, record_row, large_row, debug_row};
ghost use Rattle.format.specs.Record.{value_of, with_value};
ghost use Rattle.format.specs.Number.{number_from, bytes_for};
ghost use Rattle.format.specs.Entry.{entry};

// The layout of an image, as its caller states it.
#[derive(Clone, Copy)]
pub enum Layout {
    Modern,
    Legacy {
        big_integers: bool,
        function_sources: bool,
    },
}

// How a rebuild packs strings, as its caller chooses: each where the one before it ends, or a wide one
// at the next even place.
#[derive(Clone, Copy)]
pub enum Mode {
    Plain,
    Even,
}

// Where a field stands, how wide it is, and how much further it stands in a legacy image with big
// integers and in one with function sources.
#[derive(Clone, Copy)]
pub struct Field {
    pub at: usize,
    pub width: usize,
    pub big: usize,
    pub sources: usize,
}

// What the first 8 bytes of every image hold.
pub const MAGIC_NUMBER: u64 = 0x1F1903C103BC1FC6;

// From this offset or this length on a string goes to the overflow table.
pub const FAR: usize = 0x800000;

pub const LONG: usize = 255;

// The length field of a small entry whose place stands in the overflow table.
pub const FULL: u64 = 0xFF;

// The one table. A row is the four numbers of a field as groups of decimal digits, in the order of
// `Field`: 92_04_8_4 stands at 92, is 4 wide, and is pushed by 8 and by 4. A row that is one number
// costs nothing where its name is a constant, in a table of up to 70 rows; so fields with the same four
// numbers may share one. The names of the rows follow below, in the same order.
pub const FIELDS: [usize; 70] = [
    // Header fields of every layout, in bytes.
    0_08_0_0, // magic
    8_04_0_0, // version
    12_20_0_0, // source hash
    32_04_0_0, // file length
    36_04_0_0, // global code index
    40_04_0_0, // function count
    44_04_0_0, // kind count
    48_04_0_0, // identifier count
    52_04_0_0, // string count
    56_04_0_0, // overflow count
    60_04_0_0, // storage size
    // The other fields of a modern header, in bytes.
    64_04_0_0, // modern big int count
    68_04_0_0, // modern big int storage
    72_04_0_0, // modern reg exp count
    76_04_0_0, // modern reg exp storage
    80_04_0_0, // modern literal values
    84_04_0_0, // modern obj keys
    88_04_0_0, // modern obj shapes
    92_04_0_0, // modern string switches
    96_04_0_0, // modern segment id
    100_04_0_0, // modern cjs modules
    104_04_0_0, // modern function sources
    108_04_0_0, // modern debug
    112_04_0_0, // modern options
    // The other fields of a legacy header, in bytes. The first two stand there only with big integers, the
    // function source count only with function sources.
    64_04_0_0, // legacy big int count
    68_04_0_0, // legacy big int storage
    64_04_8_0, // legacy reg exp count
    68_04_8_0, // legacy reg exp storage
    72_04_8_0, // legacy array buffer
    76_04_8_0, // legacy obj keys
    80_04_8_0, // legacy obj values
    84_04_8_0, // legacy segment id
    88_04_8_0, // legacy cjs modules
    92_04_8_0, // legacy function sources
    92_04_8_4, // legacy debug
    96_01_8_4, // legacy options
    // Function records, in bytes: where the first one starts, and the size of each.
    128_12_0_0, // modern record
    128_16_0_0, // legacy record
    // Fields of a legacy record, in bits.
    0_25_0_0, // legacy offset
    25_07_0_0, // legacy params
    32_15_0_0, // legacy size
    47_17_0_0, // legacy name
    64_25_0_0, // legacy info
    89_07_0_0, // legacy frame
    96_08_0_0, // legacy environment
    104_08_0_0, // legacy read cache
    112_08_0_0, // legacy write cache
    120_08_0_0, // legacy flags
    0_16_0_0, // legacy pointer low
    // Fields of a modern record, in bits. Its offset stands where a legacy one does.
    32_14_0_0, // modern size
    88_08_0_0, // modern flags
    0_24_0_0, // modern pointer low
    46_08_0_0, // modern pointer high
    // A bit of a record's flags, 0x20: a large header.
    5_01_0_0, // large flag
    // Fields of a small string entry, in bits.
    0_01_0_0, // entry wide
    1_23_0_0, // entry offset
    24_08_0_0, // entry length
    // Fields of a kind word, in bits.
    0_31_0_0, // kind run
    31_01_0_0, // kind identifier
    // Words of what has several, in bytes from its start.
    0_04_0_0, // first word: kind, hash and small entry, overflow offset, large offset
    4_04_0_0, // second word: overflow length, modern large params
    // An entry of the overflow table, in bytes.
    0_08_0_0, // overflow entry
    // Other fields of a large header, in bytes from its pointer. The legacy size stands at 8, as the version.
    12_04_0_0, // modern large size
    24_04_0_0, // modern large non ptr regs
    28_04_0_0, // modern large frame
    36_01_0_0, // modern large flags
    16_04_0_0, // legacy large info
    // From the pointer on: the words that no other header or body may share, and a whole modern header
    // with zeros to a multiple of 4.
    0_16_0_0, // modern large
    0_20_0_0, // legacy large
    0_40_0_0, // modern large whole
];

pub const MAGIC: usize = 0;

pub const VERSION: usize = 1;

pub const SOURCE_HASH: usize = 2;

pub const FILE_LENGTH: usize = 3;

pub const GLOBAL_CODE_INDEX: usize = 4;

pub const FUNCTION_COUNT: usize = 5;

pub const KIND_COUNT: usize = 6;

pub const IDENTIFIER_COUNT: usize = 7;

pub const STRING_COUNT: usize = 8;

pub const OVERFLOW_COUNT: usize = 9;

pub const STORAGE_SIZE: usize = 10;

pub const MODERN_BIG_INT_COUNT: usize = 11;

pub const MODERN_BIG_INT_STORAGE: usize = 12;

pub const MODERN_REG_EXP_COUNT: usize = 13;

pub const MODERN_REG_EXP_STORAGE: usize = 14;

pub const MODERN_LITERAL_VALUES: usize = 15;

pub const MODERN_OBJ_KEYS: usize = 16;

pub const MODERN_OBJ_SHAPES: usize = 17;

pub const MODERN_STRING_SWITCHES: usize = 18;

pub const MODERN_SEGMENT_ID: usize = 19;

pub const MODERN_CJS_MODULES: usize = 20;

pub const MODERN_FUNCTION_SOURCES: usize = 21;

pub const MODERN_DEBUG: usize = 22;

pub const MODERN_OPTIONS: usize = 23;

pub const LEGACY_BIG_INT_COUNT: usize = 24;

pub const LEGACY_BIG_INT_STORAGE: usize = 25;

pub const LEGACY_REG_EXP_COUNT: usize = 26;

pub const LEGACY_REG_EXP_STORAGE: usize = 27;

pub const LEGACY_ARRAY_BUFFER: usize = 28;

pub const LEGACY_OBJ_KEYS: usize = 29;

pub const LEGACY_OBJ_VALUES: usize = 30;

pub const LEGACY_SEGMENT_ID: usize = 31;

pub const LEGACY_CJS_MODULES: usize = 32;

pub const LEGACY_FUNCTION_SOURCES: usize = 33;

pub const LEGACY_DEBUG: usize = 34;

pub const LEGACY_OPTIONS: usize = 35;

pub const MODERN_RECORD: usize = 36;

pub const LEGACY_RECORD: usize = 37;

pub const LEGACY_OFFSET: usize = 38;

pub const LEGACY_PARAMS: usize = 39;

pub const LEGACY_SIZE: usize = 40;

pub const LEGACY_NAME: usize = 41;

pub const LEGACY_INFO: usize = 42;

pub const LEGACY_FRAME: usize = 43;

pub const LEGACY_ENVIRONMENT: usize = 44;

pub const LEGACY_READ_CACHE: usize = 45;

pub const LEGACY_WRITE_CACHE: usize = 46;

pub const LEGACY_FLAGS: usize = 47;

pub const LEGACY_POINTER_LOW: usize = 48;

pub const MODERN_OFFSET: usize = LEGACY_OFFSET;

pub const MODERN_SIZE: usize = 49;

pub const MODERN_FLAGS: usize = 50;

pub const MODERN_POINTER_LOW: usize = 51;

pub const MODERN_POINTER_HIGH: usize = 52;

pub const LARGE_FLAG: usize = 53;

pub const ENTRY_WIDE: usize = 54;

pub const ENTRY_OFFSET: usize = 55;

pub const ENTRY_LENGTH: usize = 56;

pub const KIND_RUN: usize = 57;

pub const KIND_IDENTIFIER: usize = 58;

pub const FIRST_WORD: usize = 59;

pub const SECOND_WORD: usize = 60;

pub const KIND_ENTRY: usize = FIRST_WORD;

pub const HASH_ENTRY: usize = FIRST_WORD;

pub const SMALL_ENTRY: usize = FIRST_WORD;

pub const OVERFLOW_ENTRY: usize = 61;

pub const OVERFLOW_OFFSET: usize = FIRST_WORD;

pub const OVERFLOW_LENGTH: usize = SECOND_WORD;

pub const LARGE_OFFSET: usize = FIRST_WORD;

pub const MODERN_LARGE_PARAMS: usize = SECOND_WORD;

pub const MODERN_LARGE_SIZE: usize = 62;

pub const MODERN_LARGE_NON_PTR_REGS: usize = 63;

pub const MODERN_LARGE_FRAME: usize = 64;

pub const MODERN_LARGE_FLAGS: usize = 65;

pub const LEGACY_LARGE_SIZE: usize = VERSION;

pub const LEGACY_LARGE_INFO: usize = 66;

pub const MODERN_LARGE: usize = 67;

pub const LEGACY_LARGE: usize = 68;

pub const MODERN_LARGE_WHOLE: usize = 69;

// Constants that are read off the table: the file header ends where the records start.
pub const HEADER_LEN: usize = FIELDS[MODERN_RECORD] / 10000;

pub const SOURCE_HASH_LEN: usize = FIELDS[SOURCE_HASH] / 100 % 100;

pub const FILE_LENGTH_END: usize = FIELDS[FILE_LENGTH] / 10000 + FIELDS[FILE_LENGTH] / 100 % 100;

// A row of the table, by its name: here the table and the definitions are joined, for every row.
pub fn get(k: usize) -> Field
    requires { k < row_count }
    ensures { result ≡ row_of k }
{
    let row = FIELDS[k];
    Field {
        at: row / 10000,
        width: row / 100 % 100,
        big: row / 10 % 10,
        sources: row % 10,
    }
}

// The width of a field, by the name of its row.
pub fn width(k: usize) -> usize
    requires { k < row_count }
    ensures { result ≡ (row_of k).width }
{
    get(k).width
}

// The place of a field that no layout pushes, by the name of its row.
pub fn at(k: usize) -> usize
    requires { k < row_count }
    ensures { result ≡ (row_of k).at }
{
    get(k).at
}

// What a field of a 32-bit word holds, by the name of its row.
pub fn value(word: u64, k: usize) -> u64
    requires k_lt_row_count { k < row_count }
    requires k_bound { (row_of k).at + (row_of k).width ≤ 32 }
    ensures { (result ≡ value_of (row_of k) word) × (result < 2 ^ (row_of k).width) }
{
    let f = get(k);
    bits::field(word, f.at, f.width)
}

// A 32-bit word with the low bits of `v` in a field, by the name of its row.
fn with_value(word: u64, k: usize, v: u64) -> u64
    requires k_lt_row_count { k < row_count }
    requires k_bound { (row_of k).at + (row_of k).width ≤ 32 }
    ensures { result ≡ with_value (row_of k) v word }
{
    let f = get(k);
    bits::with_field(word, f.at, f.width, v)
}

// The small string entry of a width, an offset and a length.
pub fn entry(wide: bool, offset: u64, len: u64) -> u64
    ensures { result ≡ entry wide offset len }
{
    let widened = with_value(0, ENTRY_WIDE, if_set(wide, 1) as u64);
    let offset_put = with_value(widened, ENTRY_OFFSET, offset);
    with_value(offset_put, ENTRY_LENGTH, len)
}

// The word that stands in a field, by the name of its row. The field's place is counted from `from`.
pub fn word(s: &[u8], from: usize, k: usize) -> u64
    requires k_lt_row_count { (k < row_count) × ((row_of k).width ≡ 4) }
    requires k_in_bounds { from + (row_of k).at + (row_of k).width ≤ length s.now }
    ensures { (result ≡ number_from from (row_of k) s.now) × (result < 4294967296) }
{
    bits::word(s, from + at(k))
}

// A word stored in such a field.
pub fn put_word(s: &mut [u8], from: usize, k: usize, x: u64)
    requires k_lt_row_count { (k < row_count) × ((row_of k).width ≡ 4) }
    requires k_in_bounds { from + (row_of k).at + (row_of k).width ≤ length s.old }
    ensures { s.new ≡ sets s.old (from + (row_of k).at) (bytes_for (row_of k) x) }
{
    bits::put_word(s, from + at(k), x);
}

// A number that fits a word, stored in such a field, which then holds all of it.
pub fn put_exact(s: &mut [u8], from: usize, k: usize, x: u64)
    requires k_lt_row_count { (k < row_count) × ((row_of k).width ≡ 4) × (x < 4294967296) }
    requires k_in_bounds { from + (row_of k).at + (row_of k).width ≤ length s.old }
    ensures { (s.new ≡ sets s.old (from + (row_of k).at) (bytes_for (row_of k) x))
        × (number_from from (row_of k) s.new ≡ x) }
{
    bits::put_exact(s, from + at(k), x);
}

// `n` where the fact holds, else 0.
pub fn if_set(fact: bool, n: usize) -> usize
    ensures { (result ≡ if_set fact n) × (result ≤ n) }
{
    if fact { n } else { 0 }
}

// Where a header field stands in an image of a layout.
pub fn place(f: Field, layout: Layout) -> usize
    requires { f.at + f.big + f.sources ≤ header_length }
    ensures { result ≡ place_in layout f }
{
    match layout {
        Layout::Modern => f.at,
        Layout::Legacy {
            big_integers,
            function_sources,
        } => f.at + if_set(big_integers, f.big) + if_set(function_sources, f.sources),
    }
}

// The place of the first function record, and the size of each.
pub fn record_row(layout: Layout) -> Field
    ensures { result ≡ record_row layout }
{
    match layout {
        Layout::Modern => get(MODERN_RECORD),
        Layout::Legacy {
            big_integers: _,
            function_sources: _,
        } => get(LEGACY_RECORD),
    }
}

// The words of a large header.
pub fn large_row(layout: Layout) -> Field
    ensures { result ≡ large_row layout }
{
    match layout {
        Layout::Modern => get(MODERN_LARGE),
        Layout::Legacy {
            big_integers: _,
            function_sources: _,
        } => get(LEGACY_LARGE),
    }
}

// The debug offset's field of the header.
pub fn debug_row(layout: Layout) -> Field
    ensures { result ≡ debug_row layout }
{
    match layout {
        Layout::Modern => get(MODERN_DEBUG),
        Layout::Legacy {
            big_integers: _,
            function_sources: _,
        } => get(LEGACY_DEBUG),
    }
}
