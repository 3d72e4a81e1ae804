// Where the sections of an image stand, as its header says. The record of places is derived anew per
// call: nothing here trusts that an image was looked at before.
#![tactic(auto)]

ghost use Rattle.std.specs.Prelude.{◌≡◌, ◌+◌, ◌*◌, ◌≤◌, ◌<◌, length};
ghost use Rattle.format.specs.Table.{row_of, row_count, header_length, place_in, debug_row};
ghost use Rattle.format.specs.Number.{number_held, entry_at};
ghost use Rattle.footer.specs.Footer.{footer_length};
ghost use Rattle.image.specs.Sections.{debug_in, record_at};
ghost use Rattle.sections.specs.Places.{places_of};

use format::Layout;

// The counts of the header, and the start of each section. The records start where the table says.
#[derive(Clone, Copy)]
pub struct Places {
    pub layout: Layout,
    pub functions: usize,
    pub kinds: usize,
    pub identifiers: usize,
    pub strings: usize,
    pub overflows: usize,
    pub storage_size: usize,
    pub kinds_at: usize,
    pub hashes_at: usize,
    pub small_at: usize,
    pub over_at: usize,
    pub storage_at: usize,
    pub tail: usize,
    pub footer: usize,
}

// A word of the header, by the name of its row.
pub fn header_word(image: &[u8], k: usize) -> usize
    requires k_lt_row_count { (k < row_count) × ((row_of k).width ≡ 4) }
    requires k_in_bounds { (row_of k).at + (row_of k).width ≤ length image.now }
    ensures { (result ≡ number_held (row_of k) image.now) × (result < 4294967296) }
{
    format::word(image, 0, k) as usize
}

// Where the debug offset stands.
pub fn debug_at(layout: Layout) -> usize
    ensures { (result ≡ place_in layout (debug_row layout)) × (result + 4 ≤ header_length) }
{
    format::place(format::debug_row(layout), layout)
}

// The debug offset.
pub fn debug_of(image: &[u8], layout: Layout) -> usize
    requires { header_length ≤ length image.now }
    ensures { (result ≡ debug_in layout image.now) × (result < 4294967296) }
{
    bits::word(image, debug_at(layout)) as usize
}

// Where item `i` of `size` bytes starts, the first one starting at `at`.
fn nth_at(at: usize, i: usize, size: usize) -> usize
    requires { (at < 1099511627776) × (i < 4294967296) × (size ≤ 16) }
    ensures { (result ≡ at + i * size) × (result ≤ at + i * 16) }
{
    at + i * size
}

// Where entry `i` starts of a section that starts at `at`; the size of its entries has the row `k`.
// A section of `i` entries ends there.
pub fn entry_at(at: usize, i: usize, k: usize) -> usize
    requires at_bound { (at < 1099511627776) × (i < 4294967296) }
    requires k_lt_row_count { (k < row_count) × ((row_of k).width ≤ 16) }
    ensures { result ≡ entry_at at (row_of k) i }
{
    nth_at(at, i, format::width(k))
}

// Where function record `i` starts.
pub fn record_at(layout: Layout, i: usize) -> usize
    requires { i < 4294967296 }
    ensures { (result ≡ record_at layout i) × (result ≤ header_length + i * 16) }
{
    let row = format::record_row(layout);
    nth_at(row.at, i, row.width)
}

// The places of an image that is long enough for a header and a footer. The sums are exact: a count
// is below 2^32 and an entry has at most 16 bytes.
pub fn places_of(image: &[u8], layout: Layout) -> Places
    requires { header_length + footer_length ≤ length image.now }
    ensures { result ≡ places_of layout image.now }
{
    let functions = header_word(image, format::FUNCTION_COUNT);
    let kinds = header_word(image, format::KIND_COUNT);
    let identifiers = header_word(image, format::IDENTIFIER_COUNT);
    let strings = header_word(image, format::STRING_COUNT);
    let overflows = header_word(image, format::OVERFLOW_COUNT);
    let storage_size = header_word(image, format::STORAGE_SIZE);
    let kinds_at = record_at(layout, functions);
    let hashes_at = entry_at(kinds_at, kinds, format::KIND_ENTRY);
    let small_at = entry_at(hashes_at, identifiers, format::HASH_ENTRY);
    let over_at = entry_at(small_at, strings, format::SMALL_ENTRY);
    let storage_at = entry_at(over_at, overflows, format::OVERFLOW_ENTRY);
    Places {
        layout,
        functions,
        kinds,
        identifiers,
        strings,
        overflows,
        storage_size,
        kinds_at,
        hashes_at,
        small_at,
        over_at,
        storage_at,
        tail: bits::up4(storage_at + storage_size),
        footer: image.len() - footer::FOOTER_LEN,
    }
}
