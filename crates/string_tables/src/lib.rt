// The tables of strings: kinds, small entries, overflow pairs and storage, as an image has them.
// Here refusals 4 and 5 are judged, each in one pass.
#![tactic(auto)]

ghost use Rattle.std.specs.Prelude.{◌≡◌, true, ◌+◌, ◌*◌, ◌≤◌, ◌<◌, length};
ghost use Rattle.format.specs.Table.{kind_entry, overflow_entry};
ghost use Rattle.format.specs.Number.{entry_at, entry_in};
ghost use Rattle.footer.specs.Finalize.{size_limit};
ghost use Rattle.image.specs.Strings.{is_full, is_wide, size_of};
ghost use Rattle.image.specs.Kinds.{identifier_run, covered, identified};
ghost use Rattle.sections.specs.Places.{Placed};
ghost use Rattle.string_tables.specs.Kinds.{kinds_good};
ghost use Rattle.string_tables.specs.Strings.{as_place, Gives, all_narrow, numbered, stored, entry_good, strings_good};

use sections::Places;

// Where a string stands in storage. The count is of bytes for a narrow string, of 16-bit units for a
// wide one.
#[derive(Clone, Copy)]
pub struct Place {
    pub wide: bool,
    pub at: usize,
    pub count: usize,
}

// A place that was read, and how many overflow pairs are read up to then.
#[derive(Clone, Copy)]
pub struct PlaceRead {
    pub place: Place,
    pub over: usize,
}

// The ids that kinds cover, and the identifiers among them.
#[derive(Clone, Copy)]
pub struct Covered {
    pub strings: u64,
    pub identifiers: u64,
}

// ---- kinds

// How many of the ids that a kind word covers are identifiers.
fn identifier_run(word: u64) -> u64
    ensures { (result ≡ identifier_run word) × (result < 2147483648) }
{
    if format::value(word, format::KIND_IDENTIFIER) == 1 {
        format::value(word, format::KIND_RUN)
    } else {
        0
    }
}

// What `n` kind words cover that stand from `at` on. The sums are exact: a run is below 2^31.
fn covered_by(image: &[u8], at: usize, n: usize) -> Covered
    requires { (entry_at at kind_entry n ≤ length image.now) × (length image.now ≤ size_limit) }
    ensures strings_value { result.strings ≡ covered (entry_in at kind_entry image.now) n }
    ensures identifiers_value { result.identifiers ≡ identified (entry_in at kind_entry image.now) n }
{
    let mut strings: u64 = 0;
    let mut identifiers: u64 = 0;
    for k in 0..n {
        let word = bits::word(image, sections::entry_at(at, k, format::KIND_ENTRY));
        strings += format::value(word, format::KIND_RUN);
        identifiers += identifier_run(word);
    }
    Covered {
        strings,
        identifiers,
    }
}

// Whether no condition of refusal 4 holds.
pub fn are_kinds_good(image: &[u8], p: Places) -> bool
    requires { Placed p image.now }
    ensures { result ≡ kinds_good p.layout image.now }
{
    let found = covered_by(image, p.kinds_at, p.kinds);
    found.strings == p.strings as u64 && found.identifiers == p.identifiers as u64
}

// ---- strings

pub fn is_full(entry: u64) -> bool
    ensures { result ≡ is_full entry }
{
    format::value(entry, format::ENTRY_LENGTH) == format::FULL
}

pub fn is_wide(entry: u64) -> bool
    ensures { result ≡ is_wide entry }
{
    format::value(entry, format::ENTRY_WIDE) == 1
}

// The place that an entry gives, with `k` overflow pairs read before it: that of its own fields, or of
// pair `k` of the overflow table, which starts at `pairs`. A pair is counted where it is read.
pub fn read_place(image: &[u8], pairs: usize, k: usize, entry: u64) -> PlaceRead
    requires pairs_bound { (pairs < 1099511627776) × (k < 4294967296) }
    requires width_in_bounds { is_full entry ≡ true → entry_at pairs overflow_entry k + overflow_entry.width ≤ length image.now }
    ensures { Gives image.now pairs k entry result }
{
    let wide = is_wide(entry);
    if is_full(entry) {
        let pair = sections::entry_at(pairs, k, format::OVERFLOW_ENTRY);
        let at = format::word(image, pair, format::OVERFLOW_OFFSET) as usize;
        let count = format::word(image, pair, format::OVERFLOW_LENGTH) as usize;
        return PlaceRead {
            place: Place { wide, at, count },
            over: k + 1,
        };
    }
    let at = format::value(entry, format::ENTRY_OFFSET) as usize;
    let count = format::value(entry, format::ENTRY_LENGTH) as usize;
    PlaceRead {
        place: Place { wide, at, count },
        over: k,
    }
}

// How many bytes a string has.
pub fn size_of(place: Place) -> usize
    requires { place.count < 4294967296 }
    ensures { (result ≡ size_of (as_place place)) × (place.count ≤ result) × (result ≤ place.count * 2) }
{
    if place.wide {
        place.count * 2
    } else {
        place.count
    }
}

// Whether none of the `n` bytes from `at` on exceeds 0x7F: they are gathered, and tested once.
fn are_narrow(image: &[u8], at: usize, n: usize) -> bool
    requires { at + n ≤ length image.now }
    ensures { result ≡ all_narrow image.now at n }
{
    let mut seen: u8 = 0;
    for byte in &image[at..at + n] {
        seen |= *byte;
    }
    seen <= 0x7F
}

// Whether an overflow entry, with `k` of them before it, has pair `k` and says so. No pair past the
// count is read.
fn is_numbered(entry: u64, k: usize, overflows: usize) -> bool
    ensures { result ≡ numbered overflows k entry }
{
    !is_full(entry) || (k < overflows && format::value(entry, format::ENTRY_OFFSET) == k as u64)
}

// Whether a string lies in storage, and its bytes are narrow if it is.
fn is_stored(image: &[u8], p: Places, place: Place) -> bool
    requires placed { Placed p image.now }
    requires at_bound { (place.at < 4294967296) × (place.count < 4294967296) }
    ensures { result ≡ stored p.layout image.now (as_place place) }
{
    place.at + size_of(place) <= p.storage_size
        && (place.wide || are_narrow(image, p.storage_at + place.at, place.count))
}

// Whether a small entry is good, with `k` overflow entries before it.
fn is_entry_good(image: &[u8], p: Places, k: usize, entry: u64) -> bool
    requires placed { Placed p image.now }
    requires k_bound { k < 4294967296 }
    ensures { result ≡ entry_good p.layout image.now k entry }
{
    is_numbered(entry, k, p.overflows)
        && is_stored(image, p, read_place(image, p.over_at, k, entry).place)
}

// Whether no condition of refusal 5 holds: one pass over the small table, with the count of overflow
// entries carried along.
pub fn are_strings_good(image: &[u8], p: Places) -> bool
    requires { Placed p image.now }
    ensures { result ≡ strings_good p.layout image.now }
{
    let mut k = 0;
    for i in 0..p.strings {
        let entry = bits::word(
            image,
            sections::entry_at(p.small_at, i, format::SMALL_ENTRY),
        );
        if !is_entry_good(image, p, k, entry) {
            return false;
        }
        k += format::if_set(is_full(entry), 1);
    }
    k == p.overflows
}
