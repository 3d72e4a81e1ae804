// The pairs of a translators' file, looked up among the plain strings of an image: each string is hashed
// where it stands, and the chain of its bucket is walked. A string that a pair goes to is marked, and
// each pair that is to be applied must be found. The words stay runs of numbers: they are lent, and there is no heap.
#![tactic(auto)]

ghost use Rattle.std.specs.Prelude.{◌≡◌, not, ℕ, suc, ◌+◌, ◌≤◌, ◌<◌, eqb, length, get_or};
ghost use Rattle.bits.specs.Choice.{implies};
ghost use Rattle.image.specs.Strings.{units_of, string_of};
ghost use Rattle.sections.specs.Places.{Placed, Laid};
ghost use Rattle.string_walk.specs.Places.{Stands};
ghost use Rattle.string_edits.specs.Lists.{Within};
ghost use Rattle.po_targets.specs.Targets.{applied, fits, pair_for, target_of, counted, all_found};
ghost use Rattle.po_targets.specs.Marks.{id_in, str_in, Different, Entered, all_flagged, mark_of, Looked};

use sections::Places;
use string_walk::StringRecord;

// ---- one string

// Whether pair `q` is applied: neither its msgid nor its msgstr is empty.
fn is_applied(text: &[u8], ends: &[u32], q: usize) -> bool
    requires { Within text.now ends.now (q + q) × Within text.now ends.now (suc (q + q)) × (q < 536870913) }
    ensures { result ≡ applied (id_in text.now ends.now q)
        (str_in text.now ends.now q) }
{
    !string_edits::value_at(text, ends, q + q).is_empty()
        && !string_edits::value_at(text, ends, q + q + 1).is_empty()
}

// Whether pair `q` is applied and has the units of string `id`.
fn is_pair(
    image: &[u8],
    p: Places,
    id: usize,
    string: StringRecord,
    text: &[u8],
    ends: &[u32],
    q: usize,
) -> bool
    requires placed { Placed p image.now × Stands p image.now id string }
    requires within { Within text.now ends.now (q + q) × Within text.now ends.now (suc (q + q)) × (q < 536870913) }
    ensures { result ≡ fits (id_in text.now ends.now) (str_in text.now ends.now)
        (units_of (string_of p.layout image.now id)) q }
{
    if !is_applied(text, ends, q) {
        return false;
    }
    let value = string_edits::value_at(text, ends, q + q);
    let count = utf::count_units(value);
    string_find::has_units(image, p, id, string, value, count)
}

// The pair that is applied and has the units of string `id`, if there is one. The `pairs` pairs are in
// the chains of `m` buckets.
fn find_pair(
    image: &[u8],
    p: Places,
    id: usize,
    string: StringRecord,
    text: &[u8],
    ends: &[u32],
    pairs: usize,
    work: &[u32],
    m: usize,
) -> Option<usize>
    requires placed { Placed p image.now × Stands p image.now id string }
    requires entered { Entered text.now ends.now pairs m work.now × (m + m ≤ length work.now) }
    ensures { (counted result ≡ pair_for (id_in text.now ends.now) (str_in text.now ends.now)
        (units_of (string_of p.layout image.now id)) pairs) × (counted result ≤ pairs) }
{
    let place = string.place;
    let bucket = string_find::hash_units(image, string.start, place.wide, place.count) as usize % m;
    let mut c = chains::word_at(work, bucket);
    // Stays a while loop: it follows a chain, and no index is counted.
    while 0 < c {
        if is_pair(image, p, id, string, text, ends, c - 1) {
            return Some(c - 1);
        }
        c = chains::word_at(work, m + (c - 1));
    }
    None
}

// The same, with identifiers left out.
fn target_of(
    image: &[u8],
    p: Places,
    id: usize,
    string: StringRecord,
    text: &[u8],
    ends: &[u32],
    pairs: usize,
    work: &[u32],
    m: usize,
) -> Option<usize>
    requires placed { Placed p image.now × Stands p image.now id string }
    requires entered { Entered text.now ends.now pairs m work.now × (m + m ≤ length work.now) }
    ensures { (counted result ≡ target_of p.layout image.now (id_in text.now ends.now)
        (str_in text.now ends.now) pairs id) × (counted result ≤ pairs) }
{
    let rank = string.rank;
    if string_walk::is_identifier(rank) {
        return None;
    }
    find_pair(image, p, id, string, text, ends, pairs, work, m)
}

// ---- all strings

// The turn of string `id`: where a pair goes to it, the pair is found and the string is marked.
fn mark_string(
    image: &[u8],
    p: Places,
    id: usize,
    string: StringRecord,
    text: &[u8],
    ends: &[u32],
    pairs: usize,
    work: &mut [u32],
    m: usize,
)
    requires placed { Placed p image.now × Stands p image.now id string × (id < p.strings) }
    requires looked { Looked p image.now text.now ends.now pairs m id work.old }
    ensures { Looked p image.now text.now ends.now pairs m (suc id) work.new }
{
    if let Some(q) = target_of(image, p, id, string, text, ends, pairs, work, m) {
        work[m + m + q] = 1;
        work[m + m + m + id] = (q + q + 2) as u32;
    }
}

// All strings in one pass.
fn mark_strings(
    image: &[u8],
    p: Places,
    text: &[u8],
    ends: &[u32],
    pairs: usize,
    work: &mut [u32],
    m: usize,
)
    requires laid { Laid p image.now }
    requires looked { Looked p image.now text.now ends.now pairs m 0 work.old }
    ensures { Looked p image.now text.now ends.now pairs m p.strings work.new }
{
    let mut c = string_walk::first_string();
    for id in 0..p.strings {
        let step = string_walk::string_at(image, p, c);
        mark_string(image, p, id, step.string, text, ends, pairs, work, m);
        c = step.next;
    }
}

// Whether pair `q` has its flag, or is not applied.
fn is_settled(text: &[u8], ends: &[u32], q: usize, flag: usize) -> bool
    requires { Within text.now ends.now (q + q) × Within text.now ends.now (suc (q + q)) × (q < 536870913) }
    ensures { result ≡ implies (applied (id_in text.now ends.now q)
        (str_in text.now ends.now q)) (not (eqb flag 0)) }
{
    !is_applied(text, ends, q) || flag != 0
}

// Whether each pair that is applied was found.
fn are_found(text: &[u8], ends: &[u32], pairs: usize, work: &[u32], m: usize) -> bool
    requires { Entered text.now ends.now pairs m work.now × (m + m + m ≤ length work.now) }
    ensures { result ≡ all_flagged text.now ends.now pairs m work.now }
{
    for q in 0..pairs {
        if !is_settled(text, ends, q, chains::word_at(work, m + m + q)) {
            return false;
        }
    }
    true
}

// Marks each string that a pair goes to, by one more than the number of the value that it gets; whether
// each pair that is applied goes to one. The pairs are in chains already, and the words behind the chains
// are written anew.
pub fn mark(
    image: &[u8],
    p: Places,
    text: &[u8],
    ends: &[u32],
    pairs: usize,
    work: &mut [u32],
    m: usize,
) -> bool
    requires laid { Laid p image.now }
    requires entered { Entered text.now ends.now pairs m work.old × (length work.old ≡ m + m + m + p.strings) }
    requires different { Different text.now ends.now pairs }
    ensures value { result ≡ all_found p.layout image.now (id_in text.now ends.now)
        (str_in text.now ends.now) pairs }
    ensures by_index { (i : ℕ) → i < p.strings → get_or work.new (m + m + m + i) 0 ≡ mark_of (target_of p.layout
        image.now (id_in text.now ends.now) (str_in text.now ends.now) pairs i) }
{
    chains::clear(work, m + m, m + p.strings);
    mark_strings(image, p, text, ends, pairs, work, m);
    are_found(text, ends, pairs, work, m)
}
