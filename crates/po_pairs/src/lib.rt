// The reader of a translators' file: the order of its lines, its values in lent room, and its pairs
// in chains by their msgids, so that a msgid given twice is found as it is entered.
#![tactic(auto)]

ghost use Rattle.std.specs.Prelude.{◌≡◌, true, ◌+◌, ◌/◌, ◌≤◌, ◌<◌, length};
ghost use Rattle.footer.specs.Footer.{same};
ghost use Rattle.string_edits.specs.Lists.{value_in, Within};
ghost use Rattle.po_lines.specs.Kinds.{opens_value, continues_value};
ghost use Rattle.po_pairs.specs.Order.{follow as Order·follow, ends_well, is_astray};
ghost use Rattle.po_pairs.specs.Pairs.{is_new, all_new, read_file};
ghost use Rattle.po_pairs.specs.Held.{ends_after, count_after, Roomy, ReadTo, Turned, HeldAs, bucket_in, ChainedPairs, ReadAs};
ghost use Rattle.po_pairs.specs.Held.{AllWithin, id_in, pairs_or};

use po_lines::Kind;

// Where the lines of a file stand: between two pairs, in a msgid or a msgstr that lines may continue,
// or outside the subset.
#[derive(Clone, Copy)]
pub enum Stand {
    Between,
    InId,
    InStr,
    Astray,
}

// ---- The order of lines.

// Where the lines stand after one more.
fn follow(stand: Stand, kind: Kind) -> Stand
    ensures { result ≡ Order·follow stand kind }
{
    match (stand, kind) {
        (Stand::Between | Stand::InStr, Kind::Blank) => Stand::Between,
        (Stand::Between | Stand::InStr, Kind::Msgid) => Stand::InId,
        (Stand::InId, Kind::More) => Stand::InId,
        (Stand::InId, Kind::Msgstr) => Stand::InStr,
        (Stand::InStr, Kind::More) => Stand::InStr,
        _ => Stand::Astray,
    }
}

fn ends_well(stand: Stand) -> bool
    ensures { result ≡ ends_well stand }
{
    matches!(stand, Stand::Between | Stand::InStr)
}

fn is_astray(stand: Stand) -> bool
    ensures { result ≡ is_astray stand }
{
    matches!(stand, Stand::Astray)
}

// ---- Values.

// How far a file is read: where its lines stand, how many values they opened, where the last of these
// ends in the text, and where the next line starts.
#[derive(Clone, Copy)]
pub struct Reached {
    pub stand: Stand,
    pub values: usize,
    pub to: usize,
    pub at: usize,
}

// Stores where the last value ends after a line: a line that opens a value, or continues the last.
// Answers how many values there are.
fn put_end(ends: &mut [u32], n: usize, kind: Kind, to: usize) -> usize
    requires to_bound { (to < 4294967296) × (n ≤ length ends.old) }
    requires n_in_bounds { (opens_value kind ≡ true → n < length ends.old) × (continues_value kind ≡ true → 0 < n) }
    ensures { (result ≡ count_after n kind) × (ends.new ≡ ends_after ends.old n kind to) }
{
    match kind {
        Kind::Msgid | Kind::Msgstr => {
            ends[n] = to as u32;
            n + 1
        }
        Kind::More => {
            ends[n - 1] = to as u32;
            n
        }
        Kind::Blank | Kind::Outside => n,
    }
}

// The same place, with the lines outside the subset.
fn astray(p: Reached) -> Reached
    ensures { is_astray result.stand ≡ true }
{
    Reached {
        stand: Stand::Astray,
        ..p
    }
}

// One more line.
fn take_turn(text: &mut [u8], ends: &mut [u32], file: &[u8], p: Reached) -> Reached
    requires { Roomy file.now text.old ends.old × ReadTo file.now text.old ends.old p × (p.at < length file.now) }
    ensures { Turned file.now text.new ends.new p result }
{
    let Some(line) = po_lines::take_line(text, p.to, file, p.at) else {
        return astray(p);
    };
    let stand = follow(p.stand, line.kind);
    if is_astray(stand) {
        return astray(p);
    }
    let values = put_end(ends, p.values, line.kind, line.to);
    Reached {
        stand,
        values,
        to: line.to,
        at: line.next,
    }
}

// The values of a file, one behind the other in `text`, and where each ends: how many. None where the
// lines are outside the subset.
fn read_values(file: &[u8], text: &mut [u8], ends: &mut [u32]) -> Option<usize>
    requires { Roomy file.now text.old ends.old }
    ensures { HeldAs file.now text.new ends.new result }
{
    let mut p = Reached {
        stand: Stand::Between,
        values: 0,
        to: 0,
        at: 0,
    };
    // Stays a while loop: it goes on by as many bytes as a line has, and no index is counted.
    while p.at < file.len() {
        p = take_turn(text, ends, file, p);
        if is_astray(p.stand) {
            return None;
        }
    }
    if ends_well(p.stand) {
        Some(p.values)
    } else {
        None
    }
}

// ---- Pairs.

// Whether values `i` and `j` are the same.
fn same_values(text: &[u8], ends: &[u32], i: usize, j: usize) -> bool
    requires { Within text.now ends.now i × Within text.now ends.now j }
    ensures { result ≡ same (value_in text.now ends.now i)
        (value_in text.now ends.now j) }
{
    let a = string_edits::value_at(text, ends, i);
    let b = string_edits::value_at(text, ends, j);
    a.len() == b.len() && footer::same_bytes(a, b)
}

// The bucket, of `m`, of msgid `q`.
fn bucket_of(text: &[u8], ends: &[u32], m: usize, q: usize) -> usize
    requires { Within text.now ends.now (q + q) × (0 < m) × (q + q < 4294967296) }
    ensures { (result ≡ bucket_in text.now ends.now m q) × (result < m) }
{
    utf::hash_value(string_edits::value_at(text, ends, q + q)) as usize % m
}

// Whether no msgid before number `q` is the same as that one, by the chain of its bucket.
fn is_new(text: &[u8], ends: &[u32], work: &[u32], m: usize, q: usize, bucket: usize) -> bool
    requires all_within { AllWithin text.now ends.now (q + q + 1) × (q < m) × (m + m ≤ length work.now) × (m < 4294967296) }
    requires bucket_value { (bucket ≡ bucket_in text.now ends.now m q) × (bucket < m)
        × ChainedPairs text.now ends.now m q work.now }
    ensures { result ≡ is_new (id_in text.now ends.now) q }
{
    let mut c = chains::word_at(work, bucket);
    // Stays a while loop: it follows a chain, and no index is counted.
    while 0 < c {
        let j = c - 1;
        if same_values(text, ends, j + j, q + q) {
            return false;
        }
        c = chains::word_at(work, m + j);
    }
    true
}

// Enters `pairs` pairs into chains of `m` buckets; whether no msgid is given twice.
fn enter_all(text: &[u8], ends: &[u32], work: &mut [u32], m: usize, pairs: usize) -> bool
    requires all_within { AllWithin text.now ends.now (pairs + pairs) × (pairs ≤ m) × (m + m ≤ length work.old) × (0 < m)
        × (m < 2147483648) }
    requires chained_pairs { ChainedPairs text.now ends.now m 0 work.old }
    ensures value { result ≡ all_new (id_in text.now ends.now) pairs }
    ensures chained_pairs_2 { result ≡ true → ChainedPairs text.now ends.now m pairs work.new }
{
    for q in 0..pairs {
        let bucket = bucket_of(text, ends, m, q);
        if !is_new(text, ends, work, m, q, bucket) {
            return false;
        }
        chains::enter(work, m, q, bucket);
    }
    true
}

// The pairs of values that stand in a text, entered into chains with a bucket for each word of `ends`:
// how many. None where a msgid is given twice.
fn pair_up(text: &[u8], ends: &[u32], work: &mut [u32], values: usize) -> Option<usize>
    requires all_within { AllWithin text.now ends.now values × (values ≤ length ends.now) × (length ends.now < 2147483648) }
    requires ends_nonzero { (0 < length ends.now) × (length ends.now + length ends.now ≤ length work.old) }
    ensures value { result ≡ pairs_or (all_new (id_in text.now ends.now) (values / 2)) (values / 2) }
    ensures chained_pairs { result ≡ Some (values / 2)
        → ChainedPairs text.now ends.now (length ends.now) (values / 2) work.new }
{
    chains::clear(work, 0, ends.len());
    if enter_all(text, ends, work, ends.len(), values / 2) {
        Some(values / 2)
    } else {
        None
    }
}

// The pairs of a file: msgid, msgstr, msgid, msgstr, .. one behind the other in `text`, where each
// ends in `ends`, and all of them in chains by their msgids, with a bucket for each word of `ends`.
// Answers how many pairs there are. None where the file is outside the subset.
pub fn read_pairs(file: &[u8], text: &mut [u8], ends: &mut [u32], work: &mut [u32]) -> Option<usize>
    requires { Roomy file.now text.old ends.old × (length ends.old + length ends.old ≤ length work.old) }
    ensures { ReadAs (read_file file.now) result text.new ends.new work.new }
{
    if !utf::is_utf8(file) || !po_lines::is_ended(file) {
        return None;
    }
    let values = read_values(file, text, ends)?;
    pair_up(text, ends, work, values)
}
