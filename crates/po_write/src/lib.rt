// A translators' file of the plain strings of an image (02, No. 1): one pair for each value that a file
// can have, in id order. Equal values are found by chains over their hashes in lent words, so that the
// work grows with the strings; nothing is written before the whole length is known. The words stay runs of numbers:
// they are lent, and there is no heap.
#![tactic(auto)]

ghost use Rattle.std.specs.Prelude.{◌≡◌, true, ◌+◌, ◌*◌, ◌≤◌, ◌<◌, length, replicate};
ghost use Rattle.std.proofs.lemmas.List.Edits.{sets};
ghost use Rattle.bits.specs.Outcome.{made, Answers, roomed};
ghost use Rattle.text.specs.Text.{Wrote};
ghost use Rattle.utf.specs.Utf16.{is_utf16, utf8_of};
ghost use Rattle.po_text.specs.Written.{entry_of};
ghost use Rattle.sections.specs.Places.{Laid};
ghost use Rattle.string_walk.specs.Places.{Stands};
ghost use Rattle.po_strings.specs.Texts.{Inside, units_in};
ghost use Rattle.po_write.specs.Strings.{is_first};
ghost use Rattle.po_write.specs.File.{file_at, room_for, po_of, write_po, work_after};
ghost use Rattle.po_write.specs.Work.{text_at, Filled, kept_text, Sought};

use format::Layout;
use po_strings::Text;
use refusals::Refusal;
use sections::Places;
use string_walk::StringRecord;

// The bytes of a pair around its value.
const FRAME: usize = 20;

// An answer tells a length below 2^32.
const LONGEST: usize = 4294967295;

// ---- words of the work space: heads, links, starts, shapes, `n` of each

// The text that is kept of string `j`.
fn text_at(work: &[u32], n: usize, j: usize) -> Text
    requires { (length work.now ≡ 4 * n) × (n < 4294967296) × (j < n) }
    ensures { result ≡ text_at work.now n j }
{
    let shape = chains::word_at(work, n + n + n + j);
    Text {
        start: chains::word_at(work, n + n + j),
        wide: shape % 2 == 1,
        count: shape / 2,
    }
}

// The text of string `k` is kept, and the string enters a bucket.
fn keep(work: &mut [u32], n: usize, k: usize, bucket: usize, t: Text)
    requires work_len { (length work.old ≡ 4 * n) × (n < 4294967296) × (k < n) × (bucket < n) }
    requires start_bound { (t.start ≤ 67108864) × (t.count ≤ 67108864) }
    ensures { work.new ≡ kept_text work.old n k bucket t }
{
    chains::enter(work, n, k, bucket);
    work[n + n + k] = t.start as u32;
    work[n + n + n + k] = (t.count * 2 + format::if_set(t.wide, 1)) as u32;
}

// ---- the strings, one by one

// Whether no plain string of a lower id has the value of string `id`, by the chain of its bucket. It is kept apart from its
// caller, where each step along a chain would read two words from the stack again: a twelfth more instructions.
#[inline(never)]
fn is_first(image: &[u8], p: Places, work: &[u32], id: usize, bucket: usize, t: Text) -> bool
    requires { Sought p image.now work.now id bucket t }
    ensures { result ≡ is_first p.layout image.now id }
{
    let mut c = chains::word_at(work, bucket);
    // Stays a while loop: it follows a chain, and no index is counted.
    while 0 < c {
        let other = text_at(work, p.strings, c - 1);
        if po_strings::have_same_units(image, other, t) {
            return false;
        }
        c = chains::word_at(work, p.strings + (c - 1));
    }
    true
}

// String `id` is kept, if it is to be written. Answers the length of its pair, 0 where it has none.
fn take_turn(image: &[u8], p: Places, id: usize, string: StringRecord, work: &mut [u32]) -> usize
    requires laid { Laid p image.now × (id < p.strings) × Stands p image.now id string }
    requires filled { Filled p.layout image.now p.strings id work.old }
    ensures { (result ≡ length (file_at p.layout image.now id)) × (result ≤ 268435476)
        × Filled p.layout image.now p.strings (id + 1) work.new }
{
    let rank = string.rank;
    if string_walk::is_identifier(rank) {
        return 0;
    }
    let t = po_strings::text_of(string);
    if !po_strings::is_held(image, t) {
        return 0;
    }
    let bucket = po_strings::hash_units(image, t) as usize % p.strings;
    if !is_first(image, p, work, id, bucket, t) {
        return 0;
    }
    keep(work, p.strings, id, bucket, t);
    po_strings::written_length(image, t) + FRAME
}

// All strings in one pass. Answers the length of the file.
fn fill(image: &[u8], p: Places, work: &mut [u32]) -> usize
    requires { Laid p image.now × Filled p.layout image.now p.strings 0 work.old }
    ensures { (result ≡ length (po_of p.layout image.now))
        × Filled p.layout image.now p.strings p.strings work.new }
{
    let mut total = 0;
    let mut c = string_walk::first_string();
    for id in 0..p.strings {
        let step = string_walk::string_at(image, p, c);
        total += take_turn(image, p, id, step.string, work);
        c = step.next;
    }
    total
}

// ---- the file

// The pair of a text, and the empty line behind it.
fn put_entry(out: &mut [u8], at: usize, image: &[u8], t: Text) -> usize
    requires inside { Inside image.now t × (is_utf16 (units_in image.now t) ≡ true) }
    requires t_in_bounds { at + length (entry_of (utf8_of (units_in image.now t))) ≤ length out.old }
    ensures { Wrote out.old at (entry_of (utf8_of (units_in image.now t))) result out.new }
{
    let value = text::put_text(out, at, b"msgid \"");
    let behind = po_strings::put_units(out, value, image, t);
    text::put_text(out, behind, b"\"\nmsgstr \"\"\n\n")
}

// The pair of string `j`, if it is kept.
fn put_kept(out: &mut [u8], at: usize, image: &[u8], p: Places, work: &[u32], j: usize) -> usize
    requires laid { Laid p image.now × Filled p.layout image.now p.strings p.strings work.now × (j < p.strings) }
    requires j_in_bounds { at + length (file_at p.layout image.now j) ≤ length out.old }
    ensures { Wrote out.old at (file_at p.layout image.now j) result out.new }
{
    let n = p.strings;
    if chains::word_at(work, n + n + n + j) == 0 {
        return at;
    }
    put_entry(out, at, image, text_at(work, n, j))
}

// The pairs of all strings that are kept, in id order.
fn put_entries(out: &mut [u8], image: &[u8], p: Places, work: &[u32])
    requires laid { Laid p image.now × Filled p.layout image.now p.strings p.strings work.now }
    requires image_in_bounds { length (po_of p.layout image.now) ≤ length out.old }
    ensures { out.new ≡ sets out.old 0 (po_of p.layout image.now) }
{
    let mut to = 0;
    for j in 0..p.strings {
        to = put_kept(out, to, image, p, work, j);
    }
}

// The file, in room enough; else 13.
fn put_file(
    out: &mut [u8],
    image: &[u8],
    p: Places,
    work: &[u32],
    total: usize,
) -> Result<usize, Refusal>
    requires laid { Laid p image.now × Filled p.layout image.now p.strings p.strings work.now }
    requires total_value { total ≡ length (po_of p.layout image.now) }
    ensures { Answers (roomed (room_for (length out.old)) (made (po_of p.layout image.now))) result
        out.old out.new }
{
    if out.len() < total || LONGEST < total {
        return Err(refusals::ROOM);
    }
    put_entries(out, image, p, work);
    Ok(total)
}

// The file of an admitted image, in work space of just the words that are asked for, which end as zeros.
fn write_known(image: &[u8], p: Places, work: &mut [u32], out: &mut [u8]) -> Result<usize, Refusal>
    requires { Laid p image.now × (length work.old ≡ 4 * p.strings) }
    ensures { Answers (roomed (room_for (length out.old)) (made (po_of p.layout image.now))) result
        out.old out.new × (work.new ≡ replicate (4 * p.strings) 0) }
{
    let words = work.len();
    chains::clear(work, 0, words);
    let total = fill(image, p, work);
    let answer = put_file(out, image, p, work, total);
    chains::clear(work, 0, words);
    answer
}

// Writes a translators' file of an image to the front of `out`, and answers its length. `work` is lent
// for work: four words for each string of the image, which end as zeros. Refused with 1 to 6 where the
// image is not admitted; with 13 where `work` is shorter, and then it stays as it is; with 13 where
// `out` has no room, or the file has 2^32 bytes or more. Then no byte of `out` changes.
pub fn write_po(
    image: &[u8],
    layout: Layout,
    work: &mut [u32],
    out: &mut [u8],
) -> Result<usize, Refusal>
    ensures { Answers (write_po layout image.now (length work.old) (length out.old)) result
        out.old out.new × (work.new ≡ work_after layout image.now work.old) }
{
    let p = admission::admit(image, layout)?;
    let words = 4 * p.strings;
    if work.len() < words {
        return Err(refusals::ROOM);
    }
    write_known(image, p, &mut work[0..words], out)
}
