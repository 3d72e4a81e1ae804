// An index of the strings of an image (02, No. 13): for each id its offset in storage, its length and
// its flags, in three runs of lent words. One pass over the tables fills it; a look-up reads three
// words, where the walk goes over the tables from their starts. The runs stay apart: document 02 gives them so to
// callers in C.
#![tactic(auto)]

ghost use Rattle.std.specs.Prelude.{◌≡◌, List, ℕ, ◌+◌, ◌≤◌, ◌<◌, ltb, length};
ghost use Rattle.std.proofs.lemmas.List.Edits.{sets};
ghost use Rattle.sections.specs.Places.{Laid};
ghost use Rattle.string_walk.specs.Places.{CursorOf};
ghost use Rattle.string_index.specs.Index.{flags_of, entry_of, held_of, index_of, words_for, filled_as, admitted_as};
ghost use Rattle.string_index.specs.Index.{index_after, entry_in, look_up};
ghost use Rattle.string_index.specs.Filling.{put_entry, Indexed, Tells};

use format::Layout;
use refusals::Refusal;
use sections::Places;
use string_tables::Place;
use string_walk::{Cursor, StringRecord};

// What an index holds of a string. The length is as the table counts it, in bytes for a narrow string
// and in 16-bit units for a wide one; the flags are bit 0 for a wide string, bit 1 for an identifier.
#[derive(Clone, Copy)]
pub struct Entry {
    pub offset: u32,
    pub length: u32,
    pub flags: u32,
}

// What an index tells of a string of the image that it was filled from.
#[derive(Clone, Copy)]
pub struct HeldString {
    pub place: Place,
    pub identifier: bool,
}

const WIDE: usize = 1;

const IDENTIFIER: usize = 2;

// ---- looking up

// Whether so many words are fewer than three for each string. Three times a count could wrap.
fn is_short(words: usize, count: usize) -> bool
    ensures { result ≡ ltb words (words_for count) }
{
    words / 3 < count
}

// What the three runs hold of string `id`.
fn entry_at(index: &[u32], count: usize, id: usize) -> Entry
    requires { (words_for count ≤ length index.now) × (id < count) }
    ensures { result ≡ entry_in index.now count id }
{
    Entry {
        offset: index[id],
        length: index[count + id],
        flags: index[count + count + id],
    }
}

// Looks string `id` up in an index for `count` strings. Whatever the runs hold is the answer: it is that
// of the walk where the index was filled from the image. Refused with 7 where there is no such id, then
// with 13 where the index is shorter than three words for each string.
pub fn look_up(index: &[u32], count: usize, id: usize) -> Result<Entry, Refusal>
    ensures { result ≡ look_up index.now count id }
{
    if count <= id {
        return Err(refusals::ID);
    }
    if is_short(index.len(), count) {
        return Err(refusals::ROOM);
    }
    Ok(entry_at(index, count, id))
}

// String `id` of the image that an index was filled from. Whatever the index holds are words.
pub fn string_in(index: &[u32], p: Places, id: usize) -> HeldString
    requires { (words_for p.strings ≤ length index.now) × (id < p.strings) }
    ensures by_index { (s : List ℕ) → Laid p s → Indexed p s index.now → Tells p s id result }
    ensures at_bound { (result.place.at < 4294967296) × (result.place.count < 4294967296) }
{
    let entry = entry_at(index, p.strings, id);
    HeldString {
        place: Place {
            wide: entry.flags % 2 == 1,
            at: entry.offset as usize,
            count: entry.length as usize,
        },
        identifier: entry.flags / 2 == 1,
    }
}

// ---- filling

fn flags_of(wide: bool, identifier: bool) -> u32
    ensures { result ≡ flags_of wide identifier }
{
    (format::if_set(wide, WIDE) + format::if_set(identifier, IDENTIFIER)) as u32
}

// What is held of a string by its record.
fn entry_of(string: StringRecord) -> Entry
    requires { (string.place.count < 4294967296) × (string.place.at < 4294967296) }
    ensures { result ≡ held_of string }
{
    let rank = string.rank;
    Entry {
        offset: string.place.at as u32,
        length: string.place.count as u32,
        flags: flags_of(string.place.wide, string_walk::is_identifier(rank)),
    }
}

// An entry goes to place `id` of each run.
fn put_entry(index: &mut [u32], count: usize, id: usize, entry: Entry)
    requires { (words_for count ≤ length index.old) × (id < count) }
    ensures { index.new ≡ put_entry count id entry index.old }
{
    index[id] = entry.offset;
    index[count + id] = entry.length;
    index[count + count + id] = entry.flags;
}

// The entry of the string that a pass has come to. Answers where the pass goes on.
fn put_string(index: &mut [u32], image: &[u8], p: Places, at: Cursor) -> Cursor
    requires laid { Laid p image.now × (words_for p.strings ≤ length index.old) }
    requires cursor_of { CursorOf p image.now at × (at.id < p.strings) }
    ensures cursor_of_2 { CursorOf p image.now result × (result.id ≡ at.id + 1) }
    ensures index_after { index.new ≡ put_entry p.strings at.id
        (entry_of p.layout image.now at.id) index.old }
{
    let step = string_walk::string_at(image, p, at);
    let string = step.string;
    let entry = entry_of(string);
    put_entry(index, p.strings, at.id, entry);
    step.next
}

// All strings of an admitted image, in one pass.
pub fn fill(index: &mut [u32], image: &[u8], p: Places)
    requires { Laid p image.now × (words_for p.strings ≤ length index.old) }
    ensures { index.new ≡ sets index.old 0 (index_of p.layout image.now) }
{
    let mut c = string_walk::first_string();
    for _id in 0..p.strings {
        c = put_string(index, image, p, c);
    }
}

// Admits an image and fills its index: so begins every entry that is lent one. Refused with 1 to 6, then
// with 13 where the index is shorter than three words for each string; then no word is written.
pub fn admit_indexed(image: &[u8], layout: Layout, index: &mut [u32]) -> Result<Places, Refusal>
    ensures { (result ≡ admitted_as layout image.now (length index.old))
        × (index.new ≡ index_after layout image.now index.old) }
{
    let p = admission::admit(image, layout)?;
    if is_short(index.len(), p.strings) {
        return Err(refusals::ROOM);
    }
    fill(index, image, p);
    Ok(p)
}

// Fills the index of an image, and answers how many strings there are, which a look-up is told. Refused
// as `admit_indexed` is.
pub fn fill_index(image: &[u8], layout: Layout, index: &mut [u32]) -> Result<usize, Refusal>
    ensures { (result ≡ filled_as layout image.now (length index.old))
        × (index.new ≡ index_after layout image.now index.old) }
{
    let p = admit_indexed(image, layout, index)?;
    Ok(p.strings)
}
