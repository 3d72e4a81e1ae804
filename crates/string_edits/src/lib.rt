// Edits of strings: the values as one text, where each value ends in it, and words that tell which
// string gets which. What is judged of a list of ids, and which edit comes next in the order of ids:
// nothing is sorted or copied. Text and ends stay two slices: callers in C lend them so, and there is no heap.
#![tactic(auto)]

ghost use Rattle.std.specs.Prelude.{◌≡◌, ℕ, suc, ◌≤◌, ◌<◌, length, get_or};
ghost use Rattle.string_edits.specs.Lists.{start_in, value_in, is_split, is_list, all_known, is_new, all_differ, all_utf8};
ghost use Rattle.string_edits.specs.Lists.{Within, NearestOf};
ghost use Rattle.string_edits.specs.Told.{told, NextOf, coming_in};
ghost use Rattle.string_edits.specs.declared.Form.TheVariants.{Ids, Marks};

// How words tell what strings get: by a list of ids, number j being that of edit j; or by a mark for
// each string, one more than the number of its edit, 0 for none.
#[derive(Clone, Copy)]
pub enum Form {
    Ids,
    Marks,
}

// The edit that comes next: its number, and the id of its string, or NONE where none is left.
#[derive(Clone, Copy)]
pub struct Next {
    pub edit: usize,
    pub id: usize,
}

// No id: past those of all strings.
pub const NONE: usize = 4294967296;

// A cast in a call of its own, which needs no proof that an element of a slice fits.
fn wide(x: u32) -> usize
    ensures { (result ≡ x) × (result < 4294967296) }
{
    x as usize
}

// ---- values

// Where value `j` starts, and the one before it ends.
fn start_of(ends: &[u32], j: usize) -> usize
    requires { j ≤ length ends.now }
    ensures { (result ≡ start_in ends.now j) × (result < 4294967296) }
{
    if j == 0 {
        return 0;
    }
    wide(ends[j - 1])
}

// Value `j`.
pub fn value_at<'a>(text: &'a [u8], ends: &[u32], j: usize) -> &'a [u8]
    requires { Within text.now ends.now j }
    ensures { (result.now ≡ value_in text.now ends.now j) × (length result.now < 4294967296) }
{
    &text[start_of(ends, j)..start_of(ends, j + 1)]
}

// ---- what is judged

// Whether no end is below the one before or past the text; the first is held to 0.
fn is_split(text: &[u8], ends: &[u32]) -> bool
    ensures { result ≡ is_split text.now ends.now }
{
    for j in 0..ends.len() {
        let end = start_of(ends, j + 1);
        if end < start_of(ends, j) || text.len() < end {
            return false;
        }
    }
    true
}

// Whether the three are a list of edits.
pub fn is_list(ids: &[u32], text: &[u8], ends: &[u32]) -> bool
    ensures { result ≡ is_list ids.now text.now ends.now }
{
    ends.len() == ids.len() && is_split(text, ends)
}

// Whether each id is one of `strings` strings.
pub fn are_known(ids: &[u32], strings: usize) -> bool
    ensures { result ≡ all_known (λ j. get_or ids.now j 0) (length ids.now) strings }
{
    for id in ids {
        if strings <= wide(*id) {
            return false;
        }
    }
    true
}

// Whether no id before number `j` is the same as that one.
fn is_new(ids: &[u32], j: usize) -> bool
    requires { j < length ids.now }
    ensures { result ≡ is_new (λ i. get_or ids.now i 0) j }
{
    for i in 0..j {
        if ids[i] == ids[j] {
            return false;
        }
    }
    true
}

// Whether no id is given twice.
pub fn are_different(ids: &[u32]) -> bool
    ensures { result ≡ all_differ (λ j. get_or ids.now j 0) (length ids.now) }
{
    for j in 0..ids.len() {
        if !is_new(ids, j) {
            return false;
        }
    }
    true
}

// Whether each value is UTF-8.
pub fn are_utf8(text: &[u8], ends: &[u32]) -> bool
    requires { (j : ℕ) → j < length ends.now → Within text.now ends.now j }
    ensures { result ≡ all_utf8 (value_in text.now ends.now) (length ends.now) }
{
    for j in 0..ends.len() {
        if !utf::is_utf8(value_at(text, ends, j)) {
            return false;
        }
    }
    true
}

// ---- the next edit

// The better of edit `j` and the best before it: from `from` on, and of the lower id.
fn nearer(ids: &[u32], from: usize, best: Next, j: usize) -> Next
    requires { (j < length ids.now) × NearestOf ids.now from j best }
    ensures { NearestOf ids.now from (suc j) result }
{
    let id = wide(ids[j]);
    if id < from || best.id <= id {
        return best;
    }
    Next { edit: j, id }
}

// The edit that comes next at string `from`, by a list of ids: one look through it.
fn next_listed(ids: &[u32], from: usize) -> Next
    requires { from ≤ 4294967296 }
    ensures { NextOf (told Ids ids.now) from result }
{
    let mut best = Next { edit: 0, id: NONE };
    for j in 0..ids.len() {
        best = nearer(ids, from, best, j);
    }
    best
}

// The same by a mark for each string: the first from there on that has one, so that a pass over all
// strings looks at each mark once.
fn next_marked(marks: &[u32], from: usize) -> Next
    requires { from ≤ 4294967296 }
    ensures { NextOf (told Marks marks.now) from result }
{
    for id in from..marks.len() {
        let mark = wide(marks[id]);
        if mark > 0 {
            return Next { edit: mark - 1, id };
        }
    }
    Next { edit: 0, id: NONE }
}

// The edit that comes next at string `from`.
pub fn next_edit(form: Form, words: &[u32], from: usize) -> Next
    requires { from ≤ 4294967296 }
    ensures { NextOf (told form words.now) from result }
{
    match form {
        Form::Ids => next_listed(words, from),
        Form::Marks => next_marked(words, from),
    }
}

// Its value, or nothing.
pub fn value_of<'a>(text: &'a [u8], ends: &[u32], next: Next) -> &'a [u8]
    requires { next.id < 4294967296 → Within text.now ends.now next.edit }
    ensures { (result.now ≡ coming_in text.now ends.now next) × (length result.now < 4294967296) }
{
    if next.id < NONE {
        return value_at(text, ends, next.edit);
    }
    &text[0..0]
}
