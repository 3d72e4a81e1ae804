// Why a string patch takes the path that it takes (02, No. 6): it is refused, it goes in place, or one thing
// keeps it from that, and all strings are packed anew. The path is that of `patch_string_by_id` with room enough.
#![tactic(auto)]

ghost use Rattle.std.specs.Prelude.{◌≡◌, false, List, ℕ, ◌≤◌, ◌<◌, length};
ghost use Rattle.bits.specs.Choice.{judge};
ghost use Rattle.bits.specs.Outcome.{passed};
ghost use Rattle.sections.specs.Places.{Laid};
ghost use Rattle.string_index.specs.Index.{words_for, index_after};
ghost use Rattle.string_index.specs.Filling.{Indexed};
ghost use Rattle.string_edits.specs.Values.{only};
ghost use Rattle.string_in_place.specs.Patch.{fits_in_place, result_checks};
ghost use Rattle.string_reasons.specs.Reasons.{lowest_overlap, path_of, answer_for, reason_of};

use format::{Layout, Mode};
use refusals::Refusal;
use sections::Places;
use string_edits::Form;

// The first of these that holds, in this order: the number of a refusal; in place; the entry is wide; the value is not
// ASCII; the lengths of entry and value, in bytes, which differ; the lowest other string whose entry overlaps.
// It stays one enum: a refusal is among the six that the theorems `reason_exactly` and `one_reason` tell apart.
#[derive(Clone, Copy)]
pub enum Reason {
    Refused(u8),
    InPlace,
    Wide,
    NotAscii,
    Lengths(u32, u32),
    Overlap(u32),
}

// The lowest other string that overlaps string `id`, else the string count. Every entry counts, wide and
// empty ones too.
fn lowest_overlap(index: &[u32], p: Places, id: usize) -> usize
    requires { (words_for p.strings ≤ length index.now) × (id < p.strings) }
    ensures { (s : List ℕ) → Laid p s → Indexed p s index.now → result ≡ lowest_overlap p.layout s id }
{
    let own = string_index::string_in(index, p, id);
    for i in 0..p.strings {
        let other = string_index::string_in(index, p, i);
        if !string_overlap::is_apart(i, id, own.place, other.place) {
            return i;
        }
    }
    p.strings
}

// The path for string `id` and a value, of the image that an index was filled from.
fn path_of(index: &[u32], p: Places, id: usize, value: &[u8]) -> Reason
    requires strings_in_bounds { (words_for p.strings ≤ length index.now) × (id < p.strings) × (p.strings ≤ 4294967295) }
    requires value_len_bound { length value.now ≤ 4294967295 }
    ensures { (s : List ℕ) → Laid p s → Indexed p s index.now
        → result ≡ path_of p.layout s id value.now }
{
    let own = string_index::string_in(index, p, id);
    if own.place.wide {
        return Reason::Wide;
    }
    if !bits::ascii(value) {
        return Reason::NotAscii;
    }
    if value.len() != own.place.count {
        return Reason::Lengths(own.place.count as u32, value.len() as u32);
    }
    let other = lowest_overlap(index, p, id);
    if other < p.strings {
        return Reason::Overlap(other as u32);
    }
    Reason::InPlace
}

// Whether a rebuild for this one edit meets 11 or 12, whatever the room.
fn judge_rebuild<'a>(
    image: &'a [u8],
    p: Places,
    mode: Mode,
    id: usize,
    value: &'a [u8],
) -> Result<(), Refusal>
    requires laid { Laid p image.now × (id < p.strings) × (length value.now ≤ 4294967295) }
    requires value_value { fits_in_place p.layout image.now id value.now ≡ false }
    ensures { result ≡ passed (judge (result_checks mode p.layout image.now (only id value.now))) }
{
    let ids = [id as u32; 1];
    let ends = [value.len() as u32; 1];
    let plan = string_rebuild::plan_rebuild(image, p, mode, Form::Ids, &ids, value, &ends);
    string_rebuild::judge(image, p, plan, plan.length)
}

// A path, unless it is a rebuild that meets a number.
fn judged<'a>(
    image: &'a [u8],
    p: Places,
    mode: Mode,
    id: usize,
    value: &'a [u8],
    path: Reason,
) -> Reason
    requires laid { Laid p image.now × (id < p.strings) × (length value.now ≤ 4294967295) }
    requires path_value { path ≡ path_of p.layout image.now id value.now }
    ensures { result ≡ answer_for (judge (result_checks mode p.layout image.now (only id value.now)))
        (path_of p.layout image.now id value.now) }
{
    let Reason::InPlace = path else {
        return match judge_rebuild(image, p, mode, id, value) {
            Ok(()) => path,
            Err(refusal) => Reason::Refused(refusal.number()),
        };
    };
    path
}

// Why a patch of string `id` takes the path that it takes. Refused with 1 to 6, 13 where the index is shorter than
// three words for each string, 7, 8, 11 and 12: but for 13 as `patch_string_by_id` is, in any room that is enough. For
// 1 to 6 and 13 no word of the index is written; else it ends as filled.
pub fn why<'a>(
    image: &'a [u8],
    layout: Layout,
    mode: Mode,
    id: usize,
    value: &'a [u8],
    index: &mut [u32],
) -> Reason
    ensures { (result ≡ reason_of mode layout image.now (length index.old) id value.now)
        × (index.new ≡ index_after layout image.now index.old) }
{
    let p = match string_index::admit_indexed(image, layout, index) {
        Ok(p) => p,
        Err(refusal) => return Reason::Refused(refusal.number()),
    };
    if p.strings <= id {
        return Reason::Refused(refusals::ID.number());
    }
    if !utf::is_utf8(value) {
        return Reason::Refused(refusals::VALUE.number());
    }
    if strings::LONGEST < value.len() {
        return Reason::Refused(refusals::LIMIT.number());
    }
    judged(image, p, mode, id, value, path_of(index, p, id, value))
}
