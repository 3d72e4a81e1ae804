// A translators' file and an image: every plain string that a pair is of gets its msgstr. The file is all
// or nothing.
#![tactic(auto)]

ghost use Rattle.std.specs.Prelude.{◌≡◌, true, ◌≤◌, length};
ghost use Rattle.bits.specs.Outcome.{Answers};
ghost use Rattle.image.specs.Sections.{strings_in};
ghost use Rattle.sections.specs.Places.{Laid};
ghost use Rattle.po_pairs.specs.Pairs.{read_file};
ghost use Rattle.translate.specs.Translate.{applied};
ghost use Rattle.translate.specs.Space.{lent, words_for, is_enough, is_read, read_po, LeavesSpace, Lent};

use format::{Layout, Mode};
use refusals::Refusal;
use sections::Places;

// Words have 32 bits: a file has fewer bytes than that.
const FILE_LIMIT: usize = 4294967296;

// How many words are asked for, for the values of a file of `n` bytes: each takes 8 bytes at least.
fn words_for(n: usize) -> usize
    ensures { (result ≡ words_for n) × (result ≤ 2305843009213693952) }
{
    n / 8 + 1
}

// Whether the space that is lent is enough for a file of `file` bytes and an image of `strings` strings.
fn is_enough(file: usize, strings: usize, text: usize, ends: usize, work: usize) -> bool
    requires { strings ≤ 4294967296 }
    ensures { result ≡ is_enough file strings (record { text = text; ends = ends; work = work }) }
{
    if FILE_LIMIT <= file {
        return false;
    }
    if text < file {
        return false;
    }
    if ends < words_for(file) {
        return false;
    }
    words_for(file) * 3 + strings <= work
}

// The pairs of the file go to their strings, in space of just the lengths that are asked for. What that
// space holds afterwards is not said: the caller clears it.
fn apply(
    image: &[u8],
    p: Places,
    mode: Mode,
    file: &[u8],
    text: &mut [u8],
    ends: &mut [u32],
    work: &mut [u32],
    out: &mut [u8],
) -> Result<usize, Refusal>
    requires { Laid p image.now × Lent p.strings file.now (length text.old) (length ends.old) (length work.old) }
    ensures { Answers (applied mode p.layout image.now (length out.old) (read_file file.now)) result
        out.old out.new }
{
    let Some(count) = po_pairs::read_pairs(file, text, ends, work) else {
        return Err(refusals::FILE);
    };
    let m = ends.len();
    if !po_targets::mark(image, p, text, ends, count, work, m) {
        return Err(refusals::ABSENT);
    }
    let from = m + m + m;
    string_steps::patch_stepwise(out, image, p, mode, &work[from..], text, ends)
}

// The same in any space that is enough: what is asked for ends as zeros.
fn apply_in(
    image: &[u8],
    p: Places,
    mode: Mode,
    file: &[u8],
    text: &mut [u8],
    ends: &mut [u32],
    work: &mut [u32],
    out: &mut [u8],
) -> Result<usize, Refusal>
    requires { Laid p image.now × (is_enough (length file.now) p.strings (lent text.old ends.old work.old) ≡ true) }
    ensures answers { Answers (applied mode p.layout image.now (length out.old) (read_file file.now)) result
        out.old out.new }
    ensures leaves_space { LeavesSpace true (length file.now) p.strings text.old text.new
        ends.old ends.new work.old work.new }
{
    let size = file.len();
    let words = words_for(size);
    let all = words * 3 + p.strings;
    let answer = apply(
        image,
        p,
        mode,
        file,
        &mut text[0..size],
        &mut ends[0..words],
        &mut work[0..all],
        out,
    );
    bits::put_zeros(text, 0, size);
    chains::clear(ends, 0, words);
    chains::clear(work, 0, all);
    answer
}

// Every plain string of an image that has the msgid of a pair gets its msgstr, by the single patches in
// id order, or the image is finalized where there are none. Answers the new length; the image is at the
// front of `out`. Refused with 1 to 6 where the image is not admitted; 13 where less space is lent for
// work than is asked for; 16 where the file is outside the subset, is not UTF-8 or has a msgid twice; 14
// where no plain string has a msgid that is to be applied; 11 to 13 as the first patch that meets one:
// then no byte of `out` changes. The space lent for work ends as zeros where it is used.
pub fn read_po(
    image: &[u8],
    layout: Layout,
    mode: Mode,
    file: &[u8],
    text: &mut [u8],
    ends: &mut [u32],
    work: &mut [u32],
    out: &mut [u8],
) -> Result<usize, Refusal>
    ensures answers { Answers (read_po mode layout image.now (length out.old) file.now
        (lent text.old ends.old work.old)) result out.old out.new }
    ensures leaves_space { LeavesSpace (is_read layout image.now file.now
        (lent text.old ends.old work.old)) (length file.now) (strings_in image.now)
        text.old text.new ends.old ends.new work.old work.new }
{
    let p = admission::admit(image, layout)?;
    if !is_enough(file.len(), p.strings, text.len(), ends.len(), work.len()) {
        return Err(refusals::ROOM);
    }
    apply_in(image, p, mode, file, text, ends, work, out)
}
