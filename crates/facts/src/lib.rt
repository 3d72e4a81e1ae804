// What is known of an image and of its strings, as numbers at the front of a lent buffer: for callers
// that tell people about them.
#![tactic(auto)]

ghost use Rattle.std.specs.Prelude.{◌≡◌, ◌+◌, ◌*◌, ◌≤◌, ◌<◌, length};
ghost use Rattle.std.proofs.lemmas.List.Edits.{sets};
ghost use Rattle.bits.specs.Outcome.{made, roomed, Answers};
ghost use Rattle.sections.specs.Places.{Placed, Laid};
ghost use Rattle.string_tables.specs.Strings.{as_place};
ghost use Rattle.string_walk.specs.Places.{CursorOf};
ghost use Rattle.facts.specs.Facts.{flag as Facts·flag, facts_of, image_facts};
ghost use Rattle.facts.specs.Facts.{facts_of_parts, string_fact_count, facts_of_string, string_facts, facts_from, string_facts_from};

use format::Layout;
use refusals::Refusal;
use sections::Places;
use string_tables::Place;
use string_walk::{Counts, Cursor};

// A fact that holds or not: 1 or 0.
fn flag(holds: bool) -> u64
    ensures { result ≡ Facts·flag holds }
{
    u64::from(holds)
}

// Numbers from a place of a buffer on.
fn put_numbers(out: &mut [u64], at: usize, numbers: &[u64])
    requires { at + length numbers.now ≤ length out.old }
    ensures { out.new ≡ sets out.old at numbers.now }
{
    out[at..at + numbers.len()].copy_from_slice(numbers);
}

// Numbers at the front of a buffer.
fn told(numbers: &[u64], out: &mut [u64]) -> Result<usize, Refusal>
    ensures { Answers (roomed (length out.old) (made numbers.now)) result out.old out.new }
{
    if out.len() < numbers.len() {
        return Err(refusals::ROOM);
    }
    put_numbers(out, 0, numbers);
    Ok(numbers.len())
}

// ---- an image

// How many facts there are of an image: its length, the file length that it states and whether that is
// right, whether its footer is; its counts; where each section starts.
const IMAGE_FACTS: usize = 18;

fn facts_of(image: &[u8], p: Places) -> [u64; IMAGE_FACTS]
    requires { Placed p image.now }
    ensures { result ≡ facts_of p.layout image.now }
{
    let length = image.len();
    let stated = sections::header_word(image, format::FILE_LENGTH);
    let layout = p.layout;
    [
        length as u64,
        stated as u64,
        flag(stated == length),
        flag(footer::verify_footer(image)),
        p.functions as u64,
        p.kinds as u64,
        p.identifiers as u64,
        p.strings as u64,
        p.overflows as u64,
        p.storage_size as u64,
        sections::record_at(layout, 0) as u64,
        p.kinds_at as u64,
        p.hashes_at as u64,
        p.small_at as u64,
        p.over_at as u64,
        p.storage_at as u64,
        p.tail as u64,
        p.footer as u64,
    ]
}

// What is known of an image, or the refusal.
pub fn image_facts(image: &[u8], layout: Layout, out: &mut [u64]) -> Result<usize, Refusal>
    ensures { Answers (roomed (length out.old) (image_facts layout image.now)) result out.old
        out.new }
{
    let p = admission::admit(image, layout)?;
    told(&facts_of(image, p), out)
}

// ---- a string

// How many facts there are of a string: where its bytes start, how many there are, how many units,
// whether it is wide, whether it is an identifier; how many small entries and how many overflow pairs
// are visited to find it.
const STRING_FACTS: usize = 7;

fn facts_of_parts(
    start: usize,
    place: Place,
    identifier: bool,
    counts: Counts,
) -> [u64; STRING_FACTS]
    requires { place.count < 4294967296 }
    ensures { result ≡ facts_of_parts start (as_place place) identifier counts }
{
    let size = string_tables::size_of(place);
    [
        start as u64,
        size as u64,
        place.count as u64,
        flag(place.wide),
        flag(identifier),
        counts.small as u64,
        counts.over as u64,
    ]
}

// What is known of string `id`, or the refusal.
pub fn string_facts(
    image: &[u8],
    layout: Layout,
    id: usize,
    out: &mut [u64],
) -> Result<usize, Refusal>
    ensures { Answers (roomed (length out.old) (string_facts layout image.now id)) result out.old
        out.new }
{
    let found = reader::string(image, layout, id)?;
    let string = found.string;
    let identifier = string_walk::is_identifier(string.rank);
    told(
        &facts_of_parts(string.start, string.place, identifier, found.counts),
        out,
    )
}

// ---- many strings, in one pass

// The facts of the string that a pass has come to, from a place of a buffer on. Answers where the pass
// goes on.
fn put_string(image: &[u8], p: Places, c: Cursor, out: &mut [u64], at: usize) -> Cursor
    requires laid { Laid p image.now × CursorOf p image.now c }
    requires id_lt_strings { (c.id < p.strings) × (at + string_fact_count ≤ length out.old) }
    ensures cursor_of { CursorOf p image.now result × (result.id ≡ c.id + 1) }
    ensures out_after { out.new ≡ sets out.old at (facts_of_string p.layout image.now c.id) }
{
    let step = string_walk::string_at(image, p, c);
    let string = step.string;
    let place = string.place;
    let rank = string.rank;
    let identifier = string_walk::is_identifier(rank);
    let counts = string_walk::counts_of(step.next);
    let facts = facts_of_parts(string.start, place, identifier, counts);
    put_numbers(out, at, &facts);
    step.next
}

// The facts of `n` strings, from the one that a pass has come to on, at the front of a buffer.
fn put_strings(image: &[u8], p: Places, from: Cursor, n: usize, out: &mut [u64])
    requires laid { Laid p image.now × CursorOf p image.now from }
    requires n_bound { (from.id + n ≤ p.strings) × (n * string_fact_count ≤ length out.old) }
    ensures { out.new ≡ sets out.old 0 (facts_from p.layout image.now from.id n) }
{
    let mut c = from;
    for k in 0..n {
        c = put_string(image, p, c, out, k * STRING_FACTS);
    }
}

// What is known of the strings from `id` on, of as many as there is room for: locating each by itself
// would go over the tables for each.
pub fn string_facts_from(
    image: &[u8],
    layout: Layout,
    id: usize,
    out: &mut [u64],
) -> Result<usize, Refusal>
    ensures { Answers (string_facts_from (length out.old) layout image.now id) result out.old
        out.new }
{
    let p = admission::admit(image, layout)?;
    if p.strings <= id {
        return Ok(0);
    }
    let n = bits::least(out.len() / STRING_FACTS, p.strings - id);
    let first = string_walk::first_string();
    put_strings(
        image,
        p,
        string_walk::string_from(image, p, first, id),
        n,
        out,
    );
    Ok(n * STRING_FACTS)
}
