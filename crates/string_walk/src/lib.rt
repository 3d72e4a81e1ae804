// The strings of an admitted image, one by one. A pass over all of them has one cursor, which carries
// the count of overflow entries and the run of kinds along; a single id is located by bringing the
// cursor to it from the tables' starts. So there is one record of a string, however it is found.
#![tactic(auto)]

ghost use Rattle.std.specs.Prelude.{◌≡◌, true, List, ℕ, ◌+◌, ◌-◌, ◌*◌, ◌≤◌, ◌<◌, length};
ghost use Rattle.bits.specs.Bytes.{word_at};
ghost use Rattle.image.specs.Strings.{small_in, unit_size};
ghost use Rattle.image.specs.Kinds.{kind_in, is_identifier_run, hash_in};
ghost use Rattle.refusals.specs.Numbers as refusals;
ghost use Rattle.sections.specs.declared.Places.{Places};
ghost use Rattle.sections.specs.Places.{Placed, Laid};
ghost use Rattle.string_walk.specs.Places.{StepOf, counts_of, CursorOf, RunBefore, VisitedOf, Locates};
ghost use Rattle.string_walk.specs.Records.{is_ranked};
ghost use Rattle.string_walk.specs.Runs.{run_at, rank_in_run, RunOf, Reaches};
ghost use Rattle.string_walk.specs.Units.{unit_at};
ghost use Rattle.string_walk.specs.Walk.{Walked};

use refusals::Refusal;
use sections::Places;
use string_tables::Place;

// A string of an image, as all who find it hand it round: where its bytes start, its place in storage as
// its entries give it, and its rank among the identifiers: how many of them have a lower id. A plain string
// has none.
#[derive(Clone, Copy)]
pub struct StringRecord {
    pub start: usize,
    pub place: Place,
    pub rank: Option<usize>,
}

// Where a pass over the strings has come to: the next string, the overflow entries before it, and the
// run of kinds that the pass has reached.
#[derive(Clone, Copy)]
pub struct Cursor {
    pub id: usize,
    pub over: usize,
    pub run: Run,
}

// How many entries of the two tables a walk has visited. It reads both from their starts on, so these
// are also the numbers of its next small entry and of its next overflow pair.
#[derive(Clone, Copy)]
pub struct Counts {
    pub small: usize,
    pub over: usize,
}

// The place of a string that a walk has come to, and what is visited then.
#[derive(Clone, Copy)]
pub struct Step {
    pub place: Place,
    pub counts: Counts,
}

// One string of a pass, and where the pass goes on.
#[derive(Clone, Copy)]
pub struct Visited {
    pub string: StringRecord,
    pub next: Cursor,
}

// A string that was found: its id, its record, and what was visited on the way to it.
#[derive(Clone, Copy)]
pub struct Location {
    pub id: usize,
    pub string: StringRecord,
    pub counts: Counts,
}

// ---- strings

// Word `i` of a section of words that starts at `at`: kinds, hashes or small entries.
fn word_at(image: &[u8], at: usize, i: usize) -> u64
    requires { (at < 1099511627776) × (i < 4294967296) × (at + i * 4 + 4 ≤ length image.now) }
    ensures { (result ≡ word_at image.now (at + i * 4)) × (result < 4294967296) }
{
    bits::word(image, sections::entry_at(at, i, format::FIRST_WORD))
}

// Small entry `i`.
fn small_entry(image: &[u8], p: Places, i: usize) -> u64
    requires placed { Placed p image.now }
    requires i_lt_strings { i < p.strings }
    ensures { (result ≡ small_in p.layout image.now i) × (result < 4294967296) }
{
    word_at(image, p.small_at, i)
}

// Visits the next string: its small entry and, where that overflows, its pair. Each is counted where it
// is read.
fn visit(image: &[u8], p: Places, before: Counts) -> Step
    requires laid { Laid p image.now }
    requires walked { Walked p.layout image.now before × (before.small < p.strings) }
    ensures { StepOf p image.now before result }
{
    let entry = small_entry(image, p, before.small);
    let read = string_tables::read_place(image, p.over_at, before.over, entry);
    let place = read.place;
    Step {
        place,
        counts: Counts {
            small: before.small + 1,
            over: read.over,
        },
    }
}

// What is visited before string `id`, by a walk that has come to one at or before it.
fn walk_to(image: &[u8], p: Places, from: Counts, id: usize) -> Counts
    requires laid { Laid p image.now }
    requires walked { Walked p.layout image.now from × (from.small ≤ id) × (id < p.strings) }
    ensures { Walked p.layout image.now result × (result.small ≡ id) }
{
    let mut counts = from;
    for _i in from.small..id {
        counts = visit(image, p, counts).counts;
    }
    counts
}

// Unit `i` of a string whose bytes start at `start`. A narrow byte is a unit.
pub fn unit_at(image: &[u8], start: usize, wide: bool, i: usize) -> u64
    requires { start + i * unit_size wide + unit_size wide ≤ length image.now }
    ensures { (result ≡ unit_at image.now start wide i) × (result < 65536) }
{
    if wide {
        let at = start + i * 2;
        return bits::wide(image[at]) + bits::wide(image[at + 1]) * 256;
    }
    bits::wide(image[start + i])
}

// ---- kinds

// A run of kinds: how many there are up to it, where the ids end that it covers, whether they are
// identifiers, and how many identifiers there are up to that end.
#[derive(Clone, Copy)]
pub struct Run {
    pub count: usize,
    pub end: usize,
    pub identifier: bool,
    pub identifiers: usize,
}

// Where a pass over the kinds starts: a run that covers nothing.
fn first_run() -> Run
    ensures { (w : ℕ → ℕ) → result ≡ run_at w 0 }
{
    Run {
        count: 0,
        end: 0,
        identifier: false,
        identifiers: 0,
    }
}

// Kind word `k`.
fn kind_word(image: &[u8], p: Places, k: usize) -> u64
    requires placed { Placed p image.now }
    requires k_lt_kinds { k < p.kinds }
    ensures { result ≡ kind_in p.layout image.now k }
{
    word_at(image, p.kinds_at, k)
}

fn is_identifier_run(word: u64) -> bool
    ensures { result ≡ is_identifier_run word }
{
    format::value(word, format::KIND_IDENTIFIER) == 1
}

// The run behind a run.
fn next_run(image: &[u8], p: Places, run: Run) -> Run
    requires laid { Laid p image.now }
    requires run_of { RunOf p image.now run × (run.count < p.kinds) }
    ensures { (result ≡ run_at (kind_in p.layout image.now) (run.count + 1)) × (result.count ≡ run.count + 1) }
{
    let word = kind_word(image, p, run.count);
    let size = format::value(word, format::KIND_RUN) as usize;
    let identifier = is_identifier_run(word);
    Run {
        count: run.count + 1,
        end: run.end + size,
        identifier,
        identifiers: run.identifiers + format::if_set(identifier, size),
    }
}

// The run that covers `id`, found from a run at or before it. A pass that goes on from run to run
// reads each kind once.
fn run_of(image: &[u8], p: Places, from: Run, id: usize) -> Run
    requires { RunBefore p image.now from id }
    ensures { RunOf p image.now result × Reaches p image.now result id × (id < result.end) }
{
    let mut run = from;
    // Stays a while loop: it goes on to the run that reaches past `id`, and counts no index.
    while run.end <= id {
        run = next_run(image, p, run);
    }
    run
}

// The rank of a string that a run covers: the identifiers up to the run's end, less those from the string
// on.
fn rank_in(run: Run, id: usize) -> Option<usize>
    requires id_le_end { id ≤ run.end }
    requires id_bound { run.identifier ≡ true → run.end - id ≤ run.identifiers }
    ensures { result ≡ rank_in_run run id }
{
    if !run.identifier {
        return None;
    }
    Some(run.identifiers - (run.end - id))
}

// Whether a rank is that of an identifier.
pub fn is_identifier(rank: Option<usize>) -> bool
    ensures { result ≡ is_ranked rank }
{
    rank.is_some()
}

// The hash that is stored for the identifier of a rank, stale or not.
pub fn stored_hash(image: &[u8], p: Places, rank: usize) -> u64
    requires placed { Placed p image.now }
    requires rank_lt_identifiers { rank < p.identifiers }
    ensures { (result ≡ hash_in p.layout image.now rank) × (result < 4294967296) }
{
    word_at(image, p.hashes_at, rank)
}

// ---- passes

// Where a pass over the strings starts.
pub fn first_string() -> Cursor
    ensures { ((p : Places) (s : List ℕ) → Placed p s → CursorOf p s result) × (result.id ≡ 0) }
{
    Cursor {
        id: 0,
        over: 0,
        run: first_run(),
    }
}

// Where a pass goes on that stood at a string at or before `id` and has come to that one.
pub fn string_from(image: &[u8], p: Places, from: Cursor, id: usize) -> Cursor
    requires laid { Laid p image.now }
    requires cursor_of { CursorOf p image.now from × (from.id ≤ id) × (id < p.strings) }
    ensures { CursorOf p image.now result × (result.id ≡ id) }
{
    let run = from.run;
    Cursor {
        id,
        over: walk_to(image, p, counts_of(from), id).over,
        run: run_of(image, p, run, id),
    }
}

// The string that a pass has come to. Each entry and each kind is read once in all.
pub fn string_at(image: &[u8], p: Places, at: Cursor) -> Visited
    requires laid { Laid p image.now }
    requires cursor_of { CursorOf p image.now at × (at.id < p.strings) }
    ensures { VisitedOf p image.now at result }
{
    let step = visit(image, p, counts_of(at));
    let place = step.place;
    let from = at.run;
    let run = run_of(image, p, from, at.id);
    let string = StringRecord {
        start: p.storage_at + place.at,
        place,
        rank: rank_in(run, at.id),
    };
    let next = Cursor {
        id: step.counts.small,
        over: step.counts.over,
        run,
    };
    Visited { string, next }
}

// What a pass has visited up to its cursor.
pub fn counts_of(at: Cursor) -> Counts
    ensures { result ≡ counts_of at }
{
    Counts {
        small: at.id,
        over: at.over,
    }
}

// ---- one id

// String `id`; 7 where there is none. The walk to it is what is counted.
pub fn locate(image: &[u8], p: Places, id: usize) -> Result<Location, Refusal>
    requires { Laid p image.now }
    ensures { Locates p image.now id refusals.id result }
{
    if p.strings <= id {
        return Err(refusals::ID);
    }
    let from = string_from(image, p, first_string(), id);
    let found = string_at(image, p, from);
    Ok(Location {
        id,
        string: found.string,
        counts: counts_of(found.next),
    })
}
