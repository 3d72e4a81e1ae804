// The listing of an image, a piece at a time: what is printed can be far larger than the image, since
// strings may share storage. A piece goes to a lent buffer, and a point says where the listing goes
// on. Strings are looked up in an index (02, No. 13), so that a point is no more than a few numbers.
#![tactic(auto)]

ghost use Rattle.std.specs.Prelude.{◌≡◌, true, List, ℕ, ◌+◌, ◌-◌, ◌≤◌, ◌<◌, length, take, drop, Ok};
ghost use Rattle.bits.specs.Outcome.{Answers};
ghost use Rattle.sections.specs.Places.{Placed, Laid};
ghost use Rattle.string_index.specs.Index.{words_for, index_after};
ghost use Rattle.text.specs.Text.{Wrote};
ghost use Rattle.listing_pieces.specs.declared.Point.TheVariants.{Counts, Strings, Units, Functions};
ghost use Rattle.listing_pieces.specs.Listing.{listed, part_room, listing_part};
ghost use Rattle.listing_pieces.specs.Pieces.{opened_record, opened, is_end, turn_after, spot_of, slot_at, Ready, Good};
ghost use Rattle.listing_pieces.specs.Pieces.{Gives, GivesAll};

use format::Layout;
use refusals::Refusal;
use sections::Places;

// A string in its turn: its id, and how many identifiers have a lower one. That is the rank of an
// identifier, which an index does not hold.
#[derive(Clone, Copy)]
pub struct Turn {
    pub id: usize,
    pub before: usize,
}

// Where a listing has come to: before line 1, before the line of a string, in that line before a unit,
// before the line of a function, at the end.
#[derive(Clone, Copy)]
pub enum Point {
    Counts,
    Strings(Turn),
    Units(Turn, usize),
    Functions(usize),
    End,
}

// Where a piece ends in the buffer, and where the listing goes on.
#[derive(Clone, Copy)]
pub struct Piece {
    pub end: usize,
    pub next: Point,
}

// The most units of a piece, which has at most 256 bytes.
const CHUNK: usize = 64;

// How many pieces are made at a time, and the room that they need.
const PIECES: usize = 256;

pub const ROOM: usize = 65536;

// As many words as an index of an image of 65,536 bytes asks for, and some more.
pub const INDEX: usize = 49152;

// Judges a record whose head was read: it ends where the input does, and its image is admitted.
fn open_image(input: &[u8], layout: Layout, length: usize) -> Result<Places, Refusal>
    ensures { result ≡ opened_record (Ok (layout, length)) input.now }
{
    let from = input_records::IMAGE_HEAD;
    if input.len() < from || input.len() - from != length {
        return Err(refusals::JOB);
    }
    admission::admit(&input[from..], layout)
}

// Judges an input: 15 for a record that is not well formed or does not end where the input does,
// then 1 to 6.
pub fn open(input: &[u8]) -> Result<Places, Refusal>
    ensures { result ≡ opened input.now }
{
    let (layout, length) = input_records::image_head(input)?;
    open_image(input, layout, length)
}

// ---- pieces, one for each kind of point

fn put_counts(image: &[u8], p: Places, out: &mut [u8], at: usize) -> Piece
    requires placed { Placed p image.now }
    requires at_in_bounds { at + 256 ≤ length out.old }
    ensures { Gives p image.now out.old at Counts result out.new }
{
    let end = listing_lines::put_counts(
        out,
        at,
        image.len() as u64,
        p.strings as u64,
        p.functions as u64,
    );
    Piece {
        end,
        next: Point::Strings(Turn { id: 0, before: 0 }),
    }
}

// The line of a string before its units, or nothing where all strings are listed.
fn put_string(p: Places, index: &[u32], turn: Turn, out: &mut [u8], at: usize) -> Piece
    requires strings_in_bounds { words_for p.strings ≤ length index.now }
    requires at_in_bounds { at + 256 ≤ length out.old }
    ensures { (s : List ℕ) → Ready p s index.now → Good p s (Strings turn)
        → Gives p s out.old at (Strings turn) result out.new }
{
    let id = turn.id;
    if p.strings <= id {
        return Piece {
            end: at,
            next: Point::Functions(0),
        };
    }
    let string = string_index::string_in(index, p, id);
    let count = string.place.count as u64;
    let end = listing_lines::put_string(
        out,
        at,
        id as u64,
        string.place.wide,
        string.identifier,
        count,
    );
    Piece {
        end,
        next: Point::Units(turn, 0),
    }
}

// The hash slot of a string, as it is stored: that of its rank, if it is an identifier.
fn slot_of(image: &[u8], p: Places, identifier: bool, rank: usize) -> Option<u64>
    requires placed { Placed p image.now }
    requires rank_lt_identifiers { identifier ≡ true → rank < p.identifiers }
    ensures { result ≡ slot_at p.layout image.now identifier rank }
{
    if !identifier {
        return None;
    }
    Some(string_walk::stored_hash(image, p, rank))
}

// The string behind a string, in its turn.
fn next_turn(turn: Turn, identifier: bool) -> Turn
    requires { (turn.id < 4294967296) × (turn.before < 4294967296) }
    ensures { result ≡ turn_after turn identifier }
{
    Turn {
        id: turn.id + 1,
        before: turn.before + format::if_set(identifier, 1),
    }
}

// Some units of a string, or the end of its line where all are listed.
fn put_units(
    image: &[u8],
    p: Places,
    index: &[u32],
    turn: Turn,
    unit: usize,
    out: &mut [u8],
    at: usize,
) -> Piece
    requires ready { Ready p image.now index.now }
    requires good { Good p image.now (Units turn unit) }
    requires at_in_bounds { at + 256 ≤ length out.old }
    ensures { Gives p image.now out.old at (Units turn unit) result out.new }
{
    let string = string_index::string_in(index, p, turn.id);
    let identifier = string.identifier;
    let count = string.place.count;
    if count <= unit {
        let slot = slot_of(image, p, identifier, turn.before);
        return Piece {
            end: listing_lines::put_closing(out, at, count, slot),
            next: Point::Strings(next_turn(turn, identifier)),
        };
    }
    let n = bits::least(count - unit, CHUNK);
    let start = p.storage_at + string.place.at;
    let end = listing_lines::put_units(out, at, image, start, string.place.wide, unit, n);
    Piece {
        end,
        next: Point::Units(turn, unit + CHUNK),
    }
}

// The line of a function, or nothing where all functions are listed.
fn put_function(image: &[u8], p: Places, i: usize, out: &mut [u8], at: usize) -> Piece
    requires laid { Laid p image.now }
    requires at_in_bounds { at + 256 ≤ length out.old }
    ensures { Gives p image.now out.old at (Functions i) result out.new }
{
    if p.functions <= i {
        return Piece {
            end: at,
            next: Point::End,
        };
    }
    let f = reader::function_of(image, p, i);
    let end = listing_lines::put_function(
        out,
        at,
        i as u64,
        f.large,
        f.begin as u64,
        f.size as u64,
    );
    Piece {
        end,
        next: Point::Functions(i + 1),
    }
}

// The piece at a point.
fn put_piece(
    image: &[u8],
    p: Places,
    index: &[u32],
    point: Point,
    out: &mut [u8],
    at: usize,
) -> Piece
    requires ready { Ready p image.now index.now }
    requires good { Good p image.now point }
    requires at_in_bounds { at + 256 ≤ length out.old }
    ensures { Gives p image.now out.old at point result out.new }
{
    match point {
        Point::Counts => put_counts(image, p, out, at),
        Point::Strings(turn) => put_string(p, index, turn, out, at),
        Point::Units(turn, unit) => put_units(image, p, index, turn, unit, out, at),
        Point::Functions(i) => put_function(image, p, i, out, at),
        Point::End => Piece {
            end: at,
            next: Point::End,
        },
    }
}

// Whether all is listed.
pub fn is_end(point: Point) -> bool
    ensures { result ≡ is_end (spot_of point) }
{
    matches!(point, Point::End)
}

// The next pieces, from the buffer's front on.
pub fn put_pieces(image: &[u8], p: Places, index: &[u32], from: Point, out: &mut [u8]) -> Piece
    requires ready { Ready p image.now index.now }
    requires good { Good p image.now from }
    requires in_bounds { 65536 ≤ length out.old }
    ensures { GivesAll p image.now out.old from result out.new }
{
    let mut point = from;
    let mut at = 0;
    for _i in 0..PIECES {
        let piece = put_piece(image, p, index, point, out, at);
        at = piece.end;
        point = piece.next;
    }
    Piece {
        end: at,
        next: point,
    }
}

// ---- a part of the listing, for callers that lend a buffer of any length

// What is left of `a` without `b`, or nothing.
fn less(a: usize, b: usize) -> usize
    ensures { result ≡ a - b }
{
    if a < b { 0 } else { a - b }
}

// What stands in a text behind `skip` bytes goes to a place of a buffer, as much as goes before `limit`.
fn put_rest(text: &[u8], skip: usize, out: &mut [u8], at: usize, limit: usize) -> usize
    requires { (at ≤ limit) × (limit ≤ length out.old) }
    ensures { Wrote out.old at (take (limit - at) (drop skip text.now)) result out.new }
{
    if text.len() <= skip {
        return at;
    }
    let n = bits::least(text.len() - skip, limit - at);
    bits::put_bytes(out, at, &text[skip..skip + n]);
    at + n
}

// The lines of an admitted image from byte `from` on, `limit` bytes at most.
fn put_lines(
    image: &[u8],
    p: Places,
    index: &[u32],
    from: usize,
    room: &mut [u8],
    out: &mut [u8],
    limit: usize,
) -> usize
    requires ready { Ready p image.now index.now }
    requires in_bounds { 65536 ≤ length room.old }
    requires limit_in_bounds { limit ≤ length out.old }
    ensures { Wrote out.old 0 (take limit (drop from (listed p.layout image.now))) result out.new }
{
    let mut point = Point::Counts;
    let mut skip = from;
    let mut at = 0;
    // Stays a while loop: it goes from point to point, and no index is counted.
    while !is_end(point) {
        if limit <= at {
            return at;
        }
        let piece = put_pieces(image, p, index, point, room);
        let end = piece.end;
        at = put_rest(&room[0..end], skip, out, at, limit);
        skip = less(skip, end);
        point = piece.next;
    }
    at
}

fn put_part(
    image: &[u8],
    p: Places,
    index: &[u32],
    from: usize,
    room: &mut [u8; ROOM],
    out: &mut [u8],
) -> usize
    requires { Ready p image.now index.now }
    ensures { Wrote out.old 0
        (take (part_room (length out.old)) (drop from (listed p.layout image.now))) result out.new }
{
    let limit = bits::least(out.len(), footer::SIZE_LIMIT);
    put_lines(image, p, index, from, room, out, limit)
}

// A part of an image's listing, from byte `from` on; it ends with the listing, with the buffer, or where it
// has as many bytes as an image may have. The index is lent, and filled anew for each part. Refused as
// filling is.
pub fn list(
    image: &[u8],
    layout: Layout,
    from: usize,
    index: &mut [u32],
    out: &mut [u8],
) -> Result<usize, Refusal>
    ensures answers { Answers (listing_part (part_room (length out.old)) from layout image.now
        (length index.old)) result out.old out.new }
    ensures index_after { index.new ≡ index_after layout image.now index.old }
{
    let p = string_index::admit_indexed(image, layout, index)?;
    let mut room = [0u8; ROOM];
    Ok(put_part(image, p, index, from, &mut room, out))
}
