// Writes the listing of an input, as it is made: a batch of pieces at a time, in
// one room, by an index that is filled first.
#![tactic(auto)]

ghost use Rattle.std.specs.Prelude.{◌≡◌, ◌≤◌, length, Ok};
ghost use Rattle.listing_pieces.specs.Pieces.{opened, Ready};

use listing_pieces::{INDEX, Point, ROOM};
use refusals::Refusal;
use sections::Places;
use std::io::Write;

fn print_refusal<O: Write>(output: &mut O, refusal: Refusal) -> bool {
    let mut line = [0u8; 32];
    let end = listing_lines::put_refused(&mut line, 0, refusal.number() as u64);
    output.write_all(&line[0..end]).is_ok()
}

// Writes the lines of an admitted image. Answers whether all could be written.
fn print_lines<O: Write>(
    output: &mut O,
    image: &[u8],
    p: Places,
    index: &[u32],
    room: &mut [u8],
) -> bool
    requires ready { Ready p image.now index.now }
    requires in_bounds { 65536 ≤ length room.old }
{
    let mut point = Point::Counts;
    // Stays a while loop: it goes from point to point, and no index is counted.
    while !listing_pieces::is_end(point) {
        let piece = listing_pieces::put_pieces(image, p, index, point, room);
        let end = piece.end;
        if output.write_all(&room[0..end]).is_err() {
            return false;
        }
        point = piece.next;
    }
    true
}

// Writes the lines of the image in an input that was opened.
fn print_image<O: Write>(
    output: &mut O,
    input: &[u8],
    p: Places,
    index: &mut [u32],
    room: &mut [u8],
) -> bool
    requires input_value { opened input.now ≡ Ok p }
    requires in_bounds { (49152 ≤ length index.old) × (65536 ≤ length room.old) }
{
    let from = input_records::IMAGE_HEAD;
    let image = &input[from..];
    string_index::fill(index, image, p);
    print_lines(output, image, p, index, room)
}

// Writes the listing of an input: the lines of its image, or its refusal.
pub fn print<O: Write>(
    output: &mut O,
    input: &[u8],
    index: &mut [u32; INDEX],
    room: &mut [u8; ROOM],
) -> bool {
    match listing_pieces::open(input) {
        Ok(p) => print_image(output, input, p, index, room),
        Err(refusal) => print_refusal(output, refusal),
    }
}
