// The calls by their numbers, with arguments in the order of the judge's table, oracle/src/image.
use format::Layout;
use sections::Places;
use string_tables::Place;
use string_walk::Counts;
use test_frames::{Answer, HEAD, Results, cut, results};

// The answer of a call.
pub fn answer_call(head: &[u8; HEAD], image: &[u8]) -> Option<Answer> {
    let layout = test_frames::layout(head, 0)?;
    let answer = match test_frames::number(head) {
        30 => admission::admit(image, layout).map(|p| starts_of(p)),
        31 => admission::admit(image, layout).map(|p| counts_of(p)),
        35 => located(image, layout, test_frames::word(head, 1) as usize),
        _ => return None,
    };
    Some(answer)
}

// The byte of a layout in document 01: 0 modern; 1 legacy, 2 with big integers, 3 with sources, 4 both.
fn layout_byte(layout: Layout) -> u32 {
    match layout {
        Layout::Modern => 0,
        Layout::Legacy {
            big_integers,
            function_sources,
        } => 1 + big_integers as u32 + 2 * function_sources as u32,
    }
}

// Of an admitted image. An answer has too few results for the whole record of places: one call gives
// the counts, the other all else.
fn counts_of(p: Places) -> Results {
    results([
        cut(p.functions),
        cut(p.kinds),
        cut(p.identifiers),
        cut(p.strings),
        cut(p.overflows),
        cut(p.storage_size),
    ])
}

fn starts_of(p: Places) -> Results {
    results([
        layout_byte(p.layout),
        cut(p.kinds_at),
        cut(p.hashes_at),
        cut(p.small_at),
        cut(p.over_at),
        cut(p.storage_at),
        cut(p.tail),
        cut(p.footer),
    ])
}

// A string of an image by its id, how many table entries are visited to find it, and its rank.
fn located(image: &[u8], layout: Layout, id: usize) -> Answer {
    reader::string(image, layout, id).map(|location| {
        let string = location.string;
        found(string.start, string.place, string.rank, location.counts)
    })
}

// How many bytes so many units have, cut as a number is.
fn bytes_of(count: usize, wide: bool) -> u32 {
    let units = cut(count);
    if wide {
        std::num::wrapping_add_u32(units, units)
    } else {
        units
    }
}

// A rank plus 1; 0 for none, so that none and the first one differ.
fn told(rank: Option<usize>) -> u32 {
    match rank {
        Some(n) => std::num::wrapping_add_u32(cut(n), 1),
        None => 0,
    }
}

fn found(start: usize, place: Place, rank: Option<usize>, counts: Counts) -> Results {
    let number = told(rank);
    results([
        cut(start),
        bytes_of(place.count, place.wide),
        cut(place.count),
        place.wide as u32,
        (number > 0) as u32,
        cut(counts.small),
        cut(counts.over),
        number,
    ])
}
