// The calls by their numbers, with arguments in the order of the judge's table, oracle/src/index.
use test_frames::{Answer, HEAD, LIST, cut, results, word};

// A call's buffer before its output: the image, if it has one, and the index. Only the listing has an
// output.
pub fn inputs_length(head: &[u8; HEAD]) -> usize {
    match test_frames::number(head) {
        39 => word(head, 1) as usize + word(head, 2) as usize * 4,
        _ => test_frames::buffer_length(head),
    }
}

// Where the index starts: behind the image.
fn index_at(head: &[u8; HEAD]) -> usize {
    match test_frames::number(head) {
        38 => 0,
        _ => word(head, 1) as usize,
    }
}

// The answer of a call. Index and output are left as the function that it names leaves them.
pub fn answer_call(head: &[u8; HEAD], inputs: &mut [u8], out: &mut [u8]) -> Option<Answer> {
    let at = index_at(head);
    let bytes = inputs.len().checked_sub(at)?;
    let count = bytes / 4;
    if count > LIST || count * 4 != bytes {
        return None;
    }
    let mut index = test_frames::list(inputs, at, count);
    let answer = answer_with(head, &inputs[0..at], &mut index[0..count], out);
    test_frames::put_list(inputs, at, &index, count);
    answer
}

fn answer_with(
    head: &[u8; HEAD],
    image: &[u8],
    index: &mut [u32],
    out: &mut [u8],
) -> Option<Answer> {
    match test_frames::number(head) {
        37 => filled(head, image, index),
        38 => Some(looked_up(head, index)),
        39 => listed(head, image, index, out),
        _ => None,
    }
}

fn filled(head: &[u8; HEAD], image: &[u8], index: &mut [u32]) -> Option<Answer> {
    let layout = test_frames::layout(head, 0)?;
    let answer = string_index::fill_index(image, layout, index);
    Some(answer.map(|count| results([cut(count)])))
}

fn looked_up(head: &[u8; HEAD], index: &[u32]) -> Answer {
    let count = test_frames::long(head, 0) as usize;
    let id = test_frames::long(head, 2) as usize;
    string_index::look_up(index, count, id).map(|entry| results([
        entry.offset,
        entry.length,
        entry.flags,
    ]))
}

fn listed(head: &[u8; HEAD], image: &[u8], index: &mut [u32], out: &mut [u8]) -> Option<Answer> {
    let layout = test_frames::layout(head, 0)?;
    let from = test_frames::long(head, 3) as usize;
    let answer = listing_pieces::list(image, layout, from, index, out);
    Some(answer.map(|length| results([cut(length)])))
}
