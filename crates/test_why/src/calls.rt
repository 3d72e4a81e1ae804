// The call by its number, with arguments in the order of the judge's table, oracle/src/why.
use refusals::Refusal;
use string_reasons::Reason;
use test_frames::{Answer, HEAD, LIST, results, word};

// A call's buffer before its index: the value and the image.
pub fn inputs_length(head: &[u8; HEAD]) -> usize {
    word(head, 4) as usize + word(head, 5) as usize
}

// The answer of a call. The words of its index are left as `why` leaves them.
pub fn answer_call(head: &[u8; HEAD], inputs: &[u8], bytes: &mut [u8]) -> Option<Answer> {
    let value_end = word(head, 4) as usize;
    let count = bytes.len() / 4;
    if value_end > inputs.len() || count > LIST || count * 4 != bytes.len() {
        return None;
    }
    let mut index = test_frames::list(bytes, 0, count);
    let value = &inputs[0..value_end];
    let answer = answer_with(head, value, &inputs[value_end..], &mut index[0..count]);
    test_frames::put_list(bytes, 0, &index, count);
    answer
}

fn answer_with<'a>(
    head: &[u8; HEAD],
    value: &'a [u8],
    image: &'a [u8],
    index: &mut [u32],
) -> Option<Answer> {
    let layout = test_frames::layout(head, 0)?;
    if test_frames::number(head) != 40 || word(head, 1) > 1 {
        return None;
    }
    let id = test_frames::long(head, 2) as usize;
    let mode = test_frames::mode(head, 1);
    told(string_reasons::why(image, layout, mode, id, value, index))
}

// A reason as three words: its code, and two that are 0 where it has none.
fn told(reason: Reason) -> Option<Answer> {
    let words = match reason {
        Reason::Refused(number) => return Some(Err(refusal_of(number)?)),
        Reason::InPlace => results([0]),
        Reason::Wide => results([1]),
        Reason::NotAscii => results([2]),
        Reason::Lengths(entry, value) => results([3, entry, value]),
        Reason::Overlap(id) => results([4, id]),
    };
    Some(Ok(words))
}

// The refusal that a reason gives by its number. None for a number that no reason has: it gets no answer.
fn refusal_of(number: u8) -> Option<Refusal> {
    match number {
        1 => Some(refusals::SIZE),
        2 => Some(refusals::MAGIC),
        3 => Some(refusals::SECTIONS),
        4 => Some(refusals::KINDS),
        5 => Some(refusals::STRING),
        6 => Some(refusals::FUNCTION),
        7 => Some(refusals::ID),
        8 => Some(refusals::VALUE),
        11 => Some(refusals::LIMIT),
        12 => Some(refusals::FIELD),
        13 => Some(refusals::ROOM),
        _ => None,
    }
}
