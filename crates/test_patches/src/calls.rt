// The calls by their numbers, with arguments in the order of the judge's table, oracle/src/patches.
use format::{Layout, Mode};
use refusals::Refusal;
use test_frames::{Answer, HEAD, LIST, results, word};

// A call's buffer before its output: the old value (or the lists of a pass), the new one (or the body,
// or the text of a pass), the image.
pub fn inputs_length(head: &[u8; HEAD]) -> usize {
    word(head, 2) as usize + word(head, 3) as usize + word(head, 4) as usize
}

// The last mode word of a call: string patches have two modes, a body patch has one.
fn last_mode(number: u64) -> u32 {
    if number == 34 { 0 } else { 1 }
}

// The answer of a call. Its output is left as the function that it names leaves it.
pub fn answer_call(head: &[u8; HEAD], inputs: &[u8], out: &mut [u8]) -> Option<Answer> {
    let number = test_frames::number(head);
    let layout = test_frames::layout(head, 0)?;
    let old_end = word(head, 2) as usize;
    let new_end = old_end + word(head, 3) as usize;
    if word(head, 5) > last_mode(number) || new_end > inputs.len() {
        return None;
    }
    let mode = test_frames::mode(head, 5);
    let id = word(head, 1) as usize;
    let old = &inputs[0..old_end];
    let new = &inputs[old_end..new_end];
    let image = &inputs[new_end..];
    let answer = match number {
        32 => strings::patch_string_by_id(image, layout, mode, id, new, out),
        33 => strings::patch_string_replace(image, layout, mode, old, new, out),
        34 => functions::patch_function_bytes(image, layout, id, new, out),
        36 => passed(image, layout, mode, old, id, new, out)?,
        _ => return None,
    };
    Some(answer.map(|length| results([test_frames::cut(length)])))
}

// A pass: its lists are `count` ids and then the ends, a word each.
fn passed<'a>(
    image: &'a [u8],
    layout: Layout,
    mode: Mode,
    lists: &[u8],
    count: usize,
    text: &'a [u8],
    out: &mut [u8],
) -> Option<Result<usize, Refusal>> {
    let rest = (lists.len() / 4).checked_sub(count)?;
    if count > LIST || rest > LIST {
        return None;
    }
    let ids = test_frames::list(lists, 0, count);
    let ends = test_frames::list(lists, count * 4, rest);
    Some(strings::patch_strings(
        image,
        layout,
        mode,
        &ids[0..count],
        text,
        &ends[0..rest],
        out,
    ))
}
