// The calls by their numbers, with arguments in the order of the judge's table, oracle/src/builder.
ghost use Rattle.std.specs.Prelude.{◌+◌, ◌*◌, ◌≤◌, length};

use refusals::Refusal;
use test_frames::{Answer, HEAD, Results, results, word};

// The longest buffer that a call may have.
pub const LONGEST: usize = 65536;

// The answer of a call. Its buffer is left as the function that it names leaves it.
pub fn answer_call(head: &[u8; HEAD], buffer: &mut [u8]) -> Option<Answer> {
    let answer = match test_frames::number(head) {
        14 => Ok(hashed(footer::compute_file_hash(buffer))),
        15 => lengthed(footer::append_footer(buffer, test_frames::long(head, 0) as usize)),
        16 => lengthed(footer::rehash_footer(buffer, test_frames::long(head, 0) as usize)),
        17 => Ok(results([footer::verify_footer(buffer) as u32])),
        18 => lengthed(footer::finalize_raw_image(buffer)),
        19 => built(head, buffer)?,
        _ => return None,
    };
    Some(answer)
}

// A hash comes back as five words.
fn hashed(hash: [u8; footer::FOOTER_LEN]) -> Results {
    results([
        bits::word(&hash, 0) as u32,
        bits::word(&hash, 4) as u32,
        bits::word(&hash, 8) as u32,
        bits::word(&hash, 12) as u32,
        bits::word(&hash, 16) as u32,
    ])
}

fn lengthed(answer: Result<usize, Refusal>) -> Answer {
    answer.map(|length| results([test_frames::cut(length)]))
}

// The builder on a text, ends and a body that stand one after the other, up to `end`.
fn built_from(
    version: u32,
    inputs: &[u8],
    text: usize,
    count: usize,
    end: usize,
    out: &mut [u8],
) -> Answer
    requires { (text + count * 4 ≤ end) × (end ≤ length inputs.now) × (count ≤ 1024) }
{
    let ends = test_frames::list(inputs, text, count);
    let body = text + count * 4;
    lengthed(serialize::build_minimal_modern(
        version,
        &inputs[0..text],
        &ends[0..count],
        &inputs[body..end],
        out,
    ))
}

// A call of the builder: text, ends and body stand in the buffer, before the output. They are lent
// from a copy, since the builder writes into the same buffer.
fn built(head: &[u8; HEAD], buffer: &mut [u8]) -> Option<Answer> {
    let text = word(head, 1) as usize;
    let count = word(head, 2) as usize;
    let out_at = text + count * 4 + word(head, 3) as usize;
    // No buffer is longer than LONGEST: the last test is there for the proof, which sees a slice of any length.
    if count > test_frames::LIST || out_at > buffer.len() || out_at > LONGEST {
        return None;
    }
    let mut inputs = [0u8; LONGEST];
    inputs[0..out_at].copy_from_slice(&buffer[0..out_at]);
    Some(built_from(
        word(head, 0),
        &inputs,
        text,
        count,
        out_at,
        &mut buffer[out_at..],
    ))
}
