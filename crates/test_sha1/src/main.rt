// Prints the SHA-1 of each message on standard input, as 40 hexadecimal digits and a line feed.
//
// A message is a length of 4 bytes, lowest first, and its bytes. Where the top bit of the length is
// set, one byte follows, and the message is that byte repeated, as often as the other bits say. The
// program stops at the end of the input, at a message cut short, and at one longer than its room.
#![tactic(auto)]

use std::io::{Read, Write};

// The longest message.
const ROOM: usize = 1048576;

// The top bit of a length.
const REPEATED: u64 = 2147483648;

// The length of a message, as it stands; None at the end.
fn read_head<I: Read>(input: &mut I) -> Option<u64> {
    let mut bytes = [0u8; 4];
    if input.read_exact(&mut bytes).is_err() {
        return None;
    }
    Some(bits::word(&bytes, 0))
}

// Reads a message's bytes, or the one that is repeated, to all of `out`.
fn read_message<I: Read>(input: &mut I, out: &mut [u8], repeated: bool) -> bool {
    if repeated {
        let mut byte = [0u8; 1];
        if input.read_exact(&mut byte).is_err() {
            return false;
        }
        out.fill(byte[0]);
        return true;
    }
    input.read_exact(out).is_ok()
}

fn print_digest<O: Write>(output: &mut O, digest: [u8; 20]) -> bool {
    for byte in digest {
        if write!(output, "{byte:02x}").is_err() {
            return false;
        }
    }
    output.write_all(b"\n").is_ok()
}

// Reads one message to `room` and prints its digest. Answers whether there can be more.
fn answer<I: Read, O: Write>(input: &mut I, output: &mut O, room: &mut [u8]) -> bool {
    let Some(word) = read_head(input) else {
        return false;
    };
    let n = (word % REPEATED) as usize;
    if room.len() < n {
        return false;
    }
    read_message(input, &mut room[..n], REPEATED <= word)
        && print_digest(output, sha1_hash::sha1(&room[..n]))
}

// A proved loop has to end, and nothing says that the input does: its turns have a bound that no run
// uses up.
fn answer_all<I: Read, O: Write>(input: &mut I, output: &mut O, room: &mut [u8; ROOM]) {
    for _ in 0..u64::MAX {
        if !answer(input, output, room) {
            break;
        }
    }
}

fn main(rt: HostRuntime) {
    let mut input = rt.stdin();
    let mut output = rt.stdout();
    let mut room = [0u8; ROOM];
    answer_all(&mut input, &mut output, &mut room);
}
