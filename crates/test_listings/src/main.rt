// Many runs of the listing program in one: each input that comes in on standard input is listed to
// standard output as program `listing` lists it.
//
// An input is written as two numbers of 4 bytes, lowest first, and as many bytes as the first one
// says; zeros follow, as many as the second one says. The program stops at the end of the input, at
// an input cut short, and at one longer than its room.
#![tactic(auto)]

ghost use Rattle.std.specs.Prelude.{◌≤◌, length};

use std::io::{Read, Write};

// As much as program `listing` reads of its input.
const ROOM: usize = 65544;

// How many bytes of an input are read, and how many zeros follow; None at the end.
fn read_head<I: Read>(input: &mut I) -> Option<(usize, usize)> {
    let mut bytes = [0u8; 8];
    if input.read_exact(&mut bytes).is_err() {
        return None;
    }
    Some((
        bits::word(&bytes, 0) as usize,
        bits::word(&bytes, 4) as usize,
    ))
}

// Fills `input` with `n` bytes read, and zeros.
fn read_input<I: Read>(stdin: &mut I, input: &mut [u8], n: usize) -> bool
    requires { n ≤ length input.old }
{
    let len = input.len();
    bits::put_zeros(input, 0, len);
    stdin.read_exact(&mut input[0..n]).is_ok()
}

// Reads an input that fills `input`, `n` bytes and zeros, and lists it.
fn list_input<I: Read, O: Write>(
    stdin: &mut I,
    stdout: &mut O,
    input: &mut [u8],
    n: usize,
    index: &mut [u32; listing_pieces::INDEX],
    room: &mut [u8; listing_pieces::ROOM],
) -> bool
    requires { n ≤ length input.old }
{
    read_input(stdin, input, n) && listing_io::print(stdout, input, index, room)
}

// Reads one input to the front of `inputs` and lists it. Answers whether there can be more.
fn list_next<I: Read, O: Write>(
    stdin: &mut I,
    stdout: &mut O,
    inputs: &mut [u8],
    index: &mut [u32; listing_pieces::INDEX],
    room: &mut [u8; listing_pieces::ROOM],
) -> bool {
    let Some((n, zeros)) = read_head(stdin) else {
        return false;
    };
    if inputs.len() < n || inputs.len() - n < zeros {
        return false;
    }
    let len = n + zeros;
    list_input(stdin, stdout, &mut inputs[0..len], n, index, room)
}

// A proved loop has to end, and nothing says that the stream does. So its turns have a bound that no
// run uses up.
fn list_all<I: Read, O: Write>(
    stdin: &mut I,
    stdout: &mut O,
    inputs: &mut [u8; ROOM],
    index: &mut [u32; listing_pieces::INDEX],
    room: &mut [u8; listing_pieces::ROOM],
) {
    for _ in 0..u64::MAX {
        if !list_next(stdin, stdout, inputs, index, room) {
            break;
        }
    }
}

fn main(rt: HostRuntime) {
    let mut stdin = rt.stdin();
    let mut stdout = rt.stdout();
    let mut inputs = [0u8; ROOM];
    let mut index = [0u32; listing_pieces::INDEX];
    let mut room = [0u8; listing_pieces::ROOM];
    list_all(&mut stdin, &mut stdout, &mut inputs, &mut index, &mut room);
}
