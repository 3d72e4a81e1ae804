// Lists the strings and functions of an image. One `IM` record comes in on standard input: the mark,
// a layout byte, the length in 4 bytes, the image. The lines, or `refused N`, go out on standard
// output. Where standard input cannot be read, nothing does; standard error then has a line, as it has
// where standard output cannot be written.
#![tactic(auto)]

use std::io::Read;

// One byte more than the longest record, so that a byte after it is seen.
const ROOM: usize = 65544;

// Whether the input ends here: behind a read that was short, one more tells an end from a failure.
fn is_at_end<I: Read>(input: &mut I) -> bool {
    let mut byte = [0u8; 1];
    matches!(input.read(&mut byte), Ok(0))
}

fn main(rt: HostRuntime) {
    let mut stdin = rt.stdin();
    let mut input = [0u8; ROOM];
    let n = whole_reads::read_full(&mut stdin, &mut input);
    if n < ROOM && !is_at_end(&mut stdin) {
        let _ = rt.eprintln("standard input cannot be read");
        return;
    }
    let mut index = [0u32; listing_pieces::INDEX];
    let mut room = [0u8; listing_pieces::ROOM];
    let mut stdout = rt.stdout();
    if !listing_io::print(&mut stdout, &input[0..n], &mut index, &mut room) {
        let _ = rt.eprintln("standard output cannot be written");
    }
}
