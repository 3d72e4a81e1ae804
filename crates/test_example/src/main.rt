// Writes the image of document 01's marked example j to standard output, as the builder makes it: a
// modern image of version 97 with the strings "a" and "bc" and one function with a body of 4 bytes.
#![tactic(auto)]

use std::io;

// The length of the image.
const LENGTH: usize = 220;

fn main(rt: HostRuntime) -> io::Result<()> {
    let mut image = [0u8; LENGTH];
    let answer = serialize::build_minimal_modern(
        97,
        b"abc",
        &[1, 3],
        b"\x01\x02\x03\x04",
        &mut image,
    );
    if answer.is_ok() {
        rt.write_all(&image)?;
    }
    Ok(())
}
