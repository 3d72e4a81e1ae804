// Reading a whole buffer, for the programs that read records. What a read gives is the operating system's
// to say, so the contract names no bytes.
#![tactic(auto)]

ghost use Rattle.std.specs.Prelude.{◌≤◌, length};

use std::io::Read;

// Fills `bytes` as far as the input goes, and answers how far: to its end, to the end of the input or
// to a read that fails.
pub fn read_full<I: Read>(input: &mut I, bytes: &mut [u8]) -> usize
    ensures { result ≤ length bytes.old }
{
    let mut done = 0;
    // Stays a while loop: a read gives as many bytes as it gives, and no index is counted.
    while done < bytes.len() {
        let n = input.read(&mut bytes[done..]).unwrap_or(0);
        if n == 0 {
            break;
        }
        done += n;
    }
    done
}
