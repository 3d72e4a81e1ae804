// The footer of an image, its last 20 bytes: the SHA-1 of all bytes before them. A port of the
// Rust's footer.rs and of `finalize_raw_image` of its serialize.rs.
//
// Where the Rust grows a vector, a function here takes a lent buffer and the length of what is in
// it, and answers the new length; the buffer's other bytes stay. A refusal changes no byte. So it stays: there is
// no heap, and the buffer is its caller's.
#![tactic(auto)]

ghost use Rattle.std.specs.Prelude.{◌≡◌, ◌+◌, ◌≤◌, length, take};
ghost use Rattle.std.proofs.lemmas.List.Edits.{sets};
ghost use Rattle.bits.specs.Outcome.{Answers};
ghost use Rattle.sha1_hash.specs.Sha1.{digest};
ghost use Rattle.footer.specs.Footer.{footer_length, append_of, rehash_of, same, verified};
ghost use Rattle.footer.specs.Finalize.{finalize_of};

use refusals::Refusal;

// The length of a footer.
pub const FOOTER_LEN: usize = 20;

// The least length of an image that can be finalized: its file length field ends there.
pub const LEAST_LENGTH: usize = format::FILE_LENGTH_END;

// The greatest length of an image.
pub const SIZE_LIMIT: usize = 67108864;

// The footer of an image, from its bytes without one.
pub fn compute_file_hash(bytes: &[u8]) -> [u8; FOOTER_LEN]
    ensures { result ≡ digest bytes.now }
{
    sha1_hash::sha1(bytes)
}

// The footer of the first `len` bytes, stored after them.
fn put_footer(buf: &mut [u8], len: usize)
    requires { len + footer_length ≤ length buf.old }
    ensures { buf.new ≡ sets buf.old len (digest (take len buf.old)) }
{
    let hash = compute_file_hash(&buf[..len]);
    bits::put_bytes(buf, len, &hash);
}

// Appends the footer to the image in the first `len` bytes. Refused with 13 where the buffer has
// no room for it.
pub fn append_footer(buf: &mut [u8], len: usize) -> Result<usize, Refusal>
    ensures { Answers (append_of buf.old len) result buf.old buf.new }
{
    if buf.len() < FOOTER_LEN || buf.len() - FOOTER_LEN < len {
        return Err(refusals::ROOM);
    }
    put_footer(buf, len);
    Ok(len + FOOTER_LEN)
}

// Replaces the footer that ends the image in the first `len` bytes. An image too short to have one
// gets one appended.
pub fn rehash_footer(buf: &mut [u8], len: usize) -> Result<usize, Refusal>
    ensures { Answers (rehash_of buf.old len) result buf.old buf.new }
{
    if len < FOOTER_LEN {
        return append_footer(buf, len);
    }
    append_footer(buf, len - FOOTER_LEN)
}

// Whether two slices hold the same bytes.
pub fn same_bytes(a: &[u8], b: &[u8]) -> bool
    ensures { result ≡ same a.now b.now }
{
    a == b
}

// Whether the last 20 bytes are the footer of those before them.
pub fn verify_footer(buf: &[u8]) -> bool
    ensures { result ≡ verified buf.now }
{
    if buf.len() < FOOTER_LEN {
        return false;
    }
    let end = buf.len() - FOOTER_LEN;
    let hash = compute_file_hash(&buf[..end]);
    same_bytes(&buf[end..], &hash)
}

// Puts the file length in its place and then the footer over the last 20 bytes: in an image of
// fewer than 56 bytes the two overlap, and the footer is what stays. Refused with 1 where the image
// is too short to hold its length, or longer than an image may be.
pub fn finalize_raw_image(buf: &mut [u8]) -> Result<usize, Refusal>
    ensures { Answers (finalize_of buf.old) result buf.old buf.new }
{
    let n = buf.len();
    if n < LEAST_LENGTH || SIZE_LIMIT < n {
        return Err(refusals::SIZE);
    }
    format::put_word(buf, 0, format::FILE_LENGTH, n as u64);
    put_footer(buf, n - FOOTER_LEN);
    Ok(n)
}
