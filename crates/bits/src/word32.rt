// The operators of 32-bit words, each against its definition.
ghost use Rattle.std.specs.Prelude.{◌≡◌, ◌<◌};
ghost use Rattle.bits.specs.Word32.{add32, xor32, and32, rotl32};

// The sum modulo 2^32.
pub fn add(a: u32, b: u32) -> u32
    ensures { result ≡ add32 a b }
{
    std::num::wrapping_add_u32(a, b)
}

pub fn xor(a: u32, b: u32) -> u32
    ensures { result ≡ xor32 a b }
{
    a ^ b
}

pub fn and(a: u32, b: u32) -> u32
    ensures { result ≡ and32 a b }
{
    a & b
}

// The word rotated to the left by `n` digits.
pub fn rotl(n: u32, x: u32) -> u32
    requires { (0 < n) × (n < 32) }
    ensures { result ≡ rotl32 n x }
{
    (x << n) | (x >> (32 - n))
}
