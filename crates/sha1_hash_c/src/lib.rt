// SHA-1 for callers in C, as a static library. It hands on to the function of crate `sha1_hash`, and promises the same.
#![tactic(auto)]

ghost use Rattle.std.specs.Prelude.{◌≡◌};
ghost use Rattle.sha1_hash.specs.Sha1.{digest};

// The digest of a slice, stored in `out`.
#[unsafe(no_mangle)]
pub extern "C" fn nepuladrim_sha1(s: &[u8], out: &mut [u8; 20])
    ensures { out.new ≡ digest s.now }
{
    sha1_hash::nepuladrim_sha1(s, out)
}
