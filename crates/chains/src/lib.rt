// Keys in buckets, over lent words: the head of each bucket, then a link for each key. A head or a
// link is one more than the number of a key, 0 where there is none. A link leads to a lower key, so
// a chain ends. It stays numbers in lent words, where a map would do elsewhere: there is no heap.
#![tactic(auto)]

ghost use Rattle.std.specs.Prelude.{◌≡◌, ◌+◌, ◌≤◌, ◌<◌, length, get_or, replicate};
ghost use Rattle.std.proofs.lemmas.List.Edits.{sets};
ghost use Rattle.chains.specs.Chains.{entered};

// The head or link at a place.
pub fn word_at(work: &[u32], at: usize) -> usize
    requires { at < length work.now }
    ensures { (result ≡ get_or work.now at 0) × (result < 4294967296) }
{
    work[at] as usize
}

// `n` zeros from a place on.
pub fn clear(work: &mut [u32], from: usize, n: usize)
    requires { from + n ≤ length work.old }
    ensures { work.new ≡ sets work.old from (replicate n 0) }
{
    bits::put_copies(work, from, n, 0);
}

// Key `k` enters a bucket, of `m`: its link takes the head, and it becomes the head.
pub fn enter(work: &mut [u32], m: usize, k: usize, bucket: usize)
    requires { (bucket < m) × (m + k < length work.old) × (k + 1 < 4294967296) }
    ensures { work.new ≡ entered work.old m k bucket }
{
    work[m + k] = work[bucket];
    work[bucket] = (k + 1) as u32;
}
