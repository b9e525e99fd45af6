// Bytes as one number, the first of them highest, and back. A number has 64 bits: of more than 8 bytes nothing is done. `loaded` and
// `stored` (PROMISES) say so of every input, so that neither answers with a Result.
ghost use Rattle.std.specs.Prelude.{◌≡◌};
ghost use Rattle.bits.specs.Loading.{loaded, stored};

// The number of all bytes, if they are `count`; else 0. The count is asked for because the contract of `load` (PROMISES) has it.
#[tactic(auto, using(crate::proofs::Loading::room), unfolding(crate::specs::Loading::loaded))]
pub fn load(bytes: &[u8], count: usize) -> u64
    ensures { result ≡ loaded count bytes.now }
{
    if bytes.len() != count || 8 < count {
        return 0;
    }
    let mut number: u64 = 0;
    for byte in bytes {
        number = number * 256 + *byte as u64;
    }
    number
}

// The `count` lowest bytes of a number, at the start of `bytes`, if they have room there. The count stands beside the slice because a
// caller passes one that the compiler knows, which unrolls the loop.
#[tactic(auto, unfolding(crate::specs::Loading::stored))]
pub fn store(number: u64, count: usize, bytes: &mut [u8])
    ensures memory { bytes.new ≡ stored number count bytes.old }
{
    if bytes.len() < count || 8 < count {
        return;
    }
    // Counted by hand: a shift reckoned from an index keeps this from being inlined into `by_size::sized`, and `read_line` misses a bar.
    let mut at = 8 * count;
    for byte in &mut bytes[..count] {
        at -= 8;
        *byte = ((number >> at) % 256) as u8;
    }
}
