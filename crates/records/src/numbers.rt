// Little-endian numbers, and powers of two.
ghost use Rattle.std.specs.Prelude.{◌≡◌, ◌+◌, ◌^◌, ◌<◌, ◌≤◌, length, get_or};
ghost use Rattle.std.proofs.lemmas.List.Edits.{sets};
ghost use Rattle.records.specs.Meaning.Numbers.{u16_at, u16_bytes};

// The byte at an index, 0 past the end.
// An index and no cut, here and in all that reads by it: places are the format's, and promises name them.
pub fn byte_at(s: &[u8], at: usize) -> u8
    ensures { result ≡ get_or s.now at 0 }
{
    s.get(at).copied().unwrap_or(0)
}

// The two-byte number at an index.
#[tactic(auto, unfolding(crate::specs::Meaning::Numbers::u16_at))]
pub fn u16_at(s: &[u8], at: usize) -> u16
    requires { at + 1 < length s.now }
    ensures { result ≡ u16_at s.now at }
{
    u16::from_le_bytes([s[at], s[at + 1]])
}

// Writes a two-byte number at an index.
// An index and no cut of the slice, here and in what writes by it: the promise says of the whole slice that all else stays.
pub fn put_u16(out: &mut [u8], at: usize, value: u16)
    requires { at + 1 < length out.old }
    ensures { out.new ≡ sets out.old at (u16_bytes value) }
{
    let [low, high] = value.to_le_bytes();
    out[at] = low;
    out[at + 1] = high;
}

// 2 to the n.
pub fn pow2(n: u8) -> usize
    requires { n ≤ 8 }
    ensures { result ≡ 2 ^ n }
{
    1usize << n
}
