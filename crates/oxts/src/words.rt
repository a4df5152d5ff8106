// Little-endian words in a packet. A byte past the end of the packet counts as 0.
ghost use Rattle.std.specs.Prelude.{◌≡◌, ◌+◌, ◌<◌, ◌≤◌, length, take, drop, map, slice_index, MatchOption};
ghost use Rattle.std.specs.List.{range_with_len};
ghost use Rattle.oxts.specs.Words.{signed24};

use std::array;

pub fn byte_at(bytes: &[u8], at: usize) -> u8
    ensures value { result ≡ slice_index bytes.now at }
{
    bytes.get(at).copied().unwrap_or(0)
}

// The N bytes from a place on, where there are so many.
fn whole_at<const N: usize>(bytes: &[u8], at: usize) -> Option<[u8; N]>
    ensures whole { MatchOption result (length bytes.now < at + N) (λ word. (at + N ≤ length bytes.now) × (word ≡ take N (drop at bytes.now))) }
{
    bytes.get(at..)?.first_chunk().copied()
}

// The N bytes from a place on. Where all are there they are copied at once, which is faster than one by one.
pub fn bytes_at<const N: usize>(bytes: &[u8], at: usize) -> [u8; N]
    ensures value { result ≡ map (λ i. slice_index bytes.now (at + i)) (range_with_len 0 N) }
{
    match whole_at(bytes, at) {
        Some(word) => word,
        None => array::from_fn(|i| byte_at(bytes, at.saturating_add(i))),
    }
}

// A signed 24-bit word, lowest byte first: the sign is that of the highest byte.
pub fn read_i24(word: [u8; 3]) -> i32
    ensures value { result ≡ signed24 (slice_index word 0) (slice_index word 1) (slice_index word 2) }
{
    let [lo, mid, hi] = word;
    i32::from_le_bytes([0, lo, mid, hi]) >> 8
}
