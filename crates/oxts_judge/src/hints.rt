// Hints for a reader of a format: lengths and bytes that need not be judged one by one.
ghost use Rattle.std.specs.Prelude.{◌≡◌, ◌<◌, ◌≤◌, false, length};
ghost use Rattle.reading.specs.Reading.{Waits, Quiet};
ghost use Rattle.oxts.specs.declared.format.Format.{Format};
ghost use Rattle.oxts_judge.specs.Models.{bare_model, NoSync};

use oxts::format::Format;

// The next length at which anything is judged.
pub fn next_check(format: Format, prefix: &[u8]) -> usize
    ensures above { length prefix.now < result }
    ensures waits { Waits (bare_model format) prefix.now result }
{
    let longest = format.longest();
    match prefix.len() {
        0 => 1,
        1..=21 => 22,
        22 => 23,
        23..=61 => 62,
        n if n < longest => longest,
        _ => usize::MAX,
    }
}

// Looks at every byte, with no branch to leave the loop by.
fn has_sync(block: &[u8]) -> bool
    ensures none { result ≡ false → NoSync block.now (length block.now) }
{
    let mut found = false;
    for b in block {
        found |= *b == 0xE7;
    }
    found
}

// How many of the first bytes lie in blocks of 16 without a sync byte. The library's search was tried here: it takes half
// as long again where the next sync byte is a packet away, and over four times as long where it is two bytes away.
// `within` and `none` stand in both of the next two: a struct of slice and number would be taken apart by `quiet` at once.
fn quiet_blocks(bytes: &[u8]) -> usize
    ensures within { result ≤ length bytes.now }
    ensures none { NoSync bytes.now result }
{
    let mut n = 0;
    for block in bytes.chunks_exact(16) {
        if has_sync(block) {
            return n;
        }
        // The bytes of the blocks that the `for` has gone over: by `take_while` and `count` it took longer.
        n += 16;
    }
    n
}

// How many of the first bytes are not the sync byte, looking at one after the other.
fn quiet_rest(bytes: &[u8]) -> usize
    ensures within { result ≤ length bytes.now }
    ensures none { NoSync bytes.now result }
{
    bytes.iter().position(|b| *b == 0xE7).unwrap_or(bytes.len())
}

// How many of the first bytes are not the sync byte. Where the first one is, nothing more is looked at.
pub fn quiet(bytes: &[u8]) -> usize
    ensures within { result ≤ length bytes.now }
    ensures quiet { (f : Format) → Quiet (bare_model f) bytes.now result }
{
    match bytes {
        [] | [0xE7, ..] => 0,
        _ => {
            let clear = quiet_blocks(bytes);
            clear + quiet_rest(&bytes[clear..])
        }
    }
}
