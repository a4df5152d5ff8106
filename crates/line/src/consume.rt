// Consumers of any line: one byte, or as many as a buffer holds.
ghost use Rattle.line.specs.Lines.{ByteTaken, Filled};

use crate::line::Line;

// The first byte that waits; none where nothing waits.
pub fn take_byte<L: Line>(line: &mut L) -> Option<u8>
    ensures taken { ByteTaken L.Line.waiting L.Line.steps line.old result line.new }
{
    let mut byte = [0];
    if line.take(&mut byte) == 0 {
        return None;
    }
    Some(byte[0])
}

// Asks the line until `out` is full or nothing waits, and answers how many bytes came: the smaller of both lengths.
pub fn fill<L: Line>(line: &mut L, out: &mut [u8]) -> usize
    ensures steps { L.Line.steps line.old result line.new }
    ensures filled { Filled (L.Line.waiting line.old) out.old result (L.Line.waiting line.new) out.new }
{
    let most = out.len();
    let mut done = 0;
    // The line picks how many bytes come, so there is nothing to go through by a `for`.
    while done < most {
        let k = line.take(&mut out[done..most]);
        if k == 0 {
            break;
        }
        done += k;
    }
    done
}
