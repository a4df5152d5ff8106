// The prefixes at a place are judged, place after place.
ghost use Rattle.std.specs.Prelude.{◌≡◌, ◌+◌, ◌-◌, ◌*◌, ◌^◌, ◌<◌, ◌≤◌, [], length, drop};
ghost use Rattle.reader.specs.Ledgers.{seen};
ghost use Rattle.reader.specs.Progress.{LeftOf, PassedOver, Moves, Bounds};
ghost use Rattle.reading.specs.Reading.{Waits};

use crate::ledger::Ledger;
use reading::family::Family;
use reading::message::Verdict;
use reading::sink::Sink;

// The bytes from a place on, and the next length to judge there.
#[derive(Clone, Copy)]
pub(crate) struct Cursor<'a> {
    rest: &'a [u8],
    next: usize,
    ghost some: { 1 ≤ next },
}

// Passes over the first of `rest` that are at fault alone.
fn pass_quiet<'a, F: Family>(rest: &'a [u8], ledger: &mut Ledger<F::Record>) -> Cursor<'a>
    requires few { ledger.old.skipped + length rest.now < 2 ^ 64 }
    ensures passed { PassedOver F.model ledger.old rest.now ledger.new result.rest.now }
    ensures waits { Waits F.model [] result.next }
{
    let n = F::quiet(rest);
    ledger.pass_over(n);
    Cursor {
        rest: &rest[n..],
        next: F::next_check(&[]),
    }
}

// Judges the next prefix.
fn step<'a, F: Family, S: Sink>(
    cursor: Cursor<'a>,
    ledger: &mut Ledger<F::Record>,
    sink: &mut S,
) -> Cursor<'a>
    requires within { cursor.next ≤ length cursor.rest.now }
    requires bounds { Bounds ledger.old (length cursor.rest.now) (cursor.next - 1) }
    ensures left { LeftOf cursor.entry.rest.now result.rest.now }
    ensures bounds { Bounds ledger.new (length result.rest.now) (result.next - 1) }
    ensures all { seen ledger.new (length result.rest.now) ≡ seen ledger.old (length cursor.entry.rest.now) }
    ensures falls { 4098 * length result.rest.now + (4097 - result.next) < 4098 * length cursor.entry.rest.now + (4097 - cursor.entry.next) }
    ensures moves { Moves F.model S.took ledger.old cursor.entry.rest.now (cursor.entry.next - 1) sink.old ledger.new result.rest.now (result.next - 1) sink.new }
{
    let Cursor { rest, next } = cursor;
    let prefix = &rest[..next];
    match F::judge(prefix) {
        Verdict::Wait => Cursor {
            rest,
            next: F::next_check(prefix),
        },
        Verdict::Early(body) => {
            ledger.tell(body, sink);
            Cursor {
                rest,
                next: F::next_check(prefix),
            }
        }
        Verdict::Fault(defect) => {
            ledger.skip(next, defect, sink);
            pass_quiet::<F>(&rest[1..], ledger)
        }
        Verdict::Whole(body) => {
            F::absorb(&mut ledger.record, prefix);
            ledger.accept(next, body, sink);
            pass_quiet::<F>(&rest[next..], ledger)
        }
    }
}

// Judges all that can be judged of `bytes`, at the first place from the length `next` on, and returns how many bytes are left.
pub(crate) fn scan<F: Family, S: Sink>(
    bytes: &[u8],
    next: usize,
    ledger: &mut Ledger<F::Record>,
    sink: &mut S,
) -> usize
    requires some { 1 ≤ next }
    requires bounds { Bounds ledger.old (length bytes.now) (next - 1) }
    ensures within { result ≤ length bytes.now }
    ensures bounds { Bounds ledger.new result result }
    ensures all { seen ledger.new result ≡ seen ledger.old (length bytes.now) }
    ensures moves { Moves F.model S.took ledger.old bytes.now (next - 1) sink.old ledger.new (drop (length bytes.now - result) bytes.now) result sink.new }
{
    let mut cursor = Cursor { rest: bytes, next };
    // Each verdict says where the cursor goes, so there is nothing to go through by a `for`.
    while cursor.next <= cursor.rest.len() {
        cursor = step::<F, S>(cursor, ledger, sink);
    }
    cursor.rest.len()
}
