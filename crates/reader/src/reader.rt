// The reader of a stream: a window over the bytes that are held, and the ledger of what was read before them.
ghost use Rattle.std.specs.Prelude.{◌≡◌, ◌+◌, ◌*◌, ◌^◌, ◌<◌, ◌≤◌};
ghost use Rattle.reader.specs.Ledgers.{seen};

use crate::ledger::Ledger;
use crate::window::Window;
use reading::family::Family;

mod feed;
mod questions;

// A reader reads at most so many bytes.
pub const MOST_BYTES: u64 = 0x100_0000_0000;

#[derive(Drop)]
pub struct Reader<F: Family> {
    window: Window,
    ledger: Ledger<F::Record>,
    pumped: u64,
    ghost all: { seen ledger window.held ≡ pumped },
    ghost few: { pumped ≤ 2 ^ 40 },
    ghost told: { ledger.messages ≤ 4096 * (ledger.accepted + ledger.skipped) + window.held },
    ghost whole: { ledger.whole ≤ ledger.accepted },
    ghost passes: { ledger.passed ≤ ledger.whole },
    ghost faulty: { ledger.faults ≤ ledger.skipped },
    ghost fits: { window.held < 264 },
}
