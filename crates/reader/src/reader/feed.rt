// Feeding a reader: block after block goes behind what is held, and all that can be judged is judged.
ghost use Rattle.std.specs.Prelude.{◌≡◌, ◌+◌, ◌^◌, ◌<◌, ◌≤◌, [], length, OnOk};
ghost use Rattle.reader.specs.Ledgers.{seen};
ghost use Rattle.reader.specs.Progress.{Bounds};
ghost use Rattle.reader.specs.Standing.{Stands, Fed, Ran};

use crate::ledger::Ledger;
use crate::reader::{MOST_BYTES, Reader};
use crate::scan::scan;
use crate::window::Window;
use reading::family::Family;
use reading::refusal::Refusal;
use reading::sink::Sink;

// No packet of a family is longer.
const LONGEST: usize = 264;

// So many bytes fit behind those that are held.
const BLOCK: usize = 3832;

// Passes over what is held if it is as long as the longest packet of any family. For what stands for a byte string that is never so, by the laws of its family.
fn make_room<R>(window: &mut Window, ledger: &mut Ledger<R>)
    requires bounds { Bounds ledger.old window.old.held window.old.held }
    ensures short { window.new.held < 264 }
    ensures bounds { Bounds ledger.new window.new.held window.new.held }
    ensures all { seen ledger.new window.new.held ≡ seen ledger.old window.old.held }
    ensures kept { window.old.held < 264 → (window.new ≡ window.old) × (ledger.new ≡ ledger.old) }
{
    let held = window.held();
    if held >= LONGEST {
        ledger.pass_over(held);
        window.keep(0);
    }
}

impl<F: Family> Reader<F> {
    pub fn new() -> Reader<F>
        ensures stands { Stands F.model result [] }
    {
        Reader {
            window: Window::new(),
            ledger: Ledger::new(F::first()),
            pumped: 0,
        }
    }

    // Reads a block that fits behind what is held.
    fn take_in<S: Sink>(&mut self, block: &[u8], sink: &mut S)
        requires fits { length block.now ≤ 3832 }
        requires few { self.old.pumped + length block.now ≤ 2 ^ 40 }
        ensures pumped { self.new.pumped ≡ self.old.pumped + length block.now }
        ensures ran { Ran F.model S.took self.old sink.old block.now self.new sink.new }
    {
        let next = F::next_check(self.window.bytes());
        self.window.append(block);
        let left = scan::<F, S>(self.window.bytes(), next, &mut self.ledger, sink);
        self.window.keep(left);
        make_room(&mut self.window, &mut self.ledger);
        self.pumped += block.len() as u64;
    }

    // Reads all of `bytes` and hands the sink what they tell; or refuses, and reader and sink are as they were.
    pub fn feed<S: Sink>(&mut self, bytes: &[u8], sink: &mut S) -> Result<(), Refusal>
        ensures fed { Fed F.model S.took self.old «bytes».now sink.old self.new sink.new result }
        ensures counted { OnOk result (self.new.pumped ≡ self.old.pumped + length «bytes».now) }
    {
        if bytes.len() as u64 > MOST_BYTES - self.pumped {
            return Err(Refusal::PastLimit);
        }
        for block in bytes.chunks(BLOCK) {
            self.take_in(block, sink);
        }
        Ok(())
    }
}
