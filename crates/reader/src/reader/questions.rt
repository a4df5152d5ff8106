// What a reader can be asked: for every byte string that it stands for, the answers are those of that string's reading.
ghost use Rattle.std.specs.Prelude.{◌≡◌, ℕ, List};
ghost use Rattle.reader.specs.Ledgers.{latest_of};
ghost use Rattle.reading.specs.Reading.{reading};
ghost use Rattle.reader.specs.Standing.{Stands, counts_of};

use crate::reader::Reader;
use reading::counts::Counts;
use reading::family::Family;
use reading::message::Message;

impl<F: Family> Reader<F> {
    pub fn counts(&self) -> Counts
        ensures counts { (bs : List ℕ) → Stands F.model self.now bs → result ≡ counts_of F.model bs }
    {
        Counts {
            pumped: self.pumped,
            accepted: self.ledger.accepted,
            skipped: self.ledger.skipped,
            held: self.window.held() as u64,
            whole: self.ledger.whole,
            passed: self.ledger.passed,
            faults: self.ledger.faults,
            messages: self.ledger.messages,
        }
    }

    // How many bytes were read.
    pub fn pumped(&self) -> u64
        ensures value { result ≡ self.now.pumped }
    {
        self.pumped
    }

    // The latest message; none before the first.
    pub fn latest(&self) -> Option<Message>
        ensures latest { (bs : List ℕ) → Stands F.model self.now bs → result ≡ latest_of (reading F.model bs).tally.messages }
    {
        self.ledger.latest
    }

    pub fn record(&self) -> &F::Record
        ensures made { (bs : List ℕ) → Stands F.model self.now bs → result.now ≡ (reading F.model bs).tally.made }
    {
        &self.ledger.record
    }
}
