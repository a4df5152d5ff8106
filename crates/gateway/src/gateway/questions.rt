// What a gateway can be asked of its reading. Whoever wants a field of a status channel or the full time asks the record.
ghost use Rattle.std.specs.Prelude.{◌≡◌};
ghost use Rattle.law.specs.Calls.{AskCounts, AskLatest, AskRecord, counted, newest, recorded};
ghost use Rattle.gateway.specs.Standing.{Shows};

use crate::gateway::Gateway;
use reading::counts::Counts;
use reading::family::Family;
use reading::message::Message;

impl<F: Family> Gateway<F> {
    pub fn counts(&self) -> Counts
        ensures shows { Shows F.model self.now AskCounts (counted result) }
    {
        self.reader.counts()
    }

    // The latest message; none before the first.
    pub fn latest(&self) -> Option<Message>
        ensures shows { Shows F.model self.now AskLatest (newest result) }
    {
        self.reader.latest()
    }

    // What the whole packets have made of the first record.
    pub fn record(&self) -> &F::Record
        ensures shows { Shows F.model self.now AskRecord (recorded result.now) }
    {
        self.reader.record()
    }
}
