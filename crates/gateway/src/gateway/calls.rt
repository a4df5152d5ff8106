// The calls of the ports.
ghost use Rattle.std.specs.Prelude.{◌≡◌};
ghost use Rattle.law.specs.Calls.{At};
ghost use Rattle.law.specs.Calls.PortCall.{Open as AskOpen, Take as AskTake, Missed as AskMissed, Close as AskClose};
ghost use Rattle.law.specs.Slots.{port_answer, port_after};
ghost use Rattle.ports.specs.Answers.{open_answer, take_answer, count_answer, OpenNames, TakeNames, PortNames, Unchanged};
ghost use Rattle.ports.specs.Ports.{slots_of};
ghost use Rattle.gateway.specs.Standing.{GoesOn};

use crate::gateway::Gateway;
use ports::refusal::{OpenRefusal, PortRefusal, TakeRefusal};
use reading::family::Family;
use reading::message::Message;

// As those of a bank, each call says in full what it answers, leaves and names.
impl<F: Family> Gateway<F> {
    // Opens a port for the kinds whose bits `wanted` sums.
    pub fn open(&mut self, port: u32, wanted: u32) -> Result<(), OpenRefusal>
        ensures answer { open_answer result ≡ port_answer (slots_of self.old.bank) port (AskOpen wanted) }
        ensures after { slots_of self.new.bank ≡ port_after (slots_of self.old.bank) port (AskOpen wanted) }
        ensures reader { self.new.reader ≡ self.old.reader }
        ensures names { OpenNames port wanted result }
        ensures refused { Unchanged result self.old self.new }
        ensures run { GoesOn F.model self.old self.new (At port (AskOpen wanted)) (open_answer result) }
    {
        self.bank.open(port, wanted)
    }

    // Closes a port, and says how many waiting messages it throws away.
    pub fn close(&mut self, port: u32) -> Result<u64, PortRefusal>
        ensures answer { count_answer result ≡ port_answer (slots_of self.old.bank) port AskClose }
        ensures after { slots_of self.new.bank ≡ port_after (slots_of self.old.bank) port AskClose }
        ensures reader { self.new.reader ≡ self.old.reader }
        ensures names { PortNames port result }
        ensures refused { Unchanged result self.old self.new }
        ensures run { GoesOn F.model self.old self.new (At port AskClose) (count_answer result) }
    {
        self.bank.close(port)
    }

    // Gives the oldest message that waits at a port.
    pub fn take(&mut self, port: u32) -> Result<Message, TakeRefusal>
        ensures answer { take_answer result ≡ port_answer (slots_of self.old.bank) port AskTake }
        ensures after { slots_of self.new.bank ≡ port_after (slots_of self.old.bank) port AskTake }
        ensures reader { self.new.reader ≡ self.old.reader }
        ensures names { TakeNames port result }
        ensures refused { Unchanged result self.old self.new }
        ensures run { GoesOn F.model self.old self.new (At port AskTake) (take_answer result) }
    {
        self.bank.take(port)
    }

    // How many messages a port missed since it was opened.
    pub fn missed(&self, port: u32) -> Result<u64, PortRefusal>
        ensures answer { count_answer result ≡ port_answer (slots_of self.now.bank) port AskMissed }
        ensures names { PortNames port result }
        ensures run { GoesOn F.model self.now self.now (At port AskMissed) (count_answer result) }
    {
        self.bank.missed(port)
    }
}
