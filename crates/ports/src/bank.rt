// The eight ports: their calls by number, and the messages that a reader hands to all of them.
ghost use Rattle.std.specs.Prelude.{◌≡◌, ◌+◌, ◌^◌, ◌<◌, map};
ghost use Rattle.std.specs.Option.{SomeIff};
ghost use Rattle.law.specs.Calls.{ports};
ghost use Rattle.law.specs.Calls.PortCall.{Open as AskOpen, Take as AskTake, Missed as AskMissed, Close as AskClose};
ghost use Rattle.law.specs.Slots.{new_ports, port_answer, port_after, published_to};
ghost use Rattle.ports.specs.Ports.{slot_of, slots_of, most_missed, Took};
ghost use Rattle.ports.specs.Answers.{open_answer, take_answer, count_answer, OpenNames, TakeNames, PortNames, Unchanged};

use crate::port::Port;
use crate::refusal::{OpenRefusal, PortRefusal, TakeRefusal};
use reading::message::Message;
use reading::sink::Sink;

// Ports are numbered from 0.
const PORTS: usize = 8;

#[derive(Drop)]
pub struct Bank {
    ports: [Port; PORTS],
}

// Where the port of that number stands; none if there is no such port.
// The ports are reached by index: `get_mut` was tried, and the proof didn't close, since behind it nothing is known of any port.
fn index_of(port: u32) -> Option<usize>
    ensures index { SomeIff result (port < ports) port }
{
    let i = port as usize;
    (i < PORTS).then_some(i)
}

// The four calls differ in what they call and in the types of what that answers, so one function for them would be no plainer.
// Each call says in full what it answers, leaves and names: a record of these clauses would need the call, the result and both states, and be no plainer.
impl Bank {
    // All ports are closed.
    pub fn new() -> Bank
        ensures slots { slots_of result ≡ new_ports }
    {
        Bank {
            ports: [Port::new(); PORTS],
        }
    }

    // Opens a port for the kinds whose bits `wanted` sums.
    #[tactic(auto, using(crate::proofs::Rows::at_after))]
    pub fn open(&mut self, port: u32, wanted: u32) -> Result<(), OpenRefusal>
        ensures answer { open_answer result ≡ port_answer (slots_of self.old) port (AskOpen wanted) }
        ensures after { slots_of self.new ≡ port_after (slots_of self.old) port (AskOpen wanted) }
        ensures names { OpenNames port wanted result }
        ensures refused { Unchanged result self.old self.new }
    {
        let i = index_of(port).ok_or(OpenRefusal::NoPort(port))?;
        self.ports[i].open(port, wanted)
    }

    // Gives the oldest message that waits at a port.
    #[tactic(auto, using(crate::proofs::Rows::at_after))]
    pub fn take(&mut self, port: u32) -> Result<Message, TakeRefusal>
        ensures answer { take_answer result ≡ port_answer (slots_of self.old) port AskTake }
        ensures after { slots_of self.new ≡ port_after (slots_of self.old) port AskTake }
        ensures names { TakeNames port result }
        ensures refused { Unchanged result self.old self.new }
    {
        let i = index_of(port).ok_or(PortRefusal::NoPort(port))?;
        self.ports[i].take(port)
    }

    // How many messages a port missed since it was opened.
    pub fn missed(&self, port: u32) -> Result<u64, PortRefusal>
        ensures answer { count_answer result ≡ port_answer (slots_of self.now) port AskMissed }
        ensures names { PortNames port result }
    {
        let i = index_of(port).ok_or(PortRefusal::NoPort(port))?;
        self.ports[i].missed(port)
    }

    // Closes a port, and says how many waiting messages it throws away.
    #[tactic(auto, using(crate::proofs::Rows::at_after))]
    pub fn close(&mut self, port: u32) -> Result<u64, PortRefusal>
        ensures answer { count_answer result ≡ port_answer (slots_of self.old) port AskClose }
        ensures after { slots_of self.new ≡ port_after (slots_of self.old) port AskClose }
        ensures names { PortNames port result }
        ensures refused { Unchanged result self.old self.new }
    {
        let i = index_of(port).ok_or(PortRefusal::NoPort(port))?;
        self.ports[i].close(port)
    }
}

impl Sink for Bank {
    ghost took = { Took };

    fn publish(&mut self, message: Message) {
        bring(&mut self.ports, message);
    }
}

// Brings a message to each of the ports, in place: no queue is copied.
fn bring(ports: &mut [Port], message: Message)
    ensures after { most_missed (map slot_of ports.old) + 1 < 2 ^ 64 → map slot_of ports.new ≡ published_to (map slot_of ports.old) message }
{
    for port in ports.iter_mut() {
        port.arrive(message);
    }
}
