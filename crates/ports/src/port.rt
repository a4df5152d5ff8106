// One port: closed, or open with its queue. Its calls are told its number, for a refusal to name.
ghost use Rattle.std.specs.Prelude.{◌≡◌};
ghost use Rattle.law.specs.Calls.PortCall.{Open as AskOpen, Take as AskTake, Missed as AskMissed, Close as AskClose};
ghost use Rattle.law.specs.Slots.{shut, slot_answer, slot_after, arrived};
ghost use Rattle.ports.specs.Ports.{slot_of, Room};
ghost use Rattle.ports.specs.Answers.{open_answer, take_answer, count_answer, OpenNames, TakeNames, PortNames, Unchanged};

use crate::kinds::Kinds;
use crate::queue::Queue;
use crate::refusal::{OpenRefusal, PortRefusal, TakeRefusal};
use reading::message::Message;

// While a port is closed, `wanted` is none, and the rest means nothing. It stands beside: memory is fixed, and an opening
// empties the queue in its place, where an `Option` of an open port would write all sixteen places anew.
#[derive(Clone, Copy)]
pub struct Port {
    wanted: Option<Kinds>,
    queue: Queue,
    missed: u64,
}

impl Port {
    pub fn new() -> Port
        ensures slot { slot_of result ≡ shut }
    {
        Port {
            wanted: None,
            queue: Queue::new(),
            missed: 0,
        }
    }

    // Opens the port for the kinds whose bits `wanted` sums, with nothing waiting or missed.
    pub fn open(&mut self, port: u32, wanted: u32) -> Result<(), OpenRefusal>
        ensures answer { open_answer result ≡ slot_answer (slot_of self.old) (AskOpen wanted) }
        ensures after { slot_of self.new ≡ slot_after (slot_of self.old) (AskOpen wanted) }
        ensures names { OpenNames port wanted result }
        ensures refused { Unchanged result self.old self.new }
    {
        if self.wanted.is_some() {
            return Err(OpenRefusal::AlreadyOpen(port));
        }
        let kinds = Kinds::try_from(wanted)?;
        self.wanted = Some(kinds);
        self.queue.clear();
        self.missed = 0;
        Ok(())
    }

    // Gives the oldest message that waits.
    pub fn take(&mut self, port: u32) -> Result<Message, TakeRefusal>
        ensures answer { take_answer result ≡ slot_answer (slot_of self.old) AskTake }
        ensures after { slot_of self.new ≡ slot_after (slot_of self.old) AskTake }
        ensures names { TakeNames port result }
        ensures refused { Unchanged result self.old self.new }
    {
        self.wanted.ok_or(PortRefusal::NotOpen(port))?;
        self.queue.pop().ok_or(TakeRefusal::NothingWaits(port))
    }

    // How many messages the port missed since it was opened.
    pub fn missed(&self, port: u32) -> Result<u64, PortRefusal>
        ensures answer { count_answer result ≡ slot_answer (slot_of self.now) AskMissed }
        ensures names { PortNames port result }
    {
        self.wanted.ok_or(PortRefusal::NotOpen(port))?;
        Ok(self.missed)
    }

    // Closes the port, and says how many waiting messages it throws away.
    pub fn close(&mut self, port: u32) -> Result<u64, PortRefusal>
        ensures answer { count_answer result ≡ slot_answer (slot_of self.old) AskClose }
        ensures after { slot_of self.new ≡ slot_after (slot_of self.old) AskClose }
        ensures names { PortNames port result }
        ensures refused { Unchanged result self.old self.new }
    {
        self.wanted.take().ok_or(PortRefusal::NotOpen(port))?;
        Ok(self.queue.len() as u64)
    }

    // A message is published: an open port that wants it queues it or misses it. The kinds are tested before the queue is touched.
    pub fn arrive(&mut self, message: Message)
        ensures after { Room self.old → slot_of self.new ≡ arrived (slot_of self.old) message }
    {
        let wants = self
            .wanted
            .is_some_and(|kinds| kinds.contains(message.kind));
        if wants && self.queue.push(message).is_err() {
            self.missed = self.missed.saturating_add(1);
        }
    }
}
