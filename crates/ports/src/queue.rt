// A queue of at most sixteen messages, in fixed memory. The contracts give the messages in it, oldest first.
ghost use Rattle.std.specs.Prelude.{◌≡◌, ◌<◌, ◌≤◌, [], length};
ghost use Rattle.std.specs.Result.{OkIff};
ghost use Rattle.law.specs.Calls.{depth};
ghost use Rattle.law.specs.Slots.{placed};

use reading::message::{Kind, Message};

const DEPTH: usize = 16;

// What lies in the unused places of a ring.
const BLANK: Message = Message {
    kind: Kind::Inertial,
    number: 0,
    place: 0,
    code: 0,
    quantities: [0; 9],
};

// The messages lie in a ring: the oldest at `head`, and `len` of them from there on. The kit's ring, circular_buffer, is on the heap, and nothing here may allocate.
#[derive(Clone, Copy)]
pub struct Queue {
    ring: [Message; DEPTH],
    head: usize,
    len: usize,
    ghost full: { length ring ≡ 16 },
    ghost within: { head < 16 },
    ghost few: { len ≤ 16 },
}

// There is no room for one more.
#[derive(Clone, Copy)]
pub struct Full;

impl Queue {
    ghost use Rattle.ports.specs.Queues.{items, first, rest, Unpopped};

    pub fn new() -> Queue
        ensures items { items result ≡ [] }
    {
        Queue {
            ring: [BLANK; DEPTH],
            head: 0,
            len: 0,
        }
    }

    // Throws away what waits.
    pub fn clear(&mut self)
        ensures after { items self.new ≡ [] }
    {
        self.len = 0;
    }

    pub fn len(&self) -> usize
        ensures value { result ≡ length (items self.now) }
    {
        self.len
    }

    // Places `message` behind those that wait, if there is room.
    #[tactic(auto, using(crate::proofs::Rings::push_ring))]
    pub fn push(&mut self, message: Message) -> Result<(), Full>
        ensures room { OkIff result (length (items self.old) < depth) tt }
        ensures after { items self.new ≡ placed depth (items self.old) message }
    {
        if self.len == DEPTH {
            return Err(Full);
        }
        let end = (self.head + self.len) % DEPTH;
        self.ring[end] = message;
        self.len += 1;
        Ok(())
    }

    // Takes out the oldest that waits.
    #[tactic(auto, using(crate::proofs::Rings::rest_ring))]
    pub fn pop(&mut self) -> Option<Message>
        ensures oldest { result ≡ first (items self.old) }
        ensures after { items self.new ≡ rest (items self.old) }
        ensures unpopped { Unpopped result self.old self.new }
    {
        if self.len == 0 {
            return None;
        }
        let oldest = self.ring[self.head];
        self.head = (self.head + 1) % DEPTH;
        self.len -= 1;
        Some(oldest)
    }
}
