// Keeps the messages of one piece of a recording until they are printed.
ghost use Rattle.std.specs.Prelude.{◌≡◌, IsOk, [], vec_items};
ghost use Rattle.navlog.specs.Pieces.{Took};

use reading::message::Message;
use reading::sink::Sink;
use std::alloc::{AllocError, Global};

#[derive(Drop)]
pub struct Inbox {
    pub messages: Vec<Message>,
    // Fails where a message found no memory.
    pub kept: Result<(), AllocError>,
}

impl Inbox {
    pub fn new(heap: Global) -> Self
        ensures empty { (vec_items result.messages ≡ []) × IsOk result.kept }
    {
        Inbox {
            messages: Vec::new(heap),
            kept: Ok(()),
        }
    }

    // Makes room for the messages of the next piece.
    pub fn clear(&mut self)
        ensures empty { (vec_items self.new.messages ≡ []) × IsOk self.new.kept }
    {
        self.messages.clear();
        self.kept = Ok(());
    }
}

impl Sink for Inbox {
    ghost took = { Took };

    fn publish(&mut self, message: Message) {
        if let Err(refused) = self.messages.push(message) {
            self.kept = Err(AllocError::from(refused));
        }
    }
}
