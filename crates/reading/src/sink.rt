// Takes the messages of a reading, one after another.
ghost use Rattle.reading.specs.declared.message.Message.{Message};

use crate::message::Message;

pub trait Sink {
    // What a sink that is handed a message may become.
    ghost took: { Self → Message → Self → Type 0 };

    fn publish(&mut self, message: Message)
        ensures took { took self.old message self.new };
}
