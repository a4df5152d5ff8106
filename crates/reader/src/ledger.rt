// What a reader keeps of what was read: counts, latest message and record.
ghost use Rattle.std.specs.Prelude.{◌≡◌, ◌+◌, ◌^◌, ◌<◌, [], ◌∷◌, if◌then◌else◌, nat_eq};
ghost use Rattle.reader.specs.Ledgers.{blank, after_telling, after_quiet, after_fault, after_packet, message_of, fault_body, Handed, Room};

use reading::message::{Body, Defect, Kind, Message};
use reading::sink::Sink;

// `Counts` has what the window holds besides, and callers read its numbers flat: a struct of numbers inside both would be no plainer.
#[derive(Drop)]
pub struct Ledger<R> {
    pub accepted: u64,
    pub skipped: u64,
    pub whole: u64,
    pub passed: u64,
    pub faults: u64,
    pub messages: u64,
    pub latest: Option<Message>,
    pub record: R,
}

impl<R> Ledger<R> {
    pub(crate) fn new(first: R) -> Ledger<R>
        ensures { result ≡ blank first }
    {
        Ledger {
            accepted: 0,
            skipped: 0,
            whole: 0,
            passed: 0,
            faults: 0,
            messages: 0,
            latest: None,
            record: first,
        }
    }

    pub(crate) fn tell<S: Sink>(&mut self, body: Body, sink: &mut S)
        requires { Room self.old 0 }
        ensures ledger { self.new ≡ after_telling self.old body }
        ensures sink { S.took sink.old (message_of self.old body) sink.new }
    {
        let quantities = body.quantities;
        let message = Message {
            kind: body.kind,
            number: self.messages + 1,
            place: self.accepted + self.skipped,
            code: body.code,
            quantities,
        };
        self.messages += 1;
        self.latest = Some(message);
        sink.publish(message);
    }

    // Skips n bytes, each of them at fault alone.
    pub(crate) fn pass_over(&mut self, n: usize)
        requires { self.old.skipped + n < 2 ^ 64 }
        ensures { self.new ≡ after_quiet n self.old }
    {
        self.skipped += n as u64;
    }

    // A fault at n bytes skips one; at 1 byte it tells nothing.
    pub(crate) fn skip<S: Sink>(&mut self, n: usize, defect: Defect, sink: &mut S)
        requires room { Room self.old 1 }
        requires faults { self.old.faults + 1 < 2 ^ 64 }
        ensures ledger { self.new ≡ after_fault n self.old defect }
        ensures sink { Handed S.took sink.old (if nat_eq n 1 then [] else message_of self.old (fault_body defect) ∷ []) sink.new }
    {
        if n != 1 {
            self.tell(Body::from(defect), sink);
            self.faults += 1;
        }
        self.skipped += 1;
    }

    // A whole packet of n bytes is accepted.
    pub(crate) fn accept<S: Sink>(&mut self, n: usize, body: Body, sink: &mut S)
        requires room { Room self.old n }
        requires whole { self.old.whole + 1 < 2 ^ 64 }
        requires passed { self.old.passed + 1 < 2 ^ 64 }
        ensures ledger { self.new ≡ after_packet n self.old body }
        ensures sink { S.took sink.old (message_of self.old body) sink.new }
    {
        self.tell(body, sink);
        self.accepted += n as u64;
        self.whole += 1;
        self.passed += u64::from(body.kind == Kind::Passed);
    }
}
