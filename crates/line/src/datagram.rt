// A line over records in the caller's memory, each a length of two bytes, the low one first, and then the content.
ghost use Rattle.std.specs.Prelude.{◌≡◌, ◌+◌, min, [], ◌∷◌, length, MatchOption};
ghost use Rattle.line.specs.Datagrams.{records, left, next, Counted, WrittenAndRead};
ghost use Rattle.line.specs.Lines.{Taken};

use crate::copies::copy_front;
use crate::line::Line;
use crate::refusal::RecordRefusal;

// One take never crosses a record's end, and what is past the first malformed record never comes.
#[derive(Drop)]
pub struct Datagram<'a> {
    // What is left of the current record's content.
    content: &'a [u8],
    // The memory past the current record.
    rest: &'a [u8],
}

impl<'a> Datagram<'a> {
    pub fn new(memory: &'a [u8]) -> Self
        ensures waits { (result.content.now ≡ []) × (result.rest.now ≡ memory.now) }
    {
        Datagram {
            content: &[],
            rest: memory,
        }
    }
}

// The first record's content and the memory past it; none where there is no record or it is malformed.
fn split_record(memory: &[u8]) -> Option<(&[u8], &[u8])>
    ensures split { MatchOption result (records 0 memory.now ≡ []) (λ p. (records 0 memory.now ≡ p.0.now ∷ records 0 p.1.now) × (length memory.now ≡ 2 + length p.0.now + length p.1.now)) }
{
    let (length, rest) = memory.split_first_chunk::<2>()?;
    rest.split_at_checked(usize::from(u16::from_le_bytes(*length)))
}

// How many records the whole memory holds; refused where it does not end with a whole record.
pub fn record_count(memory: &[u8]) -> Result<usize, RecordRefusal>
    ensures counted { Counted memory.now result }
{
    let mut rest = memory;
    let mut count = 0;
    // Tried by `iter::from_fn` and `count`: the proofs of its end and of the memory that is left did not close. An iterator of records would need a type and clauses of its own.
    while let Some((_, after)) = split_record(rest) {
        rest = after;
        count += 1;
    }
    if rest.is_empty() {
        Ok(count)
    } else {
        Err(RecordRefusal::Malformed(memory.len() - rest.len()))
    }
}

impl Line for Datagram<'_> {
    ghost waiting = { λ s. left s.content.now s.rest.now };

    ghost steps = { λ s k t. Unit {0} };

    ghost joins = { record { stays = λ s. tt; joins = λ s t u j k p q. tt } };

    fn take(&mut self, buf: &mut [u8]) -> usize
        ensures steps { Unit {0} }
        ensures taken { Taken (left self.old.content.now self.old.rest.now) buf.old result (left self.new.content.now self.new.rest.now) buf.new }
        ensures count { result ≡ min (length buf.old) (length (next self.old.content.now (records 0 self.old.rest.now))) }
    {
        // It goes on by what the memory holds, and counts nothing.
        while self.content.is_empty() {
            let Some((content, rest)) = split_record(self.rest) else {
                return 0;
            };
            self.content = content;
            self.rest = rest;
        }
        let k = copy_front(self.content, buf);
        self.content = &self.content[k..];
        k
    }
}

// What memory holds and what was written into it record by record are the same.
#[tactic(auto, using(crate::proofs::Memory::written_and_read))]
pub fn records_read_back()
    ensures laws { WrittenAndRead }
{}
