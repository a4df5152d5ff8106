// Making a gateway, and pumping bytes from lines into it.
ghost use Rattle.std.specs.Prelude.{◌≡◌, ◌+◌, ◌^◌, ◌≤◌, take, drop};
ghost use Rattle.reader.specs.Standing.{Ran};
ghost use Rattle.law.specs.Calls.{Pump, pump_answer};
ghost use Rattle.law.specs.Runs.{start};
ghost use Rattle.ports.specs.Answers.{Unchanged};
ghost use Rattle.ports.specs.Ports.{Took};
ghost use Rattle.gateway.specs.Passing.{Drawn, pump_result, passed_by, PumpNames};
ghost use Rattle.gateway.specs.Standing.{Represents, GoesOn};
ghost use Rattle.gateway.specs.Law.{Law};

use crate::gateway::Gateway;
use crate::refusal::PumpRefusal;
use line::line::Line;
use ports::bank::Bank;
use reader::reader::{MOST_BYTES, Reader};
use reading::family::Family;

// The most bytes that one pump passes.
const MOST_LIMIT: u32 = 4096;

// A line is asked for at most so many bytes at once.
const CHUNK: usize = 1024;

impl<F: Family> Gateway<F> {
    // A gateway that has read nothing, with eight closed ports. Every run of it keeps the law.
    pub fn new() -> Gateway<F>
        ensures start { Represents F.model result start }
        ensures law { Law F F.Family F.model }
    {
        Gateway {
            reader: Reader::new(),
            bank: Bank::new(),
        }
    }

    // Asks the line once, for at most `most` bytes, and reads what came. There is room for them, so the reader refuses nothing.
    fn draw<L: Line>(&mut self, line: &mut L, most: usize) -> usize
        requires room { self.old.reader.pumped + most ≤ 2 ^ 40 }
        ensures steps { L.steps line.old result line.new }
        ensures drawn { Drawn (L.waiting line.old) most result (L.waiting line.new) }
        ensures pumped { self.new.reader.pumped ≡ self.old.reader.pumped + result }
        ensures ran { Ran F.model Took self.old.reader self.old.bank (take result (L.waiting line.old)) self.new.reader self.new.bank }
    {
        let mut buffer = [0; CHUNK];
        let room = most.min(CHUNK);
        let k = line.take(&mut buffer[..room]);
        self.reader.feed(&buffer[..k], &mut self.bank).unwrap();
        k
    }

    // Asks the line until `limit` bytes came or nothing waits, and answers how many came. What they bring into the reading is published to the open ports.
    pub fn pump<L: Line>(&mut self, line: &mut L, limit: u32) -> Result<u32, PumpRefusal>
        ensures answer { pump_result result (L.waiting line.new) ≡ pump_answer self.old.reader.pumped limit (L.waiting line.old) }
        ensures rest { L.waiting line.new ≡ drop (passed_by result) (L.waiting line.old) }
        ensures steps { L.steps line.old (passed_by result) line.new }
        ensures names { PumpNames limit result }
        ensures refused { Unchanged result self.old self.new }
        ensures line { Unchanged result line.old line.new }
        ensures run { GoesOn F.model self.old self.new (Pump limit (L.waiting line.old)) (pump_result result (L.waiting line.new)) }
    {
        if limit == 0 || limit > MOST_LIMIT {
            return Err(PumpRefusal::BadLimit(limit));
        }
        if self.reader.pumped() + u64::from(limit) > MOST_BYTES {
            return Err(PumpRefusal::PastMost(limit));
        }
        // The limit is a budget by a rule of the project, and the line chooses how many bytes come, so no `for` counts the turns.
        let mut left = limit;
        while left > 0 {
            let k = self.draw(line, left as usize);
            if k == 0 {
                break;
            }
            left -= k as u32;
        }
        Ok(limit - left)
    }
}
