// What is proved of the reading itself, for every family.
ghost use Rattle.reading.specs.Keeps.{Keeps};
ghost use Rattle.reading.specs.Rules.{Rules};

use crate::family::Family;

// At each place the bytes are held, one is skipped, or a packet is accepted.
pub fn reading_by_rules<F: Family>()
    ensures rules { Rules F.model }
{}

// Every byte, message and packet is accounted for.
pub fn reading_keeps<F: Family>()
    ensures keeps { Keeps F.model }
{}
