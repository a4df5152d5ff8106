// Callers that know the history of their gateway, and say of it what the law says.
ghost use Rattle.std.specs.Prelude.{◌≡◌};
ghost use Rattle.ports.specs.Answers.{take_answer};
ghost use Rattle.gateway.specs.Passing.{passed_by};
ghost use Rattle.oxts_gateway.specs.Sessions.{FirstTake, Relayed, second_grant};

use crate::make::oxts_gateway;
use gateway::gateway::Gateway;
use gateway::refusal::PumpRefusal;
use line::line::Line;
use line::meter::Meter;
use line::plain::Plain;
use oxts_record::family::{Ncom, NcomFormat};
use ports::refusal::TakeRefusal;
use reading::family::Family;
use reading::message::Message;

// The first message of the first 64 bytes, by a run of three calls.
pub fn first_message(bytes: &[u8]) -> Result<Message, TakeRefusal>
    ensures law { FirstTake ⟦<Ncom as Family>⟧ bytes.now (take_answer result) }
{
    let mut gateway = oxts_gateway::<NcomFormat>();
    let _ = gateway.open(0, 31);
    let mut line = Plain::new(bytes, 7);
    let _ = gateway.pump(&mut line, 64);
    gateway.take(0)
}

// Pumps and takes, over any line and for any family, whatever was called before.
pub fn relay<F: Family, L: Line>(
    gateway: &mut Gateway<F>,
    line: &mut L,
    port: u32,
) -> Result<Message, TakeRefusal>
    ensures relayed { Relayed F.model gateway.old (L.waiting line.old) port (take_answer result) gateway.new }
{
    let _ = gateway.pump(line, 64);
    gateway.take(port)
}

// Credit that is granted between two pumps lets the next bytes through: the second pump passes these.
pub fn granted_twice(bytes: &[u8]) -> Result<u32, PumpRefusal>
    ensures passed { passed_by result ≡ second_grant bytes.now }
{
    let mut gateway = oxts_gateway::<NcomFormat>();
    let mut line = Meter::new(Plain::new(bytes, 2));
    let _ = line.grant(5);
    let _ = gateway.pump(&mut line, 100);
    let _ = line.grant(100);
    gateway.pump(&mut line, 100)
}
