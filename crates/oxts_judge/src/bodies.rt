// What a packet tells, as the body of a message. Each kind has quantities of its own, so each writes out its nine.
ghost use Rattle.std.specs.Prelude.{◌≡◌};
ghost use Rattle.oxts_judge.specs.Bodies.{inertial_body, solution_body, status_body, passed_body, packet_body};

use oxts::batches::{inertial_in, solution_in, status_batch_in};
use oxts::format::Format;
use oxts::status::Structure;
use oxts::words::byte_at;
use reading::message::{Body, Kind};

// This and the solution keep an answer each: without it the solution stays open, and this proves with no margin left.
pub(crate) fn inertial_body(packet: &[u8]) -> Body
    ensures value { result ≡ inertial_body packet.now }
{
    let inertial = inertial_in(packet);
    Body {
        kind: Kind::Inertial,
        code: byte_at(packet, 21),
        quantities: [
            i64::from(inertial.time),
            i64::from(inertial.accelerations.x),
            i64::from(inertial.accelerations.y),
            i64::from(inertial.accelerations.z),
            i64::from(inertial.rates.x),
            i64::from(inertial.rates.y),
            i64::from(inertial.rates.z),
            0,
            0,
        ],
    }
}

pub(crate) fn solution_body(packet: &[u8]) -> Body
    ensures value { result ≡ solution_body packet.now }
{
    let solution = solution_in(packet);
    Body {
        kind: Kind::Solution,
        code: byte_at(packet, 21),
        quantities: [
            solution.latitude,
            solution.longitude,
            i64::from(solution.altitude),
            i64::from(solution.velocity.x),
            i64::from(solution.velocity.y),
            i64::from(solution.velocity.z),
            i64::from(solution.attitude.x),
            i64::from(solution.attitude.y),
            i64::from(solution.attitude.z),
        ],
    }
}

#[tactic(auto, unfolding(crate::specs::Bodies::status_body))]
fn status_body(format: Format, packet: &[u8]) -> Body
    ensures value { result ≡ status_body format packet.now }
{
    let batch = status_batch_in(format, packet);
    let back = i64::from(batch.batch_c.back);
    Body {
        kind: Kind::Status,
        code: batch.channel,
        quantities: [batch.batch_s, batch.batch_c.front, back, 0, 0, 0, 0, 0, 0],
    }
}

#[tactic(auto, unfolding(crate::specs::Bodies::passed_body))]
fn passed_body(packet: &[u8]) -> Body
    ensures value { result ≡ passed_body packet.now }
{
    Body {
        kind: Kind::Passed,
        code: byte_at(packet, 22),
        quantities: [0; 9],
    }
}

pub(crate) fn packet_body(format: Format, structure: Structure, packet: &[u8]) -> Body
    ensures value { result ≡ packet_body format structure packet.now }
{
    match structure {
        Structure::StructureA => status_body(format, packet),
        Structure::StructureB => passed_body(packet),
    }
}
