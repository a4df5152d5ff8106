// The verdict on the first bytes at a place.
ghost use Rattle.std.specs.Prelude.{◌≡◌, ◌-◌, ℕ, List, length, slice_index};
ghost use Rattle.std.specs.Fn.{FnOnceReturnsAt};
ghost use Rattle.oxts_judge.specs.Judge.{sum_of, sum_defect, structure_in, sync_verdict, status_verdict, early_verdict, whole_verdict, judge_of};

use crate::bodies::{inertial_body, packet_body, solution_body};
use crate::cause::Cause;
use oxts::format::Format;
use oxts::status::{Structure, structure_of};
use oxts::words::byte_at;
use reading::message::{Body, Defect, Verdict};

// The sum of the bytes, modulo 256. A fold is no plainer here, and its proof needs an answer where the loop's needs none.
fn checksum(bytes: &[u8]) -> u8
    ensures value { result ≡ sum_of bytes.now }
{
    let mut sum: u8 = 0;
    for b in bytes {
        sum = sum.wrapping_add(*b);
    }
    sum
}

// What is wrong where the last byte is not the sum of those between it and the first.
fn sum_defect(bytes: &[u8], cause: Cause) -> Option<Defect>
    ensures value { result ≡ sum_defect cause (length bytes.now - 1) bytes.now }
{
    let (found, front) = bytes.split_last()?;
    let found = *found;
    let expected = match front {
        [_, summed @ ..] => checksum(summed),
        [] => 0,
    };
    (found != expected).then(|| Defect {
        cause: cause.number(),
        found,
        expected,
    })
}

// 1 byte: the sync byte.
fn judge_sync(bytes: &[u8]) -> Verdict
    ensures value { result ≡ sync_verdict (slice_index bytes.now 0) }
{
    match bytes {
        [0xE7, ..] => Verdict::Wait,
        _ => Verdict::Fault(Defect {
            cause: Cause::Sync.number(),
            found: byte_at(bytes, 0),
            expected: 0xE7,
        }),
    }
}

// The structure that byte 21 stands for.
fn structure_in(packet: &[u8]) -> Option<Structure>
    ensures value { result ≡ structure_in packet.now }
{
    structure_of(byte_at(packet, 21))
}

// 22 bytes: the navigation status.
fn judge_status(bytes: &[u8]) -> Verdict
    ensures value { result ≡ status_verdict (structure_in bytes.now) (slice_index bytes.now 21) }
{
    match structure_in(bytes) {
        Some(_) => Verdict::Wait,
        None => Verdict::Fault(Defect {
            cause: Cause::Status.number(),
            found: byte_at(bytes, 21),
            expected: 0,
        }),
    }
}

// 23 and 62 bytes: a batch and the checksum behind it, in structure-A alone. The defect is matched, since a closure that
// calls `body` was tried and got no proof.
fn judge_early<B: FnOnce(&[u8]) -> Body>(bytes: &[u8], cause: Cause, body: B) -> Verdict
    requires callable { B.IsAlwaysCallable body }
    ensures value { (told : List ℕ → Body) → ((b : Body) → FnOnceReturnsAt B.FnOnce body bytes.now b → b ≡ told bytes.now)
        → result ≡ early_verdict cause told (length bytes.now - 1) (structure_in bytes.now) bytes.now }
{
    match structure_in(bytes) {
        Some(Structure::StructureA) => match sum_defect(bytes, cause) {
            None => Verdict::Early(body(bytes)),
            Some(defect) => Verdict::Fault(defect),
        },
        _ => Verdict::Wait,
    }
}

// The longest length: the last checksum.
fn judge_packet(format: Format, bytes: &[u8]) -> Verdict
    ensures value { result ≡ whole_verdict format (length bytes.now - 1) (structure_in bytes.now) bytes.now }
{
    let Some(structure) = structure_in(bytes) else {
        return Verdict::Wait;
    };
    sum_defect(bytes, Cause::PacketSum).map_or_else(
        || Verdict::Whole(packet_body(format, structure, bytes)),
        Verdict::Fault,
    )
}

// Between these lengths nothing is judged. Each length is a rule of the formats, so they stand in one match and not as steps to be handed in.
// Format and bytes stay two parameters: a verdict is asked of one prefix after another and the family gives the format each
// time, so a struct of both would be made to be taken apart at once.
pub fn judge(format: Format, bytes: &[u8]) -> Verdict
    ensures value { result ≡ judge_of format bytes.now }
{
    match bytes.len() {
        1 => judge_sync(bytes),
        22 => judge_status(bytes),
        23 => judge_early(bytes, Cause::InertialSum, inertial_body),
        62 => judge_early(bytes, Cause::SolutionSum, solution_body),
        n if n == format.longest() => judge_packet(format, bytes),
        _ => Verdict::Wait,
    }
}
