// The code on words, statuses, streams and packets whose results are known, on piles of lines, on fields, and on units.
mod fields;
mod piles;
mod units;

use crate::packets::{packet, read_in_two, read_packets};
use oxts::status::{Structure, structure_of};
use oxts::words::read_i24;
use oxts_record::family::{Mcom, Ncom};
use reading::counts::Counts;
use std::test::Fail;

#[test]
fn words_at_the_edges(rt: HostRuntime) {
    assert_eq!(rt; read_i24([0x00, 0x00, 0x80]), -8_388_608);
    assert_eq!(rt; read_i24([0xFF, 0xFF, 0x7F]), 8_388_607);
    assert_eq!(rt; read_i24([0xFF, 0xFF, 0xFF]), -1);
}

#[test]
fn statuses_at_the_edges(rt: HostRuntime) {
    for status in [0, 7, 10, 20, 22] {
        assert_eq!(rt; structure_of(status), Some(Structure::StructureA));
    }
    assert_eq!(rt; structure_of(11), Some(Structure::StructureB));
    for status in [8, 9, 12, 19, 23, 255] {
        assert!(rt; structure_of(status).is_none());
    }
}

fn is_copied<T: Copy>() {}

// A family is only a name, so both are copied, and let go, as any small value.
#[test]
fn families_are_copied(_rt: HostRuntime) {
    is_copied::<Ncom>();
    is_copied::<Mcom>();
}

// A sync byte too many, a packet, a damaged one and one cut short, however they are cut in two.
#[test]
fn a_stream_reads_alike_at_every_cut(rt: HostRuntime) -> Result<(), Fail> {
    let mut damaged = packet(4, 13, 8);
    damaged[7] = 1;
    let last = packet(3, 13, 7);
    let mut bytes = Vec::new(rt.alloc());
    bytes.push(0xE7)?;
    bytes.extend_from_slice(&packet(4, 13, 9))?;
    bytes.extend_from_slice(&damaged)?;
    bytes.extend_from_slice(&last[0..70])?;
    let expected = Counts {
        pumped: 215,
        accepted: 72,
        skipped: 73,
        held: 70,
        whole: 1,
        passed: 0,
        faults: 2,
        messages: 7,
    };
    for cut in 0..216 {
        assert_eq!(rt; read_in_two(&rt, bytes.as_slice(), cut)?.counts(), expected);
    }
    Ok(())
}

#[test]
fn status_0_and_structure_b_leave_quantities(rt: HostRuntime) -> Result<(), Fail> {
    let reader = read_packets(&[packet(4, 7, 40), packet(0, 8, 50), packet(11, 9, 60)])?;
    let snapshot = reader.record().snapshot();
    assert!(rt; snapshot.status == 0 && snapshot.time == Some(40));
    assert!(rt; !snapshot.inertial_valid && !snapshot.solution_valid);
    assert!(rt; snapshot.rates.x == 40 && snapshot.solution.velocity.x == 40);
    assert_eq!(rt; reader.record().heard_count(), 1);
    assert_eq!(rt; reader.record().channel(8), None);
    Ok(())
}

#[test]
fn status_1_takes_no_solution(rt: HostRuntime) -> Result<(), Fail> {
    let reader = read_packets(&[packet(4, 7, 40), packet(1, 9, 60)])?;
    let snapshot = reader.record().snapshot();
    assert!(rt; snapshot.status == 1 && snapshot.time == None);
    assert!(rt; snapshot.inertial_valid && !snapshot.solution_valid);
    assert!(rt; snapshot.rates.x == 60 && snapshot.solution.velocity.x == 40);
    assert_eq!(rt; reader.record().channel(9), Some([60, 0, 0, 0, 0, 0, 0, 0]));
    Ok(())
}

// A channel that is heard again replaces its bytes, and counts once.
#[test]
fn a_channel_is_heard_twice(rt: HostRuntime) -> Result<(), Fail> {
    let reader = read_packets(&[packet(4, 255, 1), packet(4, 255, 2)])?;
    assert_eq!(rt; reader.record().heard_count(), 1);
    assert_eq!(rt;
        reader.record().channel(255),
        Some([2, 0, 0, 0, 0, 0, 0, 0])
    );
    let Some(message) = reader.latest() else {
        return Err(Fail::new("no message"));
    };
    assert!(rt; message.number == 6 && message.place == 72 && message.code == 255);
    Ok(())
}
