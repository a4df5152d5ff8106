// Piles of lines and layers, each a line again.
use crate::piles::front_of;
use line::consume::fill;
use line::datagram::{Datagram, record_count};
use line::line::Line;
use line::meter::Meter;
use line::opener::Opener;
use line::plain::Plain;
use line::refusal::{GrantRefusal, RecordRefusal};
use std::test::Fail;

// Two frames with content, behind filler.
const FRAMES: [u8; 6] = [0, 2, 0xAA, 0xBB, 1, 0xCC];

// All that waits, up to six bytes, and zeros behind it.
fn drained<L: Line>(line: &mut L) -> [u8; 6] {
    let mut out = [0; 6];
    fill(line, &mut out);
    out
}

#[test]
fn a_meter_over_an_opener_over_plain_bytes(rt: HostRuntime) -> Result<(), Fail> {
    let mut line = Meter::new(Opener::new(Plain::new(&FRAMES, 1)));
    assert_eq!(rt; drained(&mut line), [0; 6]);
    line.grant(2)?;
    assert_eq!(rt; drained(&mut line), [0xAA, 0xBB, 0, 0, 0, 0]);
    line.grant(65536)?;
    assert_eq!(rt; drained(&mut line), [0xCC, 0, 0, 0, 0, 0]);
    Ok(())
}

// The meter counts the bytes below the opener: headers cost too.
#[test]
fn an_opener_over_a_meter_over_plain_bytes(rt: HostRuntime) -> Result<(), Fail> {
    let mut meter = Meter::new(Plain::new(&FRAMES, 4));
    meter.grant(3)?;
    let mut line = Opener::new(meter);
    assert_eq!(rt; drained(&mut line), [0xAA, 0, 0, 0, 0, 0]);
    let mut meter = line.into_below();
    meter.grant(1)?;
    assert_eq!(rt; drained(&mut meter), [0xBB, 0, 0, 0, 0, 0]);
    Ok(())
}

// Frames may cross the ends of datagrams; an empty one changes nothing.
#[test]
fn an_opener_over_datagrams(rt: HostRuntime) {
    let memory = [3, 0, 0, 2, 0xAA, 0, 0, 3, 0, 0xBB, 1, 0xCC, 9];
    let mut line = Opener::new(Datagram::new(&memory));
    assert_eq!(rt; drained(&mut line), [0xAA, 0xBB, 0xCC, 0, 0, 0]);
    assert!(rt; record_count(&memory[0..12]).is_ok());
    assert_eq!(rt; record_count(&memory), Err(RecordRefusal::Malformed(12)));
}

#[test]
fn frames_inside_frames_under_two_meters(rt: HostRuntime) -> Result<(), Fail> {
    let bytes = [3, 2, 7, 8, 0, 2, 1, 9];
    let mut inner = Meter::new(Opener::new(Opener::new(Plain::new(&bytes, 2))));
    inner.grant(10)?;
    let mut line = Meter::new(inner);
    line.grant(2)?;
    assert_eq!(rt; drained(&mut line), [7, 8, 0, 0, 0, 0]);
    line.grant(9)?;
    assert_eq!(rt; drained(&mut line), [9, 0, 0, 0, 0, 0]);
    Ok(())
}

#[test]
fn the_rest_of_a_line_is_given_back(rt: HostRuntime) {
    let mut out = [0; 4];
    let (k, mut rest) = front_of(Plain::new(&FRAMES, 5), 3, &mut out);
    assert_eq!(rt; k, 3);
    assert_eq!(rt; out, [0, 2, 0xAA, 0]);
    assert_eq!(rt; drained(&mut rest), [0xBB, 1, 0xCC, 0, 0, 0]);
}

#[test]
fn a_credit_above_the_most_is_refused(rt: HostRuntime) -> Result<(), Fail> {
    let mut line = Meter::new(Plain::new(&FRAMES, 6));
    line.grant(4)?;
    assert_eq!(rt; line.grant(65537), Err(GrantRefusal::AboveMost(65537)));
    assert_eq!(rt; drained(&mut line), [0, 2, 0xAA, 0xBB, 0, 0]);
    Ok(())
}
