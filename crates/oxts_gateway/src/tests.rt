// Gateways at work: start orders and cuts that a port cannot see, and the memory that a gateway takes.
use crate::make::oxts_gateway;
use gateway::gateway::Gateway;
use gateway::refusal::PumpRefusal;
use line::line::Line;
use line::plain::Plain;
use oxts_record::family::{Mcom, McomFormat, Ncom, NcomFormat};
use std::mem::size_of;
use std::test::Fail;

// Pumps a packet of status 0, at most `limit` bytes at a time.
fn pump_packet(gateway: &mut Gateway<Ncom>, limit: u32) -> Result<(), PumpRefusal> {
    let mut packet = [0; 72];
    packet[0] = 0xE7;
    let mut line = Plain::new(&packet, 7);
    for _ in 0..72 {
        if gateway.pump(&mut line, limit)? == 0 {
            break;
        }
    }
    Ok(())
}

// Port 3 is opened for statuses before the first packet, and gives and misses the same, whoever else is there and however packets are cut.
#[test]
fn a_port_sees_no_neighbour_and_no_cut(rt: HostRuntime) -> Result<(), Fail> {
    let mut alone = oxts_gateway::<NcomFormat>();
    alone.open(3, 4)?;
    let mut busy = oxts_gateway::<NcomFormat>();
    busy.open(7, 31)?;
    busy.open(3, 4)?;
    busy.open(0, 1)?;
    for i in 0..20u64 {
        pump_packet(&mut alone, 72)?;
        pump_packet(&mut busy, 5)?;
        assert_eq!(rt; busy.take(0)?.place, 72 * i);
        // Port 7 wants all three messages of each packet, and takes one.
        assert_eq!(rt; busy.take(7)?.place, 72 * (i / 3));
    }
    assert_eq!(rt; alone.missed(3)?, 4);
    assert_eq!(rt; busy.missed(3)?, 4);
    for _ in 0..16 {
        assert_eq!(rt; alone.take(3)?.number, busy.take(3)?.number);
    }
    assert!(rt; alone.take(3).is_err());
    assert!(rt; busy.take(3).is_err());
    Ok(())
}

// A gateway that nothing was pumped into, for MCOM.
#[test]
fn a_new_gateway_has_nothing(rt: HostRuntime) {
    let gateway = oxts_gateway::<McomFormat>();
    assert_eq!(rt; gateway.counts().pumped, 0);
    assert!(rt; gateway.latest().is_none());
    assert_eq!(rt; gateway.record().heard_count(), 0);
}

// In bytes, as this toolchain lays a gateway out.
#[test]
fn the_memory_of_a_gateway(rt: HostRuntime) {
    assert_eq!(rt; size_of::<Gateway<Ncom>>(), 20_000);
    assert_eq!(rt; size_of::<Gateway<Mcom>>(), 20_000);
}
