// A port from its opening to its close.
use crate::bank::Bank;
use crate::refusal::TakeRefusal;
use reading::message::{Kind, Message};
use reading::sink::Sink;
use std::test::Fail;

fn message(kind: Kind, number: u64) -> Message {
    Message {
        kind,
        number,
        place: 0,
        code: 0,
        quantities: [0; 9],
    }
}

// Port 3 wants statuses and faults, and nobody takes: sixteen wait and the next is missed, but not one of another kind. The oldest is given first, and a close throws the rest away.
#[test]
fn a_port_fills_and_is_emptied(rt: HostRuntime) -> Result<(), Fail> {
    let mut bank = Bank::new();
    bank.open(3, 4 + 16)?;
    for number in 1..18 {
        bank.publish(message(Kind::Status, number));
    }
    bank.publish(message(Kind::Solution, 18));
    assert_eq!(rt; bank.missed(3)?, 1);
    assert_eq!(rt; bank.take(3)?.number, 1);
    assert_eq!(rt; bank.take(3)?.number, 2);
    assert_eq!(rt; bank.close(3)?, 14);
    bank.open(3, 4)?;
    assert_eq!(rt; bank.missed(3)?, 0);
    assert_eq!(rt; bank.take(3), Err(TakeRefusal::NothingWaits(3)));
    Ok(())
}
