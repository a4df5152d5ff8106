// Fields on both sides of each validity rule's edge, and full time.
use crate::packets::{packet, read_packets, sealed};
use oxts::format::Format;
use oxts_fields::ask::field;
use oxts_fields::refusal::Refusal;
use std::test::Fail;

// A field of a channel that was heard.
fn asked(format: Format, channel: u32, number: u32, bytes: [u8; 8]) -> Result<i64, Refusal> {
    field(format, channel, number, Some(bytes))
}

// At least, not, and above.
#[test]
fn rules_by_value_and_pattern(rt: HostRuntime) {
    assert_eq!(rt;
        asked(Format::Ncom, 0, 0, [0xE8, 3, 0, 0, 0, 0, 0, 0]),
        Ok(1000)
    );
    assert_eq!(rt;
        asked(Format::Ncom, 0, 0, [0xE7, 3, 0, 0, 0, 0, 0, 0]),
        Err(Refusal::NotValid)
    );
    assert_eq!(rt;
        asked(Format::Ncom, 0, 4, [0, 0, 0, 0, 0, 0, 0, 254]),
        Ok(254)
    );
    assert_eq!(rt;
        asked(Format::Ncom, 0, 4, [0, 0, 0, 0, 0, 0, 0, 255]),
        Err(Refusal::NotValid)
    );
    assert_eq!(rt; asked(Format::Ncom, 21, 0, [1, 0, 0, 0, 0, 0, 0, 0]), Ok(1));
    assert_eq!(rt; asked(Format::Ncom, 21, 0, [0; 8]), Err(Refusal::NotValid));
    assert_eq!(rt;
        asked(Format::Ncom, 20, 0, [0xFE, 0xFF, 0, 0, 0, 0, 0, 0]),
        Ok(-2)
    );
    assert_eq!(rt;
        asked(Format::Ncom, 20, 0, [0xFF, 0xFF, 0, 0, 0, 0, 0, 0]),
        Err(Refusal::NotValid)
    );
}

// By byte 6, by nibbles, and by bit 0.
#[test]
fn rules_by_other_bits(rt: HostRuntime) {
    assert_eq!(rt;
        asked(Format::Mcom, 13, 1, [0, 0, 0xFF, 0xFF, 0, 0, 149, 0]),
        Ok(-1)
    );
    assert_eq!(rt;
        asked(Format::Mcom, 13, 1, [0, 0, 0xFF, 0xFF, 0, 0, 150, 0]),
        Err(Refusal::NotValid)
    );
    assert_eq!(rt;
        asked(Format::Mcom, 14, 4, [0, 0, 0, 0, 0, 0, 0, 0xFE]),
        Ok(14)
    );
    assert_eq!(rt;
        asked(Format::Mcom, 14, 5, [0, 0, 0, 0, 0, 0, 0, 0xFE]),
        Err(Refusal::NotValid)
    );
    assert_eq!(rt;
        asked(Format::Mcom, 46, 2, [0, 0, 0, 0, 1, 0x80, 0, 0]),
        Ok(-32767)
    );
    assert_eq!(rt;
        asked(Format::Mcom, 46, 2, [0, 0, 0, 0, 1, 0x80, 1, 0]),
        Err(Refusal::NotValid)
    );
    assert_eq!(rt;
        asked(Format::Mcom, 16, 4, [0, 0, 0, 0, 0, 0, 0, 0xE1]),
        Ok(-16)
    );
    assert_eq!(rt;
        asked(Format::Mcom, 16, 4, [0, 0, 0, 0, 0, 0, 0, 0xE0]),
        Err(Refusal::NotValid)
    );
}

// Up to and below, where the formats differ; and the other refusals.
#[test]
fn the_formats_differ_in_40_and_41(rt: HostRuntime) {
    assert_eq!(rt;
        asked(Format::Ncom, 41, 0, [14, 0, 0, 6, 254, 0, 0, 0]),
        Ok(14)
    );
    assert_eq!(rt;
        asked(Format::Ncom, 41, 1, [14, 15, 0, 6, 254, 0, 0, 0]),
        Err(Refusal::NotValid)
    );
    assert_eq!(rt;
        asked(Format::Mcom, 41, 1, [14, 33, 34, 6, 254, 0, 0, 0]),
        Ok(33)
    );
    assert_eq!(rt;
        asked(Format::Mcom, 41, 2, [14, 33, 34, 7, 254, 0, 0, 0]),
        Err(Refusal::NotValid)
    );
    assert_eq!(rt;
        asked(Format::Mcom, 41, 3, [14, 33, 34, 7, 254, 0, 0, 0]),
        Err(Refusal::NotValid)
    );
    assert_eq!(rt;
        asked(Format::Mcom, 41, 4, [0, 0, 0, 0, 254, 0, 0, 0]),
        Ok(254)
    );
    assert_eq!(rt;
        asked(Format::Mcom, 41, 4, [0, 0, 0, 0, 255, 0, 0, 0]),
        Err(Refusal::NotValid)
    );
    assert_eq!(rt;
        asked(Format::Ncom, 41, 4, [0, 0, 0, 0, 254, 0, 0, 0]),
        Err(Refusal::NoField)
    );
    assert_eq!(rt; asked(Format::Ncom, 40, 0, [1, 0, 0, 0, 0, 0, 0, 0]), Ok(1));
    assert_eq!(rt;
        asked(Format::Mcom, 40, 0, [1, 0, 0, 0, 0, 0, 0, 0]),
        Err(Refusal::NoChannel)
    );
}

#[test]
fn refusals_have_numbers(rt: HostRuntime) {
    assert_eq!(rt; Refusal::NoChannel.number(), 9);
    assert_eq!(rt; Refusal::NoField.number(), 10);
    assert_eq!(rt; Refusal::NotHeard.number(), 11);
    assert_eq!(rt; Refusal::NotValid.number(), 12);
}

#[test]
fn full_time_needs_channel_0_and_a_status(rt: HostRuntime) -> Result<(), Fail> {
    let reader = read_packets(&[packet(4, 13, 40)])?;
    assert_eq!(rt; reader.record().full_time(), Err(Refusal::NotHeard));
    assert_eq!(rt; reader.record().field(13, 0), Ok(40));
    assert_eq!(rt; reader.record().field(14, 0), Err(Refusal::NotHeard));
    let reader = read_packets(&[packet(4, 0, 40)])?;
    assert_eq!(rt; reader.record().full_time(), Err(Refusal::NotValid));
    Ok(())
}

// Minutes 1,000 and 999, with times of 232 and 231 milliseconds.
#[test]
fn full_time_from_a_thousand_minutes_on(rt: HostRuntime) -> Result<(), Fail> {
    let mut enough = packet(4, 0, 0xE8);
    enough[64] = 3;
    let reader = read_packets(&[sealed(enough)])?;
    assert_eq!(rt; reader.record().full_time(), Ok(60_000_232));
    let mut few = packet(4, 0, 0xE7);
    few[64] = 3;
    let reader = read_packets(&[sealed(few)])?;
    assert_eq!(rt; reader.record().full_time(), Err(Refusal::NotValid));
    Ok(())
}
