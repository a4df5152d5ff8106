// Names, units and dates: every field of either format has a name, and numbers print as they should.
use oxts::format::Format;
use oxts_fields::table::layout_of;
use oxts_units::calendar::gps_time;
use oxts_units::fields::{FieldText, field_texts};
use oxts_units::measure::{Measure, Scale, Unit};
use std::test::Fail;

fn is_named(channel: u32, number: u32) -> bool {
    field_texts().iter().any(|FieldText(of, place, _, _)| *of as u32 == channel
        && *place as u32 == number)
}

#[test]
fn fields_have_names(rt: HostRuntime) {
    for channel in 0..256u32 {
        for number in 0..9u32 {
            let tabled = layout_of(Format::Ncom, channel, number).is_ok()
                || layout_of(Format::Mcom, channel, number).is_ok();
            assert_eq!(rt; is_named(channel, number), tabled);
        }
    }
}

fn printed(rt: &HostRuntime, raw: i64, scale: Scale) -> Result<String, Fail> {
    let measure = Measure {
        raw,
        unit: Unit("", scale),
    };
    Ok(format!(in rt.alloc(); "{measure}")?)
}

#[test]
fn raw_numbers_in_units(rt: HostRuntime) -> Result<(), Fail> {
    assert_eq!(rt; printed(&rt, -1, Scale::Steps(1, 4))?.as_str(), "-0.0001");
    assert_eq!(rt;
        printed(&rt, 8_388_607, Scale::Steps(1, 5))?.as_str(),
        "83.88607"
    );
    assert_eq!(rt; printed(&rt, -2, Scale::Steps(5, 3))?.as_str(), "-0.010");
    assert_eq!(rt; printed(&rt, 3, Scale::Steps(1024, 0))?.as_str(), "3072");
    assert_eq!(rt; printed(&rt, 0, Scale::Steps(1, 0))?.as_str(), "0");
    // Nineteen places are the most before which a point is printed.
    assert_eq!(rt;
        printed(&rt, 12, Scale::Steps(1, 19))?.as_str(),
        "0.0000000000000000012"
    );
    assert_eq!(rt;
        printed(&rt, -12, Scale::Steps(1, 20))?.as_str(),
        "-00000000000000000012"
    );
    assert_eq!(rt;
        printed(&rt, 0x3FF8_0000_0000_0000, Scale::Double)?.as_str(),
        "1.5"
    );
    assert_eq!(rt; printed(&rt, 0xC000_0000, Scale::Single)?.as_str(), "-2");
    Ok(())
}

fn dated(rt: &HostRuntime, milliseconds: u64) -> Result<String, Fail> {
    let time = gps_time(milliseconds);
    Ok(format!(in rt.alloc(); "{time}")?)
}

#[test]
fn dates_at_the_edges(rt: HostRuntime) -> Result<(), Fail> {
    assert_eq!(rt; dated(&rt, 0)?.as_str(), "1980-01-06T00:00:00.000");
    assert_eq!(rt; dated(&rt, 86_399_999)?.as_str(), "1980-01-06T23:59:59.999");
    // The last of February 2000, a leap year, and of 2100, which is none.
    assert_eq!(rt;
        dated(&rt, 7359 * 86_400_000)?.as_str(),
        "2000-02-29T00:00:00.000"
    );
    assert_eq!(rt;
        dated(&rt, 43_883 * 86_400_000)?.as_str(),
        "2100-02-28T00:00:00.000"
    );
    assert_eq!(rt;
        dated(&rt, 43_884 * 86_400_000)?.as_str(),
        "2100-03-01T00:00:00.000"
    );
    Ok(())
}
