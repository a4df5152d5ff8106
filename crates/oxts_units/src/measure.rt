// A raw number of a packet, printed in its unit.
use std::fmt;
use std::num::{f32_from_bits_with_nan, f64_from_bits_with_nan};

// How a raw number stands for a quantity.
#[derive(Clone, Copy)]
pub enum Scale {
    // A whole number of steps: each so many of the last decimal place, and so many places.
    Steps(u16, u8),
    // The pattern of a 32-bit or a 64-bit float.
    Single,
    Double,
}

// A unit by its symbol, and the scale in which raw numbers count it. Fields go by place: a unit is a line of a table, which names would spread over four.
#[derive(Clone, Copy)]
pub struct Unit(pub &'static str, pub Scale);

pub(crate) const MILLISECONDS: Unit = Unit("s", Scale::Steps(1, 3));

// Prints as the quantity alone, without the symbol of its unit.
#[derive(Clone, Copy)]
pub struct Measure {
    pub raw: i64,
    pub unit: Unit,
}

// A number with its point before the last `places` digits. Twenty digits hold any number: from twenty places on they are printed without a point.
#[tactic(auto, using(crate::proofs::Tens::ten_some))]
fn write_decimal<W: fmt::Write>(
    f: &mut fmt::Formatter<W>,
    magnitude: u64,
    places: u8,
) -> fmt::Result {
    if places == 0 {
        return write!(f, "{magnitude}");
    }
    match 10u64.checked_pow(u32::from(places)) {
        Some(one) => {
            let whole = magnitude / one;
            let fraction = magnitude % one;
            let width = usize::from(places);
            write!(f, "{whole}.{fraction:0width$}")
        }
        None => write!(f, "{magnitude:020}"),
    }
}

impl fmt::Display for Measure {
    fn fmt<W: fmt::Write>(&self, f: &mut fmt::Formatter<W>) -> fmt::Result {
        let Unit(_, scale) = self.unit;
        match scale {
            Scale::Steps(each, places) => {
                if self.raw < 0 {
                    f.write_char('-')?;
                }
                let magnitude = self.raw.unsigned_abs().saturating_mul(u64::from(each));
                write_decimal(f, magnitude, places)
            }
            Scale::Single => {
                let bits = (self.raw.cast_unsigned() & 0xFFFF_FFFF) as u32;
                let value = f32_from_bits_with_nan(bits);
                write!(f, "{value}")
            }
            Scale::Double => {
                let value = f64_from_bits_with_nan(self.raw.cast_unsigned());
                write!(f, "{value}")
            }
        }
    }
}
