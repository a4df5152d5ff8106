// One decoder for every field: its bits, its value, and whether it is valid.
ghost use Rattle.std.specs.Prelude.{◌≡◌};
ghost use Rattle.oxts_fields.specs.Fields.{pattern_of, value_of, valid_by, field_value as value_in};

use crate::layout::{Form, Layout, Rule};
use oxts::words::{byte_at, bytes_at};

// The bits of a field, before any sign.
fn pattern(bytes: &[u8; 8], layout: Layout) -> u32
    ensures value { result ≡ pattern_of layout.form bytes.now layout.place }
{
    // The standard library has no `From<u32>` for `usize`.
    let place = layout.place as usize;
    let byte = byte_at(bytes, place);
    match layout.form {
        Form::Unsigned1 | Form::UpperSeven => u32::from(byte),
        Form::Unsigned2 | Form::Signed2 => u32::from(u16::from_le_bytes(bytes_at(bytes, place))),
        Form::Unsigned4 | Form::Signed4 => u32::from_le_bytes(bytes_at(bytes, place)),
        Form::LowNibble => u32::from(byte & 0x0F),
        Form::HighNibble => u32::from(byte >> 4),
    }
}

// The value of a pattern: signed forms are sign-extended, the upper seven bits by an arithmetic shift of a signed byte.
fn value(form: Form, pattern: u32) -> i64
    ensures value { result ≡ value_of form pattern }
{
    match form {
        Form::Signed2 => i64::from(((pattern & 0xFFFF) as u16).cast_signed()),
        Form::Signed4 => i64::from(pattern.cast_signed()),
        Form::UpperSeven => i64::from(((pattern & 0xFF) as u8).cast_signed() >> 1),
        _ => i64::from(pattern),
    }
}

// One arm for each rule of the table; a trait with an impl for each form and rule would be no plainer, here and above.
fn valid(bytes: &[u8; 8], rule: Rule, pattern: u32, value: i64) -> bool
    ensures value { result ≡ valid_by rule bytes.now pattern value }
{
    match rule {
        Rule::Always => true,
        Rule::AtLeast(least) => value >= i64::from(least),
        Rule::Above(least) => value > i64::from(least),
        Rule::UpTo(most) => pattern <= most,
        Rule::Below(limit) => pattern < limit,
        Rule::Not(none) => pattern != none,
        Rule::ByteSixBelow(limit) => bytes[6] < limit,
        Rule::ByteSixIs(wanted) => bytes[6] == wanted,
        Rule::BitZeroSet => pattern % 2 == 1,
    }
}

// The value of a field; none where it is not valid.
pub(crate) fn field_value(bytes: &[u8; 8], layout: Layout) -> Option<i64>
    ensures value { result ≡ value_in bytes.now layout }
{
    let bits = pattern(bytes, layout);
    let number = value(layout.form, bits);
    valid(bytes, layout.rule, bits, number).then_some(number)
}
