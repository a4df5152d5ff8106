// A question for a field of a channel.
ghost use Rattle.std.specs.Prelude.{◌≡◌};
ghost use Rattle.oxts_fields.specs.Fields.{field_asked};

use crate::decode::field_value;
use crate::refusal::Refusal;
use crate::table::layout_of;
use oxts::format::Format;

// The value of a field, from the eight bytes of its channel where that was heard; refused with the lowest number that applies.
pub fn field(
    format: Format,
    channel: u32,
    number: u32,
    heard: Option<[u8; 8]>,
) -> Result<i64, Refusal>
    ensures value { result ≡ field_asked format channel number heard }
{
    let layout = layout_of(format, channel, number)?;
    let bytes = heard.ok_or(Refusal::NotHeard)?;
    field_value(&bytes, layout).ok_or(Refusal::NotValid)
}
