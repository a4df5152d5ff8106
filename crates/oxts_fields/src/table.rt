// The fields of the status channels, in one constant table for both formats.
ghost use Rattle.std.specs.Prelude.{◌≡◌, ◌<◌};
ghost use Rattle.oxts.specs.declared.format.Format.{Format};
ghost use Rattle.oxts_fields.specs.Table.{field_table, serves, offset as offset-of, concerns, layout_in, tabled, layout_of, layout_asked};

use crate::layout::Form::{
    HighNibble, LowNibble, Signed2, Signed4, Unsigned1, Unsigned2, Unsigned4, UpperSeven,
};
use crate::layout::Rule::{
    Above, Always, AtLeast, Below, BitZeroSet, ByteSixBelow, ByteSixIs, Not, UpTo,
};
use crate::layout::{Form, Layout, Rule};
use crate::refusal::Refusal;
use Formats::{Both, McomOnly, NcomOnly};
use oxts::format::Format;

// The formats that have a field. `Both` reads plainer in a row than the `None` of an `Option<Format>`.
#[derive(Clone, Copy)]
pub enum Formats {
    Both,
    NcomOnly,
    McomOnly,
}

// Fields of one form and rule that lie one behind another: formats, channel, number of the first field, place of the first, form, rule, how many.
// A tuple, since names in each of the 41 rows would hide the table.
#[derive(Clone, Copy)]
pub struct Run(Formats, u8, u8, u8, Form, Rule, u8);

const RUNS: [Run; 41] = [
    Run(Both, 0, 0, 0, Signed4, AtLeast(1000), 1),
    Run(Both, 0, 1, 4, Unsigned1, Not(255), 4),
    Run(Both, 13, 0, 0, Signed2, ByteSixBelow(150), 3),
    Run(Both, 13, 3, 6, Unsigned1, Always, 1),
    Run(Both, 13, 4, 7, LowNibble, Not(15), 1),
    Run(Both, 13, 5, 7, HighNibble, Not(15), 1),
    Run(Both, 14, 0, 0, Unsigned2, ByteSixBelow(150), 3),
    Run(Both, 14, 3, 6, Unsigned1, Always, 1),
    Run(Both, 14, 4, 7, LowNibble, Not(15), 1),
    Run(Both, 14, 5, 7, HighNibble, Not(15), 1),
    Run(Both, 15, 0, 0, Unsigned2, ByteSixBelow(150), 3),
    Run(Both, 15, 3, 6, Unsigned1, Always, 1),
    Run(Both, 15, 4, 7, LowNibble, Not(15), 1),
    Run(Both, 15, 5, 7, HighNibble, Not(15), 1),
    Run(Both, 16, 0, 0, Signed2, ByteSixIs(0), 3),
    Run(Both, 16, 3, 6, Unsigned1, Always, 1),
    Run(Both, 16, 4, 7, UpperSeven, BitZeroSet, 1),
    Run(Both, 17, 0, 0, Unsigned2, Always, 4),
    Run(Both, 18, 0, 0, Unsigned4, Always, 1),
    Run(Both, 18, 1, 4, Unsigned2, Always, 2),
    Run(Both, 19, 0, 0, Unsigned1, Always, 8),
    Run(Both, 20, 0, 0, Signed2, Not(65535), 1),
    Run(Both, 20, 1, 2, Unsigned1, Always, 4),
    Run(Both, 21, 0, 0, Signed4, Above(0), 1),
    Run(Both, 21, 1, 4, Signed4, Always, 1),
    Run(NcomOnly, 40, 0, 0, Unsigned2, Not(0), 1),
    Run(NcomOnly, 41, 0, 0, Unsigned1, UpTo(14), 3),
    Run(McomOnly, 41, 0, 0, Unsigned1, UpTo(33), 3),
    Run(Both, 41, 3, 3, Unsigned1, UpTo(6), 1),
    Run(McomOnly, 41, 4, 4, Unsigned1, Below(255), 4),
    Run(Both, 44, 0, 0, Unsigned2, Not(65535), 2),
    Run(Both, 45, 0, 0, Unsigned4, Always, 1),
    Run(Both, 45, 1, 4, Unsigned2, Below(60000), 1),
    Run(Both, 45, 2, 6, Unsigned1, Not(255), 1),
    Run(Both, 46, 0, 0, Signed2, ByteSixIs(0), 3),
    Run(Both, 46, 3, 6, Unsigned1, Always, 1),
    Run(Both, 47, 0, 0, Unsigned2, ByteSixIs(0), 3),
    Run(Both, 47, 3, 6, Unsigned1, Always, 1),
    Run(Both, 48, 0, 0, Signed2, Not(65535), 1),
    Run(Both, 48, 1, 2, Unsigned1, Not(255), 2),
    Run(Both, 48, 3, 6, Unsigned1, Not(255), 2),
];

pub fn field_table() -> &'static [Run; 41]
    ensures value { result.now ≡ field_table }
{
    &RUNS
}

impl Formats {
    // The two pairs that do not fit, in one match: a comparison would need the `Option` that the rows do without.
    fn serve(self, format: Format) -> bool
        ensures value { result ≡ serves self format }
    {
        match (self, format) {
            (NcomOnly, Format::Mcom) | (McomOnly, Format::Ncom) => false,
            _ => true,
        }
    }
}

// How far a field lies behind the first of its run, where `step` fields of this form lie before it. One arm for each form,
// as in the decoder: a trait with an impl for each form would be no plainer.
fn offset(form: Form, step: u32) -> u32
    requires few { step < 256 }
    ensures value { result ≡ offset-of form step }
    ensures few { result < 1024 }
{
    match form {
        Unsigned1 => step,
        Unsigned2 | Signed2 => 2 * step,
        Unsigned4 | Signed4 => 4 * step,
        LowNibble | HighNibble | UpperSeven => 0,
    }
}

impl Run {
    // Whether the run is of this channel in this format.
    fn concerns(&self, format: Format, channel: u32) -> bool
        ensures value { result ≡ concerns format channel self.now }
    {
        let Run(formats, of, ..) = *self;
        u32::from(of) == channel && formats.serve(format)
    }

    // The layout of a field of a channel, where the run has it.
    fn layout(&self, format: Format, channel: u32, field: u32) -> Option<Layout>
        ensures value { result ≡ layout_in format channel field self.now }
    {
        // First of all: most runs are of another channel.
        if !self.concerns(format, channel) {
            return None;
        }
        let Run(_, _, first, place, form, rule, count) = *self;
        let step = field.checked_sub(u32::from(first))?;
        if step >= u32::from(count) {
            return None;
        }
        Some(Layout {
            place: u32::from(place) + offset(form, step),
            form,
            rule,
        })
    }
}

// Whether a table has the channel. This and `find` are two questions to one table, since each has a refusal of its own.
fn is_tabled(runs: &[Run], format: Format, channel: u32) -> bool
    ensures value { result ≡ tabled format channel runs.now }
{
    runs.iter().any(|run| run.concerns(format, channel))
}

// The layout of a field of a channel, by the first run of the channel that has it.
fn find(runs: &[Run], format: Format, channel: u32, field: u32) -> Option<Layout>
    ensures value { result ≡ layout_of format channel field runs.now }
{
    runs.iter()
        .find_map(|run| run.layout(format, channel, field))
}

// The layout of a field, or why there is none. Format, channel and number stay three parameters here and above: a struct
// of them would be made here from the same three, and `Run` would only take it apart.
pub fn layout_of(format: Format, channel: u32, field: u32) -> Result<Layout, Refusal>
    ensures value { result ≡ layout_asked format channel field }
{
    if !is_tabled(field_table(), format, channel) {
        return Err(Refusal::NoChannel);
    }
    find(field_table(), format, channel, field).ok_or(Refusal::NoField)
}
