// How a field of a status channel is read, and when it is valid.

// The bits of a field, and its sign.
#[derive(Clone, Copy)]
pub enum Form {
    Unsigned1,
    Unsigned2,
    Unsigned4,
    Signed2,
    Signed4,
    LowNibble,
    HighNibble,
    // Bits 1 to 7 of a byte, signed.
    UpperSeven,
}

// When a field is valid. Patterns are tested as they came, before any sign.
#[derive(Clone, Copy)]
pub enum Rule {
    Always,
    // By the value.
    AtLeast(u32),
    Above(u32),
    // By the pattern.
    UpTo(u32),
    Below(u32),
    Not(u32),
    // By byte 6 of the channel.
    ByteSixBelow(u8),
    ByteSixIs(u8),
    // By bit 0 of the field's own byte.
    BitZeroSet,
}

#[derive(Clone, Copy)]
pub struct Layout {
    pub place: u32,
    pub form: Form,
    pub rule: Rule,
}
