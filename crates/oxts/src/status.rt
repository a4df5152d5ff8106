// The navigation status, byte 21 of a packet, says which structure the packet has.
ghost use Rattle.std.specs.Prelude.{◌≡◌};
ghost use Rattle.oxts.specs.Status.{structure_of};

#[derive(Clone, Copy, PartialEq, Eq, Debug)]
pub enum Structure {
    // A packet for everybody, with three checksums.
    StructureA,
    // A packet for the maker alone, with one checksum; it is passed over.
    StructureB,
}

// The structure that a navigation status stands for; none for a status that is reserved.
// A rule of the project (docs/DECISIONS.md, "Forms") has this as one match of ranges and a guard, so 20 to 22 is not a third range.
pub fn structure_of(status: u8) -> Option<Structure>
    ensures value { result ≡ structure_of status }
{
    match status {
        0..=7 | 10 => Some(Structure::StructureA),
        s if s >= 20 && s <= 22 => Some(Structure::StructureA),
        11 => Some(Structure::StructureB),
        _ => None,
    }
}
