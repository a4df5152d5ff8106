// What is proved of channels, records and readings, for both formats.
ghost use Rattle.std.specs.Prelude.{◌≡◌};
ghost use Rattle.oxts.specs.declared.format.Format.{Format};
ghost use Rattle.oxts.specs.declared.format.Format.TheVariants.{Ncom as ncom-format, Mcom as mcom-format};
ghost use Rattle.oxts_record.specs.Families.{ncom_model, mcom_model};
ghost use Rattle.oxts_record.specs.Heard.{Heard};
ghost use Rattle.oxts_record.specs.Readings.{ReadsFormat};

use crate::family::{Mcom, McomFormat, Ncom, NcomFormat, Oxts};
use crate::record::{Marker, Record};
use oxts_judge::theorems::packets_by_manual;
use reading::family::Family;
use reading::theorems::reading_keeps;

// Which channels are heard, how many they are, and which bytes each of them has.
pub fn heard_channels()
    ensures heard { (f : Format) → Heard f }
{}

// A reading of a format accepts the packets of the manuals alone, and record and counts are theirs.
pub fn reading_of_format<M: Marker>()
    ensures reads { ReadsFormat M.FORMAT ⟦<Oxts<M> as Family>⟧.model }
{
    reading_keeps::<Oxts<M>>();
    packets_by_manual::<Record<M>>();
}

// The two formats by name: NCOM's readings accept NCOM's packets, and MCOM's those of MCOM.
pub fn readings_of_families()
    ensures ncom { ReadsFormat ncom-format ncom_model }
    ensures mcom { ReadsFormat mcom-format mcom_model }
    ensures ncom_family { ⟦<Ncom as Family>⟧.model ≡ ncom_model }
    ensures mcom_family { ⟦<Mcom as Family>⟧.model ≡ mcom_model }
{
    reading_of_format::<NcomFormat>();
    reading_of_format::<McomFormat>();
}
