// Makes the gateway of a unit.
ghost use Rattle.oxts_record.specs.declared.family.Oxts.{Oxts as oxts-family};
ghost use Rattle.oxts_record.specs.Readings.{ReadsFormat};
ghost use Rattle.law.specs.Runs.{start};
ghost use Rattle.gateway.specs.Law.{Law};
ghost use Rattle.gateway.specs.Standing.{Represents};

use gateway::gateway::Gateway;
use oxts_record::family::Oxts;
use oxts_record::record::Marker;
use oxts_record::theorems::reading_of_format;
use reading::family::Family;

// Every run of it keeps the law, by the verdicts and the record of its format; what it reads are the packets of the format.
pub fn oxts_gateway<M: Marker>() -> Gateway<Oxts<M>>
    ensures start { Represents ⟦<Oxts<M> as Family>⟧.model result start }
    ensures law { Law (oxts-family M) ⟦<Oxts<M> as Family>⟧ ⟦<Oxts<M> as Family>⟧.model }
    ensures reads { ReadsFormat M.FORMAT ⟦<Oxts<M> as Family>⟧.model }
{
    reading_of_format::<M>();
    Gateway::new()
}
