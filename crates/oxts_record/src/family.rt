// The packet families NCOM and MCOM: the verdicts and hints of a format, and a record of their own.
ghost use Rattle.std.specs.Prelude.{refl};
ghost use Rattle.oxts.specs.Formats.{longest_of};
ghost use Rattle.oxts.specs.declared.format.Format.TheVariants.{Ncom as ncom-format, Mcom as mcom-format};
ghost use Rattle.oxts_record.specs.Families.{family_model, family_laws};

use crate::record::{Marker, Record};
use oxts::format::Format;
use oxts_judge::hints;
use oxts_judge::judge::judge;
use reading::family::Family;
use reading::message::Verdict;
use std::marker::PhantomData;

#[derive(Clone, Copy)]
pub struct NcomFormat;

#[derive(Clone, Copy)]
pub struct McomFormat;

impl Marker for NcomFormat {
    ghost FORMAT = { ncom-format };

    const FORMAT: Format = Format::Ncom;
}

impl Marker for McomFormat {
    ghost FORMAT = { mcom-format };

    const FORMAT: Format = Format::Mcom;
}

// The family of a format.
#[derive_where(Clone, Copy)]
pub struct Oxts<M>(PhantomData<M>);

pub type Ncom = Oxts<NcomFormat>;

pub type Mcom = Oxts<McomFormat>;

impl<M: Marker> Family for Oxts<M> {
    ghost LONGEST = { longest_of M.FORMAT };

    const LONGEST: usize = Format::longest(M::FORMAT);

    type Record = Record<M>;

    ghost model = { family_model M.FORMAT };

    ghost longest = { refl };

    ghost laws = { family_laws M.FORMAT };

    fn judge(bytes: &[u8]) -> Verdict {
        judge(M::FORMAT, bytes)
    }

    fn next_check(prefix: &[u8]) -> usize {
        hints::next_check(M::FORMAT, prefix)
    }

    fn quiet(bytes: &[u8]) -> usize {
        hints::quiet(bytes)
    }

    fn first() -> Record<M> {
        Record::new()
    }

    fn absorb(record: &mut Record<M>, packet: &[u8]) {
        record.absorb(packet);
    }
}
