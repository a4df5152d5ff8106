// The latest status, time and quantities of a device.
ghost use Rattle.std.specs.Prelude.{◌≡◌};
ghost use Rattle.oxts_record.specs.Snapshots.{first_snapshot, nothing_valid, inertial_taken, all_taken, snapshot_after};

use oxts::batches::{Solution, Vector, inertial_in, solution_in};
use std::fmt;

// Zeros before the first packet. A quantity that is no longer valid stays as it was, which an `Option` would lose. The status is the packet's own number: most have no name here.
#[derive(Clone, Copy, Default)]
pub struct Snapshot {
    pub status: u8,
    pub time: Option<u16>,
    pub inertial_valid: bool,
    pub solution_valid: bool,
    pub accelerations: Vector,
    pub rates: Vector,
    pub solution: Solution,
}

impl Snapshot {
    pub(crate) fn new() -> Snapshot
        ensures value { result ≡ first_snapshot }
    {
        Snapshot::default()
    }

    // Status 0: the packet has no quantities.
    fn invalidate(&mut self)
        ensures after { self.new ≡ nothing_valid self.old }
    {
        self.status = 0;
        self.inertial_valid = false;
        self.solution_valid = false;
    }

    // Status 1: the packet has inertial quantities, without a time.
    fn take_inertial(&mut self, packet: &[u8])
        ensures after { self.new ≡ inertial_taken self.old packet.now }
    {
        let inertial = inertial_in(packet);
        self.status = 1;
        self.time = None;
        self.inertial_valid = true;
        self.solution_valid = false;
        self.accelerations = inertial.accelerations;
        self.rates = inertial.rates;
    }

    // Any other status: the packet has everything.
    fn take_all(&mut self, status: u8, packet: &[u8])
        ensures after { self.new ≡ all_taken status packet.now }
    {
        let inertial = inertial_in(packet);
        *self = Snapshot {
            status,
            time: Some(inertial.time),
            inertial_valid: true,
            solution_valid: true,
            accelerations: inertial.accelerations,
            rates: inertial.rates,
            solution: solution_in(packet),
        };
    }

    // What a structure-A packet of this status makes of it.
    pub(crate) fn take(&mut self, status: u8, packet: &[u8])
        ensures after { self.new ≡ snapshot_after status self.old packet.now }
    {
        match status {
            0 => self.invalidate(),
            1 => self.take_inertial(packet),
            _ => self.take_all(status, packet),
        }
    }
}

// Two words for a mark: a type of its own with a `Display` would be no plainer.
fn validity(valid: bool) -> &'static str {
    if valid { "valid" } else { "invalid" }
}

impl fmt::Display for Snapshot {
    fn fmt<W: fmt::Write>(&self, f: &mut fmt::Formatter<W>) -> fmt::Result {
        let Snapshot {
            status,
            time,
            inertial_valid,
            solution_valid,
            accelerations,
            rates,
            solution,
        } = *self;
        match time {
            Some(time) => write!(f, "status {status} time {time}")?,
            None => write!(f, "status {status} time absent")?,
        }
        write!(
            f,
            " inertial {} solution {} accelerations {accelerations} rates {rates} {solution}",
            validity(inertial_valid),
            validity(solution_valid),
        )
    }
}
