// navlog: prints what a recording of an inertial unit holds, its messages first, then counts and record.
#![tactic(auto)]

use std::env;
use std::process::ExitCode;

mod carried;
mod csv;
mod failure;
mod form;
mod inbox;
mod log;
mod options;
mod text;

use failure::Failure;
use options::Command;

const HELP: &str =
    "navlog [--datagrams] [--frames] [--csv] FAMILY FILE: prints what a recording of an inertial unit holds

FAMILY       ncom or mcom
FILE         the recording, bytes as they came from the line; - for standard input
--datagrams  the recording is datagrams, each a length of two bytes, the low one first, and its content
--frames     the bytes are carrier frames, each a length byte and its content, inside datagrams if it has those
--csv        messages alone, as comma-separated values with a header, quantities in units behind the raw ones

It prints a line for each message in the order of the recording,
  message NUMBER kind KIND place PLACE code CODE : nine quantities
then the counts of the reading, the record, and how many status channels were heard.
Kinds: 1 inertial, 2 solution, 4 status, 8 packet passed over, 16 fault.";

fn run(rt: &HostRuntime) -> Result<(), Failure> {
    let mut words = Vec::new(rt.alloc());
    for word in env::args(rt)?.skip(1) {
        words.push(word)?;
    }
    match options::parse(rt.alloc(), words.as_slice())? {
        Command::Help => Ok(println!(rt; "{HELP}")?),
        Command::Log(recording) => log::log(rt, recording),
    }
}

fn main(rt: HostRuntime) -> ExitCode {
    match run(&rt) {
        Ok(()) => ExitCode::SUCCESS,
        Err(failure) => {
            let _ = eprintln!(rt; "navlog: {failure}");
            ExitCode::FAILURE
        }
    }
}
