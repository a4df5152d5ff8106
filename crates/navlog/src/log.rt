// Reads a recording piece by piece, and prints what it holds.
ghost use Rattle.navlog.specs.Pieces.{PieceRead};
ghost use Rattle.std.specs.Prelude.{OnOk};

use crate::carried::Carried;
use crate::failure::Failure;
use crate::inbox::Inbox;
use crate::options::{Carrier, Recording};
use line::datagram::{Datagram, record_count};
use line::opener::Opener;
use line::plain::Plain;
use oxts::format::Format;
use oxts_record::family::{Mcom, Ncom};
use oxts_record::record::Record;
use reader::reader::Reader;
use reading::family::Family;
use std::fs::File;
use std::io;
use std::io::{BufWriter, Read, Write};

// A recording is read in pieces of so many bytes.
const PIECE: usize = 65536;

// Reads a piece; the inbox then has the messages that it brought.
fn read_piece<F: Family>(
    reader: &mut Reader<F>,
    piece: &[u8],
    inbox: &mut Inbox,
) -> Result<(), Failure>
    ensures read { OnOk result (PieceRead F.model reader.old piece.now reader.new inbox.new) }
{
    inbox.clear();
    reader.feed(piece, inbox)?;
    Ok(inbox.kept?)
}

// Prints a recording.
pub fn log<'a>(rt: &'a HostRuntime, recording: Recording<'a>) -> Result<(), Failure> {
    let logger = Logger { rt, recording };
    logger.log()
}

#[derive(Clone, Copy)]
struct Logger<'a> {
    rt: &'a HostRuntime,
    recording: Recording<'a>,
}

impl Logger<'_> {
    fn log(&self) -> Result<(), Failure> {
        if self.recording.path == "-" {
            return self.log_from(&mut self.rt.stdin());
        }
        let opened = File::open(self.rt, self.recording.path);
        let mut file = opened.map_err(|error| self.unreadable(error))?;
        self.log_from(&mut file)
    }

    // Reads the recording through the lines that carry it.
    fn log_from<S: Read>(&self, source: &mut S) -> Result<(), Failure> {
        let Some(carrier) = self.recording.carrier else {
            return self.log_source(source);
        };
        let mut memory = Vec::new(self.rt.alloc());
        source
            .read_to_end(&mut memory)
            .map_err(|error| self.unreadable(error))?;
        self.log_carried(carrier, memory.as_slice())
    }

    fn log_carried(&self, carrier: Carrier, memory: &[u8]) -> Result<(), Failure> {
        match carrier {
            Carrier::Frames => self.log_source(&mut Carried(Opener::new(Plain::new(
                memory, PIECE,
            )))),
            Carrier::Datagrams => {
                self.log_source(&mut Carried(Datagram::new(memory)))?;
                self.ends_whole(memory)
            }
            Carrier::FramesInDatagrams => {
                self.log_source(&mut Carried(Opener::new(Datagram::new(memory))))?;
                self.ends_whole(memory)
            }
        }
    }

    // A datagram that is cut short is told once all before it is printed.
    fn ends_whole(&self, memory: &[u8]) -> Result<(), Failure> {
        match record_count(memory) {
            Ok(_) => Ok(()),
            Err(refusal) => Err(Failure::Records(
                String::from_str(self.rt.alloc(), self.recording.path)?,
                refusal,
            )),
        }
    }

    fn log_source<S: Read>(&self, source: &mut S) -> Result<(), Failure> {
        match self.recording.family {
            Format::Ncom => self.log_family::<_, Ncom, S>(source),
            Format::Mcom => self.log_family::<_, Mcom, S>(source),
        }
    }

    fn log_family<M, F: Family<Record = Record<M>>, S: Read>(
        &self,
        source: &mut S,
    ) -> Result<(), Failure> {
        let form = self.recording.form;
        let mut out = BufWriter::new(self.rt.alloc(), self.rt.stdout())?;
        form.begin(&mut out)?;
        let reader = self.read_all::<F, S, _>(source, &mut out)?;
        form.end(&reader, &mut out)?;
        Ok(out.flush()?)
    }

    // Writes the messages of all that the source gives, and hands back the reader that has read it.
    fn read_all<F: Family, S: Read, W: Write>(
        &self,
        source: &mut S,
        out: &mut W,
    ) -> Result<Reader<F>, Failure> {
        let mut reader = Reader::new();
        let mut inbox = Inbox::new(self.rt.alloc());
        let mut piece = vec![in self.rt.alloc(); 0; PIECE]?;
        // A source may never end, but a loop must.
        for _ in 0..u64::MAX {
            // By `map_err` the proof of the range below outgrew the check's memory.
            let n = match source.read(&mut piece) {
                Ok(n) => n,
                Err(error) => return Err(self.unreadable(error)),
            };
            if n == 0 {
                break;
            }
            read_piece::<F>(&mut reader, &piece[0..n], &mut inbox)?;
            self.recording.form.messages(&inbox, out)?;
        }
        Ok(reader)
    }

    // The recording cannot be opened or read.
    fn unreadable(&self, error: io::Error) -> Failure {
        match String::from_str(self.rt.alloc(), self.recording.path) {
            Ok(path) => Failure::Recording(path, error),
            Err(error) => Failure::from(error),
        }
    }
}
