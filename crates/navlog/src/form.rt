// How messages are written: as lines of text, with counts and record behind them, or as a table for a spreadsheet.
use crate::csv::{write_header, write_row};
use crate::inbox::Inbox;
use crate::text::write_end;
use oxts_record::record::Record;
use reader::reader::Reader;
use reading::family::Family;
use std::io;
use std::io::Write;

// Each step is a match of two arms: a trait would need the enum for the command line besides, and be no plainer.
#[derive(Clone, Copy)]
pub enum Form {
    Text,
    Csv,
}

impl Form {
    // What comes before the first message.
    pub(crate) fn begin<W: Write>(self, out: &mut W) -> io::Result<()> {
        match self {
            Form::Text => Ok(()),
            Form::Csv => write_header(out),
        }
    }

    // The reader fills the inbox, and the output is the program's: a struct of both would be no plainer.
    pub(crate) fn messages<W: Write>(self, inbox: &Inbox, out: &mut W) -> io::Result<()> {
        for message in inbox.messages.as_slice() {
            match self {
                Form::Text => writeln!(out, "{message}")?,
                Form::Csv => write_row(message, out)?,
            }
        }
        Ok(())
    }

    // What comes behind the last message.
    pub(crate) fn end<M, F: Family<Record = Record<M>>, W: Write>(
        self,
        reader: &Reader<F>,
        out: &mut W,
    ) -> io::Result<()> {
        match self {
            Form::Text => write_end(reader, out),
            Form::Csv => Ok(()),
        }
    }
}
