// What navlog writes behind the messages that it wrote as lines of text.
use oxts_record::record::Record;
use reader::reader::Reader;
use reading::family::Family;
use std::io;
use std::io::Write;

// The counts, the record and how many channels were heard.
pub fn write_end<M, F: Family<Record = Record<M>>, W: Write>(
    reader: &Reader<F>,
    out: &mut W,
) -> io::Result<()> {
    let counts = reader.counts();
    let snapshot = reader.record().snapshot();
    let heard = reader.record().heard_count();
    writeln!(out, "{counts}")?;
    writeln!(out, "{snapshot}")?;
    writeln!(out, "heard {heard}")
}
