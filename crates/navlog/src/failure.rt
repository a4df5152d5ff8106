// Why navlog stops, told in one line.
use line::refusal::RecordRefusal;
use reading::refusal::Refusal;
use std::alloc::AllocError;
use std::io;
use thiserror::Error;

#[derive(Debug, Drop, Error)]
pub enum Failure {
    #[error("no family given: ncom or mcom (see navlog --help)")]
    NoFamily,
    #[error("unknown family '{0}': ncom or mcom (see navlog --help)")]
    UnknownFamily(String),
    #[error("no recording given: a file, or - for standard input (see navlog --help)")]
    NoFile,
    #[error("unknown option '{0}' (see navlog --help)")]
    UnknownOption(String),
    #[error("one family and one file, and no '{0}' (see navlog --help)")]
    WordTooMany(String),
    // The recording of this name cannot be opened or read.
    #[error("cannot read '{0}': {1}")]
    Recording(String, io::Error),
    // The datagrams of the recording of this name are cut short.
    #[error("'{0}': {1}")]
    Records(String, RecordRefusal),
    // The reader takes no more bytes.
    #[error("{0}")]
    Refused(#[from] Refusal),
    #[error("out of memory")]
    Memory(#[from(alloc)] AllocError),
    // Output cannot be written, or arguments not be read.
    #[error(transparent)]
    Stream(#[from] io::Error),
}
