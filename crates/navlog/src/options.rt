// The words of the command line.
ghost use Rattle.navlog.specs.Names.{Names};

use crate::failure::Failure;
use crate::form::Form;
use oxts::format::Format;
use std::alloc::Global;

// What carries the bytes of a recording.
#[derive(Clone, Copy)]
pub enum Carrier {
    Frames,
    Datagrams,
    FramesInDatagrams,
}

// A recording by its name, and how it is read and written out.
#[derive(Clone, Copy)]
pub struct Recording<'a> {
    pub family: Format,
    pub path: &'a str,
    // None where the bytes are as they came from the line.
    pub carrier: Option<Carrier>,
    pub form: Form,
}

// Help is a command and no missing recording, so this is no `Option`.
#[derive(Drop)]
pub enum Command<'a> {
    Help,
    Log(Recording<'a>),
}

// The names of families are the command line's own: a library of formats knows none.
fn family_named(word: &str) -> Option<Format>
    ensures names { Names word.now result }
{
    match word {
        "ncom" => Some(Format::Ncom),
        "mcom" => Some(Format::Mcom),
        _ => None,
    }
}

fn has_word(words: &[String], wanted: &str) -> bool {
    words.iter().any(|word| word.as_str() == wanted)
}

// The words that are no options; an option that is not known is refused. A lone hyphen is standard input, and no option.
fn plain_words(heap: Global, words: &[String]) -> Result<Vec<&str>, Failure> {
    let mut plain = Vec::new(heap);
    for word in words {
        match word.as_str() {
            "--datagrams" | "--frames" | "--csv" => {}
            text if text.starts_with('-') && text != "-" => {
                return Err(Failure::UnknownOption(word.clone()?));
            }
            text => plain.push(text)?,
        }
    }
    Ok(plain)
}

fn carried_by(words: &[String]) -> Option<Carrier> {
    match (has_word(words, "--datagrams"), has_word(words, "--frames")) {
        (false, false) => None,
        (false, true) => Some(Carrier::Frames),
        (true, false) => Some(Carrier::Datagrams),
        (true, true) => Some(Carrier::FramesInDatagrams),
    }
}

// What the words ask for: help wherever it is asked, or a family and a file.
pub fn parse(heap: Global, words: &[String]) -> Result<Command<'_>, Failure> {
    if has_word(words, "--help") || has_word(words, "-h") {
        return Ok(Command::Help);
    }
    let plain = plain_words(heap, words)?;
    let [word, rest @ ..] = plain.as_slice() else {
        return Err(Failure::NoFamily);
    };
    let Some(family) = family_named(word) else {
        return Err(Failure::UnknownFamily(String::from_str(heap, word)?));
    };
    match rest {
        [] => Err(Failure::NoFile),
        [path] => Ok(Command::Log(Recording {
            family,
            path,
            carrier: carried_by(words),
            form: if has_word(words, "--csv") {
                Form::Csv
            } else {
                Form::Text
            },
        })),
        [_, word, ..] => Err(Failure::WordTooMany(String::from_str(heap, word)?)),
    }
}
