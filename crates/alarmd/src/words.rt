//! The words of the command line.

use al_base::{Text, TextFault};
use std::alloc::{AllocError, Global};
use std::rt::Env;
use std::{env, io};

/// The words; where one of them isn't UTF-8, an empty word, which is no row of the usage line.
pub fn words_of<R: Env + AllocGlobal>(rt: &R) -> Result<Vec<Text>, AllocError> {
    let alloc = rt.alloc();
    let mut words = Vec::new(alloc);
    match env::args(rt) {
        Ok(mut arguments) => {
            let _program = arguments.next();
            for argument in arguments {
                words.push(word(alloc, argument.as_str())?)?;
            }
        }
        Err(error) if error.kind() == io::ErrorKind::OutOfMemory => return Err(AllocError),
        Err(_) => words.push(word(alloc, "")?)?,
    }
    Ok(words)
}

fn word(alloc: Global, text: &str) -> Result<Text, AllocError> {
    match Text::read(alloc, text.as_bytes()) {
        Ok(word) => Ok(word),
        Err(TextFault::NotUtf8 | TextFault::Memory) => Err(AllocError),
    }
}

/// The word that names the journal, where there is one.
pub fn journal_in(words: &[Text]) -> &str {
    match words {
        [_, journal, ..] => journal.as_str(),
        _ => "",
    }
}
