//! Collects the words that the program is started with.
use edge_io::{OutOfMemory, Text};
use gdc_words::Words;
use std::alloc::Global;
use std::env::{Env, FillError};

/// How many bytes of a word are asked for at first.
const WORD_BYTES: usize = 4096;

/// How often the room for a word is doubled, at most.
const DOUBLINGS: u32 = 20;

/// The word at a place, or `None` past the last. The program's name is at place 0.
///
/// Words are bytes here, since a file's name need not be text; what is no text is no command and no key.
fn read_word(env: &impl Env, alloc: Global, place: usize) -> Result<Option<Text>, OutOfMemory> {
    let mut room = Vec::new(alloc);
    for doubling in 0..DOUBLINGS {
        room.resize(WORD_BYTES << doubling, 0u8)?;
        match env.arg(place, room.as_mut_slice()) {
            Ok(length) => {
                let word = Text::from_bytes(alloc, &room[..length])?;
                return Ok(Some(word));
            }
            Err(FillError::NotPresent) => return Ok(None),
            Err(FillError::TooLong) => {}
        }
    }
    Err(OutOfMemory)
}

/// All words after the program's name.
pub fn read_command_line(env: &impl Env, alloc: Global) -> Result<Words, OutOfMemory> {
    let mut words = Words::new(alloc);
    for place in 1..usize::MAX {
        match read_word(env, alloc, place)? {
            Some(word) => words.push(word)?,
            None => break,
        }
    }
    Ok(words)
}
