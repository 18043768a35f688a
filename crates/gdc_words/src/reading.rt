//! Reading the words.
ghost use Rattle.std.specs.Prelude.{◌≡◌, Result, IfOk, IfErr, Ok, []};
ghost use Rattle.gdc_words.specs.WordsEnds.{IsValueEnd, IsKeyEnd, FaultOf, Answers};
ghost use Rattle.gdc_words.specs.CommandLine.{Request, key_of, new_key, IsValue, PairsFrom, AsksFor, Asks};
ghost use Rattle.gdc_words.specs.declared.faults.UsageFault.{UsageFault};

use crate::asked::{Asked, Given, first_missing, mixed_key, stands};
use crate::commands::{Command, Key};
use crate::faults::{UsageFault, UsageKind, WordsEnd, fault_at};
use crate::words::Words;
use edge_io::Text;
use std::alloc::{AllocFailed, Global};

impl From<AllocFailed<Given>> for WordsEnd {
    ghost use Rattle.std.specs.Prelude.{◌≡◌};
    ghost use Rattle.gdc_words.specs.declared.faults.WordsEnd.TheVariants.{OutOfMemory};

    ghost from_gives = { λ _ end. end ≡ OutOfMemory };

    fn from(_: AllocFailed<Given>) -> WordsEnd {
        WordsEnd::OutOfMemory
    }
}

/// The key that a word names, where the command takes it and it does not stand yet.
fn new_key(command: Command, given: &[Given], place: usize, word: &[u8]) -> Result<Key, UsageFault>
    ensures { result ≡ new_key command given.now place (key_of word.now) }
{
    match Key::of(word) {
        None => Err(fault_at(UsageKind::UnknownWord, place)),
        Some(key) => {
            if !command.takes(key) {
                Err(fault_at(UsageKind::UnknownWord, place))
            } else if stands(given, key) {
                Err(fault_at(UsageKind::Repeated, place))
            } else {
                Ok(key)
            }
        }
    }
}

/// The key and its value, where the value has the key's form.
fn good_value(alloc: Global, key: Key, place: usize, value: &[u8]) -> Result<Given, WordsEnd>
    ensures ok { IfOk result (λ pair. (pair ≡ record { key = key; value = value.now }) × IsValue key value.now) }
    ensures err { IfErr result (IsValueEnd key place value.now) }
{
    if !key.is_value(value) {
        return Err(WordsEnd::Usage(fault_at(UsageKind::BadValue, place)));
    }
    let value = Text::from_bytes(alloc, value)?;
    Ok(Given { key, value })
}

/// The pairs after the command.
fn read_pairs(alloc: Global, command: Command, words: &[Text]) -> Result<Vec<Given>, WordsEnd>
    ensures ok { IfOk result (λ given. PairsFrom command [] 2 words.now (Ok given.items)) }
    ensures err { IfErr result (FaultOf (PairsFrom command [] 2 words.now)) }
{
    let mut given = Vec::new(alloc);
    let mut place = 2;
    let mut rest = words;
    while let [word, value, after @ ..] = rest {
        let key = new_key(command, &given, place, word.bytes())?;
        let pair = good_value(alloc, key, place + 1, value.bytes())?;
        given.push(pair)?;
        place += 2;
        rest = after;
    }
    match rest {
        [] => Ok(given),
        [word, ..] => {
            let _key = new_key(command, &given, place, word.bytes())?;
            Err(WordsEnd::Usage(fault_at(UsageKind::MissingValue, place)))
        }
    }
}

/// The end at a fault of a key, which has no place among the words.
fn key_end(alloc: Global, kind: UsageKind, key: Key) -> WordsEnd
    ensures { IsKeyEnd kind key result }
{
    match Text::from_bytes(alloc, key.word()) {
        Ok(word) => WordsEnd::Usage(UsageFault {
            kind,
            place: 0,
            key: Some(word),
        }),
        Err(_) => WordsEnd::OutOfMemory,
    }
}

/// What the words after the command ask for.
fn read_request(alloc: Global, command: Command, words: &[Text]) -> Result<Asked, WordsEnd>
    ensures ok { IfOk result (λ asked. AsksFor command words.now (Ok asked)) }
    ensures err { IfErr result (FaultOf (AsksFor command words.now)) }
{
    let given = read_pairs(alloc, command, words)?;
    match mixed_key(&given) {
        Some(key) => Err(key_end(alloc, UsageKind::Mixed, key)),
        None => match first_missing(command, &given) {
            Some(key) => Err(key_end(alloc, UsageKind::MissingKey, key)),
            None => Ok(Asked { command, given }),
        },
    }
}

/// What the words ask for, or their first fault.
pub fn read_words(alloc: Global, words: &Words) -> Result<Asked, WordsEnd>
    ensures ok { IfOk result (λ asked. Asks words.now (Ok asked)) }
    ensures err { IfErr result (FaultOf (Asks words.now)) }
    // Words ask for one thing, or have one first fault.
    ensures only { (answer : Result Request UsageFault) → Asks words.now answer → Answers result answer }
{
    match words.as_slice() {
        [] => Err(WordsEnd::Usage(fault_at(UsageKind::NoCommand, 1))),
        [word, rest @ ..] => match Command::of(word.bytes()) {
            None => Err(WordsEnd::Usage(fault_at(UsageKind::UnknownCommand, 1))),
            Some(command) => read_request(alloc, command, rest),
        },
    }
}
