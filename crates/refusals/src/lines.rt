//! The line that a refusal is printed as.
ghost use Rattle.edge_io.specs.Writing.{Writes};
ghost use Rattle.refusals.specs.RefusalLine.{words_text, refusal_line};
ghost use Rattle.refusals.specs.Words.{word_line, line_of_words};

use crate::refusal::Refusal;
use crate::words::Word;
use edge_io::{Failed, Sink, Text, write_2, write_4, write_all};
use itoa::Buffer;

// Writes the names of nets, each behind a space.
fn write_nets<E: Sink>(nets: &[Text], err: &mut E) -> Result<(), Failed>
    ensures writes { Writes (words_text nets.now) (E.written err.old) (E.written err.new) (E.faults err.old) (E.faults err.new) result }
{
    for net in nets {
        write_2(err, b" ", net.bytes())?;
    }
    Ok(())
}

// Writes a word behind a space, the nets of a loop each behind one, and nothing for nothing.
fn write_word<E: Sink>(word: &Word, err: &mut E) -> Result<(), Failed>
    ensures writes { Writes (word_line word.now) (E.written err.old) (E.written err.new) (E.faults err.old) (E.faults err.new) result }
{
    let mut buffer = Buffer::new();
    match *word {
        Word::Nothing => Ok(()),
        Word::Text(text) => write_2(err, b" ", text),
        Word::Number(number) => write_2(err, b" ", buffer.format(number).as_bytes()),
        Word::Grains(grains) => write_2(err, b" ", buffer.format(grains).as_bytes()),
        Word::Node(node) => match &node.tail {
            None => write_2(err, b" ", node.head.bytes()),
            Some(tail) => write_4(err, b" ", node.head.bytes(), b":", tail.bytes()),
        },
        Word::Pin(instance, pin) => write_4(err, b" ", instance, b"/", pin),
        Word::Nets(nets) => write_nets(nets, err),
    }
}

// Writes words, one after another.
fn write_words<E: Sink>(words: &[Word<'_>], err: &mut E) -> Result<(), Failed>
    ensures writes { Writes (line_of_words words.now) (E.written err.old) (E.written err.new) (E.faults err.old) (E.faults err.new) result }
{
    for word in words {
        write_word(word, err)?;
    }
    Ok(())
}

/// Writes the line of a refusal in a run with so many corners. It takes no memory.
pub fn write_refusal<E: Sink>(refusal: &Refusal, corners: usize, err: &mut E) -> Result<(), Failed>
    ensures writes { Writes (refusal_line corners refusal.now) (E.written err.old) (E.written err.new) (E.faults err.old)
        (E.faults err.new) result }
{
    let words = refusal.words(corners);
    write_all(err, b"gdc:")?;
    write_words(&words, err)?;
    write_all(err, b"\n")?;
    Ok(())
}
