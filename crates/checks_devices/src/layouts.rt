//! The messages of a network, as lines say.
ghost use Rattle.std.specs.Prelude.{IfSome};
ghost use Rattle.project_messages.specs.Messages.{IsMessage};

use base::{Octets, next_word, read_digits};
use project_messages::{Message, Messages};
use std::alloc::{AllocError, Global};

/// The numbers that words are, as hexadecimal digits: at most eight, and 0 where a word is none.
fn numbers(alloc: Global, words: &[u8]) -> Result<Vec<u16>, AllocError> {
    let mut numbers = Vec::new(alloc);
    let mut rest = words;
    for _ in 0..8 {
        let (word, after) = next_word(rest);
        if !word.is_empty() {
            let number = read_digits(16, word).unwrap_or(0);
            numbers.push((number % 0x10000) as u16)?;
        }
        rest = after;
    }
    Ok(numbers)
}

/// A message of a TPDO of a node, of a transmission type, with an inhibit and an event time, by an
/// identifier or, for 0, an automatic one.
#[tactic(auto, unfolding(project_messages::specs::Messages::IsMessage))]
fn sent(numbers: &[u16]) -> Option<Message>
    ensures { IfSome result IsMessage }
{
    let [node, tpdo, transmission, inhibit, event, cob] = numbers else {
        return None;
    };
    let (node, tpdo, cob) = (*node, *tpdo, *cob);
    if node < 1 || 127 < node || tpdo < 1 || 512 < tpdo || 0x7FF < cob {
        return None;
    }
    Some(Message {
        node: node as u8,
        tpdo,
        transmission: (*transmission % 256) as u8,
        inhibit: *inhibit,
        event: *event,
        cob,
    })
}

/// Puts a message.
fn put(m: &mut Messages, alloc: Global, name: &[u8], numbers: &[u16]) -> Result<(), AllocError> {
    if let Some(message) = sent(numbers) {
        m.put(alloc, Octets::from_slice(alloc, name)?, message)?;
    }
    Ok(())
}

/// Puts a source at a position, or takes it away.
fn change_source(m: &mut Messages, name: &[u8], numbers: &[u16]) -> Result<(), AllocError> {
    match numbers {
        [position, index, sub] if 1 <= *position && *position <= 64 => {
            m.put_source(name, *position as u8, *index, (*sub % 256) as u8)?;
        }
        [position] => m.remove_source(name, (*position % 256) as u8),
        _ => {}
    }
    Ok(())
}

/// Puts a sink of a node at a position, or takes it away.
fn change_sink(m: &mut Messages, name: &[u8], numbers: &[u16]) -> Result<(), AllocError> {
    match numbers {
        [position, node, index, sub]
            if 1 <= *position && *position <= 64 && 1 <= *node && *node <= 127 => {
            m.put_sink(
                name,
                *position as u8,
                *node as u8,
                *index,
                (*sub % 256) as u8,
            )?;
        }
        [position, node] => m.remove_sink(name, (*position % 256) as u8, (*node % 256) as u8),
        _ => {}
    }
    Ok(())
}

/// What a line does with the messages.
#[derive(Clone, Copy)]
enum Word {
    Message,
    Source,
    Sink,
    Drop,
    Clear,
}

/// The words as they are spelled.
const WORDS: [(&[u8], Word); 5] = [
    (b"message", Word::Message),
    (b"source", Word::Source),
    (b"sink", Word::Sink),
    (b"drop", Word::Drop),
    (b"clear", Word::Clear),
];

/// The word that a text is, `clear` for other texts.
fn word_of(text: &[u8]) -> Word {
    for (spelled, word) in &WORDS {
        if *spelled == text {
            return *word;
        }
    }
    Word::Clear
}

/// Does with the message of a name what a word says, or takes all messages away.
fn obey(
    m: &mut Messages,
    alloc: Global,
    word: Word,
    name: &[u8],
    numbers: &[u16],
) -> Result<(), AllocError> {
    match word {
        Word::Message => put(m, alloc, name, numbers),
        Word::Source => change_source(m, name, numbers),
        Word::Sink => change_sink(m, name, numbers),
        Word::Drop => {
            m.remove(name);
            Ok(())
        }
        Word::Clear => {
            *m = Messages::new(alloc);
            Ok(())
        }
    }
}

/// Changes the messages as a line says: `message`, `source` and `sink` have a name and numbers, as
/// hexadecimal digits. A source with its position alone, and a sink with its position and node alone, go;
/// `drop` takes the message of a name away, and `clear` all.
pub fn change(m: &mut Messages, alloc: Global, line: &[u8]) -> Result<(), AllocError> {
    let (word, after) = next_word(line);
    let (name, words) = next_word(after);
    let numbers = numbers(alloc, words)?;
    obey(m, alloc, word_of(word), name, &numbers)
}

/// Puts as many messages as there can be, with names of two bytes.
pub fn fill(m: &mut Messages, alloc: Global) -> Result<(), AllocError> {
    for number in 0..1024u16 {
        put(m, alloc, &number.to_be_bytes(), &[5, 1, 255, 0, 0, 0])?;
    }
    Ok(())
}
