//! Diagnostics as lines, written at the end of an output. Where memory runs out, a part of a line may
//! stand there.
#![tactic(auto, unfolding(crate::specs::Lines::subject_words, crate::specs::Lines::diag_line))]

ghost use Rattle.std.specs.Prelude.{◌≡◌, ◌++◌, ◌∷◌, decimal, IfOk, OnOk};
ghost use Rattle.std.specs.Str.{byte};
ghost use Rattle.std.specs.List.{flat_map};
ghost use Rattle.base.specs.Digits.{byte_digits, index_digits};
ghost use Rattle.diag_lines.specs.Lines.{code_word, sub_words, subject_words, diag_line, diag_text};

use crate::code::Code;
use crate::diag::Diag;
use crate::subject::Subject;
use base::{byte_digits, index_digits};
use std::alloc::{AllocError, Global};

/// Writes `E` or `W` and the number in two digits.
fn write_code(out: &mut Vec<u8>, code: Code) -> Result<(), AllocError>
    ensures { OnOk result (out.new.items ≡ out.old.items ++ code_word code) }
{
    let number = code.number();
    out.push(if code.is_error() { b'E' } else { b'W' })?;
    out.push(b'0' + number / 10)?;
    out.push(b'0' + number % 10)?;
    Ok(())
}

/// Writes a space and a word.
fn write_word(out: &mut Vec<u8>, word: &[u8]) -> Result<(), AllocError>
    ensures { OnOk result (out.new.items ≡ out.old.items ++ byte " " ∷ word.now) }
{
    out.push(b' ')?;
    out.extend_from_slice(word)?;
    Ok(())
}

/// Writes a space and a number in decimal digits.
fn write_number(out: &mut Vec<u8>, alloc: Global, number: u32) -> Result<(), AllocError>
    ensures { OnOk result (out.new.items ≡ out.old.items ++ byte " " ∷ decimal number) }
{
    let digits = number.to_string(alloc)?;
    write_word(out, digits.as_bytes())?;
    Ok(())
}

/// Writes a space and a sub-index as a word, where there is one.
fn write_sub(out: &mut Vec<u8>, sub: Option<u8>) -> Result<(), AllocError>
    ensures { OnOk result (out.new.items ≡ out.old.items ++ flat_map (λ word. byte " " ∷ word) (sub_words sub)) }
{
    match sub {
        Some(sub) => write_word(out, &byte_digits(sub)),
        None => Ok(()),
    }
}

/// Writes a space, and a node, an index and a sub-index as words.
fn write_place(
    out: &mut Vec<u8>,
    alloc: Global,
    node: u8,
    index: u16,
    sub: u8,
) -> Result<(), AllocError>
    ensures { OnOk result (out.new.items ≡ out.old.items ++ byte " " ∷ decimal node ++ byte " " ∷ index_digits index
        ++ byte " " ∷ byte_digits sub) }
{
    write_number(out, alloc, u32::from(node))?;
    write_word(out, &index_digits(index))?;
    write_word(out, &byte_digits(sub))?;
    Ok(())
}

/// Writes a space, and a node and the number of a PDO as words.
fn write_pdo(out: &mut Vec<u8>, alloc: Global, node: u8, number: u16) -> Result<(), AllocError>
    ensures { OnOk result (out.new.items ≡ out.old.items ++ byte " " ∷ decimal node ++ byte " " ∷ decimal number) }
{
    write_number(out, alloc, u32::from(node))?;
    write_number(out, alloc, u32::from(number))?;
    Ok(())
}

/// Writes the words of a subject, each after a space.
fn write_subject(out: &mut Vec<u8>, alloc: Global, subject: &Subject) -> Result<(), AllocError>
    ensures { OnOk result (out.new.items ≡ out.old.items ++ flat_map (λ word. byte " " ∷ word)
        (subject_words subject.now)) }
{
    match subject {
        Subject::Cob(identifier) => {
            write_word(out, b"cob")?;
            write_word(out, &identifier.digits())
        }
        Subject::Default(node, index, sub) => {
            write_word(out, b"default")?;
            write_place(out, alloc, *node, *index, *sub)
        }
        Subject::Eds(name, line) => {
            write_word(out, b"eds")?;
            write_word(out, name.as_slice())?;
            write_number(out, alloc, *line)
        }
        Subject::Event(number) => {
            write_word(out, b"event")?;
            write_number(out, alloc, u32::from(*number))
        }
        Subject::Limit(node, index, sub) => {
            write_word(out, b"limit")?;
            write_place(out, alloc, *node, *index, *sub)
        }
        Subject::Message(name) => {
            write_word(out, b"message")?;
            write_word(out, name.as_slice())
        }
        Subject::Node(node, sub) => {
            write_word(out, b"node")?;
            write_number(out, alloc, u32::from(*node))?;
            write_sub(out, *sub)
        }
        Subject::Param(node, index, sub) => {
            write_word(out, b"param")?;
            write_place(out, alloc, *node, *index, *sub)
        }
        Subject::Receive(name, node) => {
            write_word(out, b"receive")?;
            write_word(out, name.as_slice())?;
            write_number(out, alloc, u32::from(*node))
        }
        Subject::Rpdo(node, number) => {
            write_word(out, b"rpdo")?;
            write_pdo(out, alloc, *node, *number)
        }
        Subject::Tpdo(node, number) => {
            write_word(out, b"tpdo")?;
            write_pdo(out, alloc, *node, *number)
        }
    }
}

/// Writes the line of a diagnostic, without the LF.
pub(crate) fn write_line(out: &mut Vec<u8>, alloc: Global, diag: &Diag) -> Result<(), AllocError>
    ensures { OnOk result (out.new.items ≡ out.old.items ++ diag_line diag.now) }
{
    write_code(out, diag.code)?;
    write_subject(out, alloc, &diag.subject)?;
    Ok(())
}

/// The lines of diagnostics, each ended by LF. Takes time linear in the text.
pub fn text(alloc: Global, diags: &[Diag]) -> Result<Vec<u8>, AllocError>
    ensures { IfOk result (λ text. text.items ≡ diag_text diags.now) }
{
    let mut out = Vec::new(alloc);
    for diag in diags {
        write_line(&mut out, alloc, diag)?;
        out.push(b'\n')?;
    }
    Ok(out)
}
