//! The numbers of a command.
ghost use Rattle.std.specs.Prelude.{◌≡◌, ◌<◌, ◌≤◌, ◌^◌, true, IfOk};
ghost use Rattle.base.specs.Gives.{Gives};
ghost use Rattle.project_edits.specs.Faults.{is_memory};
ghost use Rattle.base.specs.Ranges.{is_between};
ghost use Rattle.script_commands.specs.Words.{number, decimal, hexadecimal};

use base::read_digits;
use project_edits::EditFault;

/// The number of 1 to `most` digits to a base, letters in any case.
fn number(word: &[u8], base: u32, most: usize) -> Result<u128, EditFault>
    requires low { 2 ≤ base }
    requires high { base ≤ 16 }
    requires few { most ≤ 10 }
    ensures value { Gives is_memory (λ n. n) result (number base most word.now) }
    ensures small { IfOk result (λ n. n < base ^ most) }
{
    if word.len() > most {
        return Err(EditFault::Syntax);
    }
    let Some(number) = read_digits(base, word) else {
        return Err(EditFault::Syntax);
    };
    Ok(number)
}

/// The number of 1 to 10 decimal digits.
pub(crate) fn decimal(word: &[u8]) -> Result<u64, EditFault>
    ensures { Gives is_memory (λ n. n) result (decimal word.now) }
{
    let number = number(word, 10, 10)?;
    Ok(number as u64)
}

/// An index: 1 to 4 hexadecimal digits.
pub(crate) fn index(word: &[u8]) -> Result<u16, EditFault>
    ensures value { Gives is_memory (λ n. n) result (hexadecimal 4 word.now) }
    ensures within { IfOk result (λ n. is_between 0 0xFFFF n ≡ true) }
{
    let index = number(word, 16, 4)?;
    Ok(index as u16)
}

/// A sub-index: 1 or 2 hexadecimal digits.
pub(crate) fn sub_index(word: &[u8]) -> Result<u8, EditFault>
    ensures value { Gives is_memory (λ n. n) result (hexadecimal 2 word.now) }
    ensures within { IfOk result (λ n. is_between 0 0xFF n ≡ true) }
{
    let sub = number(word, 16, 2)?;
    Ok(sub as u8)
}

/// An identifier: 1 to 3 hexadecimal digits.
pub(crate) fn cob(word: &[u8]) -> Result<u16, EditFault>
    ensures { Gives is_memory (λ n. n) result (hexadecimal 3 word.now) }
{
    let identifier = number(word, 16, 3)?;
    Ok(identifier as u16)
}
