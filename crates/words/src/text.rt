//! Texts that are built from pieces.

ghost use Rattle.std.specs.Prelude.{◌≡◌, ◌++◌, [], OnOk, codes, decimal};
ghost use Rattle.words.specs.Words.{word_with_numbers};

use std::alloc::AllocError;

/// The result of adding a piece to a text: an error only if memory runs out.
pub type Pushed = Result<(), AllocError>;

/// Adds `bytes` at the end of `out`. Fails only if memory runs out.
#[inline]
pub fn push_bytes(out: &mut Vec<u8>, bytes: &[u8]) -> Pushed
    ensures { OnOk result (out.new.items ≡ out.old.items ++ bytes.now) }
{
    out.extend_from_slice(bytes)
}

/// Adds `text` at the end of `out`. Fails only if memory runs out.
#[inline]
pub fn push_text(out: &mut Vec<u8>, text: &str) -> Pushed
    ensures { OnOk result (out.new.items ≡ out.old.items ++ text.now) }
{
    push_bytes(out, text.as_bytes())
}

/// Adds a space and then `word` at the end of `out`. Fails only if memory runs out.
pub fn push_word(out: &mut Vec<u8>, word: &str) -> Pushed
    ensures { OnOk result (out.new.items ≡ out.old.items ++ codes " " ++ word.now) }
{
    push_text(out, " ")?;
    push_text(out, word)
}

/// Adds `label` and then `number`, in decimal, at the end of `out`. Fails only if memory runs out.
pub fn push_labelled(out: &mut Vec<u8>, label: &str, number: u64) -> Pushed
    ensures { OnOk result (out.new.items ≡ out.old.items ++ label.now ++ decimal number) }
{
    push_text(out, label)?;
    push_number(out, number)
}

/// Adds `number`, in decimal, at the end of `out`. Fails only if memory runs out.
pub fn push_number(out: &mut Vec<u8>, number: u64) -> Pushed
    ensures { OnOk result (out.new.items ≡ out.old.items ++ decimal number) }
{
    if number < 10 {
        out.push(b'0' + number as u8)?;
        return Ok(());
    }
    push_number(out, number / 10)?;
    out.push(b'0' + (number % 10) as u8)?;
    Ok(())
}

/// Adds a word at the end of `out` and then, for each number, a space and the number. Fails only if
/// memory runs out.
pub fn push_word_with_numbers(out: &mut Vec<u8>, word: &str, numbers: &[u32]) -> Pushed
    ensures { OnOk result
        (out.new.items ≡ out.old.items ++ word_with_numbers word.now numbers.now) }
{
    push_text(out, word)?;
    push_numbers(out, numbers)
}

/// Adds at the end of `out`, for each number, a space and the number. Fails only if memory runs
/// out.
pub(crate) fn push_numbers(out: &mut Vec<u8>, numbers: &[u32]) -> Pushed
    ensures { OnOk result (out.new.items ≡ out.old.items ++ word_with_numbers [] numbers.now) }
{
    for number in numbers {
        out.push(b' ')?;
        push_number(out, u64::from(*number))?;
    }
    Ok(())
}
