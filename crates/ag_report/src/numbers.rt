//! Words with a number behind them.
ghost use Rattle.std.specs.Prelude.{◌≡◌, ◌++◌, codes, decimal, OnOk};
ghost use Rattle.std.specs.String.{string_bytes};

use ag_base::OutOfMemory;

/// Appends a number.
fn push_number(text: &mut String, number: usize) -> Result<(), OutOfMemory>
    ensures { OnOk result (string_bytes text.new ≡ string_bytes text.old ++ decimal number) }
{
    write!(text, "{number}")?;
    Ok(())
}

/// Appends words and a number.
pub(crate) fn push_numbered(
    text: &mut String,
    words: &str,
    number: usize,
) -> Result<(), OutOfMemory>
    ensures { OnOk result (string_bytes text.new ≡ string_bytes text.old ++ (words.now ++ decimal number)) }
{
    text.push_str(words)?;
    push_number(text, number)
}

/// Appends words, a number and words.
pub(crate) fn push_between(
    text: &mut String,
    before: &str,
    number: usize,
    after: &str,
) -> Result<(), OutOfMemory>
    ensures { OnOk result (string_bytes text.new ≡ string_bytes text.old
        ++ (before.now ++ decimal number ++ after.now)) }
{
    push_numbered(text, before, number)?;
    text.push_str(after)?;
    Ok(())
}

/// Appends a line of words and a number.
pub(crate) fn push_line(text: &mut String, words: &str, number: usize) -> Result<(), OutOfMemory>
    ensures { OnOk result (string_bytes text.new ≡ string_bytes text.old
        ++ (words.now ++ decimal number ++ codes "\n")) }
{
    push_between(text, words, number, "\n")
}
