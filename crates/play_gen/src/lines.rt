//! Lines: a word, and numbers behind it.
ghost use Rattle.std.specs.Prelude.{◌≡◌, ◌++◌, OnOk};
ghost use Rattle.play_format.specs.Texts.{number_text, numbers_text};
ghost use Rattle.play_gen.specs.Texts.{word_line};

use itoa::Buffer;
use pf_io::NoMemory;

fn push_number(out: &mut Vec<u8>, n: i64) -> Result<(), NoMemory>
    ensures { OnOk result (out.new.items ≡ out.old.items ++ number_text n) }
{
    out.push(b' ')?;
    out.extend_from_slice(Buffer::new().format(n).as_bytes())?;
    Ok(())
}

/// Appends numbers, each behind a space. Returns `Err(NoMemory)` if memory runs out.
pub fn push_numbers(out: &mut Vec<u8>, numbers: &[i64]) -> Result<(), NoMemory>
    ensures { OnOk result (out.new.items ≡ out.old.items ++ numbers_text numbers.now) }
{
    for n in numbers {
        push_number(out, *n)?;
    }
    Ok(())
}

/// Appends a line: a word, the numbers behind it, and LF. Returns `Err(NoMemory)` if memory runs out.
pub fn push_line(out: &mut Vec<u8>, word: &[u8], numbers: &[i64]) -> Result<(), NoMemory>
    ensures { OnOk result (out.new.items ≡ out.old.items ++ word_line word.now numbers.now) }
{
    out.extend_from_slice(word)?;
    push_numbers(out, numbers)?;
    out.push(b'\n')?;
    Ok(())
}
