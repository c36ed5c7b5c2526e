//! Numbers in a text.
ghost use Rattle.std.specs.Prelude.{◌≡◌, ◌++◌, OnOk};
ghost use Rattle.play_format.specs.Texts.{numbers_text};

use itoa::{Buffer, Integer};
use pf_io::NoMemory;

/// Appends a label, and a number behind it.
pub(crate) fn append_labelled<I: Integer>(
    out: &mut Vec<u8>,
    label: &[u8],
    n: I,
) -> Result<(), NoMemory>
    ensures { OnOk result (out.new.items ≡ out.old.items ++ (label.now ++ I.text n)) }
{
    out.extend_from_slice(label)?;
    out.extend_from_slice(Buffer::new().format(n).as_bytes())?;
    Ok(())
}

/// Appends numbers, each behind a space.
pub(crate) fn append_numbers(out: &mut Vec<u8>, numbers: &[i32]) -> Result<(), NoMemory>
    ensures { OnOk result (out.new.items ≡ out.old.items ++ numbers_text numbers.now) }
{
    for n in numbers {
        append_labelled(out, b" ", *n)?;
    }
    Ok(())
}
