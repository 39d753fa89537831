//! Texts that are repeated or filled up, and numbers.
ghost use Rattle.std.specs.Prelude.{◌≡◌, ◌++◌, OnOk};
ghost use Rattle.std.specs.Fmt.{decimal};
ghost use Rattle.std.specs.List.{repeat};
ghost use Rattle.mp_picture.specs.Rows.{padded};

use itoa::Buffer;
use std::alloc::AllocError;

/// Appends a text `count` times to a row.
pub(crate) fn push_repeated(row: &mut Vec<u8>, text: &[u8], count: usize) -> Result<(), AllocError>
    ensures { OnOk result (row.new.items ≡ row.old.items ++ repeat count text.now) }
{
    for _ in 0..count {
        row.extend_from_slice(text)?;
    }
    Ok(())
}

/// Puts a text behind a row, filled with blanks to a width.
pub(crate) fn push_padded(row: &mut Vec<u8>, text: &[u8], width: usize) -> Result<(), AllocError>
    ensures { OnOk result (row.new.items ≡ row.old.items ++ padded width text.now) }
{
    row.extend_from_slice(text)?;
    push_repeated(row, b" ", width.saturating_sub(text.len()))
}

/// Puts a number in decimal digits behind a text.
pub(crate) fn push_number(text: &mut Vec<u8>, number: u64) -> Result<(), AllocError>
    ensures { OnOk result (text.new.items ≡ text.old.items ++ decimal number) }
{
    let mut digits = Buffer::new();
    text.extend_from_slice(digits.format(number).as_bytes())
}
