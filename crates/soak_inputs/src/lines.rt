//! Lines that are written at the end of a text.
ghost use Rattle.std.specs.Prelude.{◌≡◌, ◌++◌, OnOk, decimal};

use xray_io::NoMemory;

/// Adds a number in decimal digits, with some bytes before it and after it.
pub(crate) fn add_number(
    text: &mut Vec<u8>,
    before: &[u8],
    number: u64,
    following: &[u8],
) -> Result<(), NoMemory>
    ensures { OnOk result (text.new.items ≡ text.old.items ++ (before.now ++ decimal number ++ following.now)) }
{
    let mut digits = itoa::Buffer::new();
    text.extend_from_slice(before)?;
    text.extend_from_slice(digits.format(number).as_bytes())?;
    text.extend_from_slice(following)?;
    Ok(())
}

/// Adds these bytes.
pub(crate) fn add_bytes(text: &mut Vec<u8>, bytes: &[u8]) -> Result<(), NoMemory>
    ensures { OnOk result (text.new.items ≡ text.old.items ++ bytes.now) }
{
    text.extend_from_slice(bytes)?;
    Ok(())
}
