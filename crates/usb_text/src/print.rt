//! The words of a report: numbers and bytes.
ghost use Rattle.std.specs.Prelude.{◌≡◌, ◌++◌, OnOk, decimal};
ghost use Rattle.std.specs.List.{flat_map};
ghost use Rattle.usb_text.specs.Print.{hex_pair, hex_text};

use itoa::Buffer;
use usb_types::{Buf, Memory};

const DIGITS: [u8; 16] = *b"0123456789ABCDEF";

/// Adds a number in decimal, without leading zeros.
pub fn push_number(text: &mut Buf, number: u64) -> Result<(), Memory>
    ensures { OnOk result (text.new ≡ text.old ++ decimal number) }
{
    let mut buffer = Buffer::new();
    text.append(buffer.format(number).as_bytes())
}

/// Adds each byte as two hexadecimal digits in upper case.
pub fn push_pairs(text: &mut Buf, bytes: &[u8]) -> Result<(), Memory>
    ensures { OnOk result (text.new ≡ text.old ++ flat_map hex_pair bytes.now) }
{
    for b in bytes {
        text.append(&[DIGITS[*b as usize / 16], DIGITS[*b as usize % 16]])?;
    }
    Ok(())
}

/// Adds bytes as a report's word.
pub fn push_hex(text: &mut Buf, bytes: &[u8]) -> Result<(), Memory>
    ensures { OnOk result (text.new ≡ text.old ++ hex_text bytes.now) }
{
    if bytes.is_empty() {
        text.append(b"-")
    } else {
        push_pairs(text, bytes)
    }
}
