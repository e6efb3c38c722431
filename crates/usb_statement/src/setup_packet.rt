//! The setup packet of a control transfer, as it is read from a `submit` line.
ghost use Rattle.std.specs.Prelude.{◌≡◌, take, drop};
ghost use Rattle.usb_text.specs.Words.{words};
ghost use Rattle.usb_statement.specs.Setups.{setup_of, setup_first, behind_setup};

use usb_text::{is_text, next_word};

// The first bytes of a word, at most six, and the others.
fn split_six(word: &[u8]) -> (&[u8], &[u8])
    ensures front { result.0.now ≡ take 6 word.now }
    ensures back { result.1.now ≡ drop 6 word.now }
{
    word.split_at(word.len().min(6))
}

// The bytes of `setup:` and sixteen hexadecimal digits.
fn setup(word: &[u8]) -> Option<[u8; 8]>
    ensures { result ≡ setup_of word.now }
{
    let (front, behind) = split_six(word);
    if !is_text(front, "setup:") {
        return None;
    }
    let mut bytes = [0u8; 8];
    match hex::decode_to_slice(behind, &mut bytes) {
        Ok(()) => Some(bytes),
        Err(_) => None,
    }
}

/// The setup packet that the first word of a line spells, if it does, and the line after it.
pub fn split_setup(line: &[u8]) -> (Option<[u8; 8]>, &[u8])
    ensures setup { result.0 ≡ setup_first (words line.now) }
    ensures behind { words result.1.now ≡ behind_setup (words line.now) }
{
    match next_word(line) {
        Some((word, behind)) => match setup(word) {
            Some(bytes) => (Some(bytes), behind),
            None => (None, line),
        },
        None => (None, line),
    }
}
