//! The kinds of words: numbers, names, bytes and addresses.
ghost use Rattle.std.specs.Prelude.{◌≡◌, ◌≤◌, ◌^◌, ◌<◌, IfOk, IsTrue, length, take, drop};
ghost use Rattle.std.specs.Str.{bytes_eq};
ghost use Rattle.std.specs.List.{list_all};
ghost use Rattle.std.specs.Char.{is_ascii_digit};
ghost use Rattle.usb_text.specs.Kinds.{digits_value, number_of, is_name, is_name_byte, byte_of, address_of};

use std::alloc::Global;
use usb_types::{Buf, Memory};

/// Whether a word is this text.
pub fn is_text(word: &[u8], text: &str) -> bool
    ensures { result ≡ bytes_eq word.now text.now }
{
    word == text.as_bytes()
}

/// Whether each byte is a decimal digit.
pub fn are_digits(word: &[u8]) -> bool
    ensures { result ≡ list_all is_ascii_digit word.now }
{
    word.iter().all(|b| b.is_ascii_digit())
}

/// The value of at most ten decimal digits.
pub fn digits_value(digits: &[u8]) -> u64
    requires few { length digits.now ≤ 10 }
    requires digits { IsTrue (list_all is_ascii_digit digits.now) }
    ensures value { result ≡ digits_value digits.now }
    ensures bound { result < 10 ^ length digits.now }
{
    let mut value: u64 = 0;
    for b in digits {
        value = 10 * value + (*b - b'0') as u64;
    }
    value
}

/// The value of one to nine decimal digits.
pub fn number(word: &[u8]) -> Option<u32>
    ensures { result ≡ number_of word.now }
{
    if 1 <= word.len() && word.len() <= 9 && are_digits(word) {
        u32::try_from(digits_value(word)).ok()
    } else {
        None
    }
}

fn is_name_byte(b: u8) -> bool
    ensures { result ≡ is_name_byte b }
{
    b.is_ascii_lowercase() || b.is_ascii_digit() || b == b'_'
}

fn are_name_bytes(word: &[u8]) -> bool
    ensures { result ≡ list_all is_name_byte word.now }
{
    word.iter().all(|b| is_name_byte(*b))
}

/// Whether a word is a name: one to sixteen of `a` to `z`, `0` to `9` and `_`, a letter first.
pub fn is_name(word: &[u8]) -> bool
    ensures { result ≡ is_name word.now }
{
    1 <= word.len() && word.len() <= 16 && word[0].is_ascii_lowercase() && are_name_bytes(word)
}

/// The value of two hexadecimal digits of either case.
pub fn byte(word: &[u8]) -> Option<u8>
    ensures { result ≡ byte_of word.now }
{
    let mut bytes = [0u8; 1];
    match hex::decode_to_slice(word, &mut bytes) {
        Ok(()) => Some(bytes[0]),
        Err(_) => None,
    }
}

/// The address of an endpoint, as two hexadecimal digits.
pub fn address(word: &[u8]) -> Option<u8>
    ensures { result ≡ address_of word.now }
{
    let b = byte(word)?;
    if b <= 15 || (129 <= b && b <= 143) {
        Some(b)
    } else {
        None
    }
}

// The first bytes of a word, at most two, and the others.
pub fn split_two(word: &[u8]) -> (&[u8], &[u8])
    ensures front { result.0.now ≡ take 2 word.now }
    ensures back { result.1.now ≡ drop 2 word.now }
{
    word.split_at(word.len().min(2))
}
