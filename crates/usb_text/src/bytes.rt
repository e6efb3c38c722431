//! The bytes that a word of a scene spells.
ghost use Rattle.usb_types.specs.Limits.{most_packet};
ghost use Rattle.std.specs.Prelude.{◌≡◌, ◌<◌, ◌==◌, nat_le, if◌then◌else◌, length, take, drop, position, IfOk, IfSome, None, Some, MatchOption};
ghost use Rattle.std.specs.Result.{result_ok};
ghost use Rattle.hex.specs.Hex.{decode_of};
ghost use Rattle.usb_text.specs.Bytes.{cut, equal_bytes, filled_parts, spelled_bytes, data_of, payload_of};

use crate::kinds::{byte, is_text, number, split_two};
use std::alloc::Global;
use usb_types::limits::{MOST_BUFFER, MOST_PACKET};
use usb_types::{Buf, Memory};

fn place(word: &[u8], b: u8) -> Option<usize>
    ensures value { result ≡ position (λ c. c == b) word.now }
    ensures within { IfSome result (λ at. at < length word.now) }
{
    word.iter().position(|c| *c == b)
}

/// The parts of a word before and after the first byte `b`.
pub fn cut(word: &[u8], b: u8) -> Option<(&[u8], &[u8])>
    ensures { MatchOption result (cut b word.now ≡ None) (λ parts. cut b word.now ≡ Some (parts.0.now, parts.1.now)) }
{
    let at = place(word, b)?;
    Some((&word[..at], &word[at + 1..]))
}

fn equal_bytes(alloc: Global, count: Option<u32>, b: Option<u8>) -> Result<Option<Buf>, Memory>
    ensures { IfOk result (λ bytes. bytes ≡ equal_bytes count b) }
{
    let (Some(count), Some(b)) = (count, b) else {
        return Ok(None);
    };
    if 1 <= count && count <= MOST_BUFFER {
        let bytes = vec![in alloc; b; count as usize]?;
        Ok(Some(Buf::of(bytes)))
    } else {
        Ok(None)
    }
}

fn filled(alloc: Global, word: &[u8]) -> Result<Option<Buf>, Memory>
    ensures { IfOk result (λ bytes. bytes ≡ filled_parts (cut 58 word.now)) }
{
    match cut(word, b':') {
        None => Ok(None),
        Some((count, b)) => equal_bytes(alloc, number(count), byte(b)),
    }
}

fn decoded(alloc: Global, digits: &[u8]) -> Result<Option<Buf>, Memory>
    ensures { IfOk result (λ bytes. bytes ≡ result_ok (decode_of digits.now)) }
{
    match hex::decode(alloc, digits) {
        Ok(bytes) => Ok(Some(Buf::of(bytes))),
        Err(hex::FromHexError::OutOfMemory) => Err(Memory),
        Err(_) => Ok(None),
    }
}

// The first bytes of a word, at most five, and the others.
fn split_five(word: &[u8]) -> (&[u8], &[u8])
    ensures front { result.0.now ≡ take 5 word.now }
    ensures back { result.1.now ≡ drop 5 word.now }
{
    word.split_at(word.len().min(5))
}

// The bytes of `fill:NUM:HH`, or of an even number of hexadecimal digits.
fn spelled(alloc: Global, word: &[u8]) -> Result<Option<Buf>, Memory>
    ensures { IfOk result (λ bytes. bytes ≡ spelled_bytes word.now) }
{
    let (front, behind) = split_five(word);
    if is_text(front, "fill:") {
        filled(alloc, behind)
    } else {
        decoded(alloc, word)
    }
}

/// The bytes that a word of data spells.
pub fn data_bytes(alloc: Global, word: &[u8]) -> Result<Option<Buf>, Memory>
    ensures { IfOk result (λ bytes. bytes ≡ data_of word.now) }
{
    if is_text(word, "-") {
        Ok(Some(Buf::of(Vec::new(alloc))))
    } else if word.is_empty() {
        Ok(None)
    } else {
        spelled(alloc, word)
    }
}

fn short_payload(bytes: Buf) -> Option<Buf>
    ensures { result ≡ (if nat_le (length bytes) most_packet then Some bytes else None) }
{
    if bytes.bytes().len() <= MOST_PACKET as usize {
        Some(bytes)
    } else {
        None
    }
}

/// The bytes of a packet, which has at most 1,024: `p:` and bytes that are spelled.
pub fn payload(alloc: Global, word: &[u8]) -> Result<Option<Buf>, Memory>
    ensures { IfOk result (λ bytes. bytes ≡ payload_of word.now) }
{
    let (front, behind) = split_two(word);
    if !is_text(front, "p:") {
        return Ok(None);
    }
    match spelled(alloc, behind)? {
        Some(bytes) => Ok(short_payload(bytes)),
        None => Ok(None),
    }
}
