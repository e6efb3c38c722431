//! What a device answers, as it is read from a line.
ghost use Rattle.std.specs.Prelude.{◌≡◌, ◌==◌, not, nat_le, ◌&&◌, ◌||◌, if◌then◌else◌, Some, None, IfOk};
ghost use Rattle.usb_text.specs.Words.{words};
ghost use Rattle.usb_xfer.specs.Direction.{goes_in};
ghost use Rattle.usb_statement.specs.Items.{what_of, times_of, item_of, items_of, is_reply_of, is_reply_at, are_items_of};

use std::alloc::Global;
use usb_text::{cut, is_text, next_word, number, payload};
use usb_types::limits::MOST_TIMES;
use usb_types::{List, Memory};
use usb_xfer::{Item, What, is_in};

fn what(alloc: Global, word: &[u8]) -> Result<Option<What>, Memory>
    ensures { IfOk result (λ what. what ≡ what_of word.now) }
{
    if is_text(word, "ack") {
        Ok(Some(What::Ack))
    } else if is_text(word, "nak") {
        Ok(Some(What::Nak))
    } else if is_text(word, "stall") {
        Ok(Some(What::Stall))
    } else if is_text(word, "error") {
        Ok(Some(What::Error))
    } else {
        Ok(payload(alloc, word)?.map(|bytes| What::Packet(bytes)))
    }
}

fn times(word: &[u8]) -> Option<u32>
    ensures { result ≡ times_of word.now }
{
    let times = number(word)?;
    if 1 <= times && times <= MOST_TIMES {
        Some(times)
    } else {
        None
    }
}

fn item(alloc: Global, word: &[u8]) -> Result<Option<Item>, Memory>
    ensures { IfOk result (λ item. item ≡ item_of word.now) }
{
    let Some((count, reply)) = cut(word, b'*') else {
        return Ok(what(alloc, word)?.map(|what| Item { times: 1, what }));
    };
    match times(count) {
        Some(times) => Ok(what(alloc, reply)?.map(|what| Item { times, what })),
        None => Ok(None),
    }
}

/// The items that a line's words spell.
pub fn read_items(alloc: Global, line: &[u8]) -> Result<Option<List<Item>>, Memory>
    ensures { IfOk result (λ items. items ≡ items_of (words line.now)) }
{
    let mut items = List::of(Vec::new(alloc));
    let mut rest = line;
    while let Some((word, behind)) = next_word(rest) {
        match item(alloc, word)? {
            Some(item) => items.push(item)?,
            None => return Ok(None),
        }
        rest = behind;
    }
    Ok(Some(items))
}

fn is_reply_of(goes_in: bool, what: &What) -> bool
    ensures { result ≡ is_reply_of goes_in what.now }
{
    match what {
        What::Ack => !goes_in,
        What::Packet(_) => goes_in,
        _ => true,
    }
}

// At 00 control transfers go both ways, so all replies fit.
fn is_reply_at(address: u8, what: &What) -> bool
    ensures { result ≡ is_reply_at address what.now }
{
    address == 0 || is_reply_of(is_in(address), what)
}

/// Whether the endpoint at an address can give these items.
pub fn are_items_of(address: u8, items: &[Item]) -> bool
    ensures { result ≡ are_items_of address items.now }
{
    items.iter().all(|item| is_reply_at(address, &item.what))
}
