//! The text of a printer's device id.
ghost use Rattle.std.specs.Prelude.{◌≡◌, ◌≤◌, length, map, IfOk};
ghost use Rattle.usb_printer.specs.Ids.{said_length, printable, text_or_dash, id_text};

use std::alloc::{AllocError, Global};
use usb_types::{Buf, Memory};

/// The text of a reply, as it is printed.
pub(crate) fn id_text(alloc: Global, reply: &[u8]) -> Result<Buf, Memory>
    requires { 2 ≤ length reply.now }
    ensures { IfOk result (λ text. text ≡ id_text reply.now) }
{
    let end = said_length(reply).min(reply.len());
    let text = if end < 2 { &[] } else { &reply[2..end] };
    let text = printed(alloc, text)?;
    Ok(Buf::of(text))
}

fn said_length(reply: &[u8]) -> usize
    requires { 2 ≤ length reply.now }
    ensures { result ≡ said_length reply.now }
{
    256 * usize::from(reply[0]) + usize::from(reply[1])
}

fn printed(alloc: Global, text: &[u8]) -> Result<Vec<u8>, AllocError>
    ensures { IfOk result (λ printed. printed.items ≡ text_or_dash (map printable text.now)) }
{
    let mut printed: Vec<u8> = text.iter().map(|b| printable(*b)).collect(alloc)?;
    if printed.is_empty() {
        printed.push(b'-')?;
    }
    Ok(printed)
}

fn printable(b: u8) -> u8
    ensures { result ≡ printable b }
{
    if (0x20..=0x7E).contains(&b) { b } else { b'.' }
}
