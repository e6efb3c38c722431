//! The statement on a line of a scene by itself: its first word, and the words after it by the row of that word.
ghost use Rattle.std.specs.Prelude.{◌≡◌, ◌∷◌, [], IfOk};
ghost use Rattle.usb_text.specs.Words.{words};
ghost use Rattle.usb_statement.specs.Statements.{device_kind_of, end_of, kind_of, answer_with, statement_of};
ghost use Rattle.usb_statement.specs.declared.keyword.Keyword.{Keyword};
ghost use Rattle.usb_statement.specs.declared.keyword.Keyword.TheVariants as word;

use crate::interface_call::{InterfaceCall, read_interface_call};
use crate::items::{are_items_of, read_items};
use crate::kept_data::{kept, sent};
use crate::keyword::{BareCall, DeviceBytes, InterfaceWord, Keyword, UrbCall};
use crate::options::{UrbOption, read_options};
use crate::setup_packet::split_setup;
use crate::urb_name::{UrbName, read_urb_name};
use std::alloc::Global;
use usb_machine::EndKind;
use usb_text::{address, byte, is_name, is_text, next_word, number};
use usb_types::{Buf, List, Memory};
use usb_xfer::{Item, Kind};

/// What is read from a line by itself.
#[derive(Drop)]
pub enum Statement {
    Device {
        name: Buf,
        kind: Kind,
    },
    Ep {
        address: u8,
        kind: EndKind,
        size: u32,
        interval: u32,
    },
    Bytes {
        which: DeviceBytes,
        bytes: Buf,
    },
    Port {
        status: u8,
    },
    Answer {
        address: u8,
        items: List<Item>,
    },
    Urb {
        name: Buf,
        device: Buf,
        address: u8,
        options: List<UrbOption>,
    },
    Thread {
        name: Buf,
    },
    Submit {
        urb: UrbName,
        setup: Option<[u8; 8]>,
        bytes: Option<Buf>,
    },
    OnUrb {
        call: UrbCall,
        urb: UrbName,
    },
    Alone {
        call: BareCall,
    },
    OnInterface {
        call: InterfaceCall,
        device: Buf,
        interface: u32,
    },
}

fn device_kind(word: &[u8]) -> Option<Kind>
    ensures { result ≡ device_kind_of word.now }
{
    if is_text(word, "raw") {
        Some(Kind::Raw)
    } else if is_text(word, "keyboard") {
        Some(Kind::Keyboard)
    } else if is_text(word, "acm") {
        Some(Kind::Acm)
    } else if is_text(word, "printer") {
        Some(Kind::Printer)
    } else {
        None
    }
}

fn device_of(alloc: Global, line: &[u8]) -> Result<Option<Statement>, Memory>
    ensures { IfOk result (λ statement. statement ≡ statement_of word.Device (words line.now)) }
{
    let Some((name, line)) = next_word(line) else {
        return Ok(None);
    };
    let Some((kind, line)) = next_word(line) else {
        return Ok(None);
    };
    if next_word(line).is_some() || !is_name(name) {
        return Ok(None);
    }
    match device_kind(kind) {
        Some(kind) => {
            let name = Buf::copy(alloc, name)?;
            Ok(Some(Statement::Device { name, kind }))
        }
        None => Ok(None),
    }
}

// The address of an endpoint other than 00.
fn end_address(word: &[u8]) -> Option<u8>
    ensures { result ≡ end_of word.now }
{
    let address = address(word)?;
    if address == 0 { None } else { Some(address) }
}

fn end_kind(word: &[u8]) -> Option<EndKind>
    ensures { result ≡ kind_of word.now }
{
    if is_text(word, "bulk") {
        Some(EndKind::Bulk)
    } else if is_text(word, "int") {
        Some(EndKind::Interrupt)
    } else if is_text(word, "iso") {
        Some(EndKind::Iso)
    } else {
        None
    }
}

fn ep(address: &[u8], kind: &[u8], size: &[u8], interval: &[u8]) -> Option<Statement>
    ensures { result ≡ statement_of word.Ep (address.now ∷ kind.now ∷ size.now ∷ interval.now ∷ []) }
{
    let address = end_address(address)?;
    let kind = end_kind(kind)?;
    let size = number(size)?;
    let interval = number(interval)?;
    Some(Statement::Ep {
        address,
        kind,
        size,
        interval,
    })
}

fn ep_of(line: &[u8]) -> Option<Statement>
    ensures { result ≡ statement_of word.Ep (words line.now) }
{
    let (address, line) = next_word(line)?;
    let (kind, line) = next_word(line)?;
    let (size, line) = next_word(line)?;
    let (interval, line) = next_word(line)?;
    match next_word(line) {
        None => ep(address, kind, size, interval),
        Some(_) => None,
    }
}

fn answer(address: u8, items: List<Item>) -> Option<Statement>
    ensures { result ≡ answer_with address items }
{
    if !items.items().is_empty() && are_items_of(address, items.items()) {
        Some(Statement::Answer { address, items })
    } else {
        None
    }
}

fn answer_of(alloc: Global, line: &[u8]) -> Result<Option<Statement>, Memory>
    ensures { IfOk result (λ statement. statement ≡ statement_of word.Answer (words line.now)) }
{
    let Some((word, line)) = next_word(line) else {
        return Ok(None);
    };
    let Some(at) = address(word) else {
        return Ok(None);
    };
    match read_items(alloc, line)? {
        Some(items) => Ok(answer(at, items)),
        None => Ok(None),
    }
}

fn urb(
    alloc: Global,
    name: &[u8],
    device: &[u8],
    place: &[u8],
    options: &[u8],
) -> Result<Option<Statement>, Memory>
    ensures { IfOk result (λ statement. statement ≡ statement_of word.Urb (name.now ∷ device.now ∷ place.now ∷ words options.now)) }
{
    if !is_name(name) || !is_name(device) {
        return Ok(None);
    }
    match (address(place), read_options(alloc, options)?) {
        (Some(address), Some(options)) => {
            let name = Buf::copy(alloc, name)?;
            let device = Buf::copy(alloc, device)?;
            Ok(Some(Statement::Urb {
                name,
                device,
                address,
                options,
            }))
        }
        _ => Ok(None),
    }
}

fn urb_of(alloc: Global, line: &[u8]) -> Result<Option<Statement>, Memory>
    ensures { IfOk result (λ statement. statement ≡ statement_of word.Urb (words line.now)) }
{
    let Some((name, line)) = next_word(line) else {
        return Ok(None);
    };
    let Some((device, line)) = next_word(line) else {
        return Ok(None);
    };
    match next_word(line) {
        Some((address, options)) => urb(alloc, name, device, address, options),
        None => Ok(None),
    }
}

fn thread_of(alloc: Global, line: &[u8]) -> Result<Option<Statement>, Memory>
    ensures { IfOk result (λ statement. statement ≡ statement_of word.Thread (words line.now)) }
{
    match next_word(line) {
        Some((name, line)) if next_word(line).is_none() && is_name(name) => {
            let name = Buf::copy(alloc, name)?;
            Ok(Some(Statement::Thread { name }))
        }
        _ => Ok(None),
    }
}

fn bytes_of(alloc: Global, which: DeviceBytes, line: &[u8]) -> Result<Option<Statement>, Memory>
    ensures { IfOk result (λ statement. statement ≡ statement_of (word.Bytes which) (words line.now)) }
{
    if next_word(line).is_none() {
        return Ok(None);
    }
    Ok(kept(alloc, line)?.map(|bytes| Statement::Bytes { which, bytes }))
}

fn port_of(line: &[u8]) -> Option<Statement>
    ensures { result ≡ statement_of word.Port (words line.now) }
{
    let (status, line) = next_word(line)?;
    if next_word(line).is_some() {
        return None;
    }
    byte(status).map(|status| Statement::Port { status })
}

fn submit_of(alloc: Global, line: &[u8]) -> Result<Option<Statement>, Memory>
    ensures { IfOk result (λ statement. statement ≡ statement_of word.Submit (words line.now)) }
{
    let Some((urb, line)) = next_word(line) else {
        return Ok(None);
    };
    let Some(urb) = read_urb_name(alloc, urb)? else {
        return Ok(None);
    };
    let (setup, line) = split_setup(line);
    match sent(alloc, line)? {
        Some(bytes) => Ok(Some(Statement::Submit { urb, setup, bytes })),
        None => Ok(None),
    }
}

fn on_urb(alloc: Global, call: UrbCall, line: &[u8]) -> Result<Option<Statement>, Memory>
    ensures { IfOk result (λ statement. statement ≡ statement_of (word.OnUrb call) (words line.now)) }
{
    let Some((urb, line)) = next_word(line) else {
        return Ok(None);
    };
    if next_word(line).is_some() {
        return Ok(None);
    }
    Ok(read_urb_name(alloc, urb)?.map(|urb| Statement::OnUrb { call, urb }))
}

fn alone(call: BareCall, line: &[u8]) -> Option<Statement>
    ensures { result ≡ statement_of (word.Alone call) (words line.now) }
{
    match next_word(line) {
        None => Some(Statement::Alone { call }),
        Some(_) => None,
    }
}

fn on_interface(
    alloc: Global,
    which: InterfaceWord,
    line: &[u8],
) -> Result<Option<Statement>, Memory>
    ensures { IfOk result (λ statement. statement ≡ statement_of (word.OnInterface which) (words line.now)) }
{
    let Some((device, line)) = next_word(line) else {
        return Ok(None);
    };
    let Some((interface, line)) = next_word(line) else {
        return Ok(None);
    };
    if !is_name(device) {
        return Ok(None);
    }
    match (number(interface), read_interface_call(alloc, which, line)?) {
        (Some(interface), Some(call)) => {
            let device = Buf::copy(alloc, device)?;
            Ok(Some(Statement::OnInterface {
                call,
                device,
                interface,
            }))
        }
        _ => Ok(None),
    }
}

/// The statement on a line, by its first word and the line after it. None where the words do not fit the row.
pub fn read_statement(
    alloc: Global,
    keyword: Keyword,
    line: &[u8],
) -> Result<Option<Statement>, Memory>
    ensures { IfOk result (λ statement. statement ≡ statement_of keyword (words line.now)) }
{
    match keyword {
        Keyword::Device => device_of(alloc, line),
        Keyword::Ep => Ok(ep_of(line)),
        Keyword::Bytes(which) => bytes_of(alloc, which, line),
        Keyword::Port => Ok(port_of(line)),
        Keyword::Answer => answer_of(alloc, line),
        Keyword::Urb => urb_of(alloc, line),
        Keyword::Thread => thread_of(alloc, line),
        Keyword::Submit => submit_of(alloc, line),
        Keyword::OnUrb(call) => on_urb(alloc, call, line),
        Keyword::Alone(call) => Ok(alone(call, line)),
        Keyword::OnInterface(which) => on_interface(alloc, which, line),
    }
}
