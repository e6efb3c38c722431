//! How a line names an URB.
ghost use Rattle.std.specs.Prelude.{◌≡◌, IfOk};
ghost use Rattle.usb_text.specs.Bytes.{cut};
ghost use Rattle.usb_statement.specs.UrbNames.{role_of, role_parts, driver_parts, urb_name_of};

use std::alloc::Global;
use usb_text::{cut, is_name, is_text, number};
use usb_types::{Buf, Memory, Role};

/// How a line names an URB: by its own name, or as one of a driver's.
#[derive(Drop)]
pub enum UrbName {
    Scripted(Buf),
    Driver {
        device: Buf,
        number: u32,
        role: Role,
    },
}

fn role(word: &[u8]) -> Option<Role>
    ensures { result ≡ role_of word.now }
{
    if is_text(word, "in") {
        Some(Role::In)
    } else if is_text(word, "ctl") {
        Some(Role::Ctl)
    } else if is_text(word, "note") {
        Some(Role::Note)
    } else if is_text(word, "read0") {
        Some(Role::Read0)
    } else if is_text(word, "read1") {
        Some(Role::Read1)
    } else if is_text(word, "write") {
        Some(Role::Write)
    } else {
        None
    }
}

// The URB of a device by a word of number and role.
fn by_role(alloc: Global, device: &[u8], word: &[u8]) -> Result<Option<UrbName>, Memory>
    ensures { IfOk result (λ name. name ≡ role_parts device.now (cut 46 word.now)) }
{
    let Some((number_word, role_word)) = cut(word, b'.') else {
        return Ok(None);
    };
    if !is_name(device) {
        return Ok(None);
    }
    match (number(number_word), role(role_word)) {
        (Some(number), Some(role)) => {
            let device = Buf::copy(alloc, device)?;
            Ok(Some(UrbName::Driver {
                device,
                number,
                role,
            }))
        }
        _ => Ok(None),
    }
}

/// The URB that a word names.
pub fn read_urb_name(alloc: Global, word: &[u8]) -> Result<Option<UrbName>, Memory>
    ensures { IfOk result (λ name. name ≡ urb_name_of word.now) }
{
    if is_name(word) {
        let name = Buf::copy(alloc, word)?;
        return Ok(Some(UrbName::Scripted(name)));
    }
    match cut(word, b'.') {
        Some((device, behind)) => by_role(alloc, device, behind),
        None => Ok(None),
    }
}
