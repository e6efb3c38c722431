//! URBs that came back: their transfers and statuses, and words of what is reported of them.
ghost use Rattle.std.specs.Prelude.{IfOk};
ghost use Rattle.usb_machine.specs.Shapes.{HasWindow};

use std::alloc::Global;
use std::test::Fail;
use usb_machine::Transfer;
use usb_text::{data_bytes, is_text, push_hex};
use usb_types::{Buf, Errno, Memory};

/// A transfer that moved these bytes. Its window begins after one byte of its buffer, and has room for one more.
pub fn transfer(alloc: Global, setup: Option<[u8; 8]>, moved: &[u8]) -> Result<Transfer, Fail>
    ensures { IfOk result HasWindow }
{
    let mut buf = Buf::of(Vec::new(alloc));
    buf.append(&[0xEE])?;
    buf.append(moved)?;
    buf.append(&[0xEE])?;
    window(setup, buf, moved.len())
}

/// A transfer whose window is the buffer without its first byte.
fn window(setup: Option<[u8; 8]>, buf: Buf, moved: usize) -> Result<Transfer, Fail>
    ensures { IfOk result HasWindow }
{
    let (Ok(size), Ok(actual)) = (u32::try_from(buf.bytes().len()), u32::try_from(moved)) else {
        return Err("more bytes than a buffer has".into());
    };
    if size <= actual {
        return Err("fewer bytes than were moved".into());
    }
    Ok(Transfer {
        setup,
        buf,
        from: 1,
        len: size - 1,
        short_not_ok: false,
        actual,
        number: 0,
    })
}

/// The errnos that the tables name.
const ERRNOS: &[Errno] = &[
    Errno::ENOENT,
    Errno::EPIPE,
    Errno::EPROTO,
    Errno::EOVERFLOW,
    Errno::ECONNRESET,
    Errno::ESHUTDOWN,
    Errno::EREMOTEIO,
];

/// The errno of this name.
pub fn errno(name: &[u8]) -> Result<Errno, Fail> {
    let errno = ERRNOS.iter().find(|errno| is_text(name, errno.name()));
    Ok(*errno.ok_or("no errno of this name")?)
}

/// The bytes of one or more words of data, with a `+` between them.
pub fn bytes(alloc: Global, words: &[u8]) -> Result<Buf, Fail> {
    let mut bytes = Buf::of(Vec::new(alloc));
    for word in words.split(|b| *b == b'+') {
        let more = data_bytes(alloc, word)?.ok_or("no bytes")?;
        bytes.append(more.bytes())?;
    }
    Ok(bytes)
}

/// Adds a word, after a blank where it is not the first.
pub fn push_word(text: &mut Buf, word: &str) -> Result<(), Memory> {
    if !text.bytes().is_empty() {
        text.append(b" ")?;
    }
    text.append(word.as_bytes())
}

/// Adds a word and bytes.
pub fn push_bytes(text: &mut Buf, word: &str, bytes: &[u8]) -> Result<(), Memory> {
    push_word(text, word)?;
    text.append(b" ")?;
    push_hex(text, bytes)
}
