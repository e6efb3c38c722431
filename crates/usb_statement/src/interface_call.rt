//! A call on an interface that a driver has.
ghost use Rattle.std.specs.Prelude.{◌≡◌, ◌∷◌, [], IfOk};
ghost use Rattle.usb_text.specs.Words.{words};
ghost use Rattle.usb_statement.specs.InterfaceCalls.{interface_word, data_bits_of, interface_call_of};
ghost use Rattle.usb_statement.specs.declared.keyword.InterfaceWord.TheVariants as called;

use crate::kept_data::some_kept;
use crate::keyword::InterfaceWord;
use std::alloc::Global;
use usb_text::{byte, next_word, number};
use usb_types::{Buf, Memory};

/// A call on an interface that a driver has, with what it carries.
#[derive(Drop)]
pub enum InterfaceCall {
    /// The lights of a keyboard, by the bits of a byte (HID 1.11, appendix B.1).
    Led {
        lights: u8,
    },
    /// Bytes for a serial line.
    Write {
        bytes: Buf,
    },
    /// A line coding (PSTN 1.2 §6.3.11): bits a second, stop bits, parity, data bits.
    Coding {
        rate: u32,
        stop: u32,
        parity: u32,
        bits: u32,
    },
    /// The control lines of a serial line, by the bits of a byte (PSTN 1.2 §6.3.12).
    Control {
        lines: u8,
    },
    /// A break of so many milliseconds (PSTN 1.2 §6.3.13).
    SendBreak {
        ms: u32,
    },
    /// Bytes for a printer.
    Print {
        bytes: Buf,
    },
    /// The port status of a printer is asked (printer class 1.1, §4.2.2).
    Status,
    /// A printer is reset (printer class 1.1, §4.2.3).
    SoftReset,
}

impl InterfaceCall {
    /// The word of the call.
    pub fn word(&self) -> InterfaceWord
        ensures { result ≡ interface_word self.now }
    {
        match self {
            InterfaceCall::Led { .. } => InterfaceWord::Led,
            InterfaceCall::Write { .. } => InterfaceWord::Write,
            InterfaceCall::Coding { .. } => InterfaceWord::Coding,
            InterfaceCall::Control { .. } => InterfaceWord::Control,
            InterfaceCall::SendBreak { .. } => InterfaceWord::SendBreak,
            InterfaceCall::Print { .. } => InterfaceWord::Print,
            InterfaceCall::Status => InterfaceWord::Status,
            InterfaceCall::SoftReset => InterfaceWord::SoftReset,
        }
    }
}

fn led(line: &[u8]) -> Option<InterfaceCall>
    ensures { result ≡ interface_call_of called.Led (words line.now) }
{
    let (lights, line) = next_word(line)?;
    if next_word(line).is_some() {
        return None;
    }
    byte(lights).map(|lights| InterfaceCall::Led { lights })
}

fn write(alloc: Global, line: &[u8]) -> Result<Option<InterfaceCall>, Memory>
    ensures { IfOk result (λ call. call ≡ interface_call_of called.Write (words line.now)) }
{
    Ok(some_kept(alloc, line)?.map(|bytes| InterfaceCall::Write { bytes }))
}

fn data_bits(word: &[u8]) -> Option<u32>
    ensures { result ≡ data_bits_of word.now }
{
    let bits = number(word)?;
    if (5 <= bits && bits <= 8) || bits == 16 {
        Some(bits)
    } else {
        None
    }
}

fn coding(rate: &[u8], stop: &[u8], parity: &[u8], bits: &[u8]) -> Option<InterfaceCall>
    ensures { result ≡ interface_call_of called.Coding (rate.now ∷ stop.now ∷ parity.now ∷ bits.now ∷ []) }
{
    let rate = number(rate)?;
    let stop = number(stop)?;
    let parity = number(parity)?;
    let bits = data_bits(bits)?;
    Some(InterfaceCall::Coding {
        rate,
        stop,
        parity,
        bits,
    })
}

fn coding_of(line: &[u8]) -> Option<InterfaceCall>
    ensures { result ≡ interface_call_of called.Coding (words line.now) }
{
    let (rate, line) = next_word(line)?;
    let (stop, line) = next_word(line)?;
    let (parity, line) = next_word(line)?;
    let (bits, line) = next_word(line)?;
    match next_word(line) {
        None => coding(rate, stop, parity, bits),
        Some(_) => None,
    }
}

fn control(line: &[u8]) -> Option<InterfaceCall>
    ensures { result ≡ interface_call_of called.Control (words line.now) }
{
    let (lines, line) = next_word(line)?;
    if next_word(line).is_some() {
        return None;
    }
    byte(lines).map(|lines| InterfaceCall::Control { lines })
}

fn send_break(line: &[u8]) -> Option<InterfaceCall>
    ensures { result ≡ interface_call_of called.SendBreak (words line.now) }
{
    let (ms, line) = next_word(line)?;
    if next_word(line).is_some() {
        return None;
    }
    number(ms).map(|ms| InterfaceCall::SendBreak { ms })
}

fn print(alloc: Global, line: &[u8]) -> Result<Option<InterfaceCall>, Memory>
    ensures { IfOk result (λ call. call ≡ interface_call_of called.Print (words line.now)) }
{
    Ok(some_kept(alloc, line)?.map(|bytes| InterfaceCall::Print { bytes }))
}

fn status(line: &[u8]) -> Option<InterfaceCall>
    ensures { result ≡ interface_call_of called.Status (words line.now) }
{
    match next_word(line) {
        None => Some(InterfaceCall::Status),
        Some(_) => None,
    }
}

fn soft_reset(line: &[u8]) -> Option<InterfaceCall>
    ensures { result ≡ interface_call_of called.SoftReset (words line.now) }
{
    match next_word(line) {
        None => Some(InterfaceCall::SoftReset),
        Some(_) => None,
    }
}

/// The call that this word makes with the words after the interface's number.
pub fn read_interface_call(
    alloc: Global,
    which: InterfaceWord,
    line: &[u8],
) -> Result<Option<InterfaceCall>, Memory>
    ensures { IfOk result (λ call. call ≡ interface_call_of which (words line.now)) }
{
    match which {
        InterfaceWord::Led => Ok(led(line)),
        InterfaceWord::Write => write(alloc, line),
        InterfaceWord::Coding => Ok(coding_of(line)),
        InterfaceWord::Control => Ok(control(line)),
        InterfaceWord::SendBreak => Ok(send_break(line)),
        InterfaceWord::Print => print(alloc, line),
        InterfaceWord::Status => Ok(status(line)),
        InterfaceWord::SoftReset => Ok(soft_reset(line)),
    }
}
