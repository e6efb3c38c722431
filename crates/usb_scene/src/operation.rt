//! What a call asks for.
ghost use Rattle.std.specs.Prelude.{◌≡◌};
ghost use Rattle.usb_scene.specs.Operation.{byte_in, interface_operation, operation_of, interface_number, number_of, operation_text};

use crate::scene::Call;
use usb_types::{Buf, calls, name_of};

/// What a call asks for.
#[derive(Clone, Copy)]
pub enum Operation {
    Submit,
    Unlink,
    Kill,
    Poison,
    Unpoison,
    Block,
    Unblock,
    Serve,
    Down,
    Up,
    /// On an interface that a driver has.
    Interface(InterfaceOp),
    /// A call that is not built, by its number.
    Unbuilt { code: u32 },
}

/// What a call on an interface asks of the driver. The bytes of `Led`, `Write` and `Print` stand in the call.
#[derive(Clone, Copy)]
pub enum InterfaceOp {
    /// The lights of a keyboard, by the bits of a byte (HID 1.11, appendix B.1).
    Led {
        lights: u8,
    },
    /// Bytes go to a serial line.
    Write,
    /// A line coding (PSTN 1.2 §6.3.11): bits a second, stop bits, parity, data bits.
    Coding {
        rate: u32,
        stop: u8,
        parity: u8,
        bits: u8,
    },
    /// The control lines of a serial line, by the bits of a byte (PSTN 1.2 §6.3.12).
    Control {
        lines: u8,
    },
    /// A break of so many milliseconds (PSTN 1.2 §6.3.13).
    SendBreak {
        ms: u16,
    },
    /// Bytes go to a printer.
    Print,
    /// The port status of a printer is asked (printer class 1.1, §4.2.2).
    Status,
    /// A printer is reset (printer class 1.1, §4.2.3).
    SoftReset,
}

impl InterfaceOp {
    // The call's number in the table of calls.
    fn number(self) -> u32
        ensures { result ≡ interface_number self }
    {
        match self {
            InterfaceOp::Led { .. } => 23,
            InterfaceOp::Write => 24,
            InterfaceOp::Coding { .. } => 25,
            InterfaceOp::Control { .. } => 26,
            InterfaceOp::SendBreak { .. } => 27,
            InterfaceOp::Print => 28,
            InterfaceOp::Status => 29,
            InterfaceOp::SoftReset => 30,
        }
    }
}

impl Operation {
    // The call's number in the table of calls.
    fn number(self) -> u32
        ensures { result ≡ number_of self }
    {
        match self {
            Operation::Submit => 1,
            Operation::Unlink => 2,
            Operation::Kill => 3,
            Operation::Poison => 4,
            Operation::Unpoison => 5,
            Operation::Block => 6,
            Operation::Unblock => 7,
            Operation::Serve => 8,
            Operation::Down => 21,
            Operation::Up => 22,
            Operation::Interface(asked) => asked.number(),
            Operation::Unbuilt { code } => code,
        }
    }

    /// The call's word, by the table of calls: nothing where no call has the number.
    pub fn word(self) -> &'static str
        ensures { result.now ≡ operation_text self }
    {
        match name_of(&calls(), self.number()) {
            Some(word) => word,
            None => "",
        }
    }
}

// The one byte that a call says: of several the first, and 0 where it says none.
fn byte_in(bytes: &Option<Buf>) -> u8
    ensures { result ≡ byte_in bytes.now }
{
    match bytes {
        Some(bytes) => bytes.bytes().first().copied().unwrap_or(0),
        None => 0,
    }
}

// What a call with the number of one on an interface asks for. Of numbers that are too great the low bytes count: no text
// of a scene says such.
fn interface_operation(code: u32, numbers: &[u32; 4], bytes: &Option<Buf>) -> Operation
    ensures { result ≡ interface_operation code numbers.now bytes.now }
{
    let [first, second, third, fourth] = *numbers;
    let asked = match code {
        23 => InterfaceOp::Led {
            lights: byte_in(bytes),
        },
        24 => InterfaceOp::Write,
        25 => InterfaceOp::Coding {
            rate: first,
            stop: (second % 256) as u8,
            parity: (third % 256) as u8,
            bits: (fourth % 256) as u8,
        },
        26 => InterfaceOp::Control {
            lines: byte_in(bytes),
        },
        27 => InterfaceOp::SendBreak {
            ms: (first % 65536) as u16,
        },
        28 => InterfaceOp::Print,
        29 => InterfaceOp::Status,
        30 => InterfaceOp::SoftReset,
        _ => return Operation::Unbuilt { code },
    };
    Operation::Interface(asked)
}

impl Call {
    /// What the call asks for, by its number, its numbers and its bytes.
    pub fn operation(&self) -> Operation
        ensures { result ≡ operation_of self.now }
    {
        match self.code {
            1 => Operation::Submit,
            2 => Operation::Unlink,
            3 => Operation::Kill,
            4 => Operation::Poison,
            5 => Operation::Unpoison,
            6 => Operation::Block,
            7 => Operation::Unblock,
            8 => Operation::Serve,
            21 => Operation::Down,
            22 => Operation::Up,
            code => interface_operation(code, &self.numbers, &self.bytes),
        }
    }
}
