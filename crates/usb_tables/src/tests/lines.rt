//! Lines that say something, lines that say nothing, and what some of them say.
use std::alloc::Global;
use std::process::Abort;
use std::test::Fail;
use usb_statement::{InterfaceCall, Statement, UrbName, UrbOption, read_keyword, read_statement};
use usb_text::{next_word, push_hex, push_number};
use usb_types::{Buf, Memory, Role};
use usb_xfer::{Item, What};

// What a line says.
fn said(alloc: Global, line: &str) -> Result<Option<Statement>, Memory> {
    let Some((word, behind)) = next_word(line.as_bytes()) else {
        return Ok(None);
    };
    match read_keyword(word) {
        Some(keyword) => read_statement(alloc, keyword, behind),
        None => Ok(None),
    }
}

/// Lines that say something.
const GOOD: &[&str] = &[
    "device d raw",
    "device d keyboard",
    "device d acm",
    "device d printer",
    "desc -",
    "desc 12 0a0B fill:3:00",
    "config fill:16384:ff fill:16384:00",
    "id - - 4d",
    "port 1F",
    "ep 0f int 1024 255",
    "ep 81 iso 999999999 0 # too large is another cause",
    "answer 81 p: 2*p:0A0b 4096*nak stall error p:fill:1024:00",
    "answer 01 ack 1*ack nak stall error",
    "answer 00 ack p: 2*p:0A0b nak stall error",
    "urb a d 81",
    "urb a d 8F short again 3 len 20 len 20",
    "urb a d 00 len 4",
    "thread t_1",
    "submit a",
    "submit a -",
    "submit kbd.0.in 00 fill:16384:ff -",
    "submit a setup:8006000100000800",
    "submit a setup:21fF0002000001aB -",
    "submit a setup:0009010000000000 00 fill:2:11",
    "unlink kbd.007.ctl",
    "kill a",
    "poison a",
    "unpoison a",
    "block a",
    "unblock a",
    "led kbd 0 02",
    "led kbd 999999999 fF # too large is another cause",
    "write m 0 -",
    "write m 007 41 - fill:16384:ff 42",
    "coding m 0 0 0 0 5",
    "coding m 0 999999999 2 4 16",
    "coding m 0 9600 000 001 08",
    "coding m 0 9600 3 5 7 # too large is another cause",
    "control m 0 03",
    "sendbreak m 0 0",
    "sendbreak m 0 65536 # too large is another cause",
    "print p 0 -",
    "print p 0 41 - fill:16384:ff 42",
    "status p 0",
    "softreset p 999999999 # too large is another cause",
    "\tserve ",
    "down",
    "up",
];

#[test]
fn good_lines(rt: HostRuntime) -> Result<(), Fail> {
    for line in GOOD {
        assert!(rt; said(rt.alloc(), line)?.is_some(), "{line}");
    }
    Ok(())
}

/// Lines that say nothing.
const BAD: &[&str] = &[
    "device d disk",
    "device d",
    "device d raw raw",
    "device D raw",
    "desc",
    "desc 0",
    "config fill:0:00",
    "id x",
    "port",
    "port 1",
    "port 18 18",
    "ep 00 bulk 64 0",
    "ep 80 bulk 64 0",
    "ep 81 ctrl 64 0",
    "ep 81 bulk 1234567890 0",
    "answer 81",
    "answer 00",
    "answer 81 ack",
    "answer 01 p:00",
    "answer 81 0*nak",
    "answer 81 4097*nak",
    "answer 81 2*3*nak",
    "answer 81 *nak",
    "answer 81 p:-",
    "answer 81 p:0",
    "answer 81 p:fill:0:00",
    "answer 81 p:fill:1025:00",
    "urb a d 0",
    "urb a d 81 len",
    "urb a d 81 long 3",
    "submit a 0",
    "submit a fill:16385:00",
    "submit a fill:1:0",
    "submit a setup:",
    "submit a setup:800600010000080",
    "submit a setup:80060001000008000",
    "submit a 00 setup:8006000100000800",
    "submit a setup:8006000100000800 setup:8006000100000800",
    "submit kbd..in",
    "submit kbd.0.out",
    "submit a.b",
    "kill a b",
    "led kbd 0",
    "led kbd 0 2",
    "led kbd -1 02",
    "led kbd 0 02 02",
    "write m 0",
    "write m 41",
    "write m 0 4",
    "write m 0 41 fill:0:00",
    "write m 0 fill:16385:00",
    "write M 0 41",
    "coding m 0 9600 0 0",
    "coding m 0 9600 0 0 4",
    "coding m 0 9600 0 0 9",
    "coding m 0 9600 0 0 17",
    "coding m 0 9600 0 0 x8",
    "coding m 0 9600 none 0 8",
    "coding m 0 1234567890 0 0 8",
    "coding m 0 9600 0 0 8 8",
    "control m 0",
    "control m 0 003",
    "control m 0 03 00",
    "sendbreak m 0",
    "sendbreak m 0 1000000000",
    "sendbreak m 0 5 5",
    "break m 0 5",
    "print p 0",
    "print p 0 4",
    "status p",
    "status p 0 0",
    "softreset p",
    "softreset p 0 -",
    "reset p 0",
    "serve a",
    "scene 1",
];

#[test]
fn bad_lines(rt: HostRuntime) -> Result<(), Fail> {
    for line in BAD {
        assert!(rt; said(rt.alloc(), line)?.is_none(), "{line}");
    }
    Ok(())
}

/// Adds a word, after a blank where it is not the first.
fn push_word(text: &mut Buf, word: &str) -> Result<(), Memory> {
    if !text.bytes().is_empty() {
        text.append(b" ")?;
    }
    text.append(word.as_bytes())
}

/// Adds a word and bytes.
fn push_bytes(text: &mut Buf, word: &str, bytes: &[u8]) -> Result<(), Memory> {
    push_word(text, word)?;
    text.append(b" ")?;
    push_hex(text, bytes)
}

/// An item, as how often it comes and what it is.
fn push_item(text: &mut Buf, item: &Item) -> Result<(), Memory> {
    push_word(text, "")?;
    push_number(text, u64::from(item.times))?;
    match &item.what {
        What::Ack => push_word(text, "ack"),
        What::Nak => push_word(text, "nak"),
        What::Stall => push_word(text, "stall"),
        What::Error => push_word(text, "error"),
        What::Packet(bytes) => push_bytes(text, "packet", bytes.bytes()),
    }
}

#[test]
fn items_have_counts_and_bytes(rt: HostRuntime) -> Result<(), Fail> {
    const LINE: &str = "answer 8a nak 012*p:0aFf p:fill:3:07";
    let alloc = rt.alloc();
    let Some(Statement::Answer { address, items }) = said(alloc, LINE)? else {
        return Err("no answer line".into());
    };
    let mut text = Buf::of(Vec::new(alloc));
    for item in items.items() {
        push_item(&mut text, item)?;
    }
    assert_eq!(rt; address, 0x8A);
    assert_eq!(rt;
        text.bytes(),
        b"1 nak 12 packet 0AFF 1 packet 070707".as_slice()
    );
    Ok(())
}

#[test]
fn options_stand_in_their_order(rt: HostRuntime) -> Result<(), Fail> {
    let Some(Statement::Urb { options, .. }) = said(rt.alloc(), "urb a d 81 short len 8 again 2")?
    else {
        return Err("no URB line".into());
    };
    assert_eq!(rt;
        options.items(),
        [UrbOption::Short, UrbOption::Len(8), UrbOption::Again(2)].as_slice()
    );
    Ok(())
}

/// What a line submits: the URB, the setup packet, and the data.
type Submitted = (UrbName, Option<[u8; 8]>, Option<Buf>);

fn submitted(alloc: Global, line: &str) -> Result<Submitted, Fail> {
    match said(alloc, line)? {
        Some(Statement::Submit { urb, setup, bytes }) => Ok((urb, setup, bytes)),
        _ => Err("no submit line".into()),
    }
}

fn are_bytes(data: &Option<Buf>, wanted: &[u8]) -> bool {
    match data {
        Some(data) => data.bytes() == wanted,
        None => false,
    }
}

#[test]
fn data_is_joined(rt: HostRuntime) -> Result<(), Fail> {
    let (urb, setup, data) = submitted(rt.alloc(), "submit kbd.12.write 01 - fill:2:a5")?;
    assert!(rt;
        matches!(
            urb,
            UrbName::Driver {
                number: 12,
                role: Role::Write,
                ..
            }
        )
    );
    assert_eq!(rt; setup, None);
    assert!(rt; are_bytes(&data, &[1, 0xA5, 0xA5]));
    Ok(())
}

#[test]
fn a_setup_packet_comes_first(rt: HostRuntime) -> Result<(), Fail> {
    const SETUP: [u8; 8] = [0x80, 0x06, 0x00, 0x01, 0x02, 0x00, 0x0A, 0xFF];
    let (_, setup, data) = submitted(rt.alloc(), "submit a setup:8006000102000aFf -")?;
    assert_eq!(rt; setup, Some(SETUP));
    assert!(rt; are_bytes(&data, &[]));
    Ok(())
}

fn push_numbers(text: &mut Buf, word: &str, numbers: &[u32]) -> Result<(), Memory> {
    push_word(text, word)?;
    for number in numbers {
        push_word(text, "")?;
        push_number(text, u64::from(*number))?;
    }
    Ok(())
}

/// What a call carries, after its name.
fn push_call(text: &mut Buf, call: &InterfaceCall) -> Result<(), Memory> {
    match call {
        InterfaceCall::Led { lights } => push_bytes(text, "led", &[*lights]),
        InterfaceCall::Write { bytes } => push_bytes(text, "write", bytes.bytes()),
        InterfaceCall::Coding {
            rate,
            stop,
            parity,
            bits,
        } => push_numbers(text, "coding", &[*rate, *stop, *parity, *bits]),
        InterfaceCall::Control { lines } => push_bytes(text, "control", &[*lines]),
        InterfaceCall::SendBreak { ms } => push_numbers(text, "break", &[*ms]),
        InterfaceCall::Print { bytes } => push_bytes(text, "print", bytes.bytes()),
        InterfaceCall::Status => push_word(text, "status"),
        InterfaceCall::SoftReset => push_word(text, "reset"),
    }
}

/// What a line carries that calls an interface.
fn carried(alloc: Global, line: &str) -> Result<Buf, Fail> {
    let mut text = Buf::of(Vec::new(alloc));
    match said(alloc, line)? {
        Some(Statement::OnInterface { call, .. }) => push_call(&mut text, &call)?,
        _ => return Err("no call on an interface".into()),
    }
    Ok(text)
}

#[test]
fn calls_on_interfaces_carry_their_words(rt: HostRuntime) -> Result<(), Fail> {
    const ROWS: &[(&str, &str)] = &[
        ("write m 0 41 - fill:3:0d 42", "write 410D0D0D42"),
        ("coding m 0 115200 2 4 08", "coding 115200 2 4 8"),
        ("control m 0 fE", "control FE"),
        ("sendbreak m 0 00250", "break 250"),
        ("print p 0 1b 40 fill:2:41", "print 1B404141"),
        ("status p 0", "status"),
        ("softreset p 0", "reset"),
    ];
    for (line, wanted) in ROWS {
        let text = carried(rt.alloc(), line)?;
        assert_eq!(rt; text.bytes(), wanted.as_bytes(), "{line}");
    }
    Ok(())
}
