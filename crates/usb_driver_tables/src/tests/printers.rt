//! Jobs of printers, and what came back of them, written by hand from the printer class 1.1 (§4.2).
ghost use Rattle.std.specs.Prelude.{IfOk};
ghost use Rattle.usb_machine.specs.Shapes.{HasWindow};

use crate::tests::completions::{bytes, errno, push_bytes, push_word};
use std::alloc::Global;
use std::test::Fail;
use usb_machine::Transfer;
use usb_printer::{Event, Printer, first_window};
use usb_text::push_number;
use usb_types::{Action, Buf, Code, Memory, Role};

/// The number of the printer's question.
pub const QUESTION: u64 = 2_000_000;

/// The number of each job.
const JOB: u64 = 7;

/// A printer's core, at interface 3, with this reply to GET_DEVICE_ID.
pub fn printer(alloc: Global, id: &[u8]) -> Result<Printer, Memory> {
    Printer::new(alloc, QUESTION, 3, id)
}

/// A job of so many bytes, with this window, of which so many bytes were moved.
pub fn job(alloc: Global, bytes: u32, from: u32, len: u32, actual: u32) -> Result<Transfer, Fail>
    ensures { IfOk result HasWindow }
{
    let Ok(room) = vec![in alloc; 0x41; bytes as usize] else {
        return Err(Memory.into());
    };
    if from > bytes || len > bytes - from || actual > len {
        return Err("no window of the job".into());
    }
    Ok(Transfer {
        setup: None,
        buf: Buf::of(room),
        from,
        len,
        short_not_ok: false,
        actual,
        number: JOB,
    })
}

fn push_action(text: &mut Buf, action: Action) -> Result<(), Memory> {
    match action {
        Action::Rest => push_word(text, "rest"),
        Action::Ask => push_word(text, "ask"),
        Action::Again { from, len } => {
            push_word(text, "")?;
            push_number(text, u64::from(from))?;
            text.append(b"+")?;
            push_number(text, u64::from(len))
        }
    }
}

fn push_event(text: &mut Buf, event: &Event) -> Result<(), Memory> {
    match event {
        Event::Id { text: id } => {
            push_word(text, "id ")?;
            text.append(id.bytes())
        }
        Event::Job {
            number,
            bytes,
            code,
        } => {
            push_word(text, "job ")?;
            push_number(text, *number)?;
            text.append(b" ")?;
            push_number(text, u64::from(*bytes))?;
            push_word(text, code.text())
        }
        Event::Port { status } => push_bytes(text, "port", &[*status]),
    }
}

/// The events as a report prints them, on one line.
fn push_events(text: &mut Buf, events: &[Event]) -> Result<(), Memory> {
    for event in events {
        push_event(text, event)?;
    }
    Ok(())
}

/// The events alone.
pub fn text_of(alloc: Global, events: &[Event]) -> Result<Buf, Memory> {
    let mut text = Buf::of(Vec::new(alloc));
    push_events(&mut text, events)?;
    Ok(text)
}

/// The windows of a job that goes well, what becomes of the last, and the events.
fn printed(alloc: Global, bytes: u32) -> Result<Buf, Fail> {
    let mut printer = printer(alloc, &[])?;
    let mut text = Buf::of(Vec::new(alloc));
    let (mut from, mut len) = (0, first_window(bytes));
    for _ in 0..4 {
        let action = printer.complete(
            Role::Write,
            Code::Zero,
            &job(alloc, bytes, from, len, len)?,
        )?;
        push_action(&mut text, action)?;
        if let Action::Again {
            from: next,
            len: more,
        } = action
        {
            (from, len) = (next, more);
        } else {
            break;
        }
    }
    push_events(&mut text, printer.events())?;
    Ok(text)
}

#[test]
fn a_job_goes_out_in_windows(rt: HostRuntime) -> Result<(), Fail> {
    const ROWS: &[(u32, &str)] = &[
        (0, "rest job 7 0 0"),
        (1, "rest job 7 1 0"),
        (8191, "rest job 7 8191 0"),
        (8192, "rest job 7 8192 0"),
        (8193, "8192+1 rest job 7 8193 0"),
        (16383, "8192+8191 rest job 7 16383 0"),
        (16384, "8192+8192 rest job 7 16384 0"),
        (16385, "8192+8192 16384+1 rest job 7 16385 0"),
        (24577, "8192+8192 16384+8192 24576+1 rest job 7 24577 0"),
    ];
    let alloc = rt.alloc();
    for (bytes, wanted) in ROWS {
        let text = printed(alloc, *bytes)?;
        assert_eq!(rt; text.bytes(), wanted.as_bytes(), "{bytes}");
    }
    Ok(())
}

#[test]
fn the_first_window_has_at_most_8192_bytes(rt: HostRuntime) -> Result<(), Fail> {
    const ROWS: &[(u32, u32)] = &[
        (0, 0),
        (1, 1),
        (8191, 8191),
        (8192, 8192),
        (8193, 8192),
        (16384, 8192),
    ];
    let alloc = rt.alloc();
    for (bytes, window) in ROWS {
        assert_eq!(rt; first_window(*bytes), *window, "{bytes}");
    }
    Ok(())
}

/// What becomes of one window of a job that came back, and the events.
fn came_back(alloc: Global, fault: &str, window: &Transfer) -> Result<Buf, Fail>
    requires { HasWindow window.now }
{
    let mut printer = printer(alloc, &[])?;
    let code = if fault.is_empty() {
        Code::Zero
    } else {
        Code::Fault(errno(fault.as_bytes())?)
    };
    let mut text = Buf::of(Vec::new(alloc));
    push_action(&mut text, printer.complete(Role::Write, code, window)?)?;
    push_events(&mut text, printer.events())?;
    Ok(text)
}

#[test]
fn a_fault_ends_a_job_and_asks_for_the_port(rt: HostRuntime) -> Result<(), Fail> {
    // The job's bytes, the window's begin and length, and how many bytes of it were moved.
    const ROWS: &[((u32, u32, u32, u32), &str, &str)] = &[
        ((8193, 0, 8192, 8192), "", "8192+1"),
        ((8193, 8192, 1, 1), "", "rest job 7 8193 0"),
        ((100, 10, 20, 20), "", "30+70"),
        ((20000, 1, 5, 5), "", "6+8192"),
        ((8193, 8192, 1, 0), "EPIPE", "ask job 7 8192 -EPIPE"),
        ((8193, 0, 8192, 4096), "EPROTO", "ask job 7 4096 -EPROTO"),
        ((1, 0, 1, 0), "EPIPE", "ask job 7 0 -EPIPE"),
        ((0, 0, 0, 0), "EPROTO", "ask job 7 0 -EPROTO"),
        (
            (16384, 8192, 8192, 64),
            "EOVERFLOW",
            "ask job 7 8256 -EOVERFLOW",
        ),
        ((2, 0, 2, 1), "EREMOTEIO", "ask job 7 1 -EREMOTEIO"),
        // Nobody asks where the job itself was asked for.
        (
            (8193, 0, 8192, 128),
            "ECONNRESET",
            "rest job 7 128 -ECONNRESET",
        ),
        ((16384, 8192, 8192, 0), "ENOENT", "rest job 7 8192 -ENOENT"),
        ((1, 0, 1, 0), "ESHUTDOWN", "rest job 7 0 -ESHUTDOWN"),
        ((0, 0, 0, 0), "ENOENT", "rest job 7 0 -ENOENT"),
    ];
    let alloc = rt.alloc();
    for ((bytes, from, len, actual), fault, wanted) in ROWS {
        let window = job(alloc, *bytes, *from, *len, *actual)?;
        let text = came_back(alloc, fault, &window)?;
        assert_eq!(rt; text.bytes(), wanted.as_bytes(), "{wanted}");
    }
    Ok(())
}

#[test]
fn an_id_is_its_printable_text(rt: HostRuntime) -> Result<(), Fail> {
    const ROWS: &[(&str, &str)] = &[
        // A reply without a length reports nothing.
        ("-", ""),
        ("00", ""),
        // The length counts its own two bytes; one below that leaves nothing.
        ("0000", "id -"),
        ("0001", "id -"),
        ("00014D", "id -"),
        ("0002", "id -"),
        ("00024D46", "id -"),
        ("00034D46", "id M"),
        ("00084D46473A413B", "id MFG:A;"),
        ("00064D46473A413B", "id MFG:"),
        // More than came is what came.
        ("00FF4D46473A413B", "id MFG:A;"),
        ("FFFF4D", "id M"),
        ("0003", "id -"),
        // The high byte comes first.
        ("01004D46", "id MF"),
        ("08004D46", "id MF"),
        // Other bytes are dots.
        ("00080A417E7F805A", "id .A~..Z"),
        ("000400FF", "id .."),
        ("00052041201F", "id  A "),
    ];
    let alloc = rt.alloc();
    for (id, wanted) in ROWS {
        let id = bytes(alloc, id.as_bytes())?;
        let printer = printer(alloc, id.bytes())?;
        let text = text_of(alloc, printer.events())?;
        assert_eq!(rt; text.bytes(), wanted.as_bytes());
    }
    Ok(())
}
