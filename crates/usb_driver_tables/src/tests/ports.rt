//! Control transfers of printers, and the driver's question, written by hand from the printer class 1.1 (§4.2).
ghost use Rattle.std.specs.Prelude.{IfOk};
ghost use Rattle.usb_machine.specs.Shapes.{HasWindow};

use crate::tests::completions::{bytes, errno, transfer};
use crate::tests::printers::{QUESTION, job, printer, text_of};
use std::alloc::Global;
use std::process::Abort;
use std::test::Fail;
use usb_machine::Transfer;
use usb_printer::{Printer, reset_setup, status_setup};
use usb_text::{cut, is_text};
use usb_types::{Action, Buf, Code, Errno, Role};

/// The setup packet of a control transfer. One without a setup packet is `bare`.
fn request(name: &[u8]) -> Result<Option<[u8; 8]>, Fail> {
    if is_text(name, "status") {
        Ok(Some([0xA1, 0x01, 0x00, 0x00, 0x03, 0x00, 0x01, 0x00]))
    } else if is_text(name, "reset") {
        Ok(Some([0x21, 0x02, 0x00, 0x00, 0x03, 0x00, 0x00, 0x00]))
    } else if is_text(name, "id") {
        Ok(Some([0xA1, 0x00, 0x00, 0x00, 0x00, 0x03, 0xFF, 0x03]))
    } else if is_text(name, "bare") {
        Ok(None)
    } else {
        Err("no request of this name".into())
    }
}

/// Gives a printer a control transfer that came back, as `status=18` or `status.EPIPE=-`.
fn control(alloc: Global, printer: &mut Printer, word: &[u8]) -> Result<Action, Fail> {
    let (head, moved) = cut(word, b'=').ok_or("no bytes")?;
    let (name, code) = match cut(head, b'.') {
        Some((name, fault)) => (name, Code::Fault(errno(fault)?)),
        None => (head, Code::Zero),
    };
    let moved = bytes(alloc, moved)?;
    let t = transfer(alloc, request(name)?, moved.bytes())?;
    Ok(printer.complete(Role::Ctl, code, &t)?)
}

/// Gives a printer the control transfers of these words, each of which rests.
fn check_controls<R: Abort + AllocGlobal>(
    rt: &R,
    printer: &mut Printer,
    words: &str,
) -> Result<(), Fail> {
    for word in words.split_ascii_whitespace() {
        let action = control(rt.alloc(), printer, word.as_bytes())?;
        assert_eq!(rt; action, Action::Rest, "{words}");
    }
    Ok(())
}

/// Gives a printer a job of one byte that came back, of which so many bytes were moved.
fn finish_job(alloc: Global, printer: &mut Printer, code: Code, moved: u32) -> Result<(), Fail> {
    let window = job(alloc, 1, 0, 1, moved)?;
    printer.complete(Role::Write, code, &window)?;
    Ok(())
}

#[test]
fn the_port_tells_its_status_in_one_byte(rt: HostRuntime) -> Result<(), Fail> {
    const ROWS: &[(&str, &str)] = &[
        ("status=18", "port 18"),
        ("status=00", "port 00"),
        ("status=FF", "port FF"),
        // No paper, then paper.
        ("status=30 status=18", "port 30 port 18"),
        ("status=-", ""),
        ("status=1818", ""),
        ("status.EPIPE=18", ""),
        ("status.ENOENT=-", ""),
        ("reset=- reset.EPROTO=-", ""),
        ("reset=18 id=18 bare=18", ""),
        ("status=10 reset=- status=18", "port 10 port 18"),
    ];
    let alloc = rt.alloc();
    for (words, wanted) in ROWS {
        let mut printer = printer(alloc, &[])?;
        check_controls(&rt, &mut printer, words)?;
        let text = text_of(alloc, printer.events())?;
        assert_eq!(rt; text.bytes(), wanted.as_bytes(), "{words}");
    }
    Ok(())
}

/// Two jobs, of which one fails, and a status after each.
fn two_jobs(alloc: Global, printer: &mut Printer) -> Result<(), Fail> {
    finish_job(alloc, printer, Code::Zero, 1)?;
    control(alloc, printer, b"status=18")?;
    finish_job(alloc, printer, Code::Fault(Errno::EPIPE), 0)?;
    control(alloc, printer, b"status=10")?;
    Ok(())
}

#[test]
fn id_jobs_and_port_stand_in_their_order(rt: HostRuntime) -> Result<(), Fail> {
    let alloc = rt.alloc();
    let mut printer = printer(alloc, b"\x00\x03X")?;
    two_jobs(alloc, &mut printer)?;
    let text = text_of(alloc, printer.into_events().items())?;
    assert_eq!(rt;
        text.bytes(),
        b"id X job 7 1 0 port 18 job 7 0 -EPIPE port 10".as_slice()
    );
    Ok(())
}

/// Whether this is the question, as it is asked first.
fn is_question(t: &Transfer) -> bool {
    let setup = Some([0xA1, 0x01, 0x00, 0x00, 0x03, 0x00, 0x01, 0x00]);
    (t.setup, t.from, t.len, t.actual) == (setup, 0, 1, 0)
        && t.buf.bytes() == [0x00].as_slice()
        && t.number == QUESTION
        && !t.short_not_ok
}

/// Whether a printer asks its question now.
fn asks(printer: &mut Printer) -> bool {
    printer.ask().is_some_and(|question| is_question(&question))
}

/// The question with its answer.
fn answered(alloc: Global) -> Result<Transfer, Fail>
    ensures { IfOk result HasWindow }
{
    let mut buf = Buf::of(Vec::new(alloc));
    buf.append(&[0x18])?;
    Ok(Transfer {
        setup: request(b"status")?,
        buf,
        from: 0,
        len: 1,
        short_not_ok: false,
        actual: 1,
        number: QUESTION,
    })
}

/// The question of a printer is out until it comes back with this code.
fn check_question<R: Abort + AllocGlobal>(
    rt: &R,
    printer: &mut Printer,
    code: Code,
) -> Result<(), Fail> {
    let alloc = rt.alloc();
    assert!(rt; asks(printer));
    assert!(rt; printer.ask().is_none());
    // Neither another control transfer nor a job frees it.
    control(alloc, printer, b"status=18")?;
    finish_job(alloc, printer, Code::Fault(Errno::EPIPE), 0)?;
    assert!(rt; printer.ask().is_none());
    let action = printer.complete(Role::Ctl, code, &answered(alloc)?)?;
    assert_eq!(rt; action, Action::Rest);
    assert!(rt; asks(printer));
    Ok(())
}

#[test]
fn the_question_is_out_until_it_comes_back(rt: HostRuntime) -> Result<(), Fail> {
    const CODES: &[Code] = &[
        Code::Zero,
        Code::Fault(Errno::EPIPE),
        Code::Fault(Errno::ENOENT),
    ];
    for code in CODES {
        check_question(&rt, &mut printer(rt.alloc(), &[])?, *code)?;
    }
    Ok(())
}

#[test]
fn a_question_that_was_refused_is_taken_back(rt: HostRuntime) -> Result<(), Fail> {
    let alloc = rt.alloc();
    let mut printer = printer(alloc, &[])?;
    let question = printer.ask().ok_or("it is not out")?;
    printer.unask(question);
    let anew = printer.ask().ok_or("it was taken back")?;
    assert!(rt; is_question(&anew));
    assert!(rt; printer.ask().is_none());
    assert_eq!(rt; printer.events().len(), 0);
    Ok(())
}

#[test]
fn a_printer_is_asked_by_setup_packets(rt: HostRuntime) -> Result<(), Fail> {
    const SETUPS: [[u8; 8]; 4] = [
        [0xA1, 0x01, 0x00, 0x00, 0x00, 0x00, 0x01, 0x00],
        [0xA1, 0x01, 0x00, 0x00, 0xFF, 0x00, 0x01, 0x00],
        [0x21, 0x02, 0x00, 0x00, 0x00, 0x00, 0x00, 0x00],
        [0x21, 0x02, 0x00, 0x00, 0x05, 0x00, 0x00, 0x00],
    ];
    let setups = [
        status_setup(0),
        status_setup(255),
        reset_setup(0),
        reset_setup(5),
    ];
    assert_eq!(rt; setups, SETUPS);
    Ok(())
}
