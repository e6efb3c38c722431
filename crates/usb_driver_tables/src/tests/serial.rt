//! What serial ports said, and the events of it, written by hand from PSTN 1.2 (§6.3 and §6.5) and CDC 1.2 (§6.3).
//!
//! A word is an URB that came back. Bytes alone are notes that came; `read0=4142` names the URB, or the request of a
//! control transfer, and `read0.EPIPE=4142` also how it failed. A `+` joins words of bytes.
ghost use Rattle.std.specs.Prelude.{IfOk};
ghost use Rattle.usb_acm.specs.Acm.{IsOfAcm};

use crate::tests::completions::{bytes, errno, push_bytes, push_word, transfer};
use std::alloc::Global;
use std::process::Abort;
use std::test::Fail;
use usb_acm::{Acm, Event, break_setup, coding, coding_setup, control_setup};
use usb_text::{cut, is_text, push_number};
use usb_types::{Action, Buf, Code, Memory, Role};

/// The setup packet of a control transfer. One without a setup packet is `bare`.
fn request(name: &[u8]) -> Result<Option<[u8; 8]>, Fail> {
    if is_text(name, "coding") {
        Ok(Some([0x21, 0x20, 0x00, 0x00, 0x00, 0x00, 0x07, 0x00]))
    } else if is_text(name, "asked") {
        Ok(Some([0xA1, 0x21, 0x00, 0x00, 0x00, 0x00, 0x07, 0x00]))
    } else if is_text(name, "control") {
        Ok(Some([0x21, 0x22, 0x03, 0x00, 0x00, 0x00, 0x00, 0x00]))
    } else if is_text(name, "break") {
        Ok(Some([0x21, 0x23, 0xF4, 0x01, 0x00, 0x00, 0x00, 0x00]))
    } else if is_text(name, "bare") {
        Ok(None)
    } else {
        Err("no request of this name".into())
    }
}

fn purpose(name: &[u8]) -> Result<(Role, Option<[u8; 8]>), Fail>
    ensures { IfOk result (λ purpose. IsOfAcm purpose.0) }
{
    if is_text(name, "note") {
        Ok((Role::Note, None))
    } else if is_text(name, "read0") {
        Ok((Role::Read0, None))
    } else if is_text(name, "read1") {
        Ok((Role::Read1, None))
    } else if is_text(name, "write") {
        Ok((Role::Write, None))
    } else {
        Ok((Role::Ctl, request(name)?))
    }
}

/// Gives a port what a word says.
fn complete(alloc: Global, port: &mut Acm, word: &[u8]) -> Result<Action, Fail> {
    let (head, moved) = cut(word, b'=').unwrap_or((b"note", word));
    let (name, code) = match cut(head, b'.') {
        Some((name, fault)) => (name, Code::Fault(errno(fault)?)),
        None => (head, Code::Zero),
    };
    let (role, setup) = purpose(name)?;
    let moved = bytes(alloc, moved)?;
    let t = transfer(alloc, setup, moved.bytes())?;
    Ok(port.complete(role, code, &t)?)
}

fn push_event(text: &mut Buf, event: &Event) -> Result<(), Memory> {
    match event {
        Event::Rx { bytes } => push_bytes(text, "rx", bytes.bytes()),
        Event::State { bits } => push_bytes(text, "state", &bits.to_be_bytes()),
        Event::Note { request } => push_bytes(text, "note", &[*request]),
        Event::BadNote => push_word(text, "badnote"),
        Event::Coding { bytes } => push_bytes(text, "coding", bytes.bytes()),
        Event::Tx { actual, code } => {
            push_word(text, "tx ")?;
            push_number(text, u64::from(*actual))?;
            push_word(text, code.text())
        }
    }
}

/// The events as a report prints them, on one line and without names, and what was dropped.
fn text_of(alloc: Global, port: &Acm) -> Result<Buf, Memory> {
    let mut text = Buf::of(Vec::new(alloc));
    for event in port.events() {
        push_event(&mut text, event)?;
    }
    if port.dropped() > 0 {
        push_word(&mut text, "dropped ")?;
        push_number(&mut text, port.dropped())?;
    }
    Ok(text)
}

/// Each row of words has these events.
pub fn check_events<R: Abort + AllocGlobal>(rt: &R, rows: &[(&str, &str)]) -> Result<(), Fail> {
    let alloc = rt.alloc();
    for (words, events) in rows {
        let mut port = Acm::new(alloc);
        for word in words.split_ascii_whitespace() {
            complete(alloc, &mut port, word.as_bytes())?;
        }
        let text = text_of(alloc, &port)?;
        assert_eq!(rt; text.bytes(), events.as_bytes(), "{words}");
    }
    Ok(())
}

#[test]
fn bytes_come_in_by_both_reads(rt: HostRuntime) -> Result<(), Fail> {
    const ROWS: &[(&str, &str)] = &[
        ("read0=414243", "rx 414243"),
        ("read1=00", "rx 00"),
        ("read0=-", ""),
        ("read0=41 read1=42 read0=43", "rx 41 rx 42 rx 43"),
        ("read1=42 read0=41", "rx 42 rx 41"),
        // Data are no notifications, and do not stand between two halves of one.
        ("read0=A1200000000002000300", "rx A1200000000002000300"),
        ("A120000000000200 read0=0300 0300", "rx 0300 state 0003"),
    ];
    check_events(&rt, ROWS)
}

#[test]
fn bytes_of_reads_that_failed_are_counted(rt: HostRuntime) -> Result<(), Fail> {
    const ROWS: &[(&str, &str)] = &[
        ("read0.ENOENT=fill:64:55", "dropped 64"),
        ("read1.EPIPE=-", ""),
        (
            "read0.EPROTO=4142 read1=43 read1.EOVERFLOW=44",
            "rx 43 dropped 3",
        ),
        (
            "read0.ECONNRESET=01 read1.ESHUTDOWN=0203 read0.EREMOTEIO=040506",
            "dropped 6",
        ),
        (
            "read0.EPROTO=fill:16384:00 read0.EPROTO=fill:1:00",
            "dropped 16385",
        ),
        // Those of notes and of writes are not counted.
        ("note.EPROTO=A120 write.ENOENT=41", "tx 1 -ENOENT"),
    ];
    check_events(&rt, ROWS)
}

#[test]
fn writes_and_line_codings_are_told(rt: HostRuntime) -> Result<(), Fail> {
    const ROWS: &[(&str, &str)] = &[
        ("write=414243", "tx 3 0"),
        ("write=-", "tx 0 0"),
        ("write.ECONNRESET=4142", "tx 2 -ECONNRESET"),
        ("write.EPIPE=-", "tx 0 -EPIPE"),
        ("coding=80250000000008", "coding 80250000000008"),
        ("coding=00C20100020207", "coding 00C20100020207"),
        ("coding=8025", "coding 8025"),
        ("coding.EPIPE=80250000000008", ""),
        ("coding.ENOENT=-", ""),
        // No other request is reported.
        ("asked=80250000000008 control=- break=- bare=0102", ""),
        ("control.EPIPE=- break.EPROTO=-", ""),
        (
            "write=41 read0=42 coding=00C20100000008 A1200000000002000300 read1.ENOENT=4344",
            "tx 1 0 rx 42 coding 00C20100000008 state 0003 dropped 2",
        ),
    ];
    check_events(&rt, ROWS)
}

#[test]
fn a_read_goes_on_unless_its_fault_stays(rt: HostRuntime) -> Result<(), Fail> {
    const AGAIN: Action = Action::Again { from: 0, len: 10 };
    const ROWS: &[(&str, Action)] = &[
        ("read0=4142434445464748", AGAIN),
        ("read1=4142434445464748", AGAIN),
        ("A100010000000000", AGAIN),
        ("read0=-", Action::Again { from: 0, len: 2 }),
        ("read0.EPROTO=4142434445464748", AGAIN),
        ("read1.EOVERFLOW=4142434445464748", AGAIN),
        ("note.EPROTO=4142434445464748", AGAIN),
        ("note.EOVERFLOW=-", Action::Again { from: 0, len: 2 }),
        ("read0.EPIPE=4142434445464748", Action::Rest),
        ("read0.ENOENT=-", Action::Rest),
        ("read1.ECONNRESET=-", Action::Rest),
        ("read1.EREMOTEIO=41", Action::Rest),
        ("note.EPIPE=-", Action::Rest),
        ("note.ENOENT=-", Action::Rest),
        ("note.ESHUTDOWN=-", Action::Rest),
        ("write=41", Action::Rest),
        ("write.EPROTO=-", Action::Rest),
        ("coding=80250000000008", Action::Rest),
        ("coding.EPROTO=-", Action::Rest),
        ("control=-", Action::Rest),
        ("bare.EOVERFLOW=41", Action::Rest),
    ];
    let alloc = rt.alloc();
    for (word, action) in ROWS {
        let mut port = Acm::new(alloc);
        let got = complete(alloc, &mut port, word.as_bytes())?;
        assert_eq!(rt; got, *action, "{word}");
    }
    Ok(())
}

#[test]
fn events_are_handed_over_with_their_memory(rt: HostRuntime) -> Result<(), Fail> {
    let alloc = rt.alloc();
    let mut port = Acm::new(alloc);
    complete(alloc, &mut port, b"read0=41")?;
    complete(alloc, &mut port, b"A101000000000000")?;
    let events = port.into_events();
    assert_eq!(rt; events.items().len(), 2);
    assert!(rt;
        matches!(&events.items()[0], Event::Rx { bytes } if bytes.bytes() == [0x41].as_slice())
    );
    assert!(rt; matches!(&events.items()[1], Event::Note { request } if *request == 1));
    Ok(())
}

#[test]
fn a_port_is_set_by_setup_packets(rt: HostRuntime) -> Result<(), Fail> {
    const SETUPS: [[u8; 8]; 6] = [
        [0x21, 0x20, 0x00, 0x00, 0x00, 0x00, 0x07, 0x00],
        [0x21, 0x20, 0x00, 0x00, 0x02, 0x00, 0x07, 0x00],
        [0x21, 0x22, 0x03, 0x00, 0x00, 0x00, 0x00, 0x00],
        [0x21, 0x22, 0xFF, 0x00, 0xFF, 0x00, 0x00, 0x00],
        [0x21, 0x23, 0xF4, 0x01, 0x00, 0x00, 0x00, 0x00],
        [0x21, 0x23, 0xFF, 0xFF, 0x01, 0x00, 0x00, 0x00],
    ];
    let setups = [
        coding_setup(0),
        coding_setup(2),
        control_setup(0, 0x03),
        control_setup(255, 0xFF),
        break_setup(0, 500),
        break_setup(1, 65_535),
    ];
    assert_eq!(rt; setups, SETUPS);
    Ok(())
}

#[test]
fn a_line_coding_has_seven_bytes(rt: HostRuntime) -> Result<(), Fail> {
    const ROWS: &[((u32, u8, u8, u8), [u8; 7])] = &[
        ((9_600, 0, 0, 8), [0x80, 0x25, 0x00, 0x00, 0x00, 0x00, 0x08]),
        (
            (115_200, 0, 0, 8),
            [0x00, 0xC2, 0x01, 0x00, 0x00, 0x00, 0x08],
        ),
        ((1_200, 2, 2, 7), [0xB0, 0x04, 0x00, 0x00, 0x02, 0x02, 0x07]),
        (
            (999_999_999, 1, 4, 16),
            [0xFF, 0xC9, 0x9A, 0x3B, 0x01, 0x04, 0x10],
        ),
        ((0, 0, 1, 5), [0x00, 0x00, 0x00, 0x00, 0x00, 0x01, 0x05]),
    ];
    for ((rate, stop, parity, bits), wanted) in ROWS {
        assert_eq!(rt; coding(*rate, *stop, *parity, *bits), *wanted, "{rate}");
    }
    Ok(())
}
