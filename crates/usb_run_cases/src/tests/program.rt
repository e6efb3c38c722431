//! The program's call over memory: small scenes, the lines of numbers, ends that fail, words that are refused, the texts of faults.
use crate::tests::calling::{Ends, GOOD, check_reports, ended, joined};
use std::process::Abort;
use std::sync::Wait;
use std::test::Fail;
use std::thread::Threads;
use usb_run::Status;
use usb_scene::Cause;

const HEAD: &str =
    "scene 1\ndevice d raw\nep 81 bulk 64 0\nanswer 81 p:0102030405060708\nurb a d 81 len 8\nthread t\n";

const WHOLE: &str = "thread t\n7 submit a 0\ngiven\na 0 8 rest 0102030405060708\n";

#[test]
fn a_scene_prints_its_calls_and_what_was_given_back(rt: HostRuntime) -> Result<(), Fail> {
    const ROWS: &[(&str, &str)] = &[
        ("submit a\nserve\n", WHOLE),
        (
            "submit a\nsubmit a\nserve\n",
            "thread t\n7 submit a 0\n8 submit a -EBUSY\ngiven\na 0 8 rest 0102030405060708\n",
        ),
        (
            "submit a\nserve\nsubmit a\nserve\n",
            "thread t\n7 submit a 0\n9 submit a 0\ngiven\na 0 8 rest 0102030405060708\na -ENOENT 0 rest -\n",
        ),
        (
            "submit a\n",
            "thread t\n7 submit a 0\ngiven\na -ENOENT 0 rest -\n",
        ),
        ("serve # nothing is queued", "thread t\n"),
    ];
    check_reports(&rt, HEAD, "", Status::Done, "", ROWS)
}

#[test]
fn a_scene_may_have_less_or_more_than_the_first(rt: HostRuntime) -> Result<(), Fail> {
    const ROWS: &[(&str, &str)] = &[
        ("scene 1", ""),
        ("scene 1\n", ""),
        (
            "# no device\r\nscene\t1\r\nthread t\r\nserve\r\n",
            "thread t\n",
        ),
        (
            "scene 1\ndevice d raw\nep 81 bulk 2 0\nanswer 81 p:0102 nak\nanswer 81 p:03\nurb a d 81 len 8\nthread t\nsubmit a\nserve\nserve",
            "thread t\n8 submit a 0\ngiven\na 0 3 rest 010203\n",
        ),
        (
            "scene 1\ndevice d raw\nep 81 bulk 2 0\nurb a d 81\nthread hub\nsubmit a\nserve",
            "thread hub\n6 submit a 0\ngiven\na -ENOENT 0 rest -\n",
        ),
    ];
    check_reports(&rt, "", "", Status::Done, "", ROWS)
}

const MOVES: &[(&str, &str)] = &[
    (
        "p:01020304 p:0506\nurb a d 8A len 8",
        "given\na 0 6 rest 010203040506\n",
    ),
    (
        "p:01020304 p:05060708\nurb a d 8A len 8",
        "given\na 0 8 rest 0102030405060708\n",
    ),
    (
        "p:01020304 p:\nurb a d 8A len 8",
        "given\na 0 4 rest 01020304\n",
    ),
    (
        "p:0102030405\nurb a d 8A len 8",
        "given\na -EOVERFLOW 0 rest -\n",
    ),
    (
        "p:010203\nurb a d 8A len 2",
        "given\na -EOVERFLOW 0 rest -\n",
    ),
    (
        "p:01020304 p:0506\nurb a d 8A len 5",
        "given\na -EOVERFLOW 4 rest 01020304\n",
    ),
    (
        "p:01020304 stall\nurb a d 8A len 8",
        "given\na -EPIPE 4 rest 01020304\n",
    ),
    (
        "error p:01\nurb a d 8A len 8",
        "given\na -EPROTO 0 rest -\n",
    ),
    ("p:\nurb a d 8A", "given\na 0 0 rest -\n"),
    ("nak p:01\nurb a d 8A len 8", "given\na -ENOENT 0 rest -\n"),
    (
        "p:01020304\nurb a d 8A len 8",
        "given\na -ENOENT 4 rest 01020304\n",
    ),
];

#[test]
fn replies_move_a_transfer(rt: HostRuntime) -> Result<(), Fail> {
    let front = "scene 1\ndevice d raw\nep 8a bulk 4 0\nanswer 8A ";
    let back = "\nthread t\nsubmit a\nserve\n";
    check_reports(
        &rt,
        front,
        back,
        Status::Done,
        "thread t\n7 submit a 0\n",
        MOVES,
    )
}

// The first scene between these ends: the status, and what is written.
fn check_ends<R: Abort + AllocGlobal + Threads + Wait + Sync>(
    rt: &R,
    ends: Ends<'_>,
    status: Status,
    written: &str,
) -> Result<(), Fail> {
    let alloc = rt.alloc();
    let scene = joined(alloc, HEAD, "submit a\nserve\n", "")?;
    let (got, text) = ended(rt, alloc, &["serial"], scene, ends)?;
    assert_eq!(rt; got, status);
    assert_eq!(rt; text.as_slice(), written.as_bytes());
    Ok(())
}

#[test]
fn each_failing_read_and_write_is_told(rt: HostRuntime) -> Result<(), Fail> {
    const ROWS: &[(&[u32], &[u32], u32, Status, &str)] = &[
        (&[1], &[], 4096, Status::ReadFault, ""),
        (&[2], &[], 4096, Status::ReadFault, ""),
        (&[3], &[2], 4096, Status::Done, WHOLE),
        (&[], &[1], 4096, Status::WriteFault, ""),
        (&[], &[2], 10, Status::WriteFault, "thread t\n7"),
        (&[], &[], 10, Status::WriteFault, "thread t\n7"),
    ];
    for (reads, writes, room, status, written) in ROWS {
        let ends = Ends {
            reads,
            writes,
            room: *room,
        };
        check_ends(&rt, ends, *status, written)?;
    }
    Ok(())
}

#[test]
fn other_words_are_refused(rt: HostRuntime) -> Result<(), Fail> {
    let alloc = rt.alloc();
    const ROWS: &[&[&str]] = &[
        &[],
        &["serial", "now"],
        &["Serial"],
        &["run"],
        &["list", "1"],
        &["gen"],
        &["gen", "x"],
        &["gen", ""],
        &["gen", "+1"],
        &["gen", "1", "2"],
        &["gen", "4294967296"],
        &["gen", "12345678901"],
        &["Gen", "1"],
    ];
    for words in ROWS {
        let (status, text) = ended(&rt, alloc, words, joined(alloc, HEAD, "", "")?, GOOD)?;
        assert_eq!(rt; status, Status::BadWords);
        assert_eq!(rt; text.len(), 0);
    }
    Ok(())
}

// The line of a number: the status, and what is written. The input is no scene and is not read.
fn check_number<R: Abort + AllocGlobal + Threads + Wait + Sync>(
    rt: &R,
    number: &str,
    ends: Ends<'_>,
    status: Status,
    written: &str,
) -> Result<(), Fail> {
    let alloc = rt.alloc();
    let input = joined(alloc, "no scene\n", "", "")?;
    let (got, text) = ended(rt, alloc, &["gen", number], input, ends)?;
    assert_eq!(rt; got, status, "{number}");
    assert_eq!(rt; text.as_slice(), written.as_bytes(), "{number}");
    Ok(())
}

// The numbers are those of a count by other means.
#[test]
fn a_number_has_its_line(rt: HostRuntime) -> Result<(), Fail> {
    let first = "gen 1 calls 2000 accepted 495 refused 522 given 495 bytes 5419\n";
    let last = "gen 4294967295 calls 2000 accepted 475 refused 501 given 475 bytes 5546\n";
    let silent = Ends {
        reads: &[1],
        ..GOOD
    };
    check_number(&rt, "1", silent, Status::Done, first)?;
    check_number(&rt, "1", GOOD, Status::Done, first)?;
    check_number(&rt, "0000000001", GOOD, Status::Done, first)?;
    check_number(&rt, "4294967295", GOOD, Status::Done, last)
}

#[test]
fn a_failing_write_of_a_line_is_told(rt: HostRuntime) -> Result<(), Fail> {
    let short = Ends { room: 11, ..GOOD };
    check_number(&rt, "1", short, Status::WriteFault, "gen 1 calls")
}

#[test]
fn each_fault_has_its_text(rt: HostRuntime) -> Result<(), Fail> {
    let alloc = rt.alloc();
    const ROWS: &[(Status, &str)] = &[
        (Status::Done, ""),
        (Status::ReadFault, "usbrun: read fault"),
        (Status::WriteFault, "usbrun: write fault"),
        (Status::BadWords, "usbrun: bad words"),
        (
            Status::BadScene {
                line: 7,
                cause: Cause::HubOnly,
            },
            "usbrun: line 7: HubOnly",
        ),
        (Status::TooLong, "usbrun: too long"),
        (Status::Memory, "usbrun: no memory"),
    ];
    for (status, text) in ROWS {
        let printed = format!(in alloc; "{status}")?;
        assert_eq!(rt; printed.as_str(), *text);
    }
    Ok(())
}
