//! Limits of a scene, at them and one past them.
use crate::tests::calling::{GOOD, check_fault, ended, joined};
use std::alloc::Global;
use std::process::Abort;
use std::sync::Wait;
use std::test::Fail;
use std::thread::Threads;
use usb_run::Status;

const END: &str = "scene 1\ndevice d raw\nep 81 bulk 64 0\n";

// A text with this line so many times after a front, each with its number after the line's first part.
fn numbered(
    alloc: Global,
    front: &str,
    first: &str,
    rest: &str,
    times: u32,
) -> Result<Vec<u8>, Fail> {
    let mut text = front.as_bytes().to_vec(alloc)?;
    for i in 0..times {
        let line = format!(in alloc; "{first}{i}{rest}\n")?;
        text.extend_from_slice(line.as_bytes())?;
    }
    Ok(text)
}

// A text with this piece so many times after a front, and a back.
fn repeated(
    alloc: Global,
    front: &str,
    piece: &str,
    times: u32,
    back: &str,
) -> Result<Vec<u8>, Fail> {
    let mut text = front.as_bytes().to_vec(alloc)?;
    for _ in 0..times {
        text.extend_from_slice(piece.as_bytes())?;
    }
    text.extend_from_slice(back.as_bytes())?;
    Ok(text)
}

/// A scene runs, where no fault is named, and else has this fault.
fn check_scene<R: Abort + AllocGlobal + Threads + Wait + Sync>(
    rt: &R,
    scene: Vec<u8>,
    fault: &str,
) -> Result<(), Fail> {
    if !fault.is_empty() {
        return check_fault(rt, scene, fault);
    }
    let (status, _) = ended(rt, rt.alloc(), &["serial"], scene, GOOD)?;
    assert_eq!(rt; status, Status::Done);
    Ok(())
}

#[test]
fn so_many_things_may_be_declared(rt: HostRuntime) -> Result<(), Fail> {
    const ROWS: &[(&str, &str, &str, u32, &str)] = &[
        ("scene 1\n", "device d", " raw", 16, ""),
        ("scene 1\n", "device d", " raw", 17, "18: Limit"),
        (END, "urb u", " d 81", 256, ""),
        (END, "urb u", " d 81", 257, "260: Limit"),
        ("scene 1\n", "thread t", "", 16, ""),
        ("scene 1\n", "thread t", "", 17, "18: Limit"),
    ];
    for (front, first, rest, times, fault) in ROWS {
        let scene = numbered(rt.alloc(), front, first, rest, *times)?;
        check_scene(&rt, scene, fault)?;
    }
    Ok(())
}

#[test]
fn so_many_items_and_calls_may_stand(rt: HostRuntime) -> Result<(), Fail> {
    const ANSWER: &str = "scene 1\ndevice d raw\nep 81 bulk 64 0\nanswer 81";
    const BLOCK: &str = "scene 1\ndevice d raw\nep 81 bulk 64 0\nurb a d 81\nthread t\n";
    const CALLS: &str = "scene 1\nthread t\n";
    const ROWS: &[(&str, &str, u32, &str, &str)] = &[
        (ANSWER, " 4096*nak", 16, "", ""),
        (ANSWER, " 4096*nak", 16, "\nanswer 81 nak", "5: Limit"),
        (ANSWER, " 4096*nak", 17, "", "4: Limit"),
        (CALLS, "serve\n", 4096, "", ""),
        (CALLS, "serve\n", 4096, "thread u\nserve", "4100: Limit"),
        (BLOCK, "block a\n", 100, "", ""),
        (BLOCK, "block a\n", 101, "", "106: Limit"),
        (BLOCK, "block a\n", 100, "poison a", "106: Limit"),
    ];
    for (front, piece, times, back, fault) in ROWS {
        let scene = repeated(rt.alloc(), front, piece, *times, back)?;
        check_scene(&rt, scene, fault)?;
    }
    Ok(())
}

#[test]
fn so_many_rejects_may_be_held_on_an_urb_of_a_driver(rt: HostRuntime) -> Result<(), Fail> {
    let alloc = rt.alloc();
    let front = "scene 1\ndevice k keyboard\nthread t\n";
    check_fault(
        &rt,
        repeated(alloc, front, "block k.0.in\n", 100, "block k.1.in\nfoo")?,
        "105: Word",
    )?;
    check_fault(
        &rt,
        repeated(alloc, front, "block k.0.in\n", 100, "poison k.00.in")?,
        "104: Limit",
    )
}

#[test]
fn an_input_has_a_limit(rt: HostRuntime) -> Result<(), Fail> {
    let alloc = rt.alloc();
    for (size, wanted) in [(1_048_576, Status::Done), (1_048_577, Status::TooLong)] {
        let mut scene = joined(alloc, "scene 1\n", "", "")?;
        scene.resize(size, b' ')?;
        let (status, text) = ended(&rt, alloc, &["serial"], scene, GOOD)?;
        assert_eq!(rt; status, wanted);
        assert_eq!(rt; text.len(), 0);
    }
    Ok(())
}
