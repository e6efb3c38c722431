//! How the tests call the program.
use std::alloc::Global;
use std::process::Abort;
use std::sync::Wait;
use std::test::Fail;
use std::thread::Threads;
use usb_run::{Status, usbrun};
use usb_types::{Buf, Free, List, MemSink, MemSource};

/// The ends of one call: the numbers of the reads and of the writes that fail, and the sink's room.
#[derive(Clone, Copy)]
pub struct Ends<'a> {
    pub reads: &'a [u32],
    pub writes: &'a [u32],
    pub room: u32,
}

pub const GOOD: Ends<'static> = Ends {
    reads: &[],
    writes: &[],
    room: 4096,
};

/// One call: its status, and what it wrote.
pub fn ended<R: Threads + Wait + Sync>(
    rt: &R,
    alloc: Global,
    words: &[&str],
    scene: Vec<u8>,
    ends: Ends<'_>,
) -> Result<(Status, Vec<u8>), Fail> {
    let mut list = Vec::new(alloc);
    for word in words {
        list.push(String::from_str(alloc, word)?)?;
    }
    let mut input = MemSource::new(Buf::of(scene), List::of(ends.reads.to_vec(alloc)?));
    let mut out = MemSink::new(alloc, ends.room, List::of(ends.writes.to_vec(alloc)?))?;
    let status = usbrun(rt, alloc, &list, &mut input, &mut out, &Free);
    Ok((status, out.bytes().to_vec(alloc)?))
}

pub fn joined(alloc: Global, front: &str, middle: &str, back: &str) -> Result<Vec<u8>, Fail> {
    let mut text = front.as_bytes().to_vec(alloc)?;
    text.extend_from_slice(middle.as_bytes())?;
    text.extend_from_slice(back.as_bytes())?;
    Ok(text)
}

/// A call with this word ends so, and writes the two parts of a text.
fn check_call<R: Abort + AllocGlobal + Threads + Wait + Sync>(
    rt: &R,
    word: &str,
    scene: Vec<u8>,
    wanted: Status,
    text: (&str, &str),
) -> Result<(), Fail> {
    let alloc = rt.alloc();
    let (beginning, end) = text;
    let (status, written) = ended(rt, alloc, &[word], scene, GOOD)?;
    assert_eq!(rt; status, wanted, "{end}");
    let text = joined(alloc, beginning, end, "")?;
    assert_eq!(rt; written.as_slice(), text.as_slice(), "{end}");
    Ok(())
}

/// Each scene, between a front and a back, ends so and has this report after a common beginning.
pub fn check_reports<R: Abort + AllocGlobal + Threads + Wait + Sync>(
    rt: &R,
    front: &str,
    back: &str,
    status: Status,
    beginning: &str,
    rows: &[(&str, &str)],
) -> Result<(), Fail> {
    for (middle, report) in rows {
        let scene = joined(rt.alloc(), front, middle, back)?;
        check_call(rt, "serial", scene, status, (beginning, report))?;
    }
    Ok(())
}

/// The header and a device `k` of the keyboard's kind.
pub const KEYBOARD: &str = "scene 1\ndevice k keyboard\n";

/// The list of each scene, after a front, goes on so after a common beginning.
pub fn check_lists<R: Abort + AllocGlobal + Threads + Wait + Sync>(
    rt: &R,
    front: &str,
    beginning: &str,
    rows: &[(&str, &str)],
) -> Result<(), Fail> {
    for (lines, report) in rows {
        let scene = joined(rt.alloc(), front, lines, "")?;
        check_call(rt, "list", scene, Status::Done, (beginning, report))?;
    }
    Ok(())
}

/// The text is no scene: this is reported, and nothing is written.
pub fn check_fault<R: Abort + AllocGlobal + Threads + Wait + Sync>(
    rt: &R,
    scene: Vec<u8>,
    fault: &str,
) -> Result<(), Fail> {
    let alloc = rt.alloc();
    let (status, text) = ended(rt, alloc, &["serial"], scene, GOOD)?;
    let told = format!(in alloc; "{status}")?;
    let wanted = format!(in alloc; "usbrun: line {fault}")?;
    assert_eq!(rt; told.as_str(), wanted.as_str());
    assert_eq!(rt; text.len(), 0, "{fault}");
    Ok(())
}

/// Each text after a front is no scene: its line and cause are reported.
pub fn check_bad<R: Abort + AllocGlobal + Threads + Wait + Sync>(
    rt: &R,
    front: &str,
    rows: &[(&str, &str)],
) -> Result<(), Fail> {
    for (text, fault) in rows {
        check_fault(rt, joined(rt.alloc(), front, text, "")?, fault)?;
    }
    Ok(())
}
