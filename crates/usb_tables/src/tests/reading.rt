//! Scenes that are read, and scenes with a bad line.
use std::alloc::Global;
use std::process::Abort;
use std::test::Fail;
use usb_scene::{
    Call, Cause, Scene, SceneDevice, SceneFault, SceneThread, SceneUrb, Target, read_scene, split,
};
use usb_types::Buf;

const MOST: usize = 1_048_576;

// What is read of a text.
fn read(alloc: Global, text: &str) -> Result<Scene, SceneFault> {
    let bytes = text.as_bytes();
    if bytes.len() > MOST {
        return Err(SceneFault::Memory);
    }
    read_scene(alloc, bytes)
}

// The bad line of a text with its cause.
fn fault(alloc: Global, text: &str) -> Option<(u32, Cause)> {
    match read(alloc, text) {
        Err(SceneFault::Bad { line, cause }) => Some((line, cause)),
        _ => None,
    }
}

/// A scene's only device has so many endpoints, and answers so: an address, and how many items stand for it.
fn check_device<R: Abort>(rt: &R, devices: &[SceneDevice], ends: usize, wanted: &[(u8, usize)]) {
    assert_eq!(rt; devices.len(), 1);
    let script = &devices[0].script;
    assert_eq!(rt; script.ends.items().len(), ends);
    let answers = script.answers.items();
    assert_eq!(rt; answers.len(), wanted.len());
    for (answers, wanted) in answers.iter().zip(wanted) {
        assert_eq!(rt; (answers.address, answers.items.items().len()), *wanted);
    }
}

/// An URB's address, its length, how often it is submitted again, and whether fewer bytes than asked are a fault.
type Declared = (u8, u32, u32, bool);

/// The URBs are declared so.
fn check_urbs<R: Abort>(rt: &R, urbs: &[SceneUrb], wanted: &[Declared]) {
    assert_eq!(rt; urbs.len(), wanted.len());
    for (urb, wanted) in urbs.iter().zip(wanted) {
        assert_eq!(rt; (urb.address, urb.len, urb.again, urb.short), *wanted);
    }
}

/// A call's line, its code and its target, its numbers, and its bytes.
type Kept = ((u32, u32, Target), [u32; 4], Option<&'static [u8]>);

fn are_bytes(bytes: &Option<Buf>, wanted: &Option<&[u8]>) -> bool {
    match (bytes, wanted) {
        (Some(bytes), Some(wanted)) => bytes.bytes() == *wanted,
        (None, None) => true,
        _ => false,
    }
}

/// The calls are kept so.
fn check_calls<R: Abort>(rt: &R, calls: &[Call], wanted: &[Kept]) {
    assert_eq!(rt; calls.len(), wanted.len());
    for (call, (place, numbers, bytes)) in calls.iter().zip(wanted) {
        assert_eq!(rt; (call.line, call.code, call.target), *place);
        assert_eq!(rt; call.numbers, *numbers, "{place:?}");
        assert!(rt; are_bytes(&call.bytes, bytes), "{place:?}");
    }
}

/// The calls of the only thread are kept so, and none has a setup packet.
fn check_thread<R: Abort>(rt: &R, threads: &[SceneThread], wanted: &[Kept]) {
    assert_eq!(rt; threads.len(), 1);
    let calls = threads[0].calls.items();
    check_calls(rt, calls, wanted);
    for call in calls {
        assert!(rt; call.setup.is_none());
    }
}

#[test]
fn a_scene(rt: HostRuntime) -> Result<(), Fail> {
    const TEXT: &str =
        "# a loop\n\nscene 1\ndevice d raw\r\nep 81 bulk 64 0\nanswer 81 2*nak p:00\nanswer 81 stall\nurb a d 81 short len 8\nurb b d 81 again 3\nthread t\nsubmit a\nblock b\nserve\nthread hub\ndown";
    const URBS: &[Declared] = &[(0x81, 8, 0, true), (0x81, 0, 3, false)];
    const CALLS: &[Kept] = &[
        ((11, 1, Target::Urb(0)), [0; 4], None),
        ((12, 6, Target::Urb(1)), [0; 4], None),
        ((13, 8, Target::Nothing), [0; 4], None),
    ];
    let scene = read(rt.alloc(), TEXT)?;
    check_device(&rt, scene.devices.items(), 1, &[(0x81, 3)]);
    check_urbs(&rt, scene.urbs.items(), URBS);
    let threads = scene.threads.items();
    assert_eq!(rt; threads.len(), 2);
    check_calls(&rt, threads[0].calls.items(), CALLS);
    Ok(())
}

#[test]
fn a_scene_of_control_transfers(rt: HostRuntime) -> Result<(), Fail> {
    const TEXT: &str =
        "scene 1\ndevice d raw\nanswer 00 p:AABB ack\nurb c d 00 len 4\nthread t\nsubmit c setup:8006000100000400\nserve\nsubmit c setup:0009010000000000 -";
    const CALLS: &[Kept] = &[
        ((6, 1, Target::Urb(0)), [0; 4], None),
        ((7, 8, Target::Nothing), [0; 4], None),
        ((8, 1, Target::Urb(0)), [0; 4], Some(&[])),
    ];
    const SETUPS: &[Option<[u8; 8]>] = &[
        Some([0x80, 6, 0, 1, 0, 0, 4, 0]),
        None,
        Some([0, 9, 1, 0, 0, 0, 0, 0]),
    ];
    let scene = read(rt.alloc(), TEXT)?;
    check_device(&rt, scene.devices.items(), 0, &[(0, 2)]);
    check_urbs(&rt, scene.urbs.items(), &[(0, 4, 0, false)]);
    let threads = scene.threads.items();
    assert_eq!(rt; threads.len(), 1);
    let calls = threads[0].calls.items();
    check_calls(&rt, calls, CALLS);
    for (call, setup) in calls.iter().zip(SETUPS) {
        assert_eq!(rt; call.setup, *setup);
    }
    Ok(())
}

#[test]
fn bad_lines(rt: HostRuntime) -> Result<(), Fail> {
    const FAULTS: &[(&str, u32, Cause)] = &[
        ("", 1, Cause::Header),
        ("\n# none\n", 2, Cause::Header),
        ("scene 1\r\r\n", 1, Cause::Byte),
        ("scene 1\nscene 1\n", 2, Cause::Word),
        ("scene 1\nep 81 bulk 8 0\n", 2, Cause::Word),
        ("scene 1\ndevice d disk\n\x01\n", 2, Cause::Form),
        ("scene 1\nurb a d 81\n", 2, Cause::Name),
        ("scene 1\nthread server\n", 2, Cause::Twice),
        (
            "scene 1\ndevice d raw\nep 81 bulk 1025 0\n",
            3,
            Cause::Limit,
        ),
        ("scene 1\nthread t\ndown\n", 3, Cause::HubOnly),
    ];
    for (text, line, cause) in FAULTS {
        assert_eq!(rt; fault(rt.alloc(), text), Some((*line, *cause)), "{text}");
    }
    Ok(())
}

#[test]
fn a_reject_that_is_not_held(rt: HostRuntime) -> Result<(), Fail> {
    let text =
        "scene 1\ndevice d raw\nep 81 bulk 8 0\nurb a d 81\nthread t\nblock a\nthread s\npoison a\nunblock a\nunblock a\n";
    assert_eq!(rt; fault(rt.alloc(), text), Some((10, Cause::Held)));
    Ok(())
}

#[test]
fn lines_with_words(rt: HostRuntime) -> Result<(), Fail> {
    let lines = split(rt.alloc(), b"\nscene 1 # one\n \t\nthread t\r\n")?;
    let lines = lines.items();
    assert_eq!(rt; lines.len(), 2);
    assert_eq!(rt; (lines[0].number, lines[0].words.items().len()), (2, 2));
    assert_eq!(rt; (lines[1].number, lines[1].words.items().len()), (4, 2));
    let words = lines[1].words.items();
    assert_eq!(rt; words.len(), 2);
    assert_eq!(rt; words[1].bytes(), b"t".as_slice());
    Ok(())
}

#[test]
fn causes_print_their_names(rt: HostRuntime) -> Result<(), Fail> {
    let alloc = rt.alloc();
    let printed = format!(in alloc; "{}", Cause::HubOnly)?;
    assert_eq!(rt; printed.as_str(), "HubOnly");
    Ok(())
}

const SERIAL: &str = "scene 1\ndevice d raw\ndevice k keyboard\ndevice m acm\nthread t\n";

// The cause against a call in a thread, where a raw device, a keyboard and a serial adapter are declared.
fn cause_of(alloc: Global, call: &str) -> Result<Option<Cause>, Fail> {
    let text = format!(in alloc; "{SERIAL}{call}")?;
    Ok(fault(alloc, text.as_str()).map(|(_, cause)| cause))
}

fn aimed(device: u32, interface: u8) -> Target {
    Target::Interface { device, interface }
}

#[test]
fn calls_on_serial_ports_are_kept(rt: HostRuntime) -> Result<(), Fail> {
    let text =
        "scene 1\ndevice k keyboard\ndevice m acm\nthread t\nwrite m 0 41 fill:2:42\ncoding m 1 115200 2 4 16\ncontrol m 255 fE\nsendbreak k 0 65535";
    let scene = read(rt.alloc(), text)?;
    let calls: [Kept; 4] = [
        ((5, 24, aimed(1, 0)), [0; 4], Some(&[0x41, 0x42, 0x42])),
        ((6, 25, aimed(1, 1)), [115200, 2, 4, 16], None),
        ((7, 26, aimed(1, 255)), [0; 4], Some(&[0xFE])),
        ((8, 27, aimed(0, 0)), [65535, 0, 0, 0], None),
    ];
    check_thread(&rt, scene.threads.items(), &calls);
    Ok(())
}

#[test]
fn causes_against_calls_on_serial_ports(rt: HostRuntime) -> Result<(), Fail> {
    const CALLS: &[(&str, Option<Cause>)] = &[
        ("write m 0 fill:16384:00 -", None),
        ("coding m 0 999999999 2 4 16", None),
        ("write m 0", Some(Cause::Form)),
        ("coding d 256 9600 3 0 9", Some(Cause::Form)),
        ("coding d 256 9600 3 0 8", Some(Cause::Name)),
        ("write none 0 41", Some(Cause::Name)),
        ("control d 0 03", Some(Cause::Name)),
        ("write m 256 41", Some(Cause::Limit)),
        ("write m 0 fill:16384:00 00", Some(Cause::Limit)),
        (
            "write m 0 fill:16384:00 fill:16384:00 fill:16384:00 fill:16384:00 00",
            Some(Cause::Limit),
        ),
        ("coding m 0 9600 3 0 8", Some(Cause::Limit)),
        ("coding m 0 9600 0 5 8", Some(Cause::Limit)),
        ("sendbreak m 0 65536", Some(Cause::Limit)),
        ("break m 0 5", Some(Cause::Word)),
    ];
    for (call, cause) in CALLS {
        assert_eq!(rt; cause_of(rt.alloc(), call)?, *cause, "{call}");
    }
    assert_eq!(rt;
        fault(rt.alloc(), "scene 1\ndevice m acm\nwrite m 0 41"),
        Some((3, Cause::Word))
    );
    Ok(())
}

#[test]
fn calls_on_printers_are_kept(rt: HostRuntime) -> Result<(), Fail> {
    let text =
        "scene 1\ndevice p printer\nthread t\nprint p 0 41 fill:2:42\nstatus p 1\nsoftreset p 255";
    let scene = read(rt.alloc(), text)?;
    let calls: [Kept; 3] = [
        ((4, 28, aimed(0, 0)), [0; 4], Some(&[0x41, 0x42, 0x42])),
        ((5, 29, aimed(0, 1)), [0; 4], None),
        ((6, 30, aimed(0, 255)), [0; 4], None),
    ];
    check_thread(&rt, scene.threads.items(), &calls);
    Ok(())
}

#[test]
fn causes_against_calls_on_printers(rt: HostRuntime) -> Result<(), Fail> {
    const CALLS: &[(&str, Option<Cause>)] = &[
        ("print m 0 -", None),
        ("print k 255 fill:16384:00", None),
        ("status k 0", None),
        ("softreset m 0 # any device with drivers", None),
        ("print m 0", Some(Cause::Form)),
        ("status m 0 0", Some(Cause::Form)),
        ("softreset m", Some(Cause::Form)),
        ("print d 256 41", Some(Cause::Name)),
        ("status none 0", Some(Cause::Name)),
        ("softreset d 0", Some(Cause::Name)),
        ("print m 0 fill:16384:00 00", Some(Cause::Limit)),
        ("status m 256", Some(Cause::Limit)),
        ("softreset m 256", Some(Cause::Limit)),
    ];
    for (call, cause) in CALLS {
        assert_eq!(rt; cause_of(rt.alloc(), call)?, *cause, "{call}");
    }
    Ok(())
}
