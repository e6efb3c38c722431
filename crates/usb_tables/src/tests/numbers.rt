//! Scenes of numbers, drawn by hand from the formula.
use std::process::Abort;
use std::test::Fail;
use usb_generate::generate;
use usb_scene::{Scene, Target};
use usb_xfer::What;

/// How an answer looks: its kind, how many bytes it has, and the first of them.
type Look = (&'static str, usize, Option<u8>);

fn answer(scene: &Scene, device: usize, j: usize) -> Option<Look> {
    let device = scene.devices.items().get(device)?;
    let answers = device.script.answers.items().first()?;
    let item = answers.items.items().get(j)?;
    Some(match &item.what {
        What::Packet(bytes) => (
            "packet",
            bytes.bytes().len(),
            bytes.bytes().first().copied(),
        ),
        What::Nak => ("nak", 0, None),
        What::Stall => ("stall", 0, None),
        _ => ("another", 0, None),
    })
}

/// How a call looks: its line, its code, and what it names.
type Called = (u32, u32, Target);

fn call(scene: &Scene, i: usize) -> Option<Called> {
    let thread = scene.threads.items().first()?;
    let call = thread.calls.items().get(i)?;
    Some((call.line, call.code, call.target))
}

/// The scene of a number has these answers, each found by its device and its place, and these calls, each found by its place.
fn check_number<R: Abort + AllocGlobal>(
    rt: &R,
    number: u32,
    answers: &[(usize, usize, Option<Look>)],
    calls: &[(usize, Option<Called>)],
) -> Result<(), Fail> {
    let scene = generate(rt.alloc(), number)?;
    for (device, j, look) in answers {
        assert_eq!(rt;
            answer(&scene, *device, *j),
            *look,
            "{number}: {device} {j}"
        );
    }
    for (i, called) in calls {
        assert_eq!(rt; call(&scene, *i), *called, "{number}: {i}");
    }
    Ok(())
}

// From 1 are drawn 16838, 5758, 10113, 17515, 31051, 5627, 23010 .., as in the C standard's example of `rand`.
#[test]
fn answers_of_number_1(rt: HostRuntime) -> Result<(), Fail> {
    const ROWS: &[(usize, usize, Option<Look>)] = &[
        (0, 0, Some(("packet", 38, Some(0)))),
        (0, 1, Some(("stall", 0, None))),
        (0, 2, Some(("packet", 46, Some(2)))),
        (0, 3, Some(("packet", 0, None))),
        (0, 63, Some(("packet", 48, Some(63)))),
        (0, 64, None),
        (3, 0, Some(("nak", 0, None))),
        (3, 63, Some(("packet", 24, Some(63)))),
        (4, 0, None),
    ];
    check_number(&rt, 1, ROWS, &[])
}

#[test]
fn urbs_of_every_number(rt: HostRuntime) -> Result<(), Fail> {
    let scene = generate(rt.alloc(), 77)?;
    let urbs = scene.urbs.items();
    assert_eq!(rt; urbs.len(), 16);
    assert_eq!(rt; urbs[15].name.bytes(), b"u15".as_slice());
    assert_eq!(rt; (urbs[15].device, urbs[15].address), (3, 0x81));
    assert_eq!(rt; (urbs[15].len, urbs[15].again), (128, 0));
    assert_eq!(rt; (urbs[4].device, urbs[4].len, urbs[4].again), (0, 64, 1));
    Ok(())
}

#[test]
fn calls_of_number_1(rt: HostRuntime) -> Result<(), Fail> {
    const ROWS: &[(usize, Option<Called>)] = &[
        (0, Some((31, 1, Target::Urb(13)))),
        (1, Some((32, 8, Target::Nothing))),
        (4, Some((35, 3, Target::Urb(5)))),
        (1997, Some((2028, 2, Target::Urb(5)))),
        (1999, Some((2030, 1, Target::Urb(11)))),
        (2000, None),
    ];
    check_number(&rt, 1, &[], ROWS)
}

#[test]
fn numbers_count_modulo_2_to_the_31(rt: HostRuntime) -> Result<(), Fail> {
    const ROWS: &[(usize, Option<Called>)] = &[
        (0, Some((31, 8, Target::Nothing))),
        (1, Some((32, 1, Target::Urb(15)))),
    ];
    check_number(&rt, 4_294_967_295, &[], ROWS)
}
