//! Streams of notifications, in packets of every kind, and the events of them, written by hand from PSTN 1.2 (§6.5) and
//! CDC 1.2 (§6.3). A word is a packet, or names another URB that came back.
use crate::tests::serial::check_events;
use std::test::Fail;

#[test]
fn the_lines_stand_in_two_bytes(rt: HostRuntime) -> Result<(), Fail> {
    const ROWS: &[(&str, &str)] = &[
        ("", ""),
        ("-", ""),
        ("A1200000000002000000", "state 0000"),
        ("A1200000000002000300", "state 0003"),
        ("A1200000000002007F00", "state 007F"),
        ("A1200000000002008001", "state 0180"),
        ("A12000000000020000FF", "state FF00"),
        ("A120000000000200FFFF", "state FFFF"),
        // The value, and the interface that reports, are not looked at.
        ("A1200000010002000300", "state 0003"),
        ("A120FFFFFFFF02000300", "state 0003"),
        (
            "A1200000000002000300 A1200000000002000300",
            "state 0003 state 0003",
        ),
    ];
    check_events(&rt, ROWS)
}

#[test]
fn other_notifications_are_told_by_their_number(rt: HostRuntime) -> Result<(), Fail> {
    const ROWS: &[(&str, &str)] = &[
        // NETWORK_CONNECTION, whose value says whether there is one, and RESPONSE_AVAILABLE.
        ("A100010000000000", "note 00"),
        ("A100000000000000", "note 00"),
        ("A101000000000000", "note 01"),
        // CONNECTION_SPEED_CHANGE, with two numbers of four bytes.
        ("A12A0000000008000020000000200000", "note 2A"),
        ("A1FF000000000000", "note FF"),
        ("A1210000000002000300", "note 21"),
        ("A1000100000000 00", "note 00"),
    ];
    check_events(&rt, ROWS)
}

#[test]
fn a_serial_state_is_of_a_class_and_has_two_bytes(rt: HostRuntime) -> Result<(), Fail> {
    const ROWS: &[(&str, &str)] = &[
        ("A120000000000000", "note 20"),
        ("A12000000000010003", "note 20"),
        ("A120000000000300030000", "note 20"),
        ("A12000000000080003+fill:7:00", "note 20"),
        ("A120000000004000+fill:64:00", "note 20"),
        ("A120000000000000 0300", "note 20"),
        // To an interface, of no class, from a device, of a vendor.
        ("21200000000002000300", "note 20"),
        ("00200000000002000300", "note 20"),
        ("81200000000002000300", "note 20"),
        ("A0200000000002000300", "note 20"),
        ("C1200000000002000300", "note 20"),
        (
            "2120000000000200 0300 A1200000000002000300",
            "note 20 state 0003",
        ),
    ];
    check_events(&rt, ROWS)
}

#[test]
fn the_low_byte_of_a_length_comes_first(rt: HostRuntime) -> Result<(), Fail> {
    const ROWS: &[(&str, &str)] = &[
        ("A101000000000100AA", "note 01"),
        ("A1010000000001 00AA", "note 01"),
        ("A101000000000001", "badnote"),
        ("A120000000000002", "badnote"),
        ("A101000000000300AABBCC", "note 01"),
        ("A101000000000003", "badnote"),
        ("A101000000000800+fill:8:AA", "note 01"),
    ];
    check_events(&rt, ROWS)
}

#[test]
fn up_to_sixty_four_bytes_of_data_are_waited_for(rt: HostRuntime) -> Result<(), Fail> {
    const ROWS: &[(&str, &str)] = &[
        ("A101000000003F00+fill:62:AA", ""),
        ("A101000000003F00+fill:63:AA", "note 01"),
        ("A101000000004000+fill:63:AA", ""),
        ("A101000000004000+fill:64:AA", "note 01"),
        ("A101000000004000 fill:32:AA fill:31:AA AA", "note 01"),
        (
            "A101000000004000 fill:64:AA A1200000000002000100",
            "note 01 state 0001",
        ),
        (
            "A101000000004000+fill:65:A1 200000000002000300",
            "note 01 state 0003",
        ),
    ];
    check_events(&rt, ROWS)
}

#[test]
fn a_longer_one_is_bad_and_its_data_are_read_on(rt: HostRuntime) -> Result<(), Fail> {
    const ROWS: &[(&str, &str)] = &[
        ("A101000000004100", "badnote"),
        ("A1200000000041 00", "badnote"),
        ("A120000000004100", "badnote"),
        ("A10100000000FFFF", "badnote"),
        ("0000000000004100", "badnote"),
        ("A101000000004100 A101000000000000", "badnote note 01"),
        ("A101000000000001A1200000000002000300", "badnote state 0003"),
        ("A101000000004100A101000000004100", "badnote badnote"),
        (
            "A101000000004100+fill:65:00",
            "badnote note 00 note 00 note 00 note 00 note 00 note 00 note 00 note 00",
        ),
        (
            "A1200000000002000100A101000000004100A1200000000002000300",
            "state 0001 badnote state 0003",
        ),
    ];
    check_events(&rt, ROWS)
}

#[test]
fn a_notification_may_be_cut_anywhere(rt: HostRuntime) -> Result<(), Fail> {
    const ROWS: &[(&str, &str)] = &[
        ("A1 200000000002000300", "state 0003"),
        ("A120 0000000002000300", "state 0003"),
        ("A12000 00000002000300", "state 0003"),
        ("A1200000 000002000300", "state 0003"),
        ("A120000000 0002000300", "state 0003"),
        ("A12000000000 02000300", "state 0003"),
        ("A1200000000002 000300", "state 0003"),
        ("A120000000000200 0300", "state 0003"),
        ("A12000000000020003 00", "state 0003"),
        ("A1 20 00 00 00 00 02 00 03 00", "state 0003"),
        ("A120000000000200 - 0300", "state 0003"),
        ("- A120 - 00000000 - 0200 - 03 - 00 -", "state 0003"),
        ("A1200000000002", ""),
        ("A120000000000200", ""),
        ("A12000000000020003", ""),
    ];
    check_events(&rt, ROWS)
}

#[test]
fn several_may_come_at_once(rt: HostRuntime) -> Result<(), Fail> {
    const ROWS: &[(&str, &str)] = &[
        (
            "A1200000000002000100A1200000000002000300",
            "state 0001 state 0003",
        ),
        (
            "A100010000000000A101000000000000A1200000000002000300",
            "note 00 note 01 state 0003",
        ),
        (
            "A1200000000002000100A12000 00000002000300",
            "state 0001 state 0003",
        ),
        (
            "A120000000000200 0100A12000000000 02000300",
            "state 0001 state 0003",
        ),
        (
            "A120000000000200 0100A120000000000200 0300A101000000000000",
            "state 0001 state 0003 note 01",
        ),
        (
            "A101000000000000A101000000000000A101000000000000A1",
            "note 01 note 01 note 01",
        ),
    ];
    check_events(&rt, ROWS)
}

#[test]
fn data_are_no_notifications(rt: HostRuntime) -> Result<(), Fail> {
    const ROWS: &[(&str, &str)] = &[
        ("A101000000000800A120000000000200", "note 01"),
        ("A101000000000A00A1200000000002000300", "note 01"),
        (
            "A101000000000A00A1200000000002000300 A1200000000002000100",
            "note 01 state 0001",
        ),
        (
            "A120000000000200A120 A1200000000002000300",
            "state 20A1 state 0003",
        ),
        // What is after the data is the next one, wherever it should have begun.
        (
            "A101000000000800A120000000000200 0300 A1200000000002000300",
            "note 01 note 00",
        ),
        (
            "A1200000000002000100A12000 A1200000000002000300",
            "state 0001 note 20",
        ),
    ];
    check_events(&rt, ROWS)
}

#[test]
fn a_fault_empties_what_is_gathered(rt: HostRuntime) -> Result<(), Fail> {
    const ROWS: &[(&str, &str)] = &[
        ("A120000000000200 note.EPROTO=- 0300", ""),
        ("A120000000000200 note.EPROTO=0300", ""),
        ("note.EPIPE=A1200000000002000300", ""),
        (
            "A120000000000200 note.EPROTO=- A1200000000002000300",
            "state 0003",
        ),
        (
            "A1200000000002000100A12000 note.ENOENT=- A1200000000002000300",
            "state 0001 state 0003",
        ),
        (
            "A120000000000200 note.EOVERFLOW=0300 0300 A1200000000002000300",
            "note 00",
        ),
        (
            "A101000000004000+fill:63:AA note.ECONNRESET=- A101000000000000",
            "note 01",
        ),
        // Faults of other URBs leave it.
        ("A120000000000200 read0.EPROTO=- 0300", "state 0003"),
        (
            "A120000000000200 write.EPIPE=- coding.EPIPE=- 0300",
            "tx 0 -EPIPE state 0003",
        ),
    ];
    check_events(&rt, ROWS)
}
