//! Interfaces that are probed, as the list prints them.
use crate::tests::calling::{KEYBOARD, check_lists};
use std::test::Fail;

const NO_KEYBOARD: &[(&str, &str)] = &[
    (
        "config 09021200010100A032 090400000103010100\n",
        "1209:0001\ninterface 0 hid 03/01/01 none\n",
    ),
    (
        "config 09021900010100A032 090400000103010100 0705810208000A\n",
        "1209:0001\ninterface 0 hid 03/01/01 none\n",
    ),
    (
        "config 09021900010100A032 090400000103010100 0705010308000A\n",
        "1209:0001\ninterface 0 hid 03/01/01 none\n",
    ),
    (
        "config 09021900010100A032 090400000103010100 0705810108000A\n",
        "1209:0001\ninterface 0 hid 03/01/01 none\n",
    ),
    (
        "config 09021900010100A032 090400000103010100 0705810008000A\n",
        "1209:0001\ninterface 0 hid 03/01/01 none\n",
    ),
    (
        "config 09021900010100A032 090400000103010100 0705810300000A\n",
        "1209:0001\ninterface 0 hid 03/01/01 none\n",
    ),
    (
        "config 09021900010100A032 090400000103010100 0705810300080A\n",
        "1209:0001\ninterface 0 hid 03/01/01 none\n",
    ),
    (
        "config 09021900010100A032 090400000103010100 0705000308000A\n",
        "1209:0001\ninterface 0 hid 03/01/01 none\n",
    ),
    (
        "config 09021900010100A032 090400000103010100 0705800308000A\n",
        "1209:0001\ninterface 0 hid 03/01/01 usbkbd\n",
    ),
    (
        "config 09021900010100A032 090400000103010100 0705811308000A\n",
        "1209:0001\ninterface 0 hid 03/01/01 usbkbd\n",
    ),
    (
        "config 09022000010100A032 090400000103010100 0705810300000A 0705820308000A\n",
        "1209:0001\ninterface 0 hid 03/01/01 usbkbd\n",
    ),
    (
        "config 09021900010100A032 090400000103000100 0705810308000A\n",
        "1209:0001\ninterface 0 hid 03/00/01 none\n",
    ),
    (
        "config 09021900010100A032 090400000103010200 0705810308000A\n",
        "1209:0001\ninterface 0 hid 03/01/02 none\n",
    ),
    (
        "config 09021900010100A032 090400000103010000 0705810308000A\n",
        "1209:0001\ninterface 0 hid 03/01/00 none\n",
    ),
    (
        "config 09021900010100A032 090400010103010100 0705810308000A\n",
        "1209:0001\n",
    ),
    (
        "config 09022200010100A032 0904000000FF000000 090400000103010100 0705810308000A\n",
        "1209:0001\ninterface 0 vendor FF/00/00 none\n",
    ),
    (
        "config 09022200010100A032 090400010103010100 0705810308000A 090407000008065000\n",
        "1209:0001\ninterface 7 storage 08/06/50 none\n",
    ),
    (
        "desc 12010002FF00004009120100000100000001\nconfig 09021900010100A032 090400000103010100 0705810308000A\n",
        "1209:0001\ninterface 0 hid 03/01/01 none\n",
    ),
    (
        "config 09021B00010100A032 09040000000E010000 090401000009000000\n",
        "1209:0001\ninterface 0 - 0E/01/00 none\ninterface 1 hub 09/00/00 none\n",
    ),
];

#[test]
fn interfaces_that_no_keyboard_driver_takes(rt: HostRuntime) -> Result<(), Fail> {
    check_lists(&rt, KEYBOARD, "device k ", NO_KEYBOARD)
}

const PROBES: &[(&str, &str)] = &[
    (
        "config 09021900010100A032 090400000103010100 0705810308000A\nanswer 00 error\n",
        "1209:0001\ninterface 0 hid 03/01/01 fail\n",
    ),
    (
        "config 09021900010100A032 090400000103010100 0705810308000A\nanswer 00 nak\n",
        "1209:0001\ninterface 0 hid 03/01/01 fail\n",
    ),
    (
        "config 09021900010100A032 090400000103010100 0705810308000A\nanswer 00 ack error\n",
        "1209:0001\ninterface 0 hid 03/01/01 fail\n",
    ),
    (
        "config 09021900010100A032 090400000103010100 0705810308000A\nanswer 00 stall nak\n",
        "1209:0001\ninterface 0 hid 03/01/01 fail\n",
    ),
    (
        "config 09021900010100A032 090400000103010100 0705810308000A\nanswer 00 stall\n",
        "1209:0001\ninterface 0 hid 03/01/01 usbkbd\n",
    ),
    (
        "config 09021900010100A032 090400000103010100 0705810308000A\nanswer 00 2*stall error\n",
        "1209:0001\ninterface 0 hid 03/01/01 usbkbd\n",
    ),
    (
        "config 09021900010100A032 090400000103010100 0705810308000A\nanswer 00 2*ack error\n",
        "1209:0001\ninterface 0 hid 03/01/01 usbkbd\n",
    ),
    (
        "config 09022900010100A032 090400000103010100 0705810308000A 090401000103010100 0705820308000A\nanswer 00 error\n",
        "1209:0001\ninterface 0 hid 03/01/01 fail\ninterface 1 hid 03/01/01 usbkbd\n",
    ),
    (
        "config 09022900010100A032 090400000103010100 0705810308000A 090401000103010100 0705820308000A\nanswer 00 2*ack nak\n",
        "1209:0001\ninterface 0 hid 03/01/01 usbkbd\ninterface 1 hid 03/01/01 fail\n",
    ),
    (
        "config 09022900010100A032 090400000103010100 0705810308000A 090401000103010100 0705820308000A\nanswer 00 ack error 2*ack error\n",
        "1209:0001\ninterface 0 hid 03/01/01 fail\ninterface 1 hid 03/01/01 usbkbd\n",
    ),
];

#[test]
fn probes_whose_requests_are_answered_by_items(rt: HostRuntime) -> Result<(), Fail> {
    check_lists(&rt, KEYBOARD, "device k ", PROBES)
}

const PRINTERS: &[(&str, &str)] = &[
    (
        "config 09021900010100A032 090400000207010200 07050102400000\n",
        "1209:0001\ninterface 0 printer 07/01/02 usblp\n",
    ),
    (
        "config 09021900010100A032 090400000207010200 07058102400000\n",
        "1209:0001\ninterface 0 printer 07/01/02 none\n",
    ),
    (
        "config 09021900010100A032 090400000207010200 07050103400000\n",
        "1209:0001\ninterface 0 printer 07/01/02 none\n",
    ),
    (
        "config 09021900010100A032 090400000207010200 07050102000000\n",
        "1209:0001\ninterface 0 printer 07/01/02 none\n",
    ),
    (
        "config 09021900010100A032 090400000207010200 07050002400000\n",
        "1209:0001\ninterface 0 printer 07/01/02 none\n",
    ),
    (
        "config 09021900010100A032 090400000107010100 07050102400000\n",
        "1209:0001\ninterface 0 printer 07/01/01 usblp\n",
    ),
    (
        "config 09021900010100A032 090400000107010300 07050102400000\n",
        "1209:0001\ninterface 0 printer 07/01/03 none\n",
    ),
    (
        "config 09021900010100A032 090400000207010200 07050102400000\nanswer 00 error\n",
        "1209:0001\ninterface 0 printer 07/01/02 fail\n",
    ),
    (
        "config 09021900010100A032 090400000207010200 07050102400000\nanswer 00 stall\n",
        "1209:0001\ninterface 0 printer 07/01/02 usblp\n",
    ),
    (
        "config 09021900010100A032 090400000207010200 07050102400000\nanswer 00 ack error\n",
        "1209:0001\ninterface 0 printer 07/01/02 usblp\n",
    ),
];

#[test]
fn interfaces_of_printers(rt: HostRuntime) -> Result<(), Fail> {
    check_lists(&rt, KEYBOARD, "device k ", PRINTERS)
}

const SERIAL_PORTS: &[(&str, &str)] = &[
    (
        "config 09023500010100A032 090400000102020100 0524060001 07058203080010 09040100020A000000 07050102400000 07058102400000\n",
        "1209:0001\ninterface 0 comm 02/02/01 cdc_acm\ninterface 1 cdcdata 0A/00/00 cdc_acm\n",
    ),
    (
        "config 09023000010100A032 090400000102020100 07058203080010 09040100020A000000 07050102400000 07058102400000\n",
        "1209:0001\ninterface 0 comm 02/02/01 cdc_acm\ninterface 1 cdcdata 0A/00/00 cdc_acm\n",
    ),
    (
        "config 09023400010100A032 090400000102020100 04240600 07058203080010 09040100020A000000 07050102400000 07058102400000\n",
        "1209:0001\ninterface 0 comm 02/02/01 cdc_acm\ninterface 1 cdcdata 0A/00/00 cdc_acm\n",
    ),
    (
        "config 09021E00010100A032 090400000102020100 0524060001 07058203080010\n",
        "1209:0001\ninterface 0 comm 02/02/01 none\n",
    ),
    (
        "config 09023500010100A032 090400000102020100 0524060000 07058203080010 09040100020A000000 07050102400000 07058102400000\n",
        "1209:0001\ninterface 0 comm 02/02/01 none\ninterface 1 cdcdata 0A/00/00 none\n",
    ),
    (
        "config 09023500010100A032 090400000102020100 0524060007 07058203080010 09040100020A000000 07050102400000 07058102400000\n",
        "1209:0001\ninterface 0 comm 02/02/01 none\ninterface 1 cdcdata 0A/00/00 none\n",
    ),
    (
        "config 09022E00010100A032 090400000102020100 0524060001 09040100020A000000 07050102400000 07058102400000\n",
        "1209:0001\ninterface 0 comm 02/02/01 none\ninterface 1 cdcdata 0A/00/00 none\n",
    ),
    (
        "config 09022E00010100A032 090400000102020100 0524060001 07058203080010 09040100020A000000 07050102400000\n",
        "1209:0001\ninterface 0 comm 02/02/01 none\ninterface 1 cdcdata 0A/00/00 none\n",
    ),
    (
        "config 09022E00010100A032 090400000102020100 0524060001 07058203080010 09040100020A000000 07058102400000\n",
        "1209:0001\ninterface 0 comm 02/02/01 none\ninterface 1 cdcdata 0A/00/00 none\n",
    ),
    (
        "config 09023500010100A032 090400000102020100 0524060001 07058203080010 09040100020A000000 07050103400000 07058102400000\n",
        "1209:0001\ninterface 0 comm 02/02/01 none\ninterface 1 cdcdata 0A/00/00 none\n",
    ),
    (
        "config 09023500010100A032 090400000102020100 0524060001 07058203080010 09040100020A000000 07050102400000 07058102000000\n",
        "1209:0001\ninterface 0 comm 02/02/01 none\ninterface 1 cdcdata 0A/00/00 none\n",
    ),
    (
        "config 09024C00010100A032 090400000102020100 07058203080010 0524060002 09040100020A000000 07050102400000 07058102400000 09040200020A000000 07050302400000 07058302400000\n",
        "1209:0001\ninterface 0 comm 02/02/01 cdc_acm\ninterface 1 cdcdata 0A/00/00 none\ninterface 2 cdcdata 0A/00/00 cdc_acm\n",
    ),
    (
        "config 09023A00010100A032 090400000102020100 0524060002 0524060001 07058203080010 09040100020A000000 07050102400000 07058102400000\n",
        "1209:0001\ninterface 0 comm 02/02/01 none\ninterface 1 cdcdata 0A/00/00 none\n",
    ),
    (
        "config 09023500010100A032 09040000010202FF00 0524060001 07058203080010 09040100020A000000 07050102400000 07058102400000\n",
        "1209:0001\ninterface 0 comm 02/02/FF cdc_acm\ninterface 1 cdcdata 0A/00/00 cdc_acm\n",
    ),
    (
        "config 09023500010100A032 090400000102030100 0524060001 07058203080010 09040100020A000000 07050102400000 07058102400000\n",
        "1209:0001\ninterface 0 comm 02/03/01 none\ninterface 1 cdcdata 0A/00/00 none\n",
    ),
    (
        "config 09023500010100A032 09040000020A000000 07050102400000 07058102400000 090401000102020100 0524060100 07058203080010\n",
        "1209:0001\ninterface 0 cdcdata 0A/00/00 cdc_acm\ninterface 1 comm 02/02/01 cdc_acm\n",
    ),
    (
        "config 09024A00010100A032 090400000102020100 0524060001 07058203080010 09040100020A000000 07050102400000 07058102400000 090402000102020100 0524060001 07058303080010\n",
        "1209:0001\ninterface 0 comm 02/02/01 cdc_acm\ninterface 1 cdcdata 0A/00/00 cdc_acm\ninterface 2 comm 02/02/01 busy\n",
    ),
    (
        "config 09023C00010100A032 090400000303010100 07058403080000 07050102400000 07058102400000 090401000102020100 0524060100 07058203080010\n",
        "1209:0001\ninterface 0 hid 03/01/01 usbkbd\ninterface 1 comm 02/02/01 busy\n",
    ),
    (
        "config 09022E00010100A032 090400000103010100 07058403080000 090401000102020100 0524060100 07058203080010\n",
        "1209:0001\ninterface 0 hid 03/01/01 usbkbd\ninterface 1 comm 02/02/01 none\n",
    ),
    (
        "config 09021900010100A032 0904FF000102020100 07058203080010\n",
        "1209:0001\ninterface 255 comm 02/02/01 none\n",
    ),
];

#[test]
fn interfaces_of_serial_ports(rt: HostRuntime) -> Result<(), Fail> {
    check_lists(&rt, KEYBOARD, "device k ", SERIAL_PORTS)
}
