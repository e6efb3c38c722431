//! Worked scenes with their reports.
use crate::tests::calling::{check_lists, check_reports};
use std::test::Fail;
use usb_run::Status;

#[test]
fn an_urb_is_unlinked_killed_and_poisoned(rt: HostRuntime) -> Result<(), Fail> {
    const ROWS: &[(&str, &str)] = &[
        (
            "scene 1\ndevice d raw\nep 81 bulk 64 0\nanswer 81 p:0102030405060708\nurb a d 81 len 8\nthread t\nsubmit a\nunlink a\nunlink a\nserve\nunlink a\n",
            "thread t\n7 submit a 0\n8 unlink a -EINPROGRESS\n9 unlink a -EBUSY\n11 unlink a -EIDRM\ngiven\na -ECONNRESET 0 rest -\n",
        ),
        (
            "scene 1\ndevice d raw\nep 81 bulk 64 0\nanswer 81 p:0102030405060708\nurb a d 81 len 8\nthread t\nsubmit a\nunlink a\nkill a\n",
            "thread t\n7 submit a 0\n8 unlink a -EINPROGRESS\n9 kill a buffer 7\ngiven\na -ECONNRESET 0 rest -\n",
        ),
        (
            "scene 1\ndevice d raw\nep 81 bulk 64 0\nanswer 81 p:0102030405060708\nurb a d 81 len 8\nthread t\npoison a\nsubmit a\nunpoison a\nsubmit a\n",
            "thread t\n7 poison a none\n8 submit a -EPERM\n9 unpoison a ok\n10 submit a 0\ngiven\na -ENOENT 0 rest -\n",
        ),
        (
            "scene 1\ndevice d raw\nep 81 bulk 64 0\nanswer 81 p:0102030405060708\nurb a d 81 len 8\nthread t\nblock a\nblock a\nunblock a\nsubmit a\nunblock a\nsubmit a\nserve\n",
            "thread t\n7 block a ok\n8 block a ok\n9 unblock a ok\n10 submit a -EPERM\n11 unblock a ok\n12 submit a 0\ngiven\na 0 8 rest 0102030405060708\n",
        ),
        (
            "scene 1\ndevice d raw\nep 81 bulk 64 0\nanswer 81 p:0102030405060708\nurb a d 81 len 8\nthread hub\ndown\nsubmit a\nup\nsubmit a\nserve\n",
            "thread hub\n7 down ok\n8 submit a -ESHUTDOWN\n9 up ok\n10 submit a 0\ngiven\na 0 8 rest 0102030405060708\n",
        ),
    ];
    check_reports(&rt, "", "", Status::Done, "", ROWS)
}

#[test]
fn packets_move_transfers_of_both_directions(rt: HostRuntime) -> Result<(), Fail> {
    const ROWS: &[(&str, &str)] = &[
        (
            "scene 1\ndevice d raw\nep 81 bulk 64 0\nanswer 81 p:fill:64:11 p:fill:64:22 p:\nurb a d 81 len 128\nurb b d 81 len 64\nthread t\nsubmit a\nsubmit b\nserve\n",
            "thread t\n8 submit a 0\n9 submit b 0\ngiven\na 0 128 rest 1111111111111111111111111111111111111111111111111111111111111111111111111111111111111111111111111111111111111111111111111111111122222222222222222222222222222222222222222222222222222222222222222222222222222222222222222222222222222222222222222222222222222222\nb 0 0 rest -\n",
        ),
        (
            "scene 1\ndevice d raw\nep 81 bulk 64 0\nanswer 81 p:fill:64:33 p:fill:60:44\nurb a d 81 len 60\nurb b d 81 len 64 short\nthread t\nsubmit a\nsubmit b\nserve\n",
            "thread t\n8 submit a 0\n9 submit b 0\ngiven\na -EOVERFLOW 0 rest -\nb -EREMOTEIO 60 rest 444444444444444444444444444444444444444444444444444444444444444444444444444444444444444444444444444444444444444444444444\n",
        ),
        (
            "scene 1\ndevice d raw\nep 02 bulk 64 0\nurb o d 02\nthread t\nsubmit o 0A0B\nserve\n",
            "thread t\n6 submit o 0\ngiven\no 0 2 rest -\nreceived\nd 02 2 0A0B\n",
        ),
    ];
    check_reports(&rt, "", "", Status::Done, "", ROWS)
}

#[test]
fn a_reply_in_the_middle_ends_or_delays_a_transfer(rt: HostRuntime) -> Result<(), Fail> {
    const ROWS: &[(&str, &str)] = &[
        (
            "scene 1\ndevice d raw\nep 81 bulk 64 0\nanswer 81 p:fill:64:11 stall p:fill:64:22\nurb a d 81 len 128\nthread t\nsubmit a\nserve\nserve\n",
            "thread t\n7 submit a 0\ngiven\na -EPIPE 64 rest 11111111111111111111111111111111111111111111111111111111111111111111111111111111111111111111111111111111111111111111111111111111\n",
        ),
        (
            "scene 1\ndevice d raw\nep 81 bulk 64 0\nanswer 81 p:fill:64:11 error p:fill:64:22\nurb a d 81 len 128\nthread t\nsubmit a\nserve\nserve\n",
            "thread t\n7 submit a 0\ngiven\na -EPROTO 64 rest 11111111111111111111111111111111111111111111111111111111111111111111111111111111111111111111111111111111111111111111111111111111\n",
        ),
        (
            "scene 1\ndevice d raw\nep 81 bulk 64 0\nanswer 81 p:fill:64:11 p:fill:65:33 p:fill:64:22\nurb a d 81 len 128\nthread t\nsubmit a\nserve\nserve\n",
            "thread t\n7 submit a 0\ngiven\na -EOVERFLOW 64 rest 11111111111111111111111111111111111111111111111111111111111111111111111111111111111111111111111111111111111111111111111111111111\n",
        ),
        (
            "scene 1\ndevice d raw\nep 81 bulk 64 0\nanswer 81 p:fill:64:11 nak p:fill:64:22\nurb a d 81 len 128\nthread t\nsubmit a\nserve\nserve\n",
            "thread t\n7 submit a 0\ngiven\na 0 128 rest 1111111111111111111111111111111111111111111111111111111111111111111111111111111111111111111111111111111111111111111111111111111122222222222222222222222222222222222222222222222222222222222222222222222222222222222222222222222222222222222222222222222222222222\n",
        ),
    ];
    check_reports(&rt, "", "", Status::Done, "", ROWS)
}

#[test]
fn control_transfers_need_a_setup_packet_that_fits(rt: HostRuntime) -> Result<(), Fail> {
    const ROWS: &[(&str, &str)] = &[
        (
            "scene 1\ndevice d raw\nep 82 int 8 0\nep 83 bulk 0 0\nurb c d 00 len 17\nurb i d 82 len 8\nurb z d 83 len 8\nthread t\nsubmit c setup:8006000100001200\nsubmit c\nsubmit i\nsubmit z\n",
            "thread t\n9 submit c -EBADR\n10 submit c -ENOEXEC\n11 submit i -EINVAL\n12 submit z -EMSGSIZE\n",
        ),
        (
            "scene 1\ndevice d raw\nanswer 00 p:AABB ack\nurb c d 00 len 4\nthread t\nsubmit c setup:8006000100000400\nserve\nsubmit c setup:0009010000000000\n",
            "thread t\n6 submit c 0\n8 submit c -EBADR\ngiven\nc 0 2 rest AABB\n",
        ),
        (
            "# Control transfers of endpoint 00: a setup packet says which way the data go, and how many bytes.\nscene 1\ndevice d raw\nanswer 00 p:1201000200000040 ack stall\nurb c d 00 len 8\nthread t\nsubmit c\nsubmit c setup:8006000100000400\nsubmit c setup:8006000100000800\nserve\nsubmit c setup:0009010000000000 -\nserve\nsubmit c setup:8006000300000800\nserve\nsubmit c setup:8006000300000800\nserve\n",
            "thread t\n7 submit c -ENOEXEC\n8 submit c -EBADR\n9 submit c 0\n11 submit c 0\n13 submit c 0\n15 submit c 0\ngiven\nc 0 8 rest 1201000200000040\nc 0 0 rest -\nc -EPIPE 0 rest -\nc -EPIPE 0 rest -\n",
        ),
    ];
    check_reports(&rt, "", "", Status::Done, "", ROWS)
}

#[test]
fn the_gallery_of_one_submit(rt: HostRuntime) -> Result<(), Fail> {
    const ROWS: &[(&str, &str)] = &[
        (
            "scene 1\ndevice d raw\nep 81 bulk 64 0\nanswer 81 p:0102030405060708\nurb a d 81 len 8\nthread t\nsubmit a\nserve\n",
            "thread t\n7 submit a 0\ngiven\na 0 8 rest 0102030405060708\n",
        ),
        (
            "# A second submit finds the URB queued.\nscene 1\ndevice d raw\nep 81 bulk 64 0\nanswer 81 p:0102030405060708\nurb a d 81 len 8\nthread t\nsubmit a\nsubmit a\nserve\n",
            "thread t\n8 submit a 0\n9 submit a -EBUSY\ngiven\na 0 8 rest 0102030405060708\n",
        ),
        (
            "# The device has nothing to send at first: the first serve ends with the URB still queued.\nscene 1\ndevice d raw\nep 82 bulk 4 0\nanswer 82 p:01020304 nak p:0506\nurb a d 82 len 16\nthread t\nsubmit a\nserve\nsubmit a\nserve\n",
            "thread t\n8 submit a 0\n10 submit a -EBUSY\ngiven\na 0 6 rest 010203040506\n",
        ),
        (
            "# A stall in the middle of a transfer, no answer, and a packet that is too long.\nscene 1\ndevice d raw\nep 83 bulk 4 0\nanswer 83 p:01020304 stall error p:0102030405\nurb a d 83 len 8\nthread t\nsubmit a\nserve\nsubmit a\nserve\nsubmit a\nserve\n",
            "thread t\n8 submit a 0\n10 submit a 0\n12 submit a 0\ngiven\na -EPIPE 4 rest 01020304\na -EPROTO 0 rest -\na -EOVERFLOW 0 rest -\n",
        ),
    ];
    check_reports(&rt, "", "", Status::Done, "", ROWS)
}

#[test]
fn the_gallery_of_calls(rt: HostRuntime) -> Result<(), Fail> {
    const ROWS: &[(&str, &str)] = &[
        (
            "# An unlinked URB comes back first; a second unlink finds the mark, and one behind the giveback finds nothing.\nscene 1\ndevice d raw\nep 81 bulk 64 0\nanswer 81 p:01 p:02\nurb a d 81 len 8\nurb b d 81 len 8\nthread t\nsubmit a\nsubmit b\nunlink b\nunlink b\nserve\nunlink b\n",
            "thread t\n9 submit a 0\n10 submit b 0\n11 unlink b -EINPROGRESS\n12 unlink b -EBUSY\n14 unlink b -EIDRM\ngiven\nb -ECONNRESET 0 rest -\na 0 1 rest 01\n",
        ),
        (
            "# A kill waits until the URB is quiet, and answers the buffer that rests with it, once.\nscene 1\ndevice d raw\nep 81 bulk 64 0\nurb a d 81 len 8\nthread t\nkill a\nsubmit a\nkill a\nkill a\n",
            "thread t\n7 kill a none\n8 submit a 0\n9 kill a buffer 8\n10 kill a none\ngiven\na -ENOENT 0 rest -\n",
        ),
        (
            "# Poison and block each raise a reject; the URB is open when all of them are withdrawn.\nscene 1\ndevice d raw\nep 81 bulk 64 0\nurb a d 81 len 8\nthread t\npoison a\nsubmit a\nblock a\nunpoison a\nsubmit a\nunblock a\nsubmit a\npoison a\n",
            "thread t\n7 poison a none\n8 submit a -EPERM\n9 block a ok\n10 unpoison a ok\n11 submit a -EPERM\n12 unblock a ok\n13 submit a 0\n14 poison a buffer 13\ngiven\na -ENOENT 0 rest -\n",
        ),
        (
            "# The hub's thread takes the host down, and brings it up again; scripts are run in line order.\nscene 1\ndevice d raw\nep 81 bulk 64 0\nanswer 81 p:0102\nurb a d 81 len 8\nthread hub\nsubmit a\ndown\nsubmit a\ndown\nup\nup\nthread t\nsubmit a\nserve\n",
            "thread hub\n8 submit a 0\n9 down ok\n10 submit a -ESHUTDOWN\n11 down -ESHUTDOWN\n12 up ok\n13 up ok\nthread t\n15 submit a 0\ngiven\na -ESHUTDOWN 0 rest -\na 0 2 rest 0102\n",
        ),
        (
            "# A handler submits again as often as the scene says. A kill raises its reject first, so the handler is refused.\nscene 1\ndevice d raw\nep 81 bulk 64 0\nanswer 81 p:01 p:02 p:03\nurb a d 81 len 4 again 2\nurb b d 81 len 4 again 1\nthread t\nsubmit a\nserve\nsubmit b\nkill b\n",
            "thread t\n9 submit a 0\n11 submit b 0\n12 kill b buffer 11\ngiven\na 0 1 again 0 01\na 0 1 again 0 02\na 0 1 rest 03\nb -ENOENT 0 again -EPERM -\n",
        ),
    ];
    check_reports(&rt, "", "", Status::Done, "", ROWS)
}

#[test]
fn the_gallery_of_transfers(rt: HostRuntime) -> Result<(), Fail> {
    const ROWS: &[(&str, &str)] = &[
        (
            "# Counted items, and the three spellings of bytes.\nscene 1\ndevice d raw\nep 8a int 4 1\nep 0b bulk 4 0\nanswer 8A 2*p:fill:4:0a p: 2*nak\nanswer 8A p:C0ffee\nanswer 0b 3*nak ack\nurb a d 8a len 12\nurb b d 0B\nthread t\nsubmit a\nsubmit b fill:2:5a - 01\nserve\nsubmit a 000000\nserve\nserve\nserve\n",
            "thread t\n12 submit a 0\n13 submit b 0\n15 submit a 0\ngiven\na 0 8 rest 0A0A0A0A0A0A0A0A\na 0 3 rest C0FFEE\nb 0 3 rest -\nreceived\nd 0B 3 5A5A01\n",
        ),
        (
            "# Fewer bytes than asked are a fault where the URB says `short`; endpoints that no submit can use answer why.\nscene 1\ndevice d raw\nep 81 bulk 64 0\nep 82 int 8 0\nep 83 iso 8 1\nep 84 bulk 0 0\nanswer 81 p:0102\nurb a d 81 len 8 short\nurb b d 82 len 8\nurb c d 83 len 8\nurb e d 84 len 8\nthread t\nsubmit a\nsubmit b\nsubmit c\nsubmit e\nserve\n",
            "thread t\n14 submit a 0\n15 submit b -EINVAL\n16 submit c -EINVAL\n17 submit e -EMSGSIZE\ngiven\na -EREMOTEIO 2 rest 0102\n",
        ),
        (
            "# Two OUT endpoints: one with a script, and one that takes what comes.\nscene 1\ndevice d raw\nep 02 bulk 4 0\nep 03 bulk 64 0\nanswer 02 ack nak 2*ack stall\nurb o d 02\nurb q d 03 len 3\nthread t\nsubmit o 010203040506\nserve\nserve\nsubmit o 0A0B0C 0D0E\nsubmit q\nserve\n",
            "thread t\n10 submit o 0\n13 submit o 0\n14 submit q 0\ngiven\no 0 6 rest -\no -EPIPE 4 rest -\nq 0 3 rest -\nreceived\nd 02 10 0102030405060A0B0C0D\nd 03 3 000000\n",
        ),
        (
            "# What waits at the end is killed, in the order of the urb lines, with what it has moved.\nscene 1\ndevice d raw\nep 81 bulk 4 0\nanswer 81 p:fill:4:11 nak\nurb a d 81 len 16\nurb b d 81 len 8\nthread t\nsubmit b\nsubmit a\nserve\n",
            "thread t\n9 submit b 0\n10 submit a 0\ngiven\na -ENOENT 0 rest -\nb -ENOENT 4 rest 11111111\n",
        ),
    ];
    check_reports(&rt, "", "", Status::Done, "", ROWS)
}

#[test]
fn the_gallery_of_devices_of_a_class(rt: HostRuntime) -> Result<(), Fail> {
    const ROWS: &[(&str, &str)] = &[
        (
            "# A boot keyboard, as a host finds it: its configuration (34 bytes in all), interface 0 of class 03, subclass 01 and\n# protocol 01, the HID descriptor, and the interrupt IN endpoint 81 with packets of 8 bytes.\nscene 1\ndevice kbd keyboard\nconfig 09022200010100A032 090400000103010100 092111010001223F00 0705810308000A\nthread t\nblock kbd.0.in\nunblock kbd.0.in\nkill kbd.0.ctl\nunlink kbd.0.in\nunlink kbd.0.read0\nunlink kbd.1.in\n",
            "device kbd 1209:0001\ninterface 0 hid 03/01/01 usbkbd\nthread t\n7 block kbd.0.in ok\n8 unblock kbd.0.in ok\n9 kill kbd.0.ctl none\n10 unlink kbd.0.in -EINPROGRESS\n11 unlink kbd.0.read0 -ENODEV\n12 unlink kbd.1.in -ENODEV\ngiven\nkbd.0.in -ECONNRESET 0 rest -\ndriver kbd 0 usbkbd\n",
        ),
        (
            "# A serial port of the CDC ACM class. The union descriptor (24, 06) of interface 0 names interface 1 as its data\n# interface; the driver takes both, and has its URBs by the first.\nscene 1\ndevice m acm\nconfig 090243000201008032 090400000102020100 0524001001 0524010001 04240202 0524060001 07058203080010 09040100020A000000 07050102400000 07058102400000\nthread t\nkill m.0.note\nkill m.0.read1\nkill m.1.read1\n",
            "device m 1209:0001\ninterface 0 comm 02/02/01 cdc_acm\ninterface 1 cdcdata 0A/00/00 cdc_acm\nthread t\n7 kill m.0.note buffer 2000000\n8 kill m.0.read1 buffer 2000002\n9 kill m.1.read1 -ENODEV\ngiven\nm.0.note -ENOENT 0 rest -\nm.0.read1 -ENOENT 0 rest -\nm.0.read0 -ENOENT 0 rest -\ndriver m 0 cdc_acm\n",
        ),
        (
            "# A printer, whose driver asks for its id when it probes. The id begins with its own length, high byte first.\nscene 1\ndevice prn printer\nconfig 09022000010100C000 090400000207010200 07050102400000 07058202400000\nid 00084D46473A413B\nport 18\nthread t\nkill prn.0.write\n",
            "device prn 1209:0001\ninterface 0 printer 07/01/02 usblp\nthread t\n8 kill prn.0.write none\ndriver prn 0 usblp\nid MFG:A;\n",
        ),
        (
            "# One device with four interfaces: a keyboard, a mouse, which no driver takes, storage, and a printer. Its descriptor gives\n# the vendor 046D and the product C52B. A raw device beside it is not listed.\nscene 1\ndevice box keyboard\ndesc 12010002 00000040 6D042BC5 11120102 0001\nconfig 09025000040100A032 090400000103010100 0705810308000A 090401000103010200 0705820308000A 090402000208065000 07058302400000 07050302400000 090403000107010100 07050402400000\ndevice d raw\nep 81 bulk 64 0\nanswer 81 p:0102\nurb a d 81 len 8\nthread t\nsubmit a\nserve\nkill box.3.write\n",
            "device box 046D:C52B\ninterface 0 hid 03/01/01 usbkbd\ninterface 1 hid 03/01/02 none\ninterface 2 storage 08/06/50 none\ninterface 3 printer 07/01/01 usblp\nthread t\n12 submit a 0\n14 kill box.3.write none\ngiven\na 0 2 rest 0102\nbox.0.in -ENOENT 0 rest -\ndriver box 0 usbkbd\ndriver box 3 usblp\n",
        ),
        (
            "# Devices that cannot be enumerated, each with the fault that the host finds first.\nscene 1\ndevice none keyboard          # no configuration: the device stalls\ndevice brief keyboard\ndesc 12010002000000           # seven bytes, of which eight are asked for\ndevice long acm               # its length says 19, and 18 bytes are read\ndesc 130100020000004009120100000100000001\ndevice cut keyboard           # 34 bytes are promised, and 33 come\nconfig 09022200010100A032 090400000103010100 092111010001223F00 070581030800\ndevice stray printer          # an endpoint in front of every interface\nconfig 09021000010100C000 07050102400000\ndevice twice printer          # the same endpoint twice\nconfig 09022000010100C000 090400000207010200 07050102400000 07050102400000\n",
            "device none fault Status GET_DESCRIPTOR -EPIPE\ndevice brief fault Short 7\ndevice long fault Short 18\ndevice cut fault TotalLength 34 33\ndevice stray fault EndpointWithoutInterface 9\ndevice twice fault TwiceEndpoint 25\n",
        ),
        (
            "# Interfaces that no driver gets: what it needs is missing, its other interface is taken, or the device does not answer\n# the driver's requests.\nscene 1\ndevice a keyboard             # the endpoint is not an interrupt endpoint\nconfig 09021900010100A032 090400000103010100 0705810208000A\ndevice b keyboard             # the first request of the driver is not answered; a stall would be passed over\nconfig 09021900010100A032 090400000103010100 0705810308000A\nanswer 00 error\ndevice c acm                  # two ports with one data interface\nconfig 09024A00030100A032 090400000102020100 0524060001 07058203080010 09040100020A000000 07050102400000 07058102400000 090402000102020100 0524060001 07058303080010\n",
            "device a 1209:0001\ninterface 0 hid 03/01/01 none\ndevice b 1209:0001\ninterface 0 hid 03/01/01 fail\ndevice c 1209:0001\ninterface 0 comm 02/02/01 cdc_acm\ninterface 1 cdcdata 0A/00/00 cdc_acm\ninterface 2 comm 02/02/01 busy\ngiven\nc.0.note -ENOENT 0 rest -\nc.0.read0 -ENOENT 0 rest -\nc.0.read1 -ENOENT 0 rest -\ndriver c 0 cdc_acm\n",
        ),
    ];
    check_reports(&rt, "", "", Status::Done, "", ROWS)
}

#[test]
fn the_gallery_of_keyboards(rt: HostRuntime) -> Result<(), Fail> {
    const ROWS: &[(&str, &str)] = &[
        (
            "# Somebody types \"Hi\" on a boot keyboard and sets caps lock. Its configuration (34 bytes in all) has interface 0 of class\n# 03, subclass 01 and protocol 01, the HID descriptor, and the interrupt IN endpoint 81 with packets of 8 bytes. Each\n# packet is a report: modifiers, a reserved byte, six codes. At the nak it has nothing to say, until the next serve.\nscene 1\ndevice kbd keyboard\nconfig 09022200010100A032 090400000103010100 092111010001223F00 0705810308000A\nanswer 81 p:0200000000000000 p:02000B0000000000 p:0200000000000000 p:0000000000000000 nak\nanswer 81 p:00000C0000000000 p:0000000000000000\nthread t\nserve\nled kbd 0 02\nserve\n",
            "device kbd 1209:0001\ninterface 0 hid 03/01/01 usbkbd\nthread t\n11 led kbd 0 0\ngiven\nkbd.0.in 0 8 again 0 0200000000000000\nkbd.0.in 0 8 again 0 02000B0000000000\nkbd.0.in 0 8 again 0 0200000000000000\nkbd.0.in 0 8 again 0 0000000000000000\nkbd.0.ctl 0 1 rest -\nkbd.0.in 0 8 again 0 00000C0000000000\nkbd.0.in 0 8 again 0 0000000000000000\nkbd.0.in -ENOENT 0 rest -\ndriver kbd 0 usbkbd\ndown E1 leftshift\ndown 0B h\nup 0B h\nup E1 leftshift\nled 02\ndown 0C i\nup 0C i\n",
        ),
        (
            "# Six keys are down, then more than a report can tell: each code is 01, and the codes before stay. Two of them go up with\n# the next report, and the others with the last.\nscene 1\ndevice kbd keyboard\nconfig 09022200010100A032 090400000103010100 092111010001223F00 0705810308000A\nanswer 81 p:0000040506070809 p:0200010101010101 p:0000040506070000 p:0000000000000000\nthread t\nserve\n",
            "device kbd 1209:0001\ninterface 0 hid 03/01/01 usbkbd\nthread t\ngiven\nkbd.0.in 0 8 again 0 0000040506070809\nkbd.0.in 0 8 again 0 0200010101010101\nkbd.0.in 0 8 again 0 0000040506070000\nkbd.0.in 0 8 again 0 0000000000000000\nkbd.0.in -ENOENT 0 rest -\ndriver kbd 0 usbkbd\ndown 04 a\ndown 05 b\ndown 06 c\ndown 07 d\ndown 08 e\ndown 09 f\ndown E1 leftshift\nup E1 leftshift\nup 08 e\nup 09 f\nup 04 a\nup 05 b\nup 06 c\nup 07 d\n",
        ),
        (
            "# An endpoint with packets of four bytes: a report comes in two. A short packet ends the read with what came, which is no\n# report; one of five bytes is more than the endpoint may send. The driver reads on after both.\nscene 1\ndevice kbd keyboard\nconfig 09022200010100A032 090400000103010100 092111010001223F00 0705810304000A\nanswer 81 p:00000400 p:00000000 p:0000 p:0000000000 p:00000000 p:0000 p:00000000 p:00000000\nthread t\nserve\n",
            "device kbd 1209:0001\ninterface 0 hid 03/01/01 usbkbd\nthread t\ngiven\nkbd.0.in 0 8 again 0 0000040000000000\nkbd.0.in 0 2 again 0 0000\nkbd.0.in -EOVERFLOW 0 again 0 -\nkbd.0.in 0 6 again 0 000000000000\nkbd.0.in 0 8 again 0 0000000000000000\nkbd.0.in -ENOENT 0 rest -\ndriver kbd 0 usbkbd\ndown 04 a\nup 04 a\n",
        ),
        (
            "# The driver reads on after an error on the bus, and rests after a stall: what the keyboard says then is not read. The\n# kill gets the buffer that rests, whose number is the first of the drivers' own.\nscene 1\ndevice kbd keyboard\nconfig 09022200010100A032 090400000103010100 092111010001223F00 0705810308000A\nanswer 81 p:0000040000000000 error p:0000040500000000 stall p:0000000000000000\nthread t\nserve\nkill kbd.0.in\nserve\n",
            "device kbd 1209:0001\ninterface 0 hid 03/01/01 usbkbd\nthread t\n9 kill kbd.0.in buffer 2000000\ngiven\nkbd.0.in 0 8 again 0 0000040000000000\nkbd.0.in -EPROTO 0 again 0 -\nkbd.0.in 0 8 again 0 0000040500000000\nkbd.0.in -EPIPE 0 rest -\ndriver kbd 0 usbkbd\ndown 04 a\ndown 05 b\n",
        ),
        (
            "# What changed from one report to the next: first modifiers, then keys that went up in the order of the old report, then\n# keys that went down in the order of the new one. A code that stands twice counts once; the reserved byte and the codes\n# 00 to 03 tell nothing.\nscene 1\ndevice kbd keyboard\nconfig 09022200010100A032 090400000103010100 092111010001223F00 0705810308000A\nanswer 81 p:0000040400000000 p:0000050400000000 p:0000040500000000 p:0100050000000000 p:8100000006040000 p:00FF020301000000\nthread t\nserve\n",
            "device kbd 1209:0001\ninterface 0 hid 03/01/01 usbkbd\nthread t\ngiven\nkbd.0.in 0 8 again 0 0000040400000000\nkbd.0.in 0 8 again 0 0000050400000000\nkbd.0.in 0 8 again 0 0000040500000000\nkbd.0.in 0 8 again 0 0100050000000000\nkbd.0.in 0 8 again 0 8100000006040000\nkbd.0.in 0 8 again 0 00FF020301000000\nkbd.0.in -ENOENT 0 rest -\ndriver kbd 0 usbkbd\ndown 04 a\ndown 05 b\ndown E0 leftctrl\nup 04 a\ndown E7 rightgui\nup 05 b\ndown 06 c\ndown 04 a\nup E0 leftctrl\nup E7 rightgui\nup 06 c\nup 04 a\n",
        ),
        (
            "# Two keyboards. Each driver's read has a number of its own. While the second one's read is killed, a turn gives it back\n# alone: the first keyboard's packet waits. The host goes down, and the first one's read is not submitted again.\nscene 1\ndevice a keyboard\nconfig 09022200010100A032 090400000103010100 092111010001223F00 0705810308000A\nanswer 81 p:0000040000000000\ndevice b keyboard\nconfig 09022200010100A032 090400000103010100 092111010001223F00 0705810308000A\nanswer 81 p:0000050000000000\nthread hub\nkill b.0.in\nserve\ndown\nup\nserve\n",
            "device a 1209:0001\ninterface 0 hid 03/01/01 usbkbd\ndevice b 1209:0001\ninterface 0 hid 03/01/01 usbkbd\nthread hub\n11 kill b.0.in buffer 2000001\n13 down ok\n14 up ok\ngiven\nb.0.in -ENOENT 0 rest -\na.0.in 0 8 again 0 0000040000000000\na.0.in -ESHUTDOWN 0 rest -\ndriver a 0 usbkbd\ndown 04 a\ndriver b 0 usbkbd\n",
        ),
    ];
    check_reports(&rt, "", "", Status::Done, "", ROWS)
}

#[test]
fn the_gallery_of_devices_as_lists(rt: HostRuntime) -> Result<(), Fail> {
    const ROWS: &[(&str, &str)] = &[
        (
            "# A boot keyboard, as a host finds it: its configuration (34 bytes in all), interface 0 of class 03, subclass 01 and\n# protocol 01, the HID descriptor, and the interrupt IN endpoint 81 with packets of 8 bytes.\nscene 1\ndevice kbd keyboard\nconfig 09022200010100A032 090400000103010100 092111010001223F00 0705810308000A\nthread t\nblock kbd.0.in\nunblock kbd.0.in\nkill kbd.0.ctl\nunlink kbd.0.in\nunlink kbd.0.read0\nunlink kbd.1.in\n",
            "device kbd 1209:0001\ninterface 0 hid 03/01/01 usbkbd\n",
        ),
        (
            "# A serial port of the CDC ACM class. The union descriptor (24, 06) of interface 0 names interface 1 as its data\n# interface; the driver takes both, and has its URBs by the first.\nscene 1\ndevice m acm\nconfig 090243000201008032 090400000102020100 0524001001 0524010001 04240202 0524060001 07058203080010 09040100020A000000 07050102400000 07058102400000\nthread t\nkill m.0.note\nkill m.0.read1\nkill m.1.read1\n",
            "device m 1209:0001\ninterface 0 comm 02/02/01 cdc_acm\ninterface 1 cdcdata 0A/00/00 cdc_acm\n",
        ),
        (
            "# A printer, whose driver asks for its id when it probes. The id begins with its own length, high byte first.\nscene 1\ndevice prn printer\nconfig 09022000010100C000 090400000207010200 07050102400000 07058202400000\nid 00084D46473A413B\nport 18\nthread t\nkill prn.0.write\n",
            "device prn 1209:0001\ninterface 0 printer 07/01/02 usblp\n",
        ),
        (
            "# One device with four interfaces: a keyboard, a mouse, which no driver takes, storage, and a printer. Its descriptor gives\n# the vendor 046D and the product C52B. A raw device beside it is not listed.\nscene 1\ndevice box keyboard\ndesc 12010002 00000040 6D042BC5 11120102 0001\nconfig 09025000040100A032 090400000103010100 0705810308000A 090401000103010200 0705820308000A 090402000208065000 07058302400000 07050302400000 090403000107010100 07050402400000\ndevice d raw\nep 81 bulk 64 0\nanswer 81 p:0102\nurb a d 81 len 8\nthread t\nsubmit a\nserve\nkill box.3.write\n",
            "device box 046D:C52B\ninterface 0 hid 03/01/01 usbkbd\ninterface 1 hid 03/01/02 none\ninterface 2 storage 08/06/50 none\ninterface 3 printer 07/01/01 usblp\n",
        ),
        (
            "# Devices that cannot be enumerated, each with the fault that the host finds first.\nscene 1\ndevice none keyboard          # no configuration: the device stalls\ndevice brief keyboard\ndesc 12010002000000           # seven bytes, of which eight are asked for\ndevice long acm               # its length says 19, and 18 bytes are read\ndesc 130100020000004009120100000100000001\ndevice cut keyboard           # 34 bytes are promised, and 33 come\nconfig 09022200010100A032 090400000103010100 092111010001223F00 070581030800\ndevice stray printer          # an endpoint in front of every interface\nconfig 09021000010100C000 07050102400000\ndevice twice printer          # the same endpoint twice\nconfig 09022000010100C000 090400000207010200 07050102400000 07050102400000\n",
            "device none fault Status GET_DESCRIPTOR -EPIPE\ndevice brief fault Short 7\ndevice long fault Short 18\ndevice cut fault TotalLength 34 33\ndevice stray fault EndpointWithoutInterface 9\ndevice twice fault TwiceEndpoint 25\n",
        ),
        (
            "# Interfaces that no driver gets: what it needs is missing, its other interface is taken, or the device does not answer\n# the driver's requests.\nscene 1\ndevice a keyboard             # the endpoint is not an interrupt endpoint\nconfig 09021900010100A032 090400000103010100 0705810208000A\ndevice b keyboard             # the first request of the driver is not answered; a stall would be passed over\nconfig 09021900010100A032 090400000103010100 0705810308000A\nanswer 00 error\ndevice c acm                  # two ports with one data interface\nconfig 09024A00030100A032 090400000102020100 0524060001 07058203080010 09040100020A000000 07050102400000 07058102400000 090402000102020100 0524060001 07058303080010\n",
            "device a 1209:0001\ninterface 0 hid 03/01/01 none\ndevice b 1209:0001\ninterface 0 hid 03/01/01 fail\ndevice c 1209:0001\ninterface 0 comm 02/02/01 cdc_acm\ninterface 1 cdcdata 0A/00/00 cdc_acm\ninterface 2 comm 02/02/01 busy\n",
        ),
        (
            "# Somebody types \"Hi\" on a boot keyboard and sets caps lock. Its configuration (34 bytes in all) has interface 0 of class\n# 03, subclass 01 and protocol 01, the HID descriptor, and the interrupt IN endpoint 81 with packets of 8 bytes. Each\n# packet is a report: modifiers, a reserved byte, six codes. At the nak it has nothing to say, until the next serve.\nscene 1\ndevice kbd keyboard\nconfig 09022200010100A032 090400000103010100 092111010001223F00 0705810308000A\nanswer 81 p:0200000000000000 p:02000B0000000000 p:0200000000000000 p:0000000000000000 nak\nanswer 81 p:00000C0000000000 p:0000000000000000\nthread t\nserve\nled kbd 0 02\nserve\n",
            "device kbd 1209:0001\ninterface 0 hid 03/01/01 usbkbd\n",
        ),
    ];
    check_lists(&rt, "", "", ROWS)
}
