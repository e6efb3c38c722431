//! The gallery of printers, with their reports. They are written by hand.
use crate::tests::calling::{check_lists, check_reports};
use std::test::Fail;
use usb_run::Status;

#[test]
fn jobs_of_printers(rt: HostRuntime) -> Result<(), Fail> {
    const ROWS: &[(&str, &str)] = &[
        (
            "# Two jobs, one after the other: the driver keeps no second one. A job goes out in windows of at most 8,192 bytes, and is\n# told when it ends. What the printer received is counted, and begins with the first job.\nscene 1\ndevice prn printer\nconfig 09022000010100C000 090400000207010200 07050102400000 07058202400000\nid 00084D46473A413B\nthread t\nprint prn 0 48656C6C6F0A\nprint prn 0 fill:8193:41\nserve\nprint prn 0 fill:8193:41\nserve\n",
            "device prn 1209:0001\ninterface 0 printer 07/01/02 usblp\nthread t\n8 print prn 0 0\n9 print prn 0 -EBUSY\n11 print prn 0 0\ngiven\nprn.0.write 0 6 rest -\nprn.0.write 0 8192 again 0 -\nprn.0.write 0 1 rest -\ndriver prn 0 usblp\nid MFG:A;\njob 8 6 0\njob 11 8193 0\nreceived\nprn 01 8199 48656C6C6F0A41414141414141414141414141414141414141414141414141414141414141414141414141414141414141414141414141414141414141414141\n",
        ),
        (
            "# A printer runs out of paper: its port says 30, selected, with an error, and no paper (printer class 1.1, 4.2.2). Behind\n# a job that fails the driver asks for the port's status, by a transfer that is its own.\nscene 1\ndevice prn printer\nconfig 09022000010100C000 090400000207010200 07050102400000 07058202400000\nid 00084D46473A413B\nport 30\nanswer 01 2*ack stall ack error\nthread t\nprint prn 0 fill:200:42\nserve\nprint prn 0 fill:200:43\nserve\nprint prn 0 fill:200:44\nserve\nkill prn.0.ctl\nkill prn.0.write\n",
            "device prn 1209:0001\ninterface 0 printer 07/01/02 usblp\nthread t\n10 print prn 0 0\n12 print prn 0 0\n14 print prn 0 0\n16 kill prn.0.ctl buffer 2000000\n17 kill prn.0.write buffer 14\ngiven\nprn.0.write -EPIPE 128 ask 0 -\nprn.0.ctl 0 1 rest 30\nprn.0.write -EPROTO 64 ask 0 -\nprn.0.ctl 0 1 rest 30\nprn.0.write 0 200 rest -\ndriver prn 0 usblp\nid MFG:A;\njob 10 128 -EPIPE\nport 30\njob 12 64 -EPROTO\nport 30\njob 14 200 0\nreceived\nprn 01 392 42424242424242424242424242424242424242424242424242424242424242424242424242424242424242424242424242424242424242424242424242424242\n",
        ),
        (
            "# A job that is unlinked or killed is told, and nobody asks for the port. Of a job whose next window is refused nothing\n# is told: what was printed of it stays printed.\nscene 1\ndevice prn printer\nconfig 09022000010100C000 090400000207010200 07050102400000 07058202400000\nanswer 01 3*ack nak\nthread t\nprint prn 0 fill:300:45\nserve\nunlink prn.0.write\nserve\nprint prn 0 fill:300:46\nkill prn.0.write\nprint prn 0 fill:8193:47\nblock prn.0.write\nserve\nunblock prn.0.write\nkill prn.0.write\n",
            "device prn 1209:0001\ninterface 0 printer 07/01/02 usblp\nthread t\n8 print prn 0 0\n10 unlink prn.0.write -EINPROGRESS\n12 print prn 0 0\n13 kill prn.0.write buffer 12\n14 print prn 0 0\n15 block prn.0.write ok\n17 unblock prn.0.write ok\n18 kill prn.0.write buffer 14\ngiven\nprn.0.write -ECONNRESET 192 rest -\nprn.0.write -ENOENT 0 rest -\nprn.0.write 0 8192 again -EPERM -\ndriver prn 0 usblp\njob 8 192 -ECONNRESET\njob 12 0 -ENOENT\nreceived\nprn 01 8384 45454545454545454545454545454545454545454545454545454545454545454545454545454545454545454545454545454545454545454545454545454545\n",
        ),
        (
            "# A job of no bytes is one empty packet. Nothing was received then, and the report has no such section.\nscene 1\ndevice prn printer\nconfig 09022000010100C000 090400000207010200 07050102400000 07058202400000\nanswer 01 nak\nthread t\nprint prn 0 -\nserve\nserve\n",
            "device prn 1209:0001\ninterface 0 printer 07/01/02 usblp\nthread t\n7 print prn 0 0\ngiven\nprn.0.write 0 0 rest -\ndriver prn 0 usblp\njob 7 0 0\n",
        ),
    ];
    check_reports(&rt, "", "", Status::Done, "", ROWS)
}

#[test]
fn requests_of_printers(rt: HostRuntime) -> Result<(), Fail> {
    const ROWS: &[(&str, &str)] = &[
        (
            "# The driver's question waits at a nak, and is out: behind the second job, which fails too, nobody asks, and what the\n# script asks is refused. The third job fails while a request of the script's waits: the question is refused, and can be\n# asked behind the next.\nscene 1\ndevice prn printer\nconfig 09022000010100C000 090400000207010200 07050102400000 07058202400000\nanswer 00 ack 2*nak ack nak\nanswer 01 4*stall\nthread t\nprint prn 0 48\nserve\nstatus prn 0\nprint prn 0 49\nserve\nserve\nstatus prn 0\nprint prn 0 4A\nserve\nserve\nprint prn 0 4B\nserve\n",
            "device prn 1209:0001\ninterface 0 printer 07/01/02 usblp\nthread t\n10 print prn 0 0\n12 status prn 0 -EBUSY\n13 print prn 0 0\n16 status prn 0 0\n17 print prn 0 0\n20 print prn 0 0\ngiven\nprn.0.write -EPIPE 0 ask 0 -\nprn.0.write -EPIPE 0 rest -\nprn.0.ctl 0 1 rest 18\nprn.0.write -EPIPE 0 ask -EBUSY -\nprn.0.ctl 0 1 rest 18\nprn.0.write -EPIPE 0 ask 0 -\nprn.0.ctl 0 1 rest 18\ndriver prn 0 usblp\njob 10 0 -EPIPE\njob 13 0 -EPIPE\nport 18\njob 17 0 -EPIPE\nport 18\njob 20 0 -EPIPE\nport 18\n",
        ),
        (
            "# The port's status is asked, and the printer reset, by the script. There is one request at a time, and an answer that is\n# an error tells nothing. The first of the four items is for the driver's own request, when it probes.\nscene 1\ndevice prn printer\nconfig 09022000010100C000 090400000207010200 07050102400000 07058202400000\nanswer 00 3*ack error\nport 10\nthread t\nstatus prn 0\nsoftreset prn 0\nserve\nsoftreset prn 0\nserve\nstatus prn 0\nserve\nstatus prn 00\nserve\nstatus prn 1\nkill prn.0.ctl\n",
            "device prn 1209:0001\ninterface 0 printer 07/01/02 usblp\nthread t\n9 status prn 0 0\n10 softreset prn 0 -EBUSY\n12 softreset prn 0 0\n14 status prn 0 0\n16 status prn 0 0\n18 status prn 1 -ENODEV\n19 kill prn.0.ctl buffer 16\ngiven\nprn.0.ctl 0 1 rest 10\nprn.0.ctl 0 0 rest -\nprn.0.ctl -EPROTO 0 rest -\nprn.0.ctl 0 1 rest 10\ndriver prn 0 usblp\nport 10\nport 10\n",
        ),
        (
            "# What a printer says of itself when its driver probes. The first two bytes are the length of the whole, the high byte\n# first; a byte that is not printable is a dot. One says that it is longer than it is, one shorter, one is empty, one\n# printer has none, and the last does not answer, so the driver lets it go.\nscene 1\ndevice dots printer\nconfig 09022000010100C000 090400000207010200 07050102400000 07058202400000\nid 000C 4D444C3A 0A 417E 7F80 3B\ndevice more printer\nconfig 09022000010100C000 090400000207010200 07050102400000 07058202400000\nid 00FF 4D46\ndevice less printer\nconfig 09022000010100C000 090400000207010200 07050102400000 07058202400000\nid 0004 4D464747\ndevice none printer\nconfig 09022000010100C000 090400000207010200 07050102400000 07058202400000\nid 0002\ndevice mute printer\nconfig 09022000010100C000 090400000207010200 07050102400000 07058202400000\ndevice gone printer\nconfig 09022000010100C000 090400000207010200 07050102400000 07058202400000\nid 0003 41\nanswer 00 error\nthread t\nprint gone 0 00\nprint mute 0 -\nserve\n",
            "device dots 1209:0001\ninterface 0 printer 07/01/02 usblp\ndevice more 1209:0001\ninterface 0 printer 07/01/02 usblp\ndevice less 1209:0001\ninterface 0 printer 07/01/02 usblp\ndevice none 1209:0001\ninterface 0 printer 07/01/02 usblp\ndevice mute 1209:0001\ninterface 0 printer 07/01/02 usblp\ndevice gone 1209:0001\ninterface 0 printer 07/01/02 fail\nthread t\n24 print gone 0 -ENODEV\n25 print mute 0 0\ngiven\nmute.0.write 0 0 rest -\ndriver dots 0 usblp\nid MDL:.A~..;\ndriver more 0 usblp\nid MF\ndriver less 0 usblp\nid MF\ndriver none 0 usblp\nid -\ndriver mute 0 usblp\njob 25 0 0\n",
        ),
    ];
    check_reports(&rt, "", "", Status::Done, "", ROWS)
}

#[test]
fn what_printers_are_found_to_be(rt: HostRuntime) -> Result<(), Fail> {
    const ROWS: &[(&str, &str)] = &[(
        "# What a printer says of itself when its driver probes. The first two bytes are the length of the whole, the high byte\n# first; a byte that is not printable is a dot. One says that it is longer than it is, one shorter, one is empty, one\n# printer has none, and the last does not answer, so the driver lets it go.\nscene 1\ndevice dots printer\nconfig 09022000010100C000 090400000207010200 07050102400000 07058202400000\nid 000C 4D444C3A 0A 417E 7F80 3B\ndevice more printer\nconfig 09022000010100C000 090400000207010200 07050102400000 07058202400000\nid 00FF 4D46\ndevice less printer\nconfig 09022000010100C000 090400000207010200 07050102400000 07058202400000\nid 0004 4D464747\ndevice none printer\nconfig 09022000010100C000 090400000207010200 07050102400000 07058202400000\nid 0002\ndevice mute printer\nconfig 09022000010100C000 090400000207010200 07050102400000 07058202400000\ndevice gone printer\nconfig 09022000010100C000 090400000207010200 07050102400000 07058202400000\nid 0003 41\nanswer 00 error\nthread t\nprint gone 0 00\nprint mute 0 -\nserve\n",
        "device dots 1209:0001\ninterface 0 printer 07/01/02 usblp\ndevice more 1209:0001\ninterface 0 printer 07/01/02 usblp\ndevice less 1209:0001\ninterface 0 printer 07/01/02 usblp\ndevice none 1209:0001\ninterface 0 printer 07/01/02 usblp\ndevice mute 1209:0001\ninterface 0 printer 07/01/02 usblp\ndevice gone 1209:0001\ninterface 0 printer 07/01/02 fail\n",
    )];
    check_lists(&rt, "", "", ROWS)
}
