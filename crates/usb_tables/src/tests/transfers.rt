//! Transfers that a device takes or gives, packet by packet and at once.
ghost use Rattle.std.specs.Prelude.{◌≡◌, ◌<◌};
ghost use Rattle.std.proofs.Common.{arith};
ghost use Rattle.usb_xfer.specs.Replies.{Reply, control_in_heard, room_after};

use std::test::Fail;
use usb_ctrl::Setup;
use usb_machine::{EndKind, Shape, Transfer};
use usb_types::{Buf, Code};
use usb_xfer::{CtrlReply, Device, InReply, OutReply, Step, advance_on, is_in};

/// Takes each packet and keeps the sum of its bytes and the number of packets. It has no packet to give, and one byte
/// of control data.
#[derive(Drop)]
struct Adder {
    sum: u64,
    packets: u64,
}

impl Device for Adder {
    ghost replies = { λ old address question r new. Unit {0} };

    ghost items_used = { λ d. 0 };

    ghost never_falls = { λ old address question r new is. Prim.omega arith };

    fn used(&self) -> u64 {
        0
    }

    fn input(&mut self, _address: u8, _room: &mut [u8]) -> InReply {
        InReply::Nak
    }

    fn output(&mut self, _address: u8, packet: &[u8]) -> OutReply {
        for byte in packet {
            self.sum = self.sum.wrapping_add(*byte as u64);
        }
        self.packets = self.packets.wrapping_add(1);
        OutReply::Ack
    }

    fn control(&mut self, setup: Setup, out: &[u8], room: &mut [u8]) -> CtrlReply {
        if is_in(setup.kind) {
            return give(room);
        }
        for byte in out {
            self.sum = self.sum.wrapping_add(*byte as u64);
        }
        CtrlReply::Moved(out.len() as u32)
    }
}

fn give(room: &mut [u8]) -> CtrlReply
    ensures { (r : Reply) × (room.new ≡ room_after r room.old) × (result ≡ control_in_heard r) }
{
    if room.is_empty() {
        return CtrlReply::Moved(0);
    }
    room[0] = 7;
    CtrlReply::Moved(1)
}

fn shape_at(address: u8) -> Shape
    ensures { 0 < result.max }
{
    Shape {
        device: 0,
        address,
        kind: EndKind::Bulk,
        max: 4,
        interval: 0,
    }
}

#[test]
fn ten_bytes_go_out_in_three_packets(rt: HostRuntime) -> Result<(), Fail> {
    let mut device = Adder { sum: 0, packets: 0 };
    let bytes = vec![in rt.alloc(); 200, 1, 2, 3, 4, 5, 6, 7, 8, 9, 10, 100]?;
    let mut t = Transfer {
        setup: None,
        buf: Buf::of(bytes),
        from: 1,
        len: 10,
        short_not_ok: false,
        actual: 0,
        number: 1,
    };
    let step = advance_on(&mut t, &shape_at(0x02), &mut device);
    assert_eq!(rt; step, Step::Ended(Code::Zero));
    assert_eq!(rt; t.actual, 10);
    assert_eq!(rt; device.sum, 55);
    assert_eq!(rt; device.packets, 3);
    let waits = advance_on(&mut t, &shape_at(0x81), &mut device);
    assert_eq!(rt; waits, Step::Waiting);
    Ok(())
}

fn control_end() -> Shape
    ensures { 0 < result.max }
{
    Shape {
        device: 0,
        address: 0,
        kind: EndKind::Control,
        max: 64,
        interval: 0,
    }
}

#[test]
fn control_transfers_move_at_once(rt: HostRuntime) -> Result<(), Fail> {
    let mut device = Adder { sum: 0, packets: 0 };
    let mut asks = Transfer {
        setup: Some([0x80, 6, 0, 1, 0, 0, 4, 0]),
        buf: Buf::of(vec![in rt.alloc(); 0, 1, 2, 3]?),
        from: 0,
        len: 4,
        short_not_ok: false,
        actual: 0,
        number: 1,
    };
    let step = advance_on(&mut asks, &control_end(), &mut device);
    assert_eq!(rt; step, Step::Ended(Code::Zero));
    assert_eq!(rt; asks.actual, 1);
    assert_eq!(rt; asks.buf.bytes(), [7, 1, 2, 3].as_slice());
    asks.setup = Some([0x21, 0x20, 0, 0, 0, 0, 4, 0]);
    let told = advance_on(&mut asks, &control_end(), &mut device);
    assert_eq!(rt; told, Step::Ended(Code::Zero));
    assert_eq!(rt; asks.actual, 4);
    assert_eq!(rt; device.sum, 13);
    Ok(())
}
