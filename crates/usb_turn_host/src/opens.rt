//! How the host begins and ends.
ghost use Rattle.std.specs.Prelude.{◌≡◌, ℕ, ◌+◌, ◌<◌, ◌≤◌, ◌^◌, [], ◌∷◌, IfOk, All, map, length, replicate, List};
ghost use Rattle.circular_buffer.specs.Buffer.{buffer};
ghost use Rattle.usb_machine.specs.declared.entry.TheConstants.{SERVER, HUB};
ghost use Rattle.usb_machine.specs.State.{no_flags};
ghost use Rattle.usb_machine.specs.Plain.{IsLayout};
ghost use Rattle.usb_machine.specs.Replay.{machine_for};
ghost use Rattle.usb_machine.specs.Tokens.{IsWholeHub, IsWholeServer, unused, unused_from};
ghost use Rattle.usb_turn.specs.Pass.{fresh};
ghost use Rattle.usb_turn.specs.Shown.{id_of, passes_of};
ghost use Rattle.usb_turn_host.specs.Setup.{setup_of};
ghost use Rattle.usb_turn_host.specs.Stock.{IsSetup, machine_of};
ghost use Rattle.usb_turn_host.specs.Opening.{fresh_from};
ghost use Rattle.usb_machine.specs.Tokens.{AreAll, OneKeeps, IsClosed};
ghost use Rattle.usb_turn_host.specs.Turning.{IsOf, known_of};

use crate::host::TurnHost;
use crate::hub::TurnHub;
use crate::server::TurnServer;
use crate::stock::Stock;
use circular_buffer::HeapCircularBuffer;
use std::alloc::{AllocError, Global};
use std::sync::Wait;
use usb_machine::{Flags, Layout, Opens, Parts};
use usb_turn::{Ended, TurnPass, Turns};
use usb_types::Memory;

fn buffers(
    alloc: Global,
    count: usize,
    room: usize,
) -> Result<Vec<HeapCircularBuffer<u32>>, AllocError>
    ensures { IfOk result (λ v. v.items ≡ replicate count (buffer [] room)) }
{
    let mut all = Vec::with_capacity(alloc, count)?;
    for n in 0..count {
        all.push(HeapCircularBuffer::with_capacity(alloc, room)?)?;
    }
    Ok(all)
}

fn flags(alloc: Global, count: usize) -> Result<Vec<Flags>, AllocError>
    ensures { IfOk result (λ v. v.items ≡ replicate count no_flags) }
{
    vec![in alloc; Flags {
        gone: false,
        off: false,
        down: false
    }; count]
}

/// The turns and their passes: the first two, and the others in order.
fn turns(
    alloc: Global,
    layout: &Layout,
    passes: u32,
) -> Result<
    (
        Turns<Stock>,
        TurnPass<Stock>,
        TurnPass<Stock>,
        Vec<TurnPass<Stock>>,
    ),
    Memory,
>
    requires passes { (0 < passes) × (passes ≤ 64) }
    requires layout { IsLayout layout.now }
    ensures key { IfOk result (λ r. IsSetup layout.now passes (setup_of r.0)) }
    ensures count { IfOk result (λ r. passes_of r.0 ≡ passes + 2) }
    ensures first { IfOk result (λ r. (r.1 ≡ fresh (id_of r.0) 0) × (r.2 ≡ fresh (id_of r.0) 1)) }
    ensures others { IfOk result (λ r. r.3.items ≡ fresh_from (id_of r.0) 2 passes) }
{
    let stock = Stock::new(alloc, layout, passes)?;
    let Ok((turns, mut all)) = Turns::new(alloc, stock, passes + 2) else {
        return Err(Memory);
    };
    let first = all.remove(0);
    let second = all.remove(0);
    Ok((turns, first, second, all))
}

impl TurnHost {
    /// A host with nothing in it, its tokens, and its passes from number 2 on.
    pub fn open(
        alloc: Global,
        layout: Layout,
        passes: u32,
    ) -> Result<Parts<TurnHost, TurnServer, TurnHub, TurnPass<Stock>>, Memory>
        requires passes { (0 < passes) × (passes ≤ 64) }
        requires layout { IsLayout layout }
        ensures machine { IfOk result (λ parts. machine_of (setup_of parts.host.turns) ≡ machine_for layout passes) }
        ensures server { IfOk result (λ parts. (parts.server.pass ≡ fresh (id_of parts.host.turns) 0) × (parts.server.pending.items ≡ replicate (length layout.shapes) (buffer [] (length layout.homes))) × (parts.server.given ≡ 0)) }
        ensures hub { IfOk result (λ parts. (parts.hub.pass ≡ fresh (id_of parts.host.turns) 1) × (parts.hub.flags.items ≡ replicate (length layout.homes) no_flags)) }
        ensures passes { IfOk result (λ parts. parts.passes.items ≡ fresh_from (id_of parts.host.turns) 2 passes) }
    {
        let Ok(pending) = buffers(
            alloc,
            layout.shapes.items().len(),
            layout.homes.items().len(),
        ) else {
            return Err(Memory);
        };
        let Ok(flags) = flags(alloc, layout.homes.items().len()) else {
            return Err(Memory);
        };
        let (turns, first, second, passes) = turns(alloc, &layout, passes)?;
        Ok(Parts {
            host: TurnHost { turns, layout },
            server: TurnServer {
                pass: first,
                pending,
                given: 0,
            },
            hub: TurnHub {
                pass: second,
                flags,
            },
            passes,
        })
    }
}

impl Opens for TurnHost {
    type Closed = Ended<Stock>;

    ghost history = { λ e. e };

    fn new<R: Wait>(
        _rt: &R,
        alloc: Global,
        layout: Layout,
        passes: u32,
    ) -> Result<Parts<TurnHost, TurnServer, TurnHub, TurnPass<Stock>>, Memory> {
        let parts = TurnHost::open(alloc, layout, passes)?;
        Ok(parts)
    }

    fn close(self, server: TurnServer, hub: TurnHub, passes: Vec<TurnPass<Stock>>) -> Ended<Stock>
        requires here { IsOf (id_of self.turns) (setup_of self.turns) server.pass × IsOf (id_of self.turns) (setup_of self.turns) hub.pass × All (IsOf (id_of self.turns) (setup_of self.turns)) passes.items }
        requires all { AreAll (machine_of (setup_of self.turns)) (known_of server.pass ∷ known_of hub.pass ∷ map known_of passes.items) }
        requires quiet { OneKeeps (machine_of (setup_of self.turns)) (known_of server.pass ∷ known_of hub.pass ∷ map known_of passes.items) }
        ensures { IsClosed (machine_of (setup_of self.turns)) result (known_of server.pass ∷ known_of hub.pass ∷ map known_of passes.items) }
    {
        self.end_all(server, hub, passes)
    }
}
