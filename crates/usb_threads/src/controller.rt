//! The controller's loop.
ghost use Rattle.std.specs.Prelude.{◌≡◌, ◌++◌, [], List, Option, Ok, IfOk};
ghost use Rattle.std.specs.Option.{option_to_list};
ghost use Rattle.usb_trace.specs.declared.rows.GivebackRow.{GivebackRow as RowOf};
ghost use Rattle.usb_threads.specs.Controlling.{HasControlled, IsIdle};

use crate::clock::Clock;
use crate::scene_host::{SceneHost, Turn};
use std::alloc::Global;
use std::sync::Wait;
use std::thread;
use usb_trace::GivebackRow;
use usb_types::{List, Memory};

/// The server, and what is told of its givebacks, where there was memory for all of them.
#[derive(Drop)]
pub struct Controlled<V> {
    pub server: V,
    pub given: Result<List<GivebackRow>, Memory>,
}

// Adds what was given back, if anything was. Want of memory stays.
fn note(
    list: Result<List<GivebackRow>, Memory>,
    given: Result<Option<GivebackRow>, Memory>,
) -> Result<List<GivebackRow>, Memory>
    ensures { IfOk result (λ now. (old : List RowOf) × (row : Option RowOf) × (list ≡ Ok old) × (given ≡ Ok row) × (now ≡ old ++ option_to_list row)) }
{
    let mut list = list?;
    let given = given?;
    if let Some(row) = given {
        list.push(row)?;
    }
    Ok(list)
}

/// Makes turns until the run has ended. After want of memory it goes on, so that no thread waits for ever.
pub fn control<H: SceneHost, R: Wait>(
    rt: &R,
    alloc: Global,
    host: &H,
    clock: &Clock,
    mut server: H::Server,
) -> Controlled<H::Server>
    requires here { H.serves host.now server }
    requires after { H.after host.now server [] }
    requires idle { IsIdle (H.scene host.now) (H.own server) }
    ensures here { H.serves host.now result.server }
    ensures controlled { IfOk result.given (HasControlled (H.scene host.now) (H.after host.now result.server) (H.own server) (H.own result.server)) }
{
    let mut given = Ok(List::of(Vec::new(alloc)));
    let mut still = false;
    for _turn in rt.forever() {
        if clock.has_ended() {
            break;
        }
        let number = clock.begin();
        let Turn {
            given: one,
            changed,
        } = host.turn(rt, alloc, &mut server);
        given = note(given, one);
        if still && !changed {
            clock.settle(number);
        }
        still = !changed;
        thread::yield_now();
    }
    Controlled { server, given }
}
