//! A list of steps, made one after another.
ghost use Rattle.std.specs.Prelude.{◌≡◌, ℕ, ◌<◌, ◌≤◌, ◌+◌, List, Option, Some, None, [], length, IfOk, IfSome, IfNone, IsTrue, ◌↔◌};
ghost use Rattle.usb_machine.specs.declared.entry.Entry.{Entry};
ghost use Rattle.usb_machine.specs.declared.transfer.Transfer.{Transfer};
ghost use Rattle.usb_machine.specs.declared.entry.TheConstants.{SERVER};
ghost use Rattle.usb_machine.specs.History.{Machine};
ghost use Rattle.usb_machine.specs.Plain.{IsLayout, Stands};
ghost use Rattle.usb_machine.specs.Replay.{machine_for, IsHistoryOf, CanReplay, answers_in, StepFits, IsAnswer, MakesStep};

use crate::event::{Answer, Event};
use crate::layout::Layout;
use crate::plain::Plain;
use std::alloc::Global;
use usb_types::{List, Memory};

/// An event, and the pass that makes it.
#[derive(Clone, Copy)]
pub struct Step {
    pub pass: u32,
    pub event: Event,
}

/// Makes the step, where it may come next.
fn try_step(plain: &mut Plain, step: Step) -> Option<Answer>
    ensures fits { IfSome result (λ a. (g : Machine) (h : List Entry) → Stands plain.old g h → StepFits plain.old g h step) }
    ensures answer { IfSome result (λ a. IsAnswer plain.old step a) }
    ensures made { IfSome result (λ a. MakesStep plain.old plain.new step a) }
    ensures refused { IfNone result ((g : Machine) (h : List Entry) → Stands plain.old g h → StepFits plain.old g h step → ⊥) }
{
    if plain.is_next(step.pass, step.event) {
        Some(plain.step(step.pass, step.event))
    } else {
        None
    }
}

/// The answers of these steps from the opening state, or None where one of them may not come. The machine's passes
/// are the server's, the hub's and `passes` more.
pub fn replay(
    alloc: Global,
    layout: &Layout,
    passes: u32,
    steps: &[Step],
) -> Result<Option<List<Answer>>, Memory>
    requires passes { (0 < passes) × (passes ≤ 64) }
    requires layout { IsLayout layout.now }
    ensures legal { IfOk result (λ o. IfSome o (λ answers. IsHistoryOf (machine_for layout.now passes) steps.now answers)) }
    ensures complete { (h : List Entry) → CanReplay (machine_for layout.now passes) h steps.now → IfOk result (λ o. o ≡ Some (answers_in h)) }
{
    let mut plain = Plain::new(alloc, layout, passes)?;
    let mut answers = List::of(Vec::new(alloc));
    for step in steps {
        match try_step(&mut plain, *step) {
            Some(answer) => answers.push(answer)?,
            None => return Ok(None),
        }
    }
    Ok(Some(answers))
}
