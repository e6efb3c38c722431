//! How many rejects the script that is being read holds on each URB.
ghost use Rattle.usb_types.specs.Limits.{most_rejects};
ghost use Rattle.std.specs.Prelude.{◌≡◌, ◌≤◌, OnOk};
ghost use Rattle.usb_scene.specs.Rules.{raises, withdraws};
ghost use Rattle.usb_scene.specs.Counts.{next_count, count_in, changed};
ghost use Rattle.usb_scene.specs.declared.scene.Target.{Target};

use crate::scene::Target;
use std::alloc::Global;
use std::collections::HashMap;
use usb_statement::UrbCall;
use usb_types::Memory;

/// Whether the call raises a reject.
pub fn raises(call: UrbCall) -> bool
    ensures { result ≡ raises call }
{
    match call {
        UrbCall::Poison | UrbCall::Block => true,
        _ => false,
    }
}

/// Whether the call withdraws one.
pub fn withdraws(call: UrbCall) -> bool
    ensures { result ≡ withdraws call }
{
    match call {
        UrbCall::Unpoison | UrbCall::Unblock => true,
        _ => false,
    }
}

fn next_count(call: UrbCall, count: u32) -> u32
    requires { count ≤ most_rejects }
    ensures { result ≡ next_count call count }
{
    if raises(call) {
        count + 1
    } else if withdraws(call) {
        count.saturating_sub(1)
    } else {
        count
    }
}

/// A count for each URB that was called, none elsewhere.
#[derive(Drop)]
pub struct Rejects {
    counts: HashMap<Target, u32>,
}

impl Rejects {
    /// No reject.
    pub fn none(alloc: Global) -> Rejects
        ensures { (urb : Target) → count_in result.counts urb ≡ 0 }
    {
        Rejects {
            counts: HashMap::new(alloc),
        }
    }

    /// How many are held on an URB.
    pub fn held(&self, urb: Target) -> u32
        ensures { result ≡ count_in self.now.counts urb }
    {
        match self.counts.get(&urb) {
            Some(count) => *count,
            None => 0,
        }
    }

    /// Counts what a call on an URB raises or withdraws.
    pub fn change(&mut self, call: UrbCall, urb: Target) -> Result<(), Memory>
        requires { count_in self.old.counts urb ≤ most_rejects }
        ensures { OnOk result ((other : Target) → count_in self.new.counts other ≡ changed call urb (count_in self.old.counts) other) }
    {
        let next = next_count(call, self.held(urb));
        let Ok(_) = self.counts.insert(urb, next) else {
            return Err(Memory);
        };
        Ok(())
    }
}
