//! The interfaces of a configuration.
ghost use Rattle.std.specs.Prelude.{◌≡◌, List, IfOk, OnOk, map, option_copied};
ghost use Rattle.usb_desc.specs.declared.tree.Alt.{Alt};
ghost use Rattle.usb_bind.specs.Seen.{KnowsNumbers};
ghost use Rattle.usb_bind.specs.Interfaces.{interface_at, interfaces_of, opens, with_interface};

use crate::met::Met;
use std::alloc::Global;
use usb_desc::{Alt, ConfigTree};
use usb_types::{List, Memory};

/// The interface with a number: the first setting 0 that has it.
pub fn interface_at(config: &ConfigTree, number: u16) -> Option<&Alt>
    ensures { option_copied result ≡ interface_at config.now number }
{
    config
        .alts
        .items()
        .iter()
        .find(|a| a.setting == 0 && a.number as u16 == number)
}

/// Whether a setting opens an interface, where the numbers before it were met.
#[tactic(auto, using(crate::proofs::Meets::opened, crate::proofs::Meets::not_opened))]
pub(crate) fn opens(alt: &Alt, numbers: &mut Met) -> bool
    ensures { (alts : List Alt) → KnowsNumbers numbers.old alts → (result ≡ opens alts alt.now) × KnowsNumbers numbers.new (with_interface alts alt.now) }
{
    if alt.setting != 0 {
        return false;
    }
    numbers.meet(alt.number)
}

fn push_number(numbers: &mut List<u8>, alt: &Alt, met: &mut Met) -> Result<(), Memory>
    ensures { (alts : List Alt) → KnowsNumbers met.old alts → numbers.old ≡ map (λ (a : Alt). a.number) alts
        → OnOk result (KnowsNumbers met.new (with_interface alts alt.now) × (numbers.new ≡ map (λ (a : Alt). a.number) (with_interface alts alt.now))) }
{
    if opens(alt, met) {
        numbers.push(alt.number)
    } else {
        Ok(())
    }
}

/// The numbers of the interfaces, in descriptor order.
pub fn interfaces(alloc: Global, config: &ConfigTree) -> Result<List<u8>, Memory>
    ensures { IfOk result (λ numbers. numbers ≡ map (λ (a : Alt). a.number) (interfaces_of config.now)) }
{
    let mut numbers = List::of(Vec::new(alloc));
    let mut met = Met::none();
    for alt in config.alts.items() {
        push_number(&mut numbers, alt, &mut met)?;
    }
    Ok(numbers)
}
