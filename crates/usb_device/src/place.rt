//! A place in the items of an address.
ghost use Rattle.std.specs.Prelude.{◌≡◌, ◌≤◌, ◌<◌, ◌+◌, true, ℕ, MatchOption};
ghost use Rattle.usb_device.specs.Short.{is_short, are_short, lines_are_short};

use usb_xfer::{Answers, Item, What};

// One use more of an item, where one is left.
fn one_more(used: u32, times: u32) -> Option<u32>
    ensures { MatchOption result (times ≤ used) (λ n. (used < times) × (n ≡ used + 1)) }
{
    if used < times { Some(used + 1) } else { None }
}

/// How far the items of an address are used: the items that are left of a line, and the lines after it.
#[derive(Drop)]
pub struct Place<'a> {
    lines: &'a [Answers],
    items: &'a [Item],
    /// How many calls the first item was used for.
    used: u32,
    ghost short: { are_short items.now ≡ true },
    ghost lines_short: { lines_are_short lines.now ≡ true },
}

impl<'a> Place<'a> {
    ghost use Rattle.usb_xfer.specs.Replies.{Reply};
    ghost use Rattle.usb_device.specs.Items.{items_at};
    ghost use Rattle.usb_device.specs.Places.{coming, next_or, IsAfter};
    ghost use Rattle.usb_device.specs.Left.{place_left};
    ghost use Rattle.usb_xfer.specs.declared.script.What.TheVariants.{Nak};

    /// The place before all items of these lines.
    pub fn new(lines: &'a [Answers]) -> Place<'a>
        requires { lines_are_short lines.now ≡ true }
        ensures { (address : ℕ) → IsAfter result address (items_at address lines.now) 0 }
    {
        Place {
            lines,
            items: &[],
            used: 0,
        }
    }

    /// Uses the next item of an address, where one is left, and gives its reply.
    pub fn next(&mut self, address: u8) -> Option<&'a What>
        ensures item { (last : Reply) → next_or last result ≡ coming last self.old address 0 }
        ensures short { is_short (next_or Nak result) ≡ true }
        ensures next { (last : Reply) (k : ℕ) → coming last self.new address k ≡ coming last self.old address (k + 1) }
        ensures left { MatchOption result (place_left self.new ≤ place_left self.old) (λ what. place_left self.new < place_left self.old) }
    {
        loop {
            match self.items {
                [item, rest @ ..] => {
                    if let Some(used) = one_more(self.used, item.times) {
                        self.used = used;
                        return Some(&item.what);
                    }
                    self.used -= item.times;
                    self.items = rest;
                }
                [] => match self.lines {
                    [] => return None,
                    [said, rest @ ..] => {
                        if said.address == address {
                            self.items = said.items.items();
                        }
                        self.lines = rest;
                    }
                },
            }
        }
    }
}
