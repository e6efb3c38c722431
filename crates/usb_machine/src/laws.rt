//! The laws of the machine, each for every legal history of every machine.
ghost use Rattle.std.specs.Prelude.{◌≡◌, ◌<◌, ◌+◌, ◌↔◌, ◌++◌, ◌∷◌, ℕ, List, Some, true};
ghost use Rattle.usb_machine.specs.declared.entry.Entry.{Entry};
ghost use Rattle.usb_machine.specs.declared.entry.TheConstants.{HUB};
ghost use Rattle.usb_machine.specs.declared.event.Event.TheVariants.{Claim};
ghost use Rattle.usb_machine.specs.declared.event.Answer.TheVariants.{Number};
ghost use Rattle.usb_machine.specs.History.{Machine, state_of};
ghost use Rattle.usb_machine.specs.Parts.{part_of, held_of, keeps};
ghost use Rattle.usb_machine.specs.Legal.{IsLegal};
ghost use Rattle.usb_machine.specs.Laws.{total, rejects, withdraws, Placed, TakesTurns, IsKept, IsHeldSinceQuiet, HasEpisode, HasOneStatus, EndsWithRest};

/// The rejects of an URB are those that the passes hold, and its flags are those that the hub holds.
pub fn rejects_and_flags_are_held()
    ensures rejects { (g : Machine) (u : ℕ) (h : List Entry) → IsLegal g h → total g.passes (λ p. (held_of (part_of h p) u).rejects) ≡ (state_of h u).rejects }
    ensures counts { (g : Machine) (p u : ℕ) (h : List Entry) → IsLegal g h → rejects (part_of h p) u ≡ (held_of (part_of h p) u).rejects + withdraws (part_of h p) u }
    ensures flags { (g : Machine) (u : ℕ) (h : List Entry) → IsLegal g h → (held_of (part_of h HUB) u).flags ≡ (state_of h u).flags }
{}

/// A queued URB is owed a Link, in its home's line or pending there, in one of them and once. Any other is in none.
pub fn a_queued_urb_is_in_one_place()
    ensures { (g : Machine) (u : ℕ) (h : List Entry) → IsLegal g h → Placed g h u }
{}

/// Accepted Submits and Gives of an URB take turns, and the handlers that run are its Gives less their Ends.
pub fn submits_and_gives_take_turns()
    ensures { (g : Machine) (u : ℕ) (h : List Entry) → IsLegal g h → TakesTurns h u }
{}

/// While a pass keeps an URB, it is not queued, no handler of it runs, and nothing has stirred it since that Quiet.
pub fn a_kept_urb_stays_quiet()
    ensures { (g : Machine) (p u : ℕ) (h : List Entry) → IsLegal g h → p < g.passes → keeps (part_of h p) u ≡ true → IsKept h p u }
{}

/// A pass keeps an URB exactly where it holds the URB since before a Quiet of it, without a break.
pub fn an_urb_is_kept_since_a_quiet()
    ensures { (m : List Entry) (u : ℕ) → (keeps m u ≡ true) ↔ IsHeldSinceQuiet m u }
{}

/// In an episode exactly one entry settles a status, a Mark that answered EINPROGRESS or a Finish that answered true,
/// and the Give answers this status.
pub fn an_episode_has_one_status()
    ensures { (g : Machine) (h : List Entry) (u number : ℕ) (within : List Entry) (give : Entry) → IsLegal g h → HasEpisode h u number within give → HasOneStatus u within give.answer }
{}

/// A Claim that answers a number answers the last Rest of its URB, and no other Claim stands between the two.
pub fn a_rest_has_one_claimer()
    ensures { (g : Machine) (before : List Entry) (claim : Entry) (behind : List Entry) (u number : ℕ) → IsLegal g (before ++ claim ∷ behind) → claim.event ≡ Claim record { 0 = u } → claim.answer ≡ Number (Some number) → EndsWithRest before u number }
{}
