//! What the windows and the events of a printer mean.
ghost use Rattle.std.specs.Prelude.{◌≡◌, ◌≢◌, ◌≤◌, ◌+◌, ◌++◌, ◌∷◌, [], ℕ, List, All};
ghost use Rattle.std.specs.List.{flat_map};
ghost use Rattle.usb_types.specs.declared.errno.Code.{Code};
ghost use Rattle.usb_types.specs.declared.errno.Code.TheVariants.{Zero};
ghost use Rattle.usb_types.specs.declared.urb.Role.{Role};
ghost use Rattle.usb_types.specs.declared.urb.Action.TheVariants.{Again};
ghost use Rattle.usb_machine.specs.declared.transfer.Transfer.{Transfer};
ghost use Rattle.usb_printer.specs.declared.event.Event.TheVariants.{Job};
ghost use Rattle.usb_machine.specs.Completion.{Completion};
ghost use Rattle.usb_printer.specs.Jobs.{events_of, print_events, action_of};
ghost use Rattle.usb_printer.specs.Whole.{IsJob, WentWell, printed, moved_in, begins_at};

/// What was reported stays reported: completions that follow add events after those so far.
pub fn events_only_grow()
    ensures { (id : List ℕ) (before after : List Completion) → print_events id (before ++ after) ≡ print_events id before ++ flat_map events_of after }
{}

/// A job whose windows all went well, the first from its first byte, was printed in order, each byte once.
pub fn a_job_is_printed_in_order()
    ensures { (first : Completion) (more : List Completion) → IsJob (first ∷ more) → first.transfer.from ≡ 0
        → All WentWell (first ∷ more) → printed (first ∷ more) ≡ first.transfer.buf }
{}

/// After a window that failed no later window of the job is sent.
pub fn no_window_follows_a_fault()
    ensures { (before : List Completion) (c : Completion) (after : List Completion) → IsJob (before ++ c ∷ after) → c.status ≢ Zero → after ≡ [] }
{}

/// A window that the driver asks for has at most 8,192 bytes.
pub fn a_window_is_short()
    ensures { (role : Role) (status : Code) (t : Transfer) (from len : ℕ) → action_of role status t ≡ Again from len → len ≤ 8192 }
{}

/// A job that came to its end has one line, which comes with its last window. One whose next window is refused has none.
pub fn a_job_has_one_line()
    ensures { (before : List Completion) (last : Completion) → IsJob (before ++ last ∷ [])
        → flat_map events_of (before ++ last ∷ []) ≡ Job last.transfer.number (last.transfer.from + last.transfer.actual) last.status ∷ [] }
{}

/// The bytes of that line are all that were moved, where the first window begins at the first byte and those before the
/// last were moved whole.
pub fn the_line_counts_all_windows()
    ensures { (before : List Completion) (last : Completion) → IsJob (before ++ last ∷ []) → begins_at (before ++ last ∷ []) ≡ 0
        → All WentWell before → last.transfer.from + last.transfer.actual ≡ moved_in (before ++ last ∷ []) }
{}
