//! What holds of each run of a scene, in whatever order its entries came.
ghost use Rattle.std.specs.Prelude.{ℕ, ◌≡◌, ◌==◌, true, false, List, [], ◌∷◌, ◌++◌, length, Option, Some, slice_get, filter, All, Contains};
ghost use Rattle.std.specs.List.{flat_map};
ghost use Rattle.usb_types.specs.declared.errno.Code.TheVariants.{Zero};
ghost use Rattle.usb_machine.specs.declared.entry.Entry.{Entry};
ghost use Rattle.usb_machine.specs.declared.transfer.Transfer.{Transfer};
ghost use Rattle.usb_machine.specs.HostCalls.{number_of};
ghost use Rattle.usb_machine.specs.Laws.{submits};
ghost use Rattle.usb_scene.specs.declared.scene.Scene.{Scene};
ghost use Rattle.usb_printer.specs.Whole.{IsMovedOn};
ghost use Rattle.usb_class.specs.Handler.{action_of};
ghost use Rattle.usb_prepare.specs.Ends.{shape_at};
ghost use Rattle.usb_prepare.specs.Layout.{home};
ghost use Rattle.usb_trace.specs.declared.owner.Owner.{Owner};
ghost use Rattle.usb_trace.specs.declared.rows.CallAnswer.TheVariants.{Buffer};
ghost use Rattle.usb_trace.specs.declared.rows.Outcome.TheVariants.{Again};
ghost use Rattle.usb_trace.specs.Script.{replies_from};
ghost use Rattle.usb_trace.specs.Plan.{owner_of, script_of, pass_of};
ghost use Rattle.usb_trace.specs.Due.{is_ruled};
ghost use Rattle.usb_trace.specs.Run.{CallRecord, claims_in, Giveback, IsRun, times_back, moved_in, resent, rounds_at, replies_in};
ghost use Rattle.usb_trace.specs.GivebackRow.{acked_at};
ghost use Rattle.usb_trace.specs.RunLaws.{IsGivenBack, first_ending, HasStatusBy, acked_packets, takes_packets, acked_window, IsJobInRun, IsForWrites, writes_of, writes_heard, left_with, IsLastRest};

/// An URB is given back as often as a submit of it was accepted.
pub fn each_accepted_urb_is_given_back_once()
    ensures { (s : Scene) (h : List Entry) (call_records : List CallRecord) (rounds : List Giveback) → IsRun s h call_records rounds
        → (u : ℕ) → submits h u ≡ times_back u rounds }
{}

/// The status of a giveback is that of the first unlink, kill or shutdown of its URB since the submit, where one came before the
/// transfer ended, and else the result that the replies make of the transfer.
pub fn a_status_is_the_first_unlinks_or_the_transfers()
    ensures { (s : Scene) (h : List Entry) (call_records : List CallRecord) (rounds : List Giveback) → IsRun s h call_records rounds
        → (k : ℕ) (r : Giveback) → slice_get rounds k ≡ Some r
        → (between : List Entry) × (IsGivenBack h k r between) × (HasStatusBy s r (first_ending r.urb between)) }
{}

/// An endpoint has received the packets that its replies acknowledged, one after another: of each giveback, where it takes
/// packets, as many full ones of the window as there are Acks. Where it answers by items, its replies are the first of its script.
pub fn an_endpoint_received_what_it_acknowledged()
    ensures packets { (s : Scene) (h : List Entry) (call_records : List CallRecord) (rounds : List Giveback) → IsRun s h call_records rounds
        → (e : ℕ) → acked_at s e rounds ≡ flat_map (λ r. acked_packets (shape_at s e) r.sent [] r.replies) (rounds_at s e rounds) }
    ensures windows { (s : Scene) (h : List Entry) (call_records : List CallRecord) (rounds : List Giveback) → IsRun s h call_records rounds
        → (e : ℕ) → takes_packets (shape_at s e) ≡ true → acked_at s e rounds ≡ flat_map (acked_window (shape_at s e)) (rounds_at s e rounds) }
    ensures replies { (s : Scene) (h : List Entry) (call_records : List CallRecord) (rounds : List Giveback) → IsRun s h call_records rounds
        → (e : ℕ) → is_ruled s e ≡ false → replies_in (rounds_at s e rounds) ≡ replies_from (script_of s e) 0 (length (replies_in (rounds_at s e rounds))) }
{}

/// A transfer that a handler submitted again, where the gate accepted it, is the next that comes back with its URB: for a driver's
/// URB, the transfer as it was moved, with the window that the driver asked for. It comes back under the same number, and with
/// that window.
pub fn a_transfer_that_goes_again_comes_back_next()
    ensures sent { (s : Scene) (h : List Entry) (call_records : List CallRecord) (rounds : List Giveback) → IsRun s h call_records rounds
        → (before : List Giveback) (r : Giveback) (middle : List Giveback) (next : Giveback) (after : List Giveback) → rounds ≡ before ++ r ∷ (middle ++ next ∷ after)
        → r.outcome ≡ Again Zero → next.urb ≡ r.urb → times_back r.urb middle ≡ 0 → next.sent ≡ resent s r }
    ensures brought { (s : Scene) (h : List Entry) (call_records : List CallRecord) (rounds : List Giveback) → IsRun s h call_records rounds
        → (before : List Giveback) (r : Giveback) (middle : List Giveback) (next : Giveback) (after : List Giveback) → rounds ≡ before ++ r ∷ (middle ++ next ∷ after)
        → r.outcome ≡ Again Zero → next.urb ≡ r.urb → times_back r.urb middle ≡ 0
        → ((moved_in s next).number ≡ r.sent.number) × ((moved_in s next).from ≡ (resent s r).from) × ((moved_in s next).len ≡ (resent s r).len) }
{}

/// Where a handler's submit of a driver's OUT transfer was accepted, the transfer that comes back next with the URB has the same
/// bytes, and the window that the driver asked for: of a printer, the next window of the job.
pub fn a_drivers_windows_follow_one_another()
    ensures { (s : Scene) (h : List Entry) (call_records : List CallRecord) (rounds : List Giveback) → IsRun s h call_records rounds
        → (before : List Giveback) (r : Giveback) (middle : List Giveback) (next : Giveback) (after : List Giveback) → rounds ≡ before ++ r ∷ (middle ++ next ∷ after)
        → r.outcome ≡ Again Zero → next.urb ≡ r.urb → times_back r.urb middle ≡ 0
        → (o : Owner) → owner_of s r.urb ≡ Some o → takes_packets (shape_at s (home s r.urb)) ≡ true
        → IsMovedOn (action_of o.driver o.role r.status (moved_in s r)) (moved_in s r) (moved_in s next) }
{}

/// What a printer's driver hears of its writes in a run is one job after another. The first window of each begins at the job's first
/// byte, each next one is the one that the driver asked for, and the job ends where the driver asks for no more, or is cut off where
/// the gate refuses the next one.
pub fn a_printers_windows_are_jobs()
    ensures heard { (s : Scene) (h : List Entry) (call_records : List CallRecord) (rounds : List Giveback) → IsRun s h call_records rounds
        → (u : ℕ) (writer : IsForWrites s u) → writes_heard s writer.owner.place rounds ≡ writes_of s (filter (λ r. r.urb == u) rounds) }
    ensures jobs { (s : Scene) (h : List Entry) (call_records : List CallRecord) (rounds : List Giveback) → IsRun s h call_records rounds
        → (u : ℕ) → IsForWrites s u
        → (jobs : List (List Giveback)) × (filter (λ r. r.urb == u) rounds ≡ flat_map (λ job. job) jobs) × (All (IsJobInRun s) jobs) }
{}

/// A transfer that a kill, a poison or a down claimed is the one that last rested with its URB. A giveback of that URB left it there: it
/// is the transfer that came back, or the one that the handler submitted again in vain, and has the number that was sent. A kill and
/// a poison answer the number of what they claimed.
pub fn what_a_call_claims_came_back()
    ensures rested { (s : Scene) (h : List Entry) (call_records : List CallRecord) (rounds : List Giveback) → IsRun s h call_records rounds
        → (d : CallRecord) → Contains call_records d → (u : ℕ) (t : Transfer) → Contains (claims_in s d) (u, Some t) → IsLastRest h (pass_of s d.thread) u t }
    ensures came_back { (s : Scene) (h : List Entry) (call_records : List CallRecord) (rounds : List Giveback) → IsRun s h call_records rounds
        → (d : CallRecord) → Contains call_records d → (u : ℕ) (t : Transfer) → Contains (claims_in s d) (u, Some t)
        → (r : Giveback) × (Contains rounds r) × (r.urb ≡ u) × (left_with s r ≡ Some t) × (t.number ≡ r.sent.number) }
    ensures told { (s : Scene) (h : List Entry) (call_records : List CallRecord) (rounds : List Giveback) → IsRun s h call_records rounds
        → (d : CallRecord) → Contains call_records d → (n : Option ℕ) → d.answer ≡ Buffer n
        → (u : ℕ) × (rest : Option Transfer) × (claims_in s d ≡ (u, rest) ∷ []) × (n ≡ number_of rest) }
{}
