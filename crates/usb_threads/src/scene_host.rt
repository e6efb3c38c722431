//! A scene's host, as the threads of a run share it.
ghost use Rattle.std.specs.Prelude.{◌≡◌, ◌<◌, ◌++◌, ◌∷◌, ℕ, List, Option, [], All, IfOk, OnErr, length, map, true, false};
ghost use Rattle.std.specs.List.{zip};
ghost use Rattle.usb_types.specs.declared.errno.Code.{Code as CodeOf};
ghost use Rattle.usb_types.specs.declared.urb.Flag.TheVariants as flag;
ghost use Rattle.usb_machine.specs.declared.entry.TheConstants.{HUB};
ghost use Rattle.usb_machine.specs.declared.transfer.Transfer.{Transfer};
ghost use Rattle.usb_machine.specs.Parts.{held_of, keeps};
ghost use Rattle.usb_machine.specs.Calls.{unlink_entries, block_entries, unblock_entries, kill_entries, poison_entries, flush_entries, unflag_entries};
ghost use Rattle.usb_machine.specs.Fresh.{Begins, Looked, Sound};
ghost use Rattle.usb_machine.specs.HostCalls.{number_of};
ghost use Rattle.usb_machine.specs.Tokens.{IsClosed};
ghost use Rattle.usb_scene.specs.WellFormed.{IsCall};
ghost use Rattle.usb_prepare.specs.Layout.{urb_count};
ghost use Rattle.usb_prepare.specs.Ends.{ends_of};
ghost use Rattle.usb_prepare.specs.Below.{below};
ghost use Rattle.usb_trace.specs.declared.rows.HostCall.TheVariants as host_call;
ghost use Rattle.usb_trace.specs.Plan.{machine_of, main_pass, pass_of, read_of, host_call_of, submit_fault, fresh};
ghost use Rattle.usb_trace.specs.Claims.{claimed_by, numbers_of};
ghost use Rattle.usb_trace.specs.Run.{urbs_of, submit_of, seen_quiet, IsShapeAnswer, drivers_told};
ghost use Rattle.usb_trace.specs.Rows.{end_of};
ghost use Rattle.usb_threads.specs.Passes.{WentOn};
ghost use Rattle.usb_threads.specs.MainPass.{read_answered};
ghost use Rattle.usb_threads.specs.Turning.{Turned};

use std::alloc::Global;
use std::sync::Wait;
use usb_class::Told;
use usb_scene::Call;
use usb_trace::{EndReceived, GivebackRow, HostCall};
use usb_types::{Code, List, Memory};

/// What a turn of the controller came to.
#[derive(Drop)]
pub struct Turn {
    /// What it gave back, if anything. Where memory ran out for it, the error.
    pub given: Result<Option<GivebackRow>, Memory>,
    /// Whether it took, moved, used or gave back anything.
    pub changed: bool,
}

/// What the controller leaves for the report of a run.
#[derive(Drop)]
pub struct Left {
    /// Of each binding, by its place, what its driver reports.
    pub told: List<Told>,
    /// Of each endpoint, by its number, what it acknowledged.
    pub ends: List<EndReceived>,
}

/// The host of a scene. Its threads share it, each from a seat of its own.
pub trait SceneHost: Drop {
    type Seat: Drop + Send;

    /// The server's token, with the controller and the handlers.
    type Server: Drop + Send;

    /// The seats that no thread has.
    type Spare: Drop + Send;

    type Closed: Drop + Send;

    ghost use Rattle.std.specs.Prelude.{ℕ, List};
    ghost use Rattle.usb_machine.specs.declared.entry.Entry.{Entry};
    ghost use Rattle.usb_machine.specs.Fresh.{Known};
    ghost use Rattle.usb_scene.specs.declared.scene.Scene.{Scene};
    ghost use Rattle.usb_trace.specs.Run.{Giveback};

    /// The scene that it is made for.
    ghost scene: { Self → Scene };

    /// The seat is one of this host's.
    ghost is_of: { Self → Self.Seat → Type 0 };

    /// What is known in a seat.
    ghost known: { Self.Seat → Known };

    /// The server is this host's, and a turn may be made on it.
    ghost serves: { Self → Self.Server → Type 0 };

    /// What the server's pass knows.
    ghost own: { Self.Server → Known };

    /// The devices, the pending transfers and the handlers have come as far as these givebacks.
    ghost after: { Self → Self.Server → List Giveback → Type 0 };

    /// These are all other seats of this host, of which none was used.
    ghost is_spare: { Self → Self.Spare → Type 0 };

    /// What is known in them.
    ghost spares: { Self.Spare → List Known };

    ghost history: { Self.Closed → List Entry };

    /// How many URBs there are.
    fn urbs(&self) -> u32
        ensures { result ≡ urb_count (scene self.now) };

    /// What a call of the scene does.
    fn host_call(&self, call: &Call) -> HostCall
        ensures { result ≡ host_call_of (scene self.now) call.now };

    /// Main submits the read that a driver keeps with an URB, where there is one and its endpoint takes it.
    fn read<R: Wait>(
        &self,
        rt: &R,
        alloc: Global,
        seat: &mut Self::Seat,
        urb: u32,
    ) -> Result<(), Memory>
        requires here { is_of self.now seat.old }
        requires main { (known seat.old).number ≡ main_pass (scene self.now) }
        requires near { urb < urb_count (scene self.now) }
        ensures here { is_of self.now seat.new }
        ensures read { IfOk result (λ _. (a : CodeOf) × WentOn (machine_of (scene self.now)) (known seat.old) (known seat.new) (read_answered (scene self.now) urb (read_of (scene self.now) urb) a)) };

    /// Afterwards a seat has seen all that both had seen. Either may have seen more.
    fn meet<R: Wait>(&self, rt: &R, seat: &mut Self::Seat, other: &mut Self::Seat)
        requires here { is_of self.now seat.old }
        requires there { is_of self.now other.old }
        ensures here { is_of self.now seat.new }
        ensures there { is_of self.now other.new }
        ensures seat { Looked (machine_of (scene self.now)) (known seat.old) (known seat.new) }
        ensures other { Looked (machine_of (scene self.now)) (known other.old) (known other.new) }
        ensures met { Begins (known seat.new).seen (known other.old).seen };

    /// The same of the server.
    fn meet_server<R: Wait>(&self, rt: &R, server: &mut Self::Server, other: &mut Self::Seat)
        requires serves { serves self.now server.old }
        requires there { is_of self.now other.old }
        ensures serves { serves self.now server.new }
        ensures there { is_of self.now other.new }
        ensures server { Looked (machine_of (scene self.now)) (own server.old) (own server.new) }
        ensures other { Looked (machine_of (scene self.now)) (known other.old) (known other.new) }
        ensures met { Begins (own server.new).seen (known other.old).seen }
        ensures after { (rounds : List Giveback) → after self.now server.old rounds → after self.now server.new rounds };

    /// Submits an URB as a call says. Answers the fault of the transfer's shape, or what the gate says.
    fn submit<R: Wait>(
        &self,
        rt: &R,
        alloc: Global,
        seat: &mut Self::Seat,
        urb: u32,
        call: &Call,
    ) -> Result<Code, Memory>
        requires here { is_of self.now seat.old }
        requires call { IsCall (scene self.now) call.now }
        requires does { host_call_of (scene self.now) call.now ≡ host_call.Submit urb }
        ensures here { is_of self.now seat.new }
        ensures answer { IfOk result (IsShapeAnswer (submit_fault (scene self.now) urb call.now)) }
        ensures sent { IfOk result (λ a. WentOn (machine_of (scene self.now)) (known seat.old) (known seat.new) (submit_of (submit_fault (scene self.now) urb call.now) (known seat.old).number urb (fresh (scene self.now) urb call.now) a)) };

    /// Unlinks an URB.
    fn unlink<R: Wait>(&self, rt: &R, seat: &mut Self::Seat, urb: u32) -> Code
        requires here { is_of self.now seat.old }
        requires near { urb < urb_count (scene self.now) }
        ensures here { is_of self.now seat.new }
        ensures marked { WentOn (machine_of (scene self.now)) (known seat.old) (known seat.new) (unlink_entries (known seat.old).number urb result) };

    /// Raises a reject.
    fn reject<R: Wait>(&self, rt: &R, seat: &mut Self::Seat, urb: u32)
        requires here { is_of self.now seat.old }
        requires near { urb < urb_count (scene self.now) }
        requires few { (held_of (known seat.old).mine urb).rejects < 255 }
        ensures here { is_of self.now seat.new }
        ensures rejected { WentOn (machine_of (scene self.now)) (known seat.old) (known seat.new) (block_entries (known seat.old).number urb) };

    /// Withdraws a reject.
    fn withdraw<R: Wait>(&self, rt: &R, seat: &mut Self::Seat, urb: u32)
        requires here { is_of self.now seat.old }
        requires near { urb < urb_count (scene self.now) }
        requires held { 0 < (held_of (known seat.old).mine urb).rejects }
        ensures here { is_of self.now seat.new }
        ensures withdrawn { WentOn (machine_of (scene self.now)) (known seat.old) (known seat.new) (unblock_entries (known seat.old).number urb) };

    /// Kills an URB, and answers the number of what rested with it.
    fn kill<R: Wait>(&self, rt: &R, seat: &mut Self::Seat, urb: u32) -> Option<u64>
        requires here { is_of self.now seat.old }
        requires near { urb < urb_count (scene self.now) }
        requires few { (held_of (known seat.old).mine urb).rejects < 255 }
        ensures here { is_of self.now seat.new }
        ensures killed { (a : CodeOf) × (rest : Option Transfer) × (result ≡ number_of rest) × WentOn (machine_of (scene self.now)) (known seat.old) (known seat.new) (kill_entries (known seat.old).number urb a result)
            × (claimed_by (known seat.old).number (known seat.new).seen ≡ claimed_by (known seat.old).number (known seat.old).seen ++ (urb, rest) ∷ []) };

    /// Poisons an URB, and answers the number of what rested with it.
    fn poison<R: Wait>(&self, rt: &R, seat: &mut Self::Seat, urb: u32) -> Option<u64>
        requires here { is_of self.now seat.old }
        requires near { urb < urb_count (scene self.now) }
        requires few { (held_of (known seat.old).mine urb).rejects < 255 }
        ensures here { is_of self.now seat.new }
        ensures poisoned { (a : CodeOf) × (rest : Option Transfer) × (result ≡ number_of rest) × WentOn (machine_of (scene self.now)) (known seat.old) (known seat.new) (poison_entries (known seat.old).number urb a result)
            × (claimed_by (known seat.old).number (known seat.new).seen ≡ claimed_by (known seat.old).number (known seat.old).seen ++ (urb, rest) ∷ []) };

    /// The hub takes the host down. Where memory runs out, nothing was done.
    fn take_down<R: Wait>(&self, rt: &R, alloc: Global, seat: &mut Self::Seat) -> Result<(), Memory>
        requires here { is_of self.now seat.old }
        requires hub { (known seat.old).number ≡ HUB }
        requires up { (u : ℕ) → u < urb_count (scene self.now) → (held_of (known seat.old).mine u).flags.down ≡ false }
        ensures here { is_of self.now seat.new }
        ensures down { IfOk result (λ _. (marks : List CodeOf) × (rests : List (Option Transfer)) × (length marks ≡ urb_count (scene self.now)) × (length rests ≡ urb_count (scene self.now))
            × WentOn (machine_of (scene self.now)) (known seat.old) (known seat.new) (flush_entries (known seat.old).number flag.Down (urbs_of (scene self.now)) marks (numbers_of rests))
            × (claimed_by (known seat.old).number (known seat.new).seen ≡ claimed_by (known seat.old).number (known seat.old).seen ++ zip (urbs_of (scene self.now)) rests)) };

    /// And up again.
    fn bring_up<R: Wait>(&self, rt: &R, seat: &mut Self::Seat)
        requires here { is_of self.now seat.old }
        requires hub { (known seat.old).number ≡ HUB }
        requires down { (u : ℕ) → u < urb_count (scene self.now) → (held_of (known seat.old).mine u).flags.down ≡ true }
        ensures here { is_of self.now seat.new }
        ensures up { WentOn (machine_of (scene self.now)) (known seat.old) (known seat.new) (unflag_entries (known seat.old).number flag.Down (urbs_of (scene self.now))) };

    /// Rejects an URB, and waits until it is quiet. The reject stays.
    fn see_quiet<R: Wait>(&self, rt: &R, seat: &mut Self::Seat, urb: u32)
        requires here { is_of self.now seat.old }
        requires near { urb < urb_count (scene self.now) }
        requires few { (held_of (known seat.old).mine urb).rejects < 255 }
        ensures here { is_of self.now seat.new }
        ensures seen { WentOn (machine_of (scene self.now)) (known seat.old) (known seat.new) (seen_quiet (known seat.old).number urb) };

    /// Wakes the endpoints and makes one turn of the controller, with the handler of what it gives back. Where memory runs
    /// out for the handler or for what is told of it, the error is told, and turns may go on.
    fn turn<R: Wait>(&self, rt: &R, alloc: Global, server: &mut Self::Server) -> Turn
        requires serves { serves self.now server.old }
        ensures serves { serves self.now server.new }
        ensures turned { (rounds : List Giveback) → after self.now server.old rounds → IfOk result.given (λ given. Turned (scene self.now) rounds (own server.old) (own server.new) given (after self.now server.new)) };

    /// Ends the history, with all seats in hand: the threads' in order, main's, which keeps each URB quiet, and those that no
    /// thread has.
    fn close(
        self,
        alloc: Global,
        threads: Vec<Self::Seat>,
        main: Self::Seat,
        spare: Self::Spare,
        server: Self::Server,
    ) -> Result<(Self::Closed, Left), Memory>
        requires threads { All (is_of self) threads.items }
        requires main { is_of self main }
        requires spare { is_spare self spare }
        requires server { serves self server }
        requires numbers { map (λ p. p.number) (map known threads.items) ≡ map (pass_of (scene self)) (below (length (scene self).threads)) }
        requires main_number { (known main).number ≡ main_pass (scene self) }
        requires quiet { (u : ℕ) → u < urb_count (scene self) → keeps (known main).mine u ≡ true }
        ensures closed { IfOk result (λ c. IsClosed (machine_of (scene self)) (history c.0) (own server ∷ known main ∷ map known threads.items ++ spares spare)) }
        ensures left { (rounds : List Giveback) → after self server rounds → IfOk result (λ c. (c.1.told ≡ drivers_told (scene self) rounds) × (c.1.ends ≡ map (end_of (scene self) rounds) (below (ends_of (scene self))))) };

    /// The passes that no thread has made nothing.
    ghost idle: { (h : Self) (x : Self.Spare) → is_spare h x → All (λ p. p.mine ≡ []) (spares x) };
}
