//! What matching, probing and cancelling mean together.
ghost use Rattle.std.specs.Prelude.{◌≡◌, ◌≢◌, ◌↔◌, ◌+◌, ◌≤◌, ◌==◌, ℕ, List, All, AllPairs, find, map, option_map, length, slice_index, Some, IsSome, Ok, Err};
ghost use Rattle.std.specs.List.{AllByRecursion, concat};
ghost use Rattle.usb_ctrl.specs.declared.enumerator.Attached.{Attached};
ghost use Rattle.usb_machine.specs.Queues.{HomeIsBelow};
ghost use Rattle.usb_bind.specs.declared.row.Driver.{Driver};
ghost use Rattle.usb_bind.specs.declared.row.IdRow.{IdRow};
ghost use Rattle.usb_bind.specs.declared.bound.Bound.{Bound};
ghost use Rattle.usb_bind.specs.declared.fault.ProbeFault.{ProbeFault};
ghost use Rattle.usb_bind.specs.declared.fault.ClaimFault.TheVariants.{Busy};
ghost use Rattle.usb_desc.specs.declared.tree.ConfigTree.{ConfigTree};
ghost use Rattle.usb_desc.specs.declared.tree.Alt.{Alt};
ghost use Rattle.usb_desc.specs.declared.tree.End.{End};
ghost use Rattle.usb_desc.specs.Good.{IsExtra};
ghost use Rattle.usb_bind.specs.Interfaces.{interface_at, interfaces_of, host_ends, place_of};
ghost use Rattle.usb_bind.specs.Needs.{Need, is_union, union_in, end_for, needed, roles_of};
ghost use Rattle.usb_types.specs.declared.urb.Role.{Role};
ghost use Rattle.usb_bind.specs.Pool.{Homes};
ghost use Rattle.usb_bind.specs.Board.{BoardValue, AreThere, attached_at, holder_of, claim_fault, without, released_all, with_binding, claim_of, urb_of_role};
ghost use Rattle.usb_bind.specs.Probe.{probed, board_after, pool_after};
ghost use Rattle.usb_bind.specs.Laws.{Binds, Agrees};

/// What holds where a probe binds an interface.
pub fn what_a_probe_binds()
    ensures { (board : BoardValue) (pool : Homes) (rows : List IdRow) (device interface : ℕ) (b : Bound)
        → probed board pool rows device interface ≡ Ok b → Binds board pool rows device interface b }
{}

/// A probe that is refused changes neither the board nor the pool.
pub fn a_refused_probe_changes_nothing()
    ensures { (board : BoardValue) (pool : Homes) (rows : List IdRow) (device interface : ℕ) (fault : ProbeFault)
        → probed board pool rows device interface ≡ Err fault
        → (board_after board (probed board pool rows device interface) ≡ board) × (pool_after board pool rows device interface ≡ pool) }
{}

/// Cancelling right after a probe restores board and pool.
pub fn a_cancel_undoes_a_probe()
    ensures { (board : BoardValue) (pool : Homes) (rows : List IdRow) (device interface : ℕ) (b : Bound)
        → probed board pool rows device interface ≡ Ok b
        → (without (board_after board (probed board pool rows device interface)) b ≡ board)
        × (released_all (pool_after board pool rows device interface) b.urbs ≡ pool) }
{}

/// No URB occurs twice among the bindings, and each is out: a probe keeps it so.
pub fn a_probe_keeps_urbs_apart()
    ensures { (board : BoardValue) (pool : Homes) (rows : List IdRow) (device interface : ℕ)
        → Agrees board.bindings pool
        → Agrees (board_after board (probed board pool rows device interface)).bindings (pool_after board pool rows device interface) }
{}

/// A claim keeps it so.
pub fn a_claim_keeps_urbs_apart()
    ensures { (board : BoardValue) (pool : Homes) (by : Driver) (device interface : ℕ)
        → Agrees board.bindings pool → Agrees (with_binding board (claim_of by device interface)).bindings pool }
{}

/// The interface with a number is the one that has it among the interfaces.
pub fn an_interface_is_found_by_its_number()
    ensures { (config : ConfigTree) (number : ℕ)
        → interface_at config number ≡ find (λ (a : Alt). a.number == number) (interfaces_of config) }
{}

/// No address occurs twice among the endpoints of the host after endpoint 00, and 00 is not among them.
pub fn an_address_stands_once()
    ensures { (config : ConfigTree)
        → AllPairs (λ (e f : End). e.address ≢ f.address) (host_ends config) × All (λ (e : End). e.address ≢ 0) (host_ends config) }
{}

/// An endpoint that a driver finds has a place in the host, so a driver lacks nothing but endpoints and its data interface.
pub fn an_endpoint_has_its_place()
    ensures { (driver : Driver) (config : ConfigTree) (number : ℕ) (alt : Alt) (role : Role) (e : End)
        → interface_at config number ≡ Some alt → end_for driver config alt role ≡ Some e → IsSome (place_of config e.address) }
{}

/// A claim of an interface is answered with the driver that holds it, exactly where one does.
pub fn a_held_interface_is_busy()
    ensures { (board : BoardValue) (device interface : ℕ) (driver : Driver)
        → All (AreThere board) board.bindings
        → (claim_fault board device interface ≡ Some (Busy driver)) ↔ (holder_of board device interface ≡ Some driver) }
{}

/// What a driver needs is an endpoint for each of its roles, in order.
pub fn a_driver_needs_its_roles()
    ensures { (driver : Driver) (config : ConfigTree) (alt : Alt) (needs : List Need)
        → needed driver config alt ≡ Some needs → map (λ (n : Need). n.role) needs ≡ roles_of driver }
{}

/// A binding that a probe makes has an URB for each role of its driver. One of a claim by itself has none.
pub fn a_binding_has_its_urbs()
    ensures { (board : BoardValue) (pool : Homes) (rows : List IdRow) (device interface : ℕ) (b : Bound)
        → probed board pool rows device interface ≡ Ok b
        → AllByRecursion (λ role. IsSome (urb_of_role b role)) (roles_of b.driver) }
{}

/// The homes in a pool are endpoints of the host, if they were and those of the device are: a probe keeps it so.
pub fn a_probe_keeps_homes_in_the_host()
    ensures { (board : BoardValue) (pool : Homes) (rows : List IdRow) (device interface ends : ℕ)
        → All (HomeIsBelow ends) pool
        → ((a : Attached) → attached_at board device ≡ Some a → slice_index board.firsts device + 1 + length (host_ends a.config) ≤ ends)
        → All (HomeIsBelow ends) (pool_after board pool rows device interface) }
{}

/// In extras that are whole descriptors the first union is the first of them that is one.
pub fn a_union_is_found_among_extras()
    ensures { (pieces : List (List ℕ)) → AllByRecursion IsExtra pieces
        → union_in 0 (concat pieces) ≡ option_map (λ d. slice_index d 4) (find is_union pieces) }
{}
