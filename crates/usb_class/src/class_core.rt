//! The core of any class driver, and what it reports.
ghost use Rattle.std.specs.Prelude.{◌≡◌, ◌++◌, ◌∷◌, [], true, false, if◌then◌else◌, List, None, IfSome, OnSome, IfNone, IfOk, OnOk, OnErr};
ghost use Rattle.usb_machine.specs.Shapes.{HasWindow};
ghost use Rattle.usb_machine.specs.Completion.{Completion};
ghost use Rattle.usb_class.specs.Origin.{Origin};
ghost use Rattle.usb_class.specs.Questions.{question_by, still_out};
ghost use Rattle.usb_class.specs.Handler.{action_of};
ghost use Rattle.usb_class.specs.Told.{told_of};
ghost use Rattle.usb_class.specs.Core.{IsCore, driver_in, is_asking, CanComplete, CanUnask};

use std::alloc::Global;
use usb_acm::{Acm, Event as PortEvent};
use usb_bind::Driver;
use usb_hid::{Event, Keyboard};
use usb_machine::Transfer;
use usb_printer::{Event as PrinterEvent, Printer};
use usb_types::{Action, Code, List, Memory, Role};

/// The core of a class driver.
#[derive(Drop)]
pub enum Core {
    Keyboard(Keyboard),
    Acm(Acm),
    Printer(Printer),
}

/// What a driver reports of its device.
#[derive(Drop)]
pub enum Told {
    Keys(List<Event>),
    /// What happened at a serial port, and how many bytes came with reads that failed.
    Serial {
        events: List<PortEvent>,
        dropped: u64,
    },
    Jobs(List<PrinterEvent>),
}

impl Core {
    /// The core of a driver to which nothing came back yet, with the number of the question that it may ask by itself, its
    /// interface, and what the device reported when it was probed.
    pub fn new(
        alloc: Global,
        driver: Driver,
        number: u64,
        interface: u8,
        id: &[u8],
    ) -> Result<Core, Memory>
        ensures core { IfOk result (λ core. IsCore driver record { number = number; interface = interface; id = id.now } [] core) }
        ensures quiet { IfOk result (λ core. is_asking core ≡ false) }
    {
        match driver {
            Driver::Keyboard => Ok(Core::Keyboard(Keyboard::new(alloc))),
            Driver::Acm => Ok(Core::Acm(Acm::new(alloc))),
            Driver::Printer => Ok(Core::Printer(Printer::new(alloc, number, interface, id)?)),
        }
    }

    /// Whether the driver has an URB for this purpose.
    pub fn has_for(&self, role: Role) -> bool
        ensures yes { result ≡ true → CanComplete self.now role }
        ensures no { result ≡ false → CanComplete self.now role → ⊥ }
    {
        match self {
            Core::Keyboard(_) => matches!(role, Role::In | Role::Ctl),
            Core::Acm(_) => !matches!(role, Role::In),
            Core::Printer(_) => matches!(role, Role::Write | Role::Ctl),
        }
    }

    /// Takes note of an URB that came back, and says what becomes of its transfer. A question that came back is no longer
    /// out. An `Err` changes nothing.
    pub fn complete(&mut self, role: Role, code: Code, t: &Transfer) -> Result<Action, Memory>
        requires role { CanComplete self.old role }
        requires window { HasWindow t.now }
        ensures action { (driver : Driver) (o : Origin) (done : List Completion) → IsCore driver o done self.old → IfOk result (λ action. action ≡ action_of driver role code t.now) }
        ensures own { IfOk result (λ action. action ≡ action_of (driver_in self.old) role code t.now) }
        ensures stands { (driver : Driver) (o : Origin) (done : List Completion) → IsCore driver o done self.old
            → OnOk result (IsCore driver o (done ++ record { role = role; status = code; transfer = t.now } ∷ []) self.new) }
        ensures asking { (driver : Driver) (o : Origin) (done : List Completion) → IsCore driver o done self.old
            → OnOk result (is_asking self.new ≡ still_out driver o role t.now (is_asking self.old)) }
        ensures memory { OnErr result (self.new ≡ self.old) }
    {
        match self {
            Core::Keyboard(keyboard) => keyboard.complete(role, code, t),
            Core::Acm(port) => port.complete(role, code, t),
            Core::Printer(printer) => printer.complete(role, code, t),
        }
    }

    /// Gives the question that the driver asks by itself, where it has one that is not out.
    pub fn ask(&mut self) -> Option<Transfer>
        ensures question { (driver : Driver) (o : Origin) (done : List Completion) → IsCore driver o done self.old
            → result ≡ (if is_asking self.old then None else question_by driver o) }
        ensures same { (driver : Driver) (o : Origin) (done : List Completion) → IsCore driver o done self.old → IsCore driver o done self.new }
        ensures out { OnSome result (is_asking self.new ≡ true) }
        ensures kept { IfNone result (self.new ≡ self.old) }
        ensures back { IfSome result (CanUnask self.new) }
    {
        match self {
            Core::Printer(printer) => printer.ask(),
            Core::Keyboard(_) | Core::Acm(_) => None,
        }
    }

    /// Takes the question back, as `ask` gave it.
    pub fn unask(&mut self, t: Transfer)
        requires { CanUnask self.old t }
        ensures same { (driver : Driver) (o : Origin) (done : List Completion) → IsCore driver o done self.old → IsCore driver o done self.new }
        ensures quiet { is_asking self.new ≡ false }
    {
        if let Core::Printer(printer) = self {
            printer.unask(t);
        }
    }

    /// What the driver reports of all that came back, with its memory.
    pub fn into_told(self) -> Told
        ensures { (driver : Driver) (o : Origin) (done : List Completion) → IsCore driver o done self → result ≡ told_of driver o done }
    {
        match self {
            Core::Keyboard(keyboard) => Told::Keys(keyboard.into_events()),
            Core::Acm(port) => {
                let dropped = port.dropped();
                Told::Serial {
                    events: port.into_events(),
                    dropped,
                }
            }
            Core::Printer(printer) => Told::Jobs(printer.into_events()),
        }
    }
}
