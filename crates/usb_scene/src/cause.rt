//! Why a line of a scene is bad.
ghost use Rattle.std.specs.Prelude.{◌≡◌};
ghost use Rattle.usb_scene.specs.Causes.{cause_text};

use std::fmt;
use std::fmt::Display;

/// A cause against a line. Of several, the first in this order is the one that is reported.
#[derive(Clone, Copy, Debug, PartialEq)]
pub enum Cause {
    /// A byte that may not stand in a line.
    Byte,
    /// The first line with words is not the header, or there is none.
    Header,
    /// The first word is unknown, or does not belong in this place.
    Word,
    /// The words do not fit the row.
    Form,
    /// A name or an address that is not declared.
    Name,
    /// A name, an endpoint, a line or an option that was given before.
    Twice,
    /// A limit is passed.
    Limit,
    /// A reject is withdrawn that the script does not hold.
    Held,
    /// A call of the thread `hub` in another thread.
    HubOnly,
}

impl Cause {
    /// The cause's name.
    pub fn text(self) -> &'static str
        ensures { result.now ≡ cause_text self }
    {
        match self {
            Cause::Byte => "Byte",
            Cause::Header => "Header",
            Cause::Word => "Word",
            Cause::Form => "Form",
            Cause::Name => "Name",
            Cause::Twice => "Twice",
            Cause::Limit => "Limit",
            Cause::Held => "Held",
            Cause::HubOnly => "HubOnly",
        }
    }
}

impl Display for Cause {
    fn fmt<W: fmt::Write>(&self, f: &mut fmt::Formatter<W>) -> fmt::Result {
        f.write_str(self.text())
    }
}
