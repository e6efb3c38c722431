//! The first word of a line.
ghost use Rattle.std.specs.Prelude.{◌≡◌};
ghost use Rattle.usb_statement.specs.Statements.{device_bytes_of, urb_call_of, bare_call_of, interface_word_of, later_keyword, keyword_of};
ghost use Rattle.usb_statement.specs.Words.{urb_call_text, bare_call_text, interface_word_text};

use usb_text::is_text;

/// Bytes that a line gives its device: its device descriptor, its configuration, or a printer's id.
#[derive(Clone, Copy)]
pub enum DeviceBytes {
    Desc,
    Config,
    Id,
}

/// A call on an URB alone.
#[derive(Clone, Copy)]
pub enum UrbCall {
    Unlink,
    Kill,
    Poison,
    Unpoison,
    Block,
    Unblock,
}

impl UrbCall {
    /// The word of the call.
    pub fn word(self) -> &'static str
        ensures { result.now ≡ urb_call_text self }
    {
        match self {
            UrbCall::Unlink => "unlink",
            UrbCall::Kill => "kill",
            UrbCall::Poison => "poison",
            UrbCall::Unpoison => "unpoison",
            UrbCall::Block => "block",
            UrbCall::Unblock => "unblock",
        }
    }
}

/// A call on nothing.
#[derive(Clone, Copy)]
pub enum BareCall {
    Serve,
    Down,
    Up,
}

impl BareCall {
    /// The word of the call.
    pub fn word(self) -> &'static str
        ensures { result.now ≡ bare_call_text self }
    {
        match self {
            BareCall::Serve => "serve",
            BareCall::Down => "down",
            BareCall::Up => "up",
        }
    }
}

/// The word of a call on an interface that a driver has.
#[derive(Clone, Copy)]
pub enum InterfaceWord {
    Led,
    Write,
    Coding,
    Control,
    SendBreak,
    Print,
    Status,
    SoftReset,
}

impl InterfaceWord {
    /// How it is written.
    pub fn text(self) -> &'static str
        ensures { result.now ≡ interface_word_text self }
    {
        match self {
            InterfaceWord::Led => "led",
            InterfaceWord::Write => "write",
            InterfaceWord::Coding => "coding",
            InterfaceWord::Control => "control",
            InterfaceWord::SendBreak => "sendbreak",
            InterfaceWord::Print => "print",
            InterfaceWord::Status => "status",
            InterfaceWord::SoftReset => "softreset",
        }
    }
}

/// What the first word of a line may be.
#[derive(Clone, Copy)]
pub enum Keyword {
    Device,
    Ep,
    Bytes(DeviceBytes),
    Port,
    Answer,
    Urb,
    Thread,
    Submit,
    OnUrb(UrbCall),
    Alone(BareCall),
    OnInterface(InterfaceWord),
}

fn device_bytes(word: &[u8]) -> Option<DeviceBytes>
    ensures { result ≡ device_bytes_of word.now }
{
    if is_text(word, "desc") {
        Some(DeviceBytes::Desc)
    } else if is_text(word, "config") {
        Some(DeviceBytes::Config)
    } else if is_text(word, "id") {
        Some(DeviceBytes::Id)
    } else {
        None
    }
}

fn urb_call(word: &[u8]) -> Option<UrbCall>
    ensures { result ≡ urb_call_of word.now }
{
    if is_text(word, "unlink") {
        Some(UrbCall::Unlink)
    } else if is_text(word, "kill") {
        Some(UrbCall::Kill)
    } else if is_text(word, "poison") {
        Some(UrbCall::Poison)
    } else if is_text(word, "unpoison") {
        Some(UrbCall::Unpoison)
    } else if is_text(word, "block") {
        Some(UrbCall::Block)
    } else if is_text(word, "unblock") {
        Some(UrbCall::Unblock)
    } else {
        None
    }
}

fn bare_call(word: &[u8]) -> Option<BareCall>
    ensures { result ≡ bare_call_of word.now }
{
    if is_text(word, "serve") {
        Some(BareCall::Serve)
    } else if is_text(word, "down") {
        Some(BareCall::Down)
    } else if is_text(word, "up") {
        Some(BareCall::Up)
    } else {
        None
    }
}

fn interface_word(word: &[u8]) -> Option<InterfaceWord>
    ensures { result ≡ interface_word_of word.now }
{
    if is_text(word, "led") {
        Some(InterfaceWord::Led)
    } else if is_text(word, "write") {
        Some(InterfaceWord::Write)
    } else if is_text(word, "coding") {
        Some(InterfaceWord::Coding)
    } else if is_text(word, "control") {
        Some(InterfaceWord::Control)
    } else if is_text(word, "sendbreak") {
        Some(InterfaceWord::SendBreak)
    } else if is_text(word, "print") {
        Some(InterfaceWord::Print)
    } else if is_text(word, "status") {
        Some(InterfaceWord::Status)
    } else if is_text(word, "softreset") {
        Some(InterfaceWord::SoftReset)
    } else {
        None
    }
}

fn later_keyword(word: &[u8]) -> Option<Keyword>
    ensures { result ≡ later_keyword (device_bytes_of word.now) (urb_call_of word.now) (bare_call_of word.now) (interface_word_of word.now) }
{
    match (
        device_bytes(word),
        urb_call(word),
        bare_call(word),
        interface_word(word),
    ) {
        (Some(which), _, _, _) => Some(Keyword::Bytes(which)),
        (None, Some(call), _, _) => Some(Keyword::OnUrb(call)),
        (None, None, Some(call), _) => Some(Keyword::Alone(call)),
        (None, None, None, Some(which)) => Some(Keyword::OnInterface(which)),
        (None, None, None, None) => None,
    }
}

/// What the first word of a line asks for.
pub fn read_keyword(word: &[u8]) -> Option<Keyword>
    ensures { result ≡ keyword_of word.now }
{
    if is_text(word, "device") {
        Some(Keyword::Device)
    } else if is_text(word, "ep") {
        Some(Keyword::Ep)
    } else if is_text(word, "port") {
        Some(Keyword::Port)
    } else if is_text(word, "answer") {
        Some(Keyword::Answer)
    } else if is_text(word, "urb") {
        Some(Keyword::Urb)
    } else if is_text(word, "thread") {
        Some(Keyword::Thread)
    } else if is_text(word, "submit") {
        Some(Keyword::Submit)
    } else {
        later_keyword(word)
    }
}
