//! Errnos, and the answers and statuses that they make.
ghost use Rattle.std.specs.Prelude.{◌≡◌};
ghost use Rattle.usb_types.specs.Codes.{errno_number, errno_name, code_text};

/// A reason for a refusal, or the status of a transfer that failed. The names are Linux's.
#[derive(Clone, Copy, Debug, PartialEq)]
pub enum Errno {
    EPERM,
    ENOENT,
    ENOEXEC,
    EAGAIN,
    ENOMEM,
    EBUSY,
    ENODEV,
    EINVAL,
    EPIPE,
    EIDRM,
    EBADR,
    EPROTO,
    EOVERFLOW,
    EMSGSIZE,
    ECONNRESET,
    ESHUTDOWN,
    EINPROGRESS,
    EREMOTEIO,
}

impl Errno {
    /// The errno's number in Linux's `errno.h`.
    pub fn number(self) -> u32
        ensures { result ≡ errno_number self }
    {
        match self {
            Errno::EPERM => 1,
            Errno::ENOENT => 2,
            Errno::ENOEXEC => 8,
            Errno::EAGAIN => 11,
            Errno::ENOMEM => 12,
            Errno::EBUSY => 16,
            Errno::ENODEV => 19,
            Errno::EINVAL => 22,
            Errno::EPIPE => 32,
            Errno::EIDRM => 43,
            Errno::EBADR => 53,
            Errno::EPROTO => 71,
            Errno::EOVERFLOW => 75,
            Errno::EMSGSIZE => 90,
            Errno::ECONNRESET => 104,
            Errno::ESHUTDOWN => 108,
            Errno::EINPROGRESS => 115,
            Errno::EREMOTEIO => 121,
        }
    }

    /// The errno's name, as `EBUSY`.
    pub fn name(self) -> &'static str
        ensures { result.now ≡ errno_name self }
    {
        match self {
            Errno::EPERM => "EPERM",
            Errno::ENOENT => "ENOENT",
            Errno::ENOEXEC => "ENOEXEC",
            Errno::EAGAIN => "EAGAIN",
            Errno::ENOMEM => "ENOMEM",
            Errno::EBUSY => "EBUSY",
            Errno::ENODEV => "ENODEV",
            Errno::EINVAL => "EINVAL",
            Errno::EPIPE => "EPIPE",
            Errno::EIDRM => "EIDRM",
            Errno::EBADR => "EBADR",
            Errno::EPROTO => "EPROTO",
            Errno::EOVERFLOW => "EOVERFLOW",
            Errno::EMSGSIZE => "EMSGSIZE",
            Errno::ECONNRESET => "ECONNRESET",
            Errno::ESHUTDOWN => "ESHUTDOWN",
            Errno::EINPROGRESS => "EINPROGRESS",
            Errno::EREMOTEIO => "EREMOTEIO",
        }
    }
}

/// The answer of a call, or the status of a transfer: zero, or a fault.
#[derive(Clone, Copy, Debug, PartialEq)]
pub enum Code {
    Zero,
    Fault(Errno),
}

impl Code {
    /// The code as a report prints it: `0`, or `-` and the errno's name.
    pub fn text(self) -> &'static str
        ensures { result.now ≡ code_text self }
    {
        match self {
            Code::Zero => "0",
            Code::Fault(Errno::EPERM) => "-EPERM",
            Code::Fault(Errno::ENOENT) => "-ENOENT",
            Code::Fault(Errno::ENOEXEC) => "-ENOEXEC",
            Code::Fault(Errno::EAGAIN) => "-EAGAIN",
            Code::Fault(Errno::ENOMEM) => "-ENOMEM",
            Code::Fault(Errno::EBUSY) => "-EBUSY",
            Code::Fault(Errno::ENODEV) => "-ENODEV",
            Code::Fault(Errno::EINVAL) => "-EINVAL",
            Code::Fault(Errno::EPIPE) => "-EPIPE",
            Code::Fault(Errno::EIDRM) => "-EIDRM",
            Code::Fault(Errno::EBADR) => "-EBADR",
            Code::Fault(Errno::EPROTO) => "-EPROTO",
            Code::Fault(Errno::EOVERFLOW) => "-EOVERFLOW",
            Code::Fault(Errno::EMSGSIZE) => "-EMSGSIZE",
            Code::Fault(Errno::ECONNRESET) => "-ECONNRESET",
            Code::Fault(Errno::ESHUTDOWN) => "-ESHUTDOWN",
            Code::Fault(Errno::EINPROGRESS) => "-EINPROGRESS",
            Code::Fault(Errno::EREMOTEIO) => "-EREMOTEIO",
        }
    }
}
