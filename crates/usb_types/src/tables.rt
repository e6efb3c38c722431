//! The tables: errnos, usages, standard requests, classes and calls.
ghost use Rattle.std.specs.Prelude.{◌≡◌};
ghost use Rattle.usb_types.specs.Rows.{errno_table, usage_table, request_table, class_table, call_table};
ghost use Rattle.usb_types.specs.Table.{IsTable, entries};

use crate::table::Row;

// Rows, each written as its code and its name. The tables are constants, whose proofs take less time than those of
// arrays that are built.
macro_rules! rows {
    ($($code:literal $name:literal),* $(,)?) => {
        [$(Row { code: $code, name: $name }),*]
    };
}

const ERRNOS: [Row; 18] = rows! {
    1 "EPERM", 2 "ENOENT", 8 "ENOEXEC", 11 "EAGAIN", 12 "ENOMEM", 16 "EBUSY", 19 "ENODEV",
    22 "EINVAL", 32 "EPIPE", 43 "EIDRM", 53 "EBADR", 71 "EPROTO", 75 "EOVERFLOW",
    90 "EMSGSIZE", 104 "ECONNRESET", 108 "ESHUTDOWN", 115 "EINPROGRESS", 121 "EREMOTEIO",
};

/// The errnos, by the numbers of Linux's `errno.h`.
pub fn errnos() -> [Row; 18]
    ensures rows { entries result ≡ errno_table }
    ensures table { IsTable (entries result) }
{
    ERRNOS
}

const USAGES: [Row; 66] = rows! {
    0x04 "a", 0x05 "b", 0x06 "c", 0x07 "d", 0x08 "e", 0x09 "f", 0x0A "g", 0x0B "h",
    0x0C "i", 0x0D "j", 0x0E "k", 0x0F "l", 0x10 "m", 0x11 "n", 0x12 "o", 0x13 "p",
    0x14 "q", 0x15 "r", 0x16 "s", 0x17 "t", 0x18 "u", 0x19 "v", 0x1A "w", 0x1B "x",
    0x1C "y", 0x1D "z", 0x1E "1", 0x1F "2", 0x20 "3", 0x21 "4", 0x22 "5", 0x23 "6",
    0x24 "7", 0x25 "8", 0x26 "9", 0x27 "0", 0x28 "enter", 0x29 "esc", 0x2A "backspace",
    0x2B "tab", 0x2C "space", 0x39 "capslock", 0x3A "f1", 0x3B "f2", 0x3C "f3", 0x3D "f4",
    0x3E "f5", 0x3F "f6", 0x40 "f7", 0x41 "f8", 0x42 "f9", 0x43 "f10", 0x44 "f11",
    0x45 "f12", 0x4F "right", 0x50 "left", 0x51 "down", 0x52 "up", 0xE0 "leftctrl",
    0xE1 "leftshift", 0xE2 "leftalt", 0xE3 "leftgui", 0xE4 "rightctrl", 0xE5 "rightshift",
    0xE6 "rightalt", 0xE7 "rightgui",
};

/// The keys of a keyboard, by their usages in the HID usage tables.
pub fn usages() -> [Row; 66]
    ensures rows { entries result ≡ usage_table }
    ensures table { IsTable (entries result) }
{
    USAGES
}

const REQUESTS: [Row; 11] = rows! {
    0 "GET_STATUS", 1 "CLEAR_FEATURE", 3 "SET_FEATURE", 5 "SET_ADDRESS",
    6 "GET_DESCRIPTOR", 7 "SET_DESCRIPTOR", 8 "GET_CONFIGURATION", 9 "SET_CONFIGURATION",
    10 "GET_INTERFACE", 11 "SET_INTERFACE", 12 "SYNCH_FRAME",
};

/// The standard requests of USB 2.0.
pub fn requests() -> [Row; 11]
    ensures rows { entries result ≡ request_table }
    ensures table { IsTable (entries result) }
{
    REQUESTS
}

const CLASSES: [Row; 7] = rows! {
    0x02 "comm", 0x03 "hid", 0x07 "printer", 0x08 "storage", 0x09 "hub", 0x0A "cdcdata",
    0xFF "vendor",
};

/// The classes of interfaces that have a name in a report.
pub fn classes() -> [Row; 7]
    ensures rows { entries result ≡ class_table }
    ensures table { IsTable (entries result) }
{
    CLASSES
}

const CALLS: [Row; 30] = rows! {
    1 "submit", 2 "unlink", 3 "kill", 4 "poison", 5 "unpoison", 6 "block", 7 "unblock",
    8 "serve", 9 "add", 10 "off", 11 "first", 12 "killall", 13 "poisonall",
    14 "unpoisonall", 15 "unlinkall", 16 "scuttle", 17 "empty", 18 "unplug", 19 "reset",
    20 "unbind", 21 "down", 22 "up", 23 "led", 24 "write", 25 "coding", 26 "control",
    27 "sendbreak", 28 "print", 29 "status", 30 "softreset",
};

/// The calls of a script.
pub fn calls() -> [Row; 30]
    ensures rows { entries result ≡ call_table }
    ensures table { IsTable (entries result) }
{
    CALLS
}
