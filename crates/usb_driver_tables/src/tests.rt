//! Tests of the crates of the drivers.
mod completions;
mod keyboards;
mod notifications;
mod ports;
mod printers;
mod serial;
