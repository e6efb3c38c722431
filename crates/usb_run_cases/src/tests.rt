//! Tests of the program.
mod bad_calls;
mod bad_scenes;
mod calling;
mod class_scenes;
mod devices;
mod drivers;
mod interfaces;
mod limits;
mod printer_scenes;
mod program;
mod scenes;
mod serial_scenes;
