//! The text of a scene: its grammar, its faults, and the scene that is read from it.
#![tactic(auto)]

mod call;
mod cause;
mod draft;
mod growth;
mod lines;
mod names;
mod operation;
mod operation_laws;
mod read;
mod rejects;
mod room;
mod rules;
mod scene;
mod scene_laws;

pub use cause::Cause;
pub use lines::{Line, split};
pub use operation::{InterfaceOp, Operation};
pub use operation_laws::{
    a_call_asks_for_what_its_line_says, a_call_asks_for_what_its_number_says,
};
pub use read::{SceneFault, read_scene};
pub use scene::{Call, Scene, SceneDevice, SceneThread, SceneUrb, Target};
pub use scene_laws::{
    a_printed_scene_reads_back, first_bad_line_is_reported, good_lines_are_read, reads_good_lines,
    reports_first_bad_line, text_reads_back,
};
