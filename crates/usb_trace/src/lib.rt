//! What a run of a scene is, whatever makes it, with the laws that hold of each run, and the rows that it leaves for its report.
#![tactic(auto)]

mod call_laws;
mod cores;
mod handler_laws;
mod numbering;
mod owner;
mod received;
mod rows;
mod run_laws;
mod sending;
mod standing;
mod starting;
mod thread;

pub use call_laws::a_call_does_what_its_number_says;
pub use cores::new_cores;
pub use handler_laws::{handlers_begin_with_a_scene, handlers_do_what_the_scene_says};
pub use numbering::{FIRST, numbers, own_number};
pub use owner::owner_in;
pub use received::{EndReceived, Received, brought};
pub use rows::{CallAnswer, CallMade, GivebackRow, HostCall, Outcome, RunOutcome};
pub use run_laws::{
    a_drivers_windows_follow_one_another, a_printers_windows_are_jobs,
    a_status_is_the_first_unlinks_or_the_transfers, a_transfer_that_goes_again_comes_back_next,
    an_endpoint_received_what_it_acknowledged, each_accepted_urb_is_given_back_once,
    what_a_call_claims_came_back,
};
pub use sending::sent_by_call;
pub use standing::kept_read;
pub use starting::{again_said, new_handlers, owners_in};
pub use thread::{host_call_in, main_pass_of, pass_of_thread};
