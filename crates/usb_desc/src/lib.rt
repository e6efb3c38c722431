//! USB descriptors, both ways: bytes as a tree, and a tree as bytes.
#![tactic(auto)]

mod cut;
mod device;
mod fault;
mod growth;
mod kind;
mod laws;
mod numbers;
mod read;
mod tree;
mod write;

pub use device::{DeviceDesc, read_device, write_device};
pub use fault::DescFault;
pub use laws::{
    a_device_reads_back, a_device_writes_back, a_spelling_is_of_one_tree, first_fault_is_told,
    no_fault_is_a_configuration, reports_first_fault, what_is_read_writes_back,
    what_is_written_reads_back,
};
pub use read::read_config;
pub use tree::{Alt, ConfigTree, End};
pub use write::write_config;
