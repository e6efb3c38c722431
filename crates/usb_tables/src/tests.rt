//! Tests of texts, descriptors, enumeration, the URB machine, transfers and the scenes of numbers.
mod descriptors;
mod enumeration;
mod lines;
mod machine;
mod numbers;
mod reading;
mod transfers;
