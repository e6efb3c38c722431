//! Tables of cases for texts, descriptors, enumeration, the URB machine, transfers and the scenes of numbers, with answers by hand.
#![tactic(auto)]

#[cfg(test)]
mod tests;
