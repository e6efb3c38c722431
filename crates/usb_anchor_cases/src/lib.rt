//! A table of calls on anchors, with answers by hand.
#![tactic(auto)]

#[cfg(test)]
mod tests;
