//! Sequences of calls on anchors, by what they show.
mod adding;
mod desk;
mod given;
mod killing;
mod poisoning;
mod reporting;
mod row;
