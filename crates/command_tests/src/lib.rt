//! What reads and writes bytes: sources and sinks, and the exercise's capture, where reads are cut and reads and writes
//! fail, and how long the reads and writes of a run are. Calls with given words and bytes are rows of the program
//! `rows`, and those whose answers have to be computed are rows of `scripts/cases`. A crate with tests of its own would
//! be proved twice.
#![tactic(auto)]

#[cfg(test)]
mod exercise_tests;
#[cfg(test)]
mod length_tests;
#[cfg(test)]
mod same;
#[cfg(test)]
mod stream_tests;
