//! Tests of the edge: hosts and sources in memory, over real files, and over files, an input and an
//! output that record their calls.
#![tactic(auto)]

#[cfg(test)]
mod fake_files;
#[cfg(test)]
mod fake_input;
#[cfg(test)]
mod files;
#[cfg(test)]
mod memory;
#[cfg(test)]
mod order;
#[cfg(test)]
mod sources;
#[cfg(test)]
mod steps;
