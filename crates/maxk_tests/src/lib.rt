//! Tests of the program's call, and of the lines, the words and the language that it stands on.
#![tactic(auto)]

#[cfg(test)]
mod area;
#[cfg(test)]
mod calls;
#[cfg(test)]
mod language;
#[cfg(test)]
mod lines;
#[cfg(test)]
mod runs;
#[cfg(test)]
mod savepoints;
#[cfg(test)]
mod texts;
