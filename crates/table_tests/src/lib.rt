//! Tests of the space rule, of a page store, and of tables as lists of leaves on it.
#![tactic(auto)]

#[cfg(test)]
mod area;
#[cfg(test)]
mod both;
#[cfg(test)]
mod pages;
#[cfg(test)]
mod plain;
#[cfg(test)]
mod space;
#[cfg(test)]
mod stored;
#[cfg(test)]
mod tests;
