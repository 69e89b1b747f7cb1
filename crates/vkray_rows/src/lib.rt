//! Tests that cross crates and that no conformance case can say: of the program's one call with
//! sources and sinks that fail, give or take a few bytes a call, and what holds of each of many
//! inputs; and with gates that wait for other pieces, so that workers are seen beside each other.
//! No other crate depends on it.
#![tactic(auto)]

#[cfg(test)]
mod answer;
#[cfg(test)]
mod failing;
#[cfg(test)]
mod meeting;
#[cfg(test)]
mod reading;
#[cfg(test)]
mod standard;
#[cfg(test)]
mod triangle;
