//! Tests of what no clause says and no conformance case can ask: calls that the program never makes,
//! clients that are functions, many threads, every cut and every changed bit of a serialized form.
//! They stand here, since a crate with tests is proved twice. It has nothing but tests.
#![tactic(auto)]

#[cfg(test)]
mod edges;
#[cfg(test)]
mod fast_build;
#[cfg(test)]
mod query;
#[cfg(test)]
mod serial;
#[cfg(test)]
mod trees;
#[cfg(test)]
mod walk;
