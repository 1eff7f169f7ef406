//! Tests of the shared index, run: one pass after another, and readers beside a writer. They stand in a crate of their own, since
//! a crate with tests is proved twice. A proof of a test costs what can be let go at each early return; so an item is made before
//! the workers, or within a function of its own.
#![tactic(auto)]

#[cfg(test)]
mod buffer;
#[cfg(test)]
mod course;
#[cfg(test)]
mod crowd;
#[cfg(test)]
mod items;
#[cfg(test)]
mod long_items;
#[cfg(test)]
mod readers;
#[cfg(test)]
mod rewriting;
#[cfg(test)]
mod rows;
#[cfg(test)]
mod scenes;
#[cfg(test)]
mod single;
#[cfg(test)]
mod worker;
