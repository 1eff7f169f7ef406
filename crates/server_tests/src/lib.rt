//! Tests of servers that are changed while others ask, run. They stand in a crate of their own, since a crate with tests is proved twice.
#![tactic(auto)]

#[cfg(test)]
mod attaching;
#[cfg(test)]
mod growing;
#[cfg(test)]
mod reloading;
#[cfg(test)]
mod zones;
