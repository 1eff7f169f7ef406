//! Tests of feeds, run: a seat alone, seats in threads of their own, and a feed that is closed early. They stand in a crate of
//! their own, since a crate with tests is proved twice.
#![tactic(auto)]

#[cfg(test)]
mod feeds;
