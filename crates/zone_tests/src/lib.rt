//! Tests of zones that are served at once, and of one that is exchanged while it is read, run. They stand in a crate of their own, since a
//! crate with tests is proved twice.
#![tactic(auto)]

#[cfg(test)]
mod flat;
#[cfg(test)]
mod nested;
#[cfg(test)]
mod reloads;
