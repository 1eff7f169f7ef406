//! The machine of pins, and threads that share words by the table of shared_cells.
#![tactic(auto)]

#[cfg(test)]
mod account;
#[cfg(test)]
mod machine;
#[cfg(test)]
mod stress;
