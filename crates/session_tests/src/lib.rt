//! Tests of live sessions: calls that fail, odd lines, and more commands than memory would hold.
#![tactic(auto)]

#[cfg(test)]
mod faults;
#[cfg(test)]
mod lines;
#[cfg(test)]
mod many;
#[cfg(test)]
mod sessions;
