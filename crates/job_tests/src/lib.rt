//! Tests of a job's workers, run: beside each other, with a gate that counts and orders what it is told.
#![tactic(auto)]

#[cfg(test)]
mod claims;
#[cfg(test)]
mod crowd;
#[cfg(test)]
mod feed;
#[cfg(test)]
mod gates;
#[cfg(test)]
mod plain;
#[cfg(test)]
mod responses;
#[cfg(test)]
mod runs;
#[cfg(test)]
mod workers;
#[cfg(test)]
mod zones;
