//! What a server replies.

/// A reply, and the version of the table of zones that it was found by.
#[derive(Drop)]
pub struct Reply<T> {
    pub table: u64,
    /// None where no zone is attached at or above the name.
    pub from: Option<FromZone<T>>,
}

/// What is told of a version of a zone.
#[derive(Drop)]
pub struct FromZone<T> {
    /// The zone's number: its place among those that were opened.
    pub zone: u32,
    pub version: u64,
    pub told: T,
}
