//! What a response says ahead of its records.

/// How a question went (RFC 1035, section 4.1.1).
#[derive(Clone, Copy, PartialEq, Eq, Debug)]
pub enum Code {
    NoError,
    /// The name doesn't exist.
    NxDomain,
    /// The name isn't at or under the origin.
    Refused,
}

/// A response's code, whether it is the zone's own word, and how many records its sections have.
#[derive(Clone, Copy, PartialEq, Eq, Debug)]
pub struct Header {
    pub code: Code,
    pub authoritative: bool,
    pub answer: u64,
    pub authority: u64,
    pub additional: u64,
}
