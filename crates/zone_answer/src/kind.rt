//! Kinds of answers.

/// What an answer says of the name that was asked for.
#[derive(Clone, Copy, PartialEq, Eq, Debug)]
pub enum Kind {
    /// It owns records of the type, or its aliases lead on to some, out of the zone, or further than they are followed.
    Answered,
    /// It exists, but owns no records of the type.
    Nodata,
    /// It doesn't exist.
    Nxdomain,
    /// It lies at or under a cut: another zone has the answer.
    Referral,
    /// It isn't at or under the origin.
    Outside,
}
