//! What a transaction wants of the version that it changes (RFC 2136, section 2.4, the forms without data).
ghost use Rattle.std.specs.Prelude.{◌≡◌};
ghost use Rattle.zone_change.specs.Prelude.{is_met_by, prerequisite_view};

use dns_name::Name;
use rr_data::ItemView;

/// A name is to own a record, or one of a type; or it is to own none.
#[derive(Drop)]
pub struct Prerequisite {
    pub owner: Name,
    /// Of records of any type where there is none.
    pub rtype: Option<u16>,
    /// Whether there is to be one.
    pub wanted: bool,
}

impl Prerequisite {
    /// Whether it is met by what its owner owns.
    pub fn is_met_by(&self, entry: &ItemView<'_>) -> bool
        ensures { result ≡ is_met_by entry.now (prerequisite_view self.now) }
    {
        entry.has(self.rtype) == self.wanted
    }
}
