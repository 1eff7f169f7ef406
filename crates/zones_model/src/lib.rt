//! What several zones and their table come to: commands, outcomes and reports. The contracts of the crates that serve several zones
//! cite these definitions.
#![tactic(auto)]

/// Why a change of the table of zones changes nothing.
#[derive(Clone, Copy, Debug, PartialEq, Eq)]
pub enum TableCause {
    /// The zone that was to be attached is.
    Exists,
    /// The zone that was to be detached isn't attached.
    Missing,
    /// No number is left for the next version.
    Spent,
}
