//! Which versions the index of a zone may have.
use qp_multi::Law;

/// Each version is one of a zone, whose origin is the opening version's first name: it has an SOA there alone, names at or under
/// it, and an alias by itself.
pub struct ZoneLaw;

impl Law for ZoneLaw {
    ghost use Rattle.job_commands.specs.Histories.{IsLawful};

    ghost lawful = { IsLawful };
}
