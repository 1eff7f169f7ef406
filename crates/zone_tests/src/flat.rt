//! A law for indexes that are looked at no further.
use qp_multi::Law;

/// Every version is lawful, and a commit has any number of operations.
pub(crate) struct Flat;

impl Law for Flat {
    ghost use Rattle.std.specs.Prelude.{None};

    ghost lawful = { λ first es. Unit {0} };

    ghost most_operations = { None };
}
