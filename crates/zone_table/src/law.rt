//! Which versions the table of zones may have.
use qp_multi::Law;

/// A version has no origin but those that the table was opened with. A commit puts one in or takes one out.
pub struct TableLaw;

impl Law for TableLaw {
    ghost use Rattle.std.specs.Prelude.{Some};
    ghost use Rattle.zone_table.specs.Tables.{IsAmong};

    ghost lawful = { IsAmong };

    ghost most_operations = { Some 1 };
}
