//! Laws of master files, each as the contract of a function that does nothing.
ghost use Rattle.std.specs.Prelude.{◌≡◌, ℕ, ◌+◌, ◌++◌, Bool, List, Option, None, Ok};
ghost use Rattle.master_file.specs.Prelude.{AllByRecursion, flat_map, Name, lines_of, Version, Row, Directives, line_text};
ghost use Rattle.master_file.specs.Prelude.{row_text, Style, dump, Reader, zone_from, zone_of, IsRecord, StandsUnder};
ghost use Rattle.master_file.specs.Prelude.{KnowsOwner, CanBeDumped, written, row_added, read_on, zone_of_rows};

/// A printed record is read as that record, whatever was read before and whatever the origin, unless its line leaves
/// something out: then by a reader that has learnt that. Reading goes on at the line behind it.
pub fn printed_records_read_back()
    ensures { (directives : Option Directives) (first : Bool) (row : Row) → IsRecord row →
        (apex : Name) (line : ℕ) (rest : List ℕ) (reader : Reader) →
        StandsUnder directives reader → KnowsOwner directives first row.owner reader →
        zone_from apex line (lines_of (line_text directives first row ++ rest)) None reader
        ≡ read_on apex (line + 1) rest (row_added apex line (written directives row.ttl) row reader) }
{}

/// Printed records are read as the zone that these records make, or refused where one of them can't join those before it.
pub fn printed_zones_read_back()
    ensures { (rows : List Row) → AllByRecursion IsRecord rows → (apex : Name) →
        zone_of apex (lines_of (flat_map row_text rows)) ≡ zone_of_rows apex rows }
{}

/// The zone that a dump says is the version that it is a dump of, in either style.
pub fn dumps_read_back()
    ensures { (style : Style) (origin : Name) (version : Version) → CanBeDumped origin version →
        zone_of origin (lines_of (dump style origin version)) ≡ Ok version }
{}

/// A dump of what a dump says is the dump of the version again, byte for byte.
pub fn dumps_are_dumped_alike()
    ensures { (style again : Style) (origin : Name) (version read : Version) → CanBeDumped origin version →
        zone_of origin (lines_of (dump style origin version)) ≡ Ok read → dump again origin read ≡ dump again origin version }
{}
