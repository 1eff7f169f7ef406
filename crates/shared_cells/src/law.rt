//! What the versions of an index mean, and what a step hands to the history.
use std::marker::Brand;

/// What an index's versions are. O is a version, E what one entry of the history does to it.
///
/// The table knows no names and no records: the crate above says by this trait what its versions mean.
pub trait HistoryLaw<O, E> {
    ghost use Rattle.std.specs.Prelude.{List, Option, ℕ};
    ghost use Rattle.pin_core.specs.declared.kept.CellAt.{CellAt};

    // The version after an entry.
    ghost applied: { O → E → O };

    // A version may stand beside the opening one, which is named first.
    ghost lawful: { O → O → Type 0 };

    // The history may have this entry.
    ghost permitted: { E → Type 0 };

    // These cells, read from the root, are the version.
    ghost stands: { List CellAt → Option ℕ → O → Type 0 };
}

/// What an index opens with. The call that opens picks it.
pub trait Opening<O> {
    ghost use Rattle.std.specs.Prelude.{List, Option};
    ghost use Rattle.pin_core.specs.declared.kept.CellAt.{CellAt};

    // Version 0.
    ghost version: { Option O };

    // Its cells.
    ghost image: { List CellAt };
}

impl<O> Opening<O> for Brand {
    ghost use Rattle.std.specs.Prelude.{[], None};

    ghost version = { None };

    ghost image = { [] };
}

/// What a publish publishes. The call that publishes picks it.
pub trait Payload<E> {
    ghost use Rattle.std.specs.Prelude.{List, Option};
    ghost use Rattle.pin_core.specs.declared.kept.CellAt.{CellAt};

    // The entry of the history.
    ghost change: { Option E };

    // The cells of the new version.
    ghost image: { List CellAt };
}

impl<E> Payload<E> for Brand {
    ghost use Rattle.std.specs.Prelude.{[], None};

    ghost change = { None };

    ghost image = { [] };
}

/// How many passes an index has. The call that asks what is known of a pass picks it.
pub trait Counted {
    ghost use Rattle.std.specs.Prelude.{ℕ};

    ghost passes: { ℕ };
}

impl Counted for Brand {
    ghost passes = { 0 };
}
