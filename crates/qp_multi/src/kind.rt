//! The kinds of transactions.

/// What kinds of transactions differ in.
pub trait Kind {
    ghost use Rattle.std.specs.Prelude.{Bool, ℕ, ◌≤◌};

    ghost OWN_CHUNK: { Bool };

    ghost MOST_SPARSE: { ℕ };

    ghost few: { MOST_SPARSE ≤ 8 };

    /// What it writes begins a chunk; else it goes on in the bump chunk.
    const OWN_CHUNK: bool;

    /// A commit moves what lies in sparse chunks where these are more than so many, which are few.
    const MOST_SPARSE: u32;
}

/// A light transaction: what it writes goes on in the bump chunk.
pub struct Light;

impl Kind for Light {
    ghost use Rattle.std.specs.Prelude.{false};
    ghost use Rattle.std.proofs.Common.{le_refl};

    ghost OWN_CHUNK = { false };

    ghost MOST_SPARSE = { 8 };

    ghost few = { le_refl 8 };

    const OWN_CHUNK: bool = false;

    const MOST_SPARSE: u32 = 8;
}

/// A heavy transaction: it begins a chunk of its own.
pub struct Heavy;

impl Kind for Heavy {
    ghost use Rattle.std.specs.Prelude.{true};
    ghost use Rattle.std.proofs.Common.{zero-le};

    ghost OWN_CHUNK = { true };

    ghost MOST_SPARSE = { 0 };

    ghost few = { zero-le };

    const OWN_CHUNK: bool = true;

    const MOST_SPARSE: u32 = 0;
}

/// A transaction that only moves what lies in sparse chunks: it goes on in the bump chunk, and leaves none sparse.
pub(crate) struct Compaction;

impl Kind for Compaction {
    ghost use Rattle.std.specs.Prelude.{false};
    ghost use Rattle.std.proofs.Common.{zero-le};

    ghost OWN_CHUNK = { false };

    ghost MOST_SPARSE = { 0 };

    ghost few = { zero-le };

    const OWN_CHUNK: bool = false;

    const MOST_SPARSE: u32 = 0;
}
