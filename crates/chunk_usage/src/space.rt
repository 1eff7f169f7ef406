//! What hands out cells.

use chunk_hints::Path;
use packed_node::Ref;
use thiserror::Error;

/// Cells side by side.
#[derive(Clone, Copy, PartialEq, Eq, Debug)]
pub struct Grant {
    /// The first of them.
    pub at: Ref,
    /// The chunk that was taken for them, where they lie in a new one.
    pub given: Option<u32>,
}

/// There is no room: the bump chunk has too few cells left, and no chunk but the reserve is free.
#[derive(Clone, Copy, PartialEq, Eq, Debug, Error)]
#[error("no room for {needed} cells: {left} are left in the bump chunk, and {free} chunks are free, where {reserve} are kept free")]
pub struct Shortage {
    /// How many cells were wanted.
    pub needed: u32,
    /// How many the bump chunk has left.
    pub left: u32,
    /// How many chunks are free.
    pub free: u32,
    /// How many chunks are kept free.
    pub reserve: u32,
}

/// Hands out cells, and counts those that the trie reaches. The crates that change a trie know it by this alone.
pub trait Space {
    ghost use Rattle.std.specs.Prelude.{◌≡◌, ◌+◌, ◌/◌, ◌%◌, ◌<◌, ◌≤◌, ℕ, Bool, true, IfOk, IfErr};
    ghost use Rattle.trie_model.specs.Extents.{row};
    ghost use Rattle.trie_model.specs.Reach.{in_chunk};
    ghost use Rattle.chunk_cells.specs.Chunks.{IsGiven};
    ghost use Rattle.chunk_usage.specs.declared.space.Shortage.{Shortage};
    ghost use Rattle.chunk_usage.specs.Rooms.{Account, Grants, Leaves, Refuses};

    // What is known of the cells.
    ghost account: { Self → Account };

    // These numbers say why there is no room.
    ghost lacks: { Self → Shortage → Type 0 };

    /// Hands out n cells of one chunk.
    fn alloc(&mut self, n: u32) -> Result<Grant, Shortage>
        requires some { 0 < n }
        requires few { n ≤ 256 }
        ensures grants { IfOk result (λ g. Grants (account self.old) (account self.new) n g) }
        ensures leaves { Leaves (account self.old) (account self.new) n }
        ensures refuses { IfErr result (λ f. Refuses lacks self.old self.new n f) };

    /// Whether no version that was frozen has a cell, so that it may be written.
    fn is_mutable(&self, at: Ref) -> bool
        ensures value { result ≡ (account self.now).mutable at }
        ensures given { (account self.now).used at ≡ true → IsGiven (account self.now).given (at / 1024) };

    /// These cells don't count any more.
    fn release(&mut self, at: Ref, n: u32)
        requires counted { (k : ℕ) → row (in_chunk k) at n ≤ (account self.old).live k }
        requires together { at % 1024 + n ≤ 1024 }
        ensures counts { (k : ℕ) → (account self.new).live k + row (in_chunk k) at n ≡ (account self.old).live k }
        ensures rest { account self.new ≡ record (account self.old) { live = (account self.new).live } }
        ensures lacks { (f : Shortage) → lacks self.old f → lacks self.new f };

    /// The cells that are handed out are for what lies on a path. This is a hint, by which they may be found again.
    fn note(&mut self, path: Path)
        ensures { self.new ≡ self.old };

    /// No cell counts any more.
    fn release_all(&mut self)
        ensures counts { (k : ℕ) → (account self.new).live k ≡ 0 }
        ensures rest { account self.new ≡ record (account self.old) { live = (account self.new).live } }
        ensures lacks { (f : Shortage) → lacks self.old f → lacks self.new f };
}
