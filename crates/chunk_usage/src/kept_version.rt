//! Kept versions, each with its chunk set.

ghost use Rattle.std.specs.Prelude.{◌≡◌, ◌≤◌, IfOk, false, length, replicate};
ghost use Rattle.chunk_usage.specs.Keeping.{is_among, is_row_of};

use chunk_sets::ChunkSet;
use std::alloc::{AllocError, Global};
use std::marker::Model;

/// A kept version, and the chunks that it has cells in.
#[derive(Drop)]
pub struct KeptVersion {
    version: u64,
    chunks: ChunkSet,
}

impl Model for KeptVersion {
    ghost use Rattle.chunk_usage.specs.Ledger.{Row};

    ghost Value = { Row };

    ghost view = { λ k. record { version = k.version; chunks = k.chunks } };
}

impl KeptVersion {
    /// Room for a version of so many chunks.
    pub fn new(alloc: Global, chunks: u32) -> Result<KeptVersion, AllocError>
        requires { chunks ≤ 4096 }
        ensures { IfOk result (λ k. k.chunks ≡ replicate chunks false) }
    {
        let chunks = ChunkSet::new(alloc, chunks)?;
        Ok(KeptVersion { version: 0, chunks })
    }

    /// Makes it a version that has cells in these chunks.
    pub fn set(&mut self, version: u64, chunks: &ChunkSet)
        requires { length self.old.chunks ≡ length chunks.now }
        ensures { self.new ≡ record { version = version; chunks = chunks.now } }
    {
        self.version = version;
        self.chunks.copy_from(chunks);
    }

    /// Its number.
    #[inline]
    pub fn version(&self) -> u64
        ensures { result ≡ self.now.version }
    {
        self.version
    }

    /// Whether it is one of these versions.
    pub(crate) fn is_among(&self, versions: &[u64]) -> bool
        ensures { result ≡ is_among versions.now self.now.version }
    {
        versions.iter().any(|version| *version == self.version)
    }

    /// Whether it is this version.
    pub(crate) fn is_of(&self, version: u64) -> bool
        ensures { result ≡ is_row_of version self.now }
    {
        self.version == version
    }

    /// The chunks that the version has cells in.
    pub fn chunks(&self) -> &ChunkSet
        ensures { result.now ≡ self.now.chunks }
    {
        &self.chunks
    }
}
