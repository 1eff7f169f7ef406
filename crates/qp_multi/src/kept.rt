//! The numbers of kept versions.
ghost use Rattle.std.specs.Prelude.{◌≡◌, ◌≤◌, ◌<◌, ◌+◌, length, take};
ghost use Rattle.std.specs.List.{AllPairs};
ghost use Rattle.chunk_usage.specs.Keeping.{kept_versions};

use chunk_usage::Usage;

/// How many versions are kept at most: the current one, and one for each of 64 passes.
const MOST: usize = 65;

/// The versions that are kept, the oldest first.
#[derive(Clone, Copy, Debug)]
pub struct Versions {
    len: usize,
    // The first `len` count.
    numbers: [u64; 65],
    ghost fits: { len ≤ 65 },
    ghost rising: { AllPairs (λ v w. v < w) (take len numbers) },
}

impl Versions {
    ghost use Rattle.qp_multi.specs.Keepings.{versions_in};

    /// The versions, rising.
    pub fn as_slice(&self) -> &[u64]
        ensures { result.now ≡ versions_in self.now }
    {
        &self.numbers[..self.len]
    }

    /// Those that a usage keeps.
    pub(crate) fn of(usage: &Usage) -> Versions
        requires { length usage.now.rows ≤ usage.now.passes + 1 }
        ensures { versions_in result ≡ kept_versions usage.now }
    {
        usage.known(); // for the proof
        let kept = usage.kept();
        let mut numbers = [0; MOST];
        for i in 0..kept.len() {
            numbers[i] = kept[i].version();
        }
        Versions {
            len: kept.len(),
            numbers,
        }
    }
}
