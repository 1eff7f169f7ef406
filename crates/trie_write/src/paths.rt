//! The path of a change, by which its cells may be found again. It is a hint, and nothing is proved of it.

use chunk_usage::Path;
use packed_node::Branch;
use shift_key::Key;

/// The path of a way, as far as it was gone.
#[derive(Clone, Copy)]
pub struct Trace {
    path: Path,
    steps: u32,
    /// The path before its last step, and the position of that.
    before: Path,
    last: u8,
}

impl Trace {
    pub fn new() -> Trace {
        Trace {
            path: Path::none(),
            steps: 0,
            before: Path::none(),
            last: 0,
        }
    }

    /// The way goes on to the twig of a position.
    pub fn descent(&mut self, position: u8) {
        self.before = self.path;
        self.last = position;
        self.path = self.path.then(self.steps, position);
        self.steps = self.steps.saturating_add(1);
    }

    /// The path to where the way ends, and from there along the key at a place, if it has that.
    pub fn along(self, key: &Key, place: u16) -> Path {
        if place > 503 {
            return self.path;
        }
        self.path.then(self.steps, key.at(place))
    }

    /// The path to another twig of the branch that the way came to last, since the one that it took is to be dropped.
    pub fn beside(self, branch: Branch) -> Path {
        let steps = self.steps.saturating_sub(1);
        self.before.then(steps, beside(branch, self.last))
    }
}

/// A position of which the branch has a twig, other than this one, where it has a twig for this one; else the position itself.
fn beside(branch: Branch, position: u8) -> u8 {
    if position < 47 && branch.has_twig(position) {
        let others = branch.bitmap & !(1 << position);
        return (others.trailing_zeros() & 63) as u8;
    }
    position
}
