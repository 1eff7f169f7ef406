//! How large the current version is.
ghost use Rattle.std.specs.Prelude.{◌≡◌, IsSome};
ghost use Rattle.job_commands.specs.Prelude.{known_at, Measured};

use crate::closing::Last;
use crate::law::ZoneLaw;
use qp_multi::{Index, Named, Pass};
use trie_read::Reading;

/// Tells the current version's number, and how large it is. It is pinned meanwhile.
pub fn measure<N: Named>(index: &Index<ZoneLaw, N>, pass: &mut Pass<N>) -> Last
    requires here { IsSome pass.old.seat }
    requires place { pass.old.place ≡ index.now.place }
    ensures here { IsSome pass.new.seat }
    ensures place { pass.new.place ≡ pass.old.place }
    ensures measured { Measured (known_at pass.old.seat) (known_at pass.new.seat) result }
{
    let mut query = pass.query(index);
    let version = query.version();
    let names = query.count();
    let nodes = query.nodes();
    Last {
        version,
        names,
        nodes,
    }
}
