//! Questions to the current version.
ghost use Rattle.std.specs.Prelude.{◌≡◌, IsSome, IfOk};
ghost use Rattle.job_commands.specs.Prelude.{known_at, Asked};

use crate::law::ZoneLaw;
use crate::replying::reply_text;
use crate::scratch::WorkerScratch;
use dns_name::Name;
use job_model::Question;
use job_report::{Outcome, Told};
use qp_multi::{Index, Named, Pass};
use std::alloc::{AllocError, Global};
use trie_read::Reading;

/// Asks the current version. It is pinned while the reply is made.
pub fn run_question<N: Named>(
    alloc: Global,
    origin: &Name,
    index: &Index<ZoneLaw, N>,
    pass: &mut Pass<N>,
    question: &Question,
    room: &mut WorkerScratch,
) -> Result<Outcome, AllocError>
    requires here { IsSome pass.old.seat }
    requires place { pass.old.place ≡ index.now.place }
    ensures here { IsSome pass.new.seat }
    ensures place { pass.new.place ≡ pass.old.place }
    ensures asked { IfOk result (Asked origin.now question.now (known_at pass.old.seat) (known_at pass.new.seat)) }
{
    let mut query = pass.query(index);
    let version = query.version();
    let text = reply_text(alloc, origin, &mut query, question, room)?;
    Ok(Outcome {
        version,
        told: Told::Reply(text),
    })
}
