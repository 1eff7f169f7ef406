//! Transactions.
ghost use Rattle.std.specs.Prelude.{◌≡◌, IsSomeAnd, IfOk, IfErr};
ghost use Rattle.job_commands.specs.Prelude.{Committed, Edited, EndsBlock, IsHere, IsOfSame, MayTransact, NoNumber, RanAs, RanByWeight, Refused};
ghost use Rattle.job_commands.specs.Prelude.{RunsBlock, StoppedBy, WorksOnSome, asked_view, ended_view, known_at, table_size, versions_in};

use crate::law::ZoneLaw;
use dns_name::Name;
use job_model::{Ending, Weight};
use job_report::{Cause, Outcome, Told};
use job_script::Block;
use qp_multi::{
    Heavy, Index, Kind, Light, Named, Pass, Receipt, Spent, Transaction, Versions, WriteGuard,
};
use std::alloc::{AllocError, Global};
use std::sync::Wait;
use zone_edit::{EditRefusal, ItemBuffers, execute};

// The kept versions, as an outcome has them.
fn kept_list(alloc: Global, kept: &Versions) -> Result<Vec<u64>, AllocError>
    ensures { IfOk result (λ list. list.items ≡ versions_in kept.now) }
{
    kept.as_slice().iter().copied().collect(alloc)
}

// How a block ends that is refused.
fn refused(version: u64, cause: Cause) -> Outcome
    ensures version { result.version ≡ version }
    ensures cause { result.told ≡ Told.Refused cause }
{
    Outcome {
        version,
        told: Told::Refused(cause),
    }
}

// How a block ends whose operations stopped, while these versions are kept. Of these a list is made where there is no room.
fn stopped(
    alloc: Global,
    version: u64,
    refusal: EditRefusal,
    kept: &Versions,
) -> Result<Outcome, AllocError>
    ensures stopped { StoppedBy refusal kept.now version result }
    ensures ends { IfOk result (λ o. EndsBlock o.told) }
{
    match refusal {
        EditRefusal::Memory => Err(AllocError),
        EditRefusal::Refused(rule) => Ok(refused(version, Cause::Rule(rule))),
        EditRefusal::Full { operation, .. } => {
            let kept = kept_list(alloc, kept)?;
            Ok(refused(version, Cause::Full { operation, kept }))
        }
    }
}

// How a block ends that was to be committed.
fn committed(receipt: Result<Receipt, Spent>) -> Outcome
    ensures made { IfOk receipt (λ r. (result.version ≡ r.version) × (ended_view result.told ≡ Committed)) }
    ensures spent { IfErr receipt (λ s. (result.version ≡ s.version) × (ended_view result.told ≡ Refused NoNumber)) }
    ensures ends { EndsBlock result.told }
{
    match receipt {
        Ok(receipt) => Outcome {
            version: receipt.version,
            told: Told::Committed,
        },
        Err(spent) => Outcome {
            version: spent.version,
            told: Told::Refused(Cause::Spent),
        },
    }
}

// Makes a block's changes in a transaction.
fn edit<N: Named, K>(
    alloc: Global,
    origin: &Name,
    transaction: &mut Transaction<'_, '_, ZoneLaw, N, K>,
    block: &Block,
    buffers: &mut ItemBuffers,
) -> Result<(), EditRefusal>
    requires { IsSomeAnd transaction.old.locked.now.working WorksOnSome }
    ensures of_same { IsOfSame transaction.old transaction.new }
    ensures executes { Edited origin.now (asked_view block.now) result transaction.old.locked.now.working transaction.new.locked.now.working }
{
    execute(
        alloc,
        origin,
        transaction,
        &block.needs,
        &block.operations,
        buffers,
    )
}

// Runs a block as a transaction of a kind, by way of buffers for items.
fn run_as<K: Kind, R: Wait, N: Named>(
    rt: &R,
    alloc: Global,
    origin: &Name,
    index: &Index<ZoneLaw, N>,
    pass: &mut Pass<N>,
    block: &Block,
    buffers: &mut ItemBuffers,
) -> Result<Outcome, AllocError>
    requires pass { IsHere index.now.place pass.old }
    requires may { MayTransact origin.now (asked_view block.now) (known_at pass.old.seat) }
    ensures pass { IsHere pass.old.place pass.new }
    ensures runs { RunsBlock origin.now (table_size index.now) block.now (known_at pass.old.seat) (known_at pass.new.seat) result }
    ensures kind { IfOk result (RanAs K.OWN_CHUNK K.MOST_SPARSE (known_at pass.old.seat) (known_at pass.new.seat)) }
{
    let mut locked = WriteGuard::of(index);
    let mut transaction = index.begin::<K, R>(rt, &mut locked, pass);
    let version = transaction.version();
    if let Err(refusal) = edit(alloc, origin, &mut transaction, block, buffers) {
        return stopped(alloc, version, refusal, &transaction.kept());
    }
    match block.ending {
        Ending::Commit => Ok(committed(transaction.commit())),
        Ending::Rollback => Ok(Outcome {
            version,
            told: Told::RolledBack,
        }),
    }
}

/// Runs a block: its operations are all made the next version, or none. Its outcome's version is the one that it made, or else the
/// one that it was on.
pub fn run_block<R: Wait, N: Named>(
    rt: &R,
    alloc: Global,
    origin: &Name,
    index: &Index<ZoneLaw, N>,
    pass: &mut Pass<N>,
    block: &Block,
    buffers: &mut ItemBuffers,
) -> Result<Outcome, AllocError>
    requires pass { IsHere index.now.place pass.old }
    requires may { MayTransact origin.now (asked_view block.now) (known_at pass.old.seat) }
    ensures pass { IsHere pass.old.place pass.new }
    ensures runs { RunsBlock origin.now (table_size index.now) block.now (known_at pass.old.seat) (known_at pass.new.seat) result }
    ensures weight { IfOk result (RanByWeight block.now.weight (known_at pass.old.seat) (known_at pass.new.seat)) }
{
    match block.weight {
        Weight::Light => run_as::<Light, R, N>(rt, alloc, origin, index, pass, block, buffers),
        Weight::Heavy => run_as::<Heavy, R, N>(rt, alloc, origin, index, pass, block, buffers),
    }
}
