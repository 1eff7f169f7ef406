//! The outcomes of one list's commands, in the order of these.
ghost use Rattle.std.specs.Prelude.{◌≡◌, ◌≢◌, ◌<◌, ◌≤◌, ◌-◌, ℕ, IfOk, IsSome, Some, length, map, replicate, slice_set};
ghost use Rattle.feed_threads.specs.Prelude.{AllByRecursion, AreInOrder, AreTaken};
ghost use Rattle.feed_threads.specs.Prelude.{IsBy, IsServed, numbered, numbers_served, served_by, CanBePlaced};

use job_report::{FedOutcome, Outcomes};
use std::alloc::{AllocError, Global};
use std::collections::VecDeque;

/// What a worker did of one list: the numbers of its commands, from 1, and an outcome for each.
#[derive(Drop)]
pub struct Served {
    pub numbers: Vec<u32>,
    pub outcomes: Outcomes,
}

// So many places, all of them free.
fn free_places(alloc: Global, count: u32) -> Result<Vec<Option<FedOutcome>>, AllocError>
    ensures { IfOk result (λ places. places.items ≡ replicate count None) }
{
    let mut places = Vec::with_capacity(alloc, count as usize)?;
    for _ in 0..count {
        places.push(None)?;
    }
    Ok(places)
}

// Puts an outcome into a place.
fn place_one(places: &mut [Option<FedOutcome>], place: usize, outcome: FedOutcome)
    requires { place < length places.old }
    ensures { places.new ≡ slice_set places.old place (Some outcome) }
{
    places[place] = Some(outcome);
}

// Puts a worker's outcomes into the places of their numbers.
fn place_served(places: &mut [Option<FedOutcome>], worker: u32, served: Served)
    requires { CanBePlaced worker served places.old }
    ensures mine { served_by worker 1 places.new ≡ numbered served }
    ensures others { (other : ℕ) → other ≢ worker → served_by other 1 places.new ≡ served_by other 1 places.old }
    ensures workers { (low high : ℕ) → low < worker → worker ≤ high → AllByRecursion (IsBy low high) places.old → AllByRecursion (IsBy low high) places.new }
{
    let Served {
        mut numbers,
        outcomes,
    } = served;
    let Outcomes { mut list } = outcomes;
    while let Some(outcome) = list.pop() {
        let Some(number) = numbers.pop() else {
            // There is a number for each outcome.
            unreachable!()
        };
        place_one(places, number as usize - 1, FedOutcome { worker, outcome });
    }
}

// The outcomes of places that have one each.
fn all_placed(alloc: Global, places: Vec<Option<FedOutcome>>) -> Result<Vec<FedOutcome>, AllocError>
    requires { AllByRecursion IsSome places.items }
    ensures { IfOk result (λ fed. map Some fed.items ≡ places.items) }
{
    let mut fed = Vec::with_capacity(alloc, places.len())?;
    let mut places = VecDeque::from(places);
    while let Some(place) = places.pop_front() {
        let Some(outcome) = place else {
            // Each command was run.
            unreachable!()
        };
        fed.push(outcome)?;
    }
    Ok(fed)
}

/// The outcomes of the commands below a number, in the order of these, each with its worker. Workers are counted from 1.
pub(crate) fn in_order(
    alloc: Global,
    end: u32,
    mut served: Vec<Served>,
) -> Result<Vec<FedOutcome>, AllocError>
    requires some { 0 < end }
    requires few { length served.items ≤ 16 }
    requires alike { AllByRecursion IsServed served.items }
    requires taken { AreTaken end (numbers_served served.items) }
    ensures { IfOk result (λ fed. AreInOrder (end - 1) served.items fed.items) }
{
    let mut places = free_places(alloc, end - 1)?;
    while let Some(one) = served.pop() {
        place_served(&mut places, served.len() as u32 + 1, one);
    }
    all_placed(alloc, places)
}
