//! A feed: how it is made, and how it is closed.
ghost use Rattle.std.specs.Prelude.{◌≡◌, ◌+◌, ◌<◌, ◌≤◌, IfOk, All, Any, replicate, true, vec_len};
ghost use Rattle.feed_core.specs.Prelude.{view, IsPassOf, IsSamePass, ruled_capacity};
ghost use Rattle.feed_core.specs.Prelude.{alone, feed_of, new_seat, lists_of, AreTaken, IsGathered};

use crate::knowledge::{END, Gather, Grow, NumberPass, NumberQueue, PutMark, PutNumber};
use crate::seat::{FeedSeat, next_number};
use std::alloc::{AllocError, Global};
use std::marker::Model;
use std::sync::Wait;

/// The numbers from 1 to a count, in a queue that threads share.
///
/// Contracts see which queue it is, how many numbers it hands out, and how many seats there are.
#[derive(Drop)]
pub struct Feed {
    pub(crate) queue: NumberQueue,
    count: u32,
    seats: u32,
}

impl Model for Feed {
    ghost use Rattle.std.specs.Prelude.{◌≤◌};
    ghost use Rattle.feed_core.specs.Feeds.{Handout};

    ghost Value = { Handout };

    ghost view = { λ f. record { table = f.queue.table.shared.table_id; count = f.count; seats = f.seats } };

    ghost invariant = { λ f. (1 ≤ f.count) × (f.count ≤ 10000) × (1 ≤ f.seats) × (f.seats ≤ 16) };
}

impl Feed {
    /// A feed of the numbers from 1 to `count`, with its seats.
    pub fn of<R: Wait>(
        rt: &R,
        alloc: Global,
        count: u32,
        seats: u32,
    ) -> Result<(Feed, Vec<FeedSeat>), AllocError>
        requires count { (1 ≤ count) × (count ≤ 10000) }
        requires seats { (1 ≤ seats) × (seats ≤ 16) }
        ensures feed { IfOk result (λ made. (made.0.count ≡ count) × (made.0.seats ≡ seats)) }
        ensures seats { IfOk result (λ made. made.1.items ≡ replicate seats (new_seat made.0)) }
    {
        let (queue, mut pass) = NumberQueue::ruled(alloc, (count + seats) as usize)?;
        grow(&queue, &mut pass, seats);
        fill(rt, &queue, &mut pass, count);
        mark_end(rt, &queue, &mut pass, seats);
        let dealt = deal(alloc, &queue, &mut pass, seats)?;
        let feed = Feed {
            queue,
            count,
            seats,
        };
        Ok((feed, dealt))
    }

    /// The first number that no seat took; one more than the count where all were taken. It needs all seats.
    pub fn close<R: Wait>(self, rt: &R, seats: Vec<FeedSeat>) -> u32
        requires all { vec_len seats ≡ self.seats }
        requires seats { All (λ seat. seat.feed ≡ self) seats.items }
        ensures taken { AreTaken self.count (lists_of seats.items) result }
        ensures done { Any (λ seat. seat.done ≡ true) seats.items → result ≡ self.count + 1 }
    {
        let mut whole = self.gathered(seats);
        match next_number(rt, &self.queue, &mut whole) {
            Some(number) => number,
            None => self.count + 1,
        }
    }

    /// The parts of the seats, in one pass.
    fn gathered(&self, mut seats: Vec<FeedSeat>) -> NumberPass
        requires some { 0 < vec_len seats }
        requires seats { All (λ seat. seat.feed ≡ self.now) seats.items }
        ensures { IsGathered self.now seats.items result }
    {
        let Some(last) = seats.pop() else {
            // There is one seat at least.
            unreachable!()
        };
        let mut whole = last.into_pass();
        while let Some(seat) = seats.pop() {
            self.queue.absorb::<Gather>(&mut whole, seat.into_pass());
        }
        whole
    }
}

/// There become as many parts as there are to be seats, and this pass has them all.
fn grow(queue: &NumberQueue, pass: &mut NumberPass, seats: u32)
    requires queue { IsPassOf queue.now pass.old }
    requires alone { view pass.old ≡ alone 1 0 0 }
    requires seats { 1 ≤ seats }
    ensures queue { IsSamePass pass.old pass.new }
    ensures alone { view pass.new ≡ alone seats 0 0 }
{
    for _ in 1..seats {
        let _nobody = queue.another::<Grow>(pass);
    }
}

/// Puts the numbers from 1 on.
fn fill<R: Wait>(rt: &R, queue: &NumberQueue, pass: &mut NumberPass, count: u32)
    requires queue { IsPassOf queue.now pass.old × (count ≤ ruled_capacity queue.now) }
    requires alone { (view pass.old ≡ alone (view pass.old).parts 0 0) × (0 < (view pass.old).parts) }
    ensures queue { IsSamePass pass.old pass.new }
    ensures alone { view pass.new ≡ alone (view pass.old).parts count 0 }
{
    for put in 0..count {
        if queue.push_as::<PutNumber, R>(rt, pass, put + 1).is_err() {
            // A full queue would hold `count` numbers or more, and `put` were put.
            unreachable!()
        }
    }
}

/// Puts an end mark for each seat, behind all numbers.
fn mark_end<R: Wait>(rt: &R, queue: &NumberQueue, pass: &mut NumberPass, seats: u32)
    requires queue { IsPassOf queue.now pass.old × ((view pass.old).put + seats ≤ ruled_capacity queue.now) }
    requires alone { (view pass.old ≡ alone (view pass.old).parts (view pass.old).put 0) × (0 < (view pass.old).parts) }
    ensures queue { IsSamePass pass.old pass.new }
    ensures alone { view pass.new ≡ alone (view pass.old).parts (view pass.old).put seats }
{
    for marks in 0..seats {
        if queue.push_as::<PutMark, R>(rt, pass, END).is_err() {
            // A full queue would hold an item more for each mark that is to come.
            unreachable!()
        }
    }
}

/// A seat for each part.
fn deal(
    alloc: Global,
    queue: &NumberQueue,
    pass: &mut NumberPass,
    seats: u32,
) -> Result<Vec<FeedSeat>, AllocError>
    requires queue { IsPassOf queue.now pass.old }
    requires alone { view pass.old ≡ alone seats (view pass.old).put seats }
    ensures { IfOk result (λ dealt. dealt.items ≡ replicate seats (new_seat (feed_of pass.old))) }
{
    let mut dealt = Vec::new(alloc);
    for _ in 0..seats {
        dealt.push(FeedSeat::dealt(queue, pass))?;
    }
    Ok(dealt)
}
