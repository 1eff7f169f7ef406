//! A seat alone, seats in threads of their own, and a feed that is closed early.
ghost use Rattle.std.specs.Prelude.{◌≡◌, ◌++◌, All, IfOk, IfSome, true};

use feed_core::{Feed, FeedSeat};
use std::alloc::{AllocError, Global};
use std::sync::Wait;
use std::test::Fail;
use std::thread::{Threads, join};

/// A seat that is done, and what it took.
type Taken = Result<(FeedSeat, Vec<u32>), AllocError>;

/// Takes until no number is left.
fn take_all<R: Wait>(rt: &R, alloc: Global, feed: &Feed, mut seat: FeedSeat) -> Taken
    requires { seat.feed ≡ feed.now }
    ensures feed { IfOk result (λ done. done.0.feed ≡ feed.now) }
    ensures taken { IfOk result (λ done. done.0.taken ≡ seat.taken ++ done.1.items) }
    ensures done { IfOk result (λ done. done.0.done ≡ true) }
{
    let mut numbers = Vec::new(alloc);
    while let Some(number) = seat.take(rt, feed) {
        numbers.push(number)?;
    }
    Ok((seat, numbers))
}

/// Two seats, each in a thread of its own.
fn take_beside<R: Threads + Wait + Sync>(
    rt: &R,
    alloc: Global,
    feed: &Feed,
    first: FeedSeat,
    second: FeedSeat,
) -> (Taken, Taken)
    requires { (first.feed ≡ feed.now) × (second.feed ≡ feed.now) }
    ensures first { IfOk result.0 (λ done. done.0.feed ≡ feed.now) }
    ensures second { IfOk result.1 (λ done. done.0.feed ≡ feed.now) }
{
    join(
        rt,
        move || -> Taken
            requires { first.feed ≡ feed.now }
            ensures { IfOk result (λ done. done.0.feed ≡ feed.entry.now) }
        { take_all(rt, alloc, feed, first) },
        move || -> Taken
            requires { second.feed ≡ feed.now }
            ensures { IfOk result (λ done. done.0.feed ≡ feed.entry.now) }
        { take_all(rt, alloc, feed, second) },
    )
}

/// The two seats of a feed.
fn pair(feed: &Feed, mut seats: Vec<FeedSeat>) -> Option<(FeedSeat, FeedSeat)>
    requires { All (λ seat. seat.feed ≡ feed.now) seats.items }
    ensures { IfSome result (λ seats. (seats.0.feed ≡ feed.now) × (seats.1.feed ≡ feed.now)) }
{
    let second = seats.pop()?;
    let first = seats.pop()?;
    Some((first, second))
}

/// Closes a feed of two seats.
fn close_both<R: Wait>(
    rt: &R,
    alloc: Global,
    feed: Feed,
    first: FeedSeat,
    second: FeedSeat,
) -> Result<u32, AllocError>
    requires two { feed.seats ≡ 2 }
    requires seats { (first.feed ≡ feed) × (second.feed ≡ feed) }
{
    let mut seats = Vec::new(alloc);
    seats.push(first)?;
    seats.push(second)?;
    Ok(feed.close(rt, seats))
}

#[test]
fn one_seat_takes_all(rt: HostRuntime) -> Result<(), Fail> {
    let (feed, mut seats) = Feed::of(&rt, rt.alloc(), 3, 1)?;
    let mut seat = seats.pop().ok_or("no seat")?;
    let taken = [
        seat.take(&rt, &feed),
        seat.take(&rt, &feed),
        seat.take(&rt, &feed),
        seat.take(&rt, &feed),
        seat.take(&rt, &feed),
    ];
    assert_eq!(rt; taken, [Some(1), Some(2), Some(3), None, None]);
    seats.push(seat)?;
    assert_eq!(rt; feed.close(&rt, seats), 4);
    Ok(())
}

#[test]
fn two_seats_take_each_number_once(rt: HostRuntime) -> Result<(), Fail> {
    let (feed, seats) = Feed::of(&rt, rt.alloc(), 1_000, 2)?;
    let (first, second) = pair(&feed, seats).ok_or("no seats")?;
    let (first, second) = take_beside(&rt, rt.alloc(), &feed, first, second);
    let (first, mut numbers) = first?;
    let (second, others) = second?;
    numbers.extend_from_slice(&others)?;
    numbers.sort_unstable();
    assert!(rt; numbers.iter().copied().eq(1..1_001));
    assert_eq!(rt; close_both(&rt, rt.alloc(), feed, first, second)?, 1_001);
    Ok(())
}

#[test]
fn the_first_number_that_nobody_took(rt: HostRuntime) -> Result<(), Fail> {
    let (feed, seats) = Feed::of(&rt, rt.alloc(), 10_000, 2)?;
    let (mut first, mut second) = pair(&feed, seats).ok_or("no seats")?;
    assert_eq!(rt; first.take(&rt, &feed), Some(1));
    assert_eq!(rt; second.take(&rt, &feed), Some(2));
    assert_eq!(rt; first.take(&rt, &feed), Some(3));
    assert_eq!(rt; close_both(&rt, rt.alloc(), feed, first, second)?, 4);
    Ok(())
}
