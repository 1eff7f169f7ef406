//! A seat of a feed: how it takes numbers.
ghost use Rattle.std.specs.Prelude.{◌≡◌, ◌<◌, [], ◌∷◌, IfSome, IfNone, MatchOption, true};
ghost use Rattle.feed_core.specs.Prelude.{view, IsPassOf, IsSamePass, giver_of, CanDeal, CanTake, TakesNumber, FindsNone};
ghost use Rattle.feed_core.specs.Prelude.{feed_of, new_seat, TakesNext, remaining, IsGathered};

use crate::feed::Feed;
use crate::knowledge::{Deal, END, NumberPass, NumberQueue, Take};
use std::marker::Model;
use std::sync::Wait;

/// A seat of a feed, for one thread at a time.
///
/// Contracts see of which feed it is, what it took, and whether it was told that no number is left.
#[derive(Drop)]
pub struct FeedSeat {
    pass: NumberPass,
    // It has had its end mark.
    done: bool,
}

impl Model for FeedSeat {
    ghost use Rattle.feed_core.specs.Feeds.{Takings, takings_of, IsSeated};

    ghost Value = { Takings };

    ghost view = { λ s. takings_of s.pass s.done };

    ghost invariant = { λ s. IsSeated s.pass s.done };
}

impl FeedSeat {
    /// A new seat, by one of the parts that this pass has.
    pub(crate) fn dealt(queue: &NumberQueue, pass: &mut NumberPass) -> FeedSeat
        requires queue { IsPassOf queue.now pass.old }
        requires part { CanDeal (view pass.old) }
        ensures queue { IsSamePass pass.old pass.new }
        ensures rest { view pass.new ≡ giver_of (view pass.old) }
        ensures seat { result ≡ new_seat (feed_of pass.old) }
    {
        FeedSeat {
            pass: queue.another::<Deal>(pass),
            done: false,
        }
    }

    /// The seat's part, to be gathered with those of others.
    pub(crate) fn into_pass(self) -> NumberPass
        ensures { IsGathered self.feed (self ∷ []) result }
    {
        let FeedSeat { pass, done: _ } = self;
        pass
    }

    /// The next number. None where no number is left, for any seat, now and from then on.
    pub fn take<R: Wait>(&mut self, rt: &R, feed: &Feed) -> Option<u32>
        requires { self.old.feed ≡ feed.now }
        ensures some { IfSome result (λ number. TakesNext self.old number self.new) }
        ensures none { IfNone result (self.new ≡ record self.old { done = true }) }

        // A measure of loops that take until there is none.
        ensures fewer { IfSome result (λ _. remaining self.new < remaining self.old) }
    {
        if self.done {
            return None;
        }
        let taken = next_number(rt, &feed.queue, &mut self.pass);
        self.done = taken.is_none();
        taken
    }
}

/// The next number; none where no number is left. Nobody asks twice: for each seat there is one end mark behind the numbers, so the queue
/// isn't empty for who has not had its own.
pub(crate) fn next_number<R: Wait>(
    rt: &R,
    queue: &NumberQueue,
    pass: &mut NumberPass,
) -> Option<u32>
    requires queue { IsPassOf queue.now pass.old }
    requires part { CanTake (view pass.old) }
    ensures queue { IsSamePass pass.old pass.new }
    ensures taken { MatchOption result (FindsNone (view pass.old) (view pass.new)) (λ number. TakesNumber (view pass.old) number (view pass.new)) }
{
    match queue.pop_as::<Take, R>(rt, pass) {
        Some(END) => None,
        Some(number) => Some(number),
        None => None,
    }
}
