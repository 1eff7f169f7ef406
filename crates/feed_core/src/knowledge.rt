//! What a seat knows, the rule of the queue, and what each step on it tells.
//!
//! No value of a seat's knowledge is made: it stands in contracts and proofs alone.
ghost use Rattle.feed_core.specs.Prelude.{alone, grown, nobody, giver_of, taker_of, joined, IsHandedOut};
ghost use Rattle.feed_core.specs.Prelude.{takes, puts_number, holds_all, puts_mark, leaves_none};

use crossbeam_queue::protocol::{Join, Lesson, Outcome, Protocol, Split};
use crossbeam_queue::{Pass, RuledArrayQueue};
use std::collections::LinkedList;

/// An end mark. Behind the numbers there is one for each seat.
pub(crate) const END: u32 = 0;

/// What a seat knows.
pub struct Knowledge {
    /// How many parts of the right to know all it has.
    pub parts: u32,
    /// How many parts there are.
    pub whole: u32,
    /// How many numbers were put, from 1 on.
    pub put: u32,
    /// How many end marks were put behind them.
    pub marks: u32,
    /// It may still put numbers and marks.
    pub fills: bool,
    /// The numbers that it took, in order.
    pub taken: LinkedList<u32>,
    /// How many end marks it took.
    pub ends: u32,
}

/// The rule of the queue: what holds between any two steps.
pub struct NumberRule;

impl Protocol<u32, Knowledge> for NumberRule {
    ghost holds = { IsHandedOut };

    ghost first = { alone 1 0 0 };
}

/// The queue of numbers, and of end marks behind them.
pub type NumberQueue = RuledArrayQueue<u32, Knowledge, NumberRule>;

/// A seat at the queue. It has no bytes.
pub type NumberPass = Pass<u32, Knowledge>;

/// There is one part more.
pub(crate) struct Grow;

impl Split<Knowledge> for Grow {
    ghost left = { grown };

    ghost right = { λ _. nobody };
}

/// One part goes to a new seat.
pub(crate) struct Deal;

impl Split<Knowledge> for Deal {
    ghost left = { giver_of };

    ghost right = { taker_of };
}

/// A seat takes over all that another one has.
pub(crate) struct Gather;

impl Join<Knowledge> for Gather {
    ghost both = { joined };

    ghost spent = { nobody };
}

/// A seat puts the next number.
pub(crate) struct PutNumber;

impl Outcome<u32, Knowledge> for PutNumber {
    ghost then = { puts_number };
}

impl Lesson<u32, Knowledge> for PutNumber {
    ghost fact = { holds_all };
}

/// A seat puts an end mark.
pub(crate) struct PutMark;

impl Outcome<u32, Knowledge> for PutMark {
    ghost then = { puts_mark };
}

impl Lesson<u32, Knowledge> for PutMark {
    ghost fact = { holds_all };
}

/// A seat takes a number or an end mark.
pub(crate) struct Take;

impl Outcome<u32, Knowledge> for Take {
    ghost then = { takes };
}

impl Lesson<u32, Knowledge> for Take {
    ghost fact = { leaves_none };
}
