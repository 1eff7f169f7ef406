//! The bytes of a talk, line by line.
ghost use Rattle.std.specs.Prelude.{◌≡◌, ◌≤◌, [], false, length, take, drop, IfOk, OnOk, ◌==◌, position};
ghost use Rattle.session_lines.specs.Prelude.{Blames, line_end};
ghost use Rattle.session_lines.specs.Taking.{GivesMore, HasTaken, StopsTaking};

use outer_io::{Failed, Sink, Talk};
use std::alloc::{AllocError, AllocFailed, Global};
use std::marker::Model;

/// The most bytes of a line, with its line feed.
pub const LONGEST: usize = 16777216;

// The most bytes that are asked for at once.
const PIECE: usize = 65536;

/// Why no more is taken.
#[derive(Clone, Copy, Debug, PartialEq, Eq)]
pub enum NoMore {
    /// A call on the talk failed.
    Fault,
    /// The line that was begun has more bytes than a line may have.
    TooLong,
    /// No memory was left.
    Memory,
}

impl From<AllocError> for NoMore {
    ghost use Rattle.session_lines.specs.declared.intake.NoMore.TheVariants.{Memory};

    ghost from_gives = { λ _ e. e ≡ Memory };

    fn from(_: AllocError) -> Self {
        NoMore::Memory
    }
}

impl From<Failed> for NoMore {
    ghost use Rattle.session_lines.specs.declared.intake.NoMore.TheVariants.{Fault};

    ghost from_gives = { λ _ e. e ≡ Fault };

    fn from(_: Failed) -> Self {
        NoMore::Fault
    }
}

// The index of the first line feed.
fn first_feed(bytes: &[u8]) -> Option<usize>
    ensures { result ≡ position (λ b. b == 10) bytes.now }
{
    bytes.iter().position(|b| *b == b'\n')
}

/// Bytes that were taken and are not done with: those from `from` on. The ones of them before `searched` have no line feed.
#[derive(Drop)]
pub struct Intake {
    bytes: Vec<u8>,
    from: usize,
    searched: usize,
    ended: bool,
    piece: Vec<u8>,
}

impl Model for Intake {
    ghost use Rattle.std.specs.Prelude.{◌≤◌, ◌≡◌, ◌-◌, length, take, drop};
    ghost use Rattle.session_lines.specs.Taking.{Pending, IsUnbroken};

    ghost Value = { Pending };

    ghost view = { λ i. record { bytes = drop i.from i.bytes.items; ended = i.ended } };

    ghost invariant = { λ i. (i.from ≤ i.searched) × (i.searched ≤ length i.bytes.items)
        × IsUnbroken (take (i.searched - i.from) (drop i.from i.bytes.items)) × (length i.piece.items ≡ 65536) };
}

impl Intake {
    /// Nothing is taken yet.
    pub fn new(alloc: Global) -> Result<Intake, AllocError>
        ensures bytes { IfOk result (λ i. i.bytes ≡ []) }
        ensures ended { IfOk result (λ i. i.ended ≡ false) }
    {
        Ok(Intake {
            bytes: Vec::new(alloc),
            from: 0,
            searched: 0,
            ended: false,
            piece: vec![in alloc; 0; PIECE]?,
        })
    }

    /// Whether the end of input was told.
    pub fn has_ended(&self) -> bool
        ensures { result ≡ self.now.ended }
    {
        self.ended
    }

    /// How many bytes are taken and not done with.
    pub fn len(&self) -> usize
        ensures { result ≡ length self.now.bytes }
    {
        self.bytes.len() - self.from
    }

    /// How many bytes the next line has with its line feed, where it is there whole.
    pub fn next_line(&mut self) -> Option<usize>
        ensures found { result ≡ line_end self.old.bytes }
        ensures same { self.new ≡ self.old }
    {
        let rest = &self.bytes[self.searched..];
        match first_feed(rest) {
            Some(n) => Some(self.searched - self.from + n + 1),
            None => {
                self.searched = self.bytes.len();
                None
            }
        }
    }

    /// The first bytes.
    pub fn front(&self, count: usize) -> &[u8]
        requires { count ≤ length self.now.bytes }
        ensures { result.now ≡ take count self.now.bytes }
    {
        &self.bytes[self.from..self.from + count]
    }

    /// Lets go of the first bytes. They are done with.
    pub fn let_go(&mut self, count: usize)
        requires { count ≤ length self.old.bytes }
        ensures bytes { self.new.bytes ≡ drop count self.old.bytes }
        ensures ended { self.new.ended ≡ self.old.ended }
    {
        self.from += count;
        self.searched = self.from;
    }

    // Moves the bytes that are not done with to the front of the memory.
    fn shift(&mut self)
        ensures { self.new ≡ self.old }
    {
        if self.from == 0 {
            return;
        }
        let left = self.bytes.len() - self.from;
        self.bytes.copy_within(self.from.., 0);
        self.bytes.truncate(left);
        self.searched -= self.from;
        self.from = 0;
    }

    /// Takes what the talk gives, and waits where it has nothing yet. What lies in the sink has to be all that is due. Memory is wanting for
    /// bytes that the talk gave alone, which are lost then.
    pub fn take<K: Sink, T: Talk<K>>(&mut self, talk: &mut T, sink: &K) -> Result<(), NoMore>
        requires settled { T.is_settled (T.given talk.old) (K.held sink.now).taken }
        ensures grows { GivesMore result (T.left talk.old) (T.left talk.new) (T.given talk.old) (T.given talk.new) self.old self.new }
        ensures taken { OnOk result (HasTaken self.old self.new (T.given talk.old) (T.given talk.new) (T.ended talk.new)) }
        ensures stops { StopsTaking result self.old self.new (T.given talk.old) (T.given talk.new) }
        ensures talk { Blames result NoMore.Fault (T.faults talk.old) (T.faults talk.new) }
    {
        if self.len() > LONGEST {
            return Err(NoMore::TooLong);
        }
        self.shift();
        let count = talk.ask(sink, &mut self.piece)?;
        if count == 0 {
            self.ended = true;
            return Ok(());
        }
        self.bytes.extend_from_slice(&self.piece[..count])?;
        Ok(())
    }
}
