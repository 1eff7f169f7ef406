//! Why a session ends before its lines do.
ghost use Rattle.std.specs.Prelude.{◌≡◌};

use session_lines::NoMore;
use session_talk::Stop;
use std::alloc::AllocError;
use zone_text::ZoneRefusal;

/// Why a session ends early. Nothing is written of it.
#[derive(Clone, Copy)]
pub enum EarlyEnd {
    /// The zone is refused. Nothing was written.
    ZoneRefused(ZoneRefusal),
    /// Version 0 has so many cells, over the limit. Nothing was written.
    DoesNotFit { cells: u64, limit: u64 },
    /// The zone has more than 16,777,216 bytes. Nothing was written.
    ZoneTooLong,
    /// A line has more bytes than that, with its line feed. All lines before it were answered.
    LineTooLong,
    /// A call on the talk failed. All lines that came whole were answered.
    TalkFault,
    /// A call on the sink failed. It has a front of what is due.
    SinkFault,
    /// No memory was left. The sink has a front of what is due.
    Memory,
}

impl From<AllocError> for EarlyEnd {
    ghost use Rattle.live_session.specs.declared.early.EarlyEnd.TheVariants.{Memory};

    ghost from_gives = { λ _ e. e ≡ Memory };

    fn from(_: AllocError) -> Self {
        EarlyEnd::Memory
    }
}

impl From<Stop> for EarlyEnd {
    ghost use Rattle.live_session.specs.Ends.{end_by};

    ghost from_gives = { λ stop e. e ≡ end_by stop };

    fn from(stop: Stop) -> Self {
        match stop {
            Stop::Fault => EarlyEnd::TalkFault,
            Stop::Sink => EarlyEnd::SinkFault,
            Stop::TooLong => EarlyEnd::LineTooLong,
            Stop::Memory => EarlyEnd::Memory,
        }
    }
}

impl From<NoMore> for EarlyEnd {
    ghost use Rattle.live_session.specs.Ends.{end_without};

    ghost from_gives = { λ no_more e. e ≡ end_without no_more };

    fn from(no_more: NoMore) -> Self {
        match no_more {
            NoMore::Fault => EarlyEnd::TalkFault,
            NoMore::TooLong => EarlyEnd::ZoneTooLong,
            NoMore::Memory => EarlyEnd::Memory,
        }
    }
}
