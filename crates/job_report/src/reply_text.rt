//! The texts of replies.
ghost use Rattle.std.specs.Prelude.{◌≡◌, ◌++◌, IfOk, OnOk};
ghost use Rattle.job_report.specs.Pieces.{pieces_text};

use crate::pieces::Pieces;
use std::alloc::{AllocError, Global};
use std::marker::Model;

// The most octets that lie in place.
const SHORT: usize = 63;

/// The text of a reply. A short one lies in place, so that no memory is taken for it. Contracts see its octets.
#[derive(Drop)]
pub struct ReplyText {
    short: [u8; 63],
    len: u8,
    long: Vec<u8>,
}

impl Model for ReplyText {
    ghost use Rattle.std.specs.Prelude.{List, ℕ, ◌++◌, ◌≤◌, take};

    ghost Value = { List ℕ };

    ghost view = { λ t. take t.len t.short ++ t.long.items };

    ghost invariant = { λ t. t.len ≤ 63 };
}

impl ReplyText {
    /// A text of these octets.
    pub fn of(alloc: Global, text: &[u8]) -> Result<ReplyText, AllocError>
        ensures { IfOk result (λ t. t ≡ text.now) }
    {
        if text.len() > SHORT {
            return ReplyText::long(alloc, text);
        }
        let mut short = [0; 63];
        short[..text.len()].copy_from_slice(text);
        Ok(ReplyText {
            short,
            len: text.len() as u8,
            long: Vec::new(alloc),
        })
    }

    // The same on the heap. It stands by itself, so that a short text is laid down where it stays.
    #[inline(never)]
    fn long(alloc: Global, text: &[u8]) -> Result<ReplyText, AllocError>
        ensures { IfOk result (λ t. t ≡ text.now) }
    {
        Ok(ReplyText {
            short: [0; 63],
            len: 0,
            long: Vec::from_slice(alloc, text)?,
        })
    }

    /// Pushes it.
    pub fn push_to(&self, out: &mut Vec<u8>) -> Result<(), AllocError>
        ensures { OnOk result (out.new.items ≡ out.old.items ++ self.now) }
    {
        out.extend_from_slice(&self.short[..self.len as usize])?;
        out.extend_from_slice(&self.long)
    }

    /// Puts it at the end of pieces, of which a long one isn't copied.
    pub(crate) fn append_to(self, out: &mut Pieces) -> Result<(), AllocError>
        ensures { OnOk result (pieces_text out.new ≡ pieces_text out.old ++ self) }
    {
        out.last
            .extend_from_slice(&self.short[..self.len as usize])?;
        if self.long.is_empty() {
            return Ok(());
        }
        let ReplyText { long, .. } = self;
        out.append(long)
    }
}
