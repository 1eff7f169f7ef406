//! Answers.

ghost use Rattle.std.specs.Prelude.{◌≡◌, List};

use crate::kind::Kind;
use crate::rows::Rows;
use std::marker::Model;

/// An answer: its kind, and the records that it gives.
#[derive(Drop)]
pub struct Answer {
    kind: Kind,
    rows: Rows,
}

impl Model for Answer {
    ghost use Rattle.zone_answer.specs.Answers.{Answer};

    ghost Value = { Answer };

    ghost view = { λ a. record { kind = a.kind; rows = a.rows } };
}

impl Answer {
    pub(crate) fn new(kind: Kind, rows: Rows) -> Answer
        ensures { result ≡ record { kind = kind; rows = rows } }
    {
        Answer { kind, rows }
    }

    pub fn kind(&self) -> Kind
        ensures { result ≡ self.now.kind }
    {
        self.kind
    }

    pub fn rows(&self) -> &Rows
        ensures { result.now ≡ self.now.rows }
    {
        &self.rows
    }
}
