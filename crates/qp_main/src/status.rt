// How the program ends.
ghost use Rattle.std.specs.Prelude.{◌≡◌};
ghost use Rattle.qp_main.specs.Statuses.{code_of};

/// How the program ended.
#[derive(Clone, Copy, Debug, PartialEq, Eq)]
pub enum Status {
    /// The report was written, and no block was refused.
    Done,
    /// The report was written, and some block was refused.
    SomeRefused,
    /// The words are no command line.
    WordsRefused,
    /// The zone was refused.
    ZoneRefused,
    /// The script was refused.
    ScriptRefused,
    /// The source failed. Nothing was written.
    SourceFault,
    /// The sink failed. A prefix of the text was written.
    SinkFault,
    /// No memory was left. Nothing was written.
    NoMemory,
    /// The input has more than 16,777,216 bytes.
    TooLong,
    /// The zone may need more cells than the chunks have.
    DoesNotFit,
    /// What makes of a zone another one was written, and it is something.
    Differ,
}

impl Status {
    /// The exit status, from 0 to 9 in the order of the variants; 1 where zones differ, as where a block is refused.
    pub fn code(self) -> u8
        ensures { result ≡ code_of self }
    {
        match self {
            Status::Done => 0,
            Status::SomeRefused => 1,
            Status::WordsRefused => 2,
            Status::ZoneRefused => 3,
            Status::ScriptRefused => 4,
            Status::SourceFault => 5,
            Status::SinkFault => 6,
            Status::NoMemory => 7,
            Status::TooLong => 8,
            Status::DoesNotFit => 9,
            Status::Differ => 1,
        }
    }
}
