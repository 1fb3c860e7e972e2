//! Why a line of the bus is skipped.
ghost use Rattle.std.specs.Prelude.{◌≡◌};
ghost use Rattle.u_share.specs.Lines.{words_of};

/// Why a line of the bus is skipped.
#[derive(Clone, Copy, PartialEq, Eq, Debug)]
pub enum LineFault {
    /// It has more than 32,768 bytes.
    TooLong,
    /// It is no firing's text.
    NotAllowed,
    /// It is the text of a firing that is none of the job.
    NotOfThisJob,
    /// The input ended before its newline.
    CutShort,
}

impl LineFault {
    /// The words that a notice has for it.
    pub fn text(self) -> &'static str
        ensures { result.now ≡ words_of self }
    {
        match self {
            LineFault::TooLong => "too long",
            LineFault::NotAllowed => "not allowed",
            LineFault::NotOfThisJob => "not of this job",
            LineFault::CutShort => "cut short",
        }
    }
}
