// Why a text or a call is refused.
ghost use Rattle.std.specs.Prelude.{◌≡◌};
ghost use Rattle.sheet.specs.Refusal.{number_of};

// The refusals of documents 01 and 02, each with its number.
#[derive(Clone, Copy)]
pub enum Refusal {
    TextTooLong = 1,
    BadLine = 2,
    KindOutOfOrder = 3,
    WrongByteCount = 4,
    FieldOutOfRange = 5,
    TimeFalls = 6,
    PastTheEnd = 7,
    TooMany = 8,
    WorkShort = 9,
    TreeShort = 10,
    NoTree = 11,
    NotATree = 12,
    ScoreShort = 13,
    TapMissing = 17,
    StepOutOfRange = 18,
    BeforeTheFirstTap = 19,
}

impl Refusal {
    pub fn number(self) -> u8
        ensures { result ≡ number_of self }
    {
        self as u8
    }

    // The same at a line.
    pub fn at(self, line: usize) -> Refused
        ensures { result ≡ record { refusal = self; line = line } }
    {
        Refused {
            refusal: self,
            line,
        }
    }
}

// A refusal and its line, from 1; 0 for one that is not found line by line.
#[derive(Clone, Copy)]
pub struct Refused {
    pub refusal: Refusal,
    pub line: usize,
}

// A refusal at a line in the course of reading, and the place in the text where that line starts.
#[derive(Clone, Copy)]
pub struct Stop {
    pub refusal: Refusal,
    pub line: usize,
    pub at: usize,
}
