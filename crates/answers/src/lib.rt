// Refusals with their numbers; answers and tests in a row stand in specs/. Nothing of calls or stores.
#![tactic(auto)]

ghost use Rattle.std.specs.Prelude.{◌≡◌};
ghost use Rattle.answers.specs.Answers.{number};
ghost use Rattle.answers.specs.Results.{answer_of};

// Why a call is refused, with the number that stands for it in C and in a line of text.
#[derive(Clone, Copy, Debug, PartialEq, Eq)]
pub enum Refusal {
    BadSize = 1,
    BadLength = 2,
    BadRow = 3,
    ZeroTag = 4,
    OriginTag = 5,
    UnknownCommand = 6,
    CutCommand = 7,
    LongStream = 8,
    Unsound = 20,
    UnknownTag = 21,
    TagAlive = 22,
    SnapshotsFull = 23,
    PlacesFull = 24,
    TooManyRows = 25,
}

impl Refusal {
    pub fn number(self) -> u8
        ensures { result ≡ number self }
    {
        self as u8
    }
}

// The number of what a call returned: 0, or that of its refusal.
pub fn answer_of<T>(returned: &Result<T, Refusal>) -> u8
    ensures { result ≡ answer_of returned.now }
{
    match returned {
        Ok(_) => 0,
        Err(refusal) => refusal.number(),
    }
}
