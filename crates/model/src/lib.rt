// The answers of every operation: a result, or a refusal with its kind and place.
#![tactic(auto)]

ghost use Rattle.std.specs.Prelude.{◌≡◌};
ghost use Rattle.model.specs.Answers.{kind_number};

use std::fmt;
use std::fmt::Display;

// The refusals of document 01, in the order of their numbers.
#[derive(Clone, Copy, PartialEq, Eq, Debug)]
pub enum Kind {
    // 1 to 7 and 9 to 11: checking a table
    TooManyStates = 1,
    CutRow = 2,
    TooManyRowsOrArguments = 3,
    NotInRange = 4,
    ArgumentNotBelowTarget = 5,
    RepeatedRow = 6,
    AcceptingEntry = 7,
    // 8 is withdrawn, and its number is not used again
    CountAboveLimit = 9,
    LongestTreeAboveLimit = 10,
    TotalAboveLimit = 11,
    // 12 to 14: numbering a tree
    TreeTooLong = 12,
    NotATree = 13,
    NotAccepted = 14,
    // 15 and 16: writing the tree of a number
    NumberNotBelowTotal = 15,
    ShortTreeList = 16,
    // 17 to 22: reading a term
    FaultyNames = 17,
    TextTooLong = 18,
    NotATerm = 19,
    UnlistedName = 20,
    TermTreeTooLong = 21,
    ShortTermTree = 22,
    // 23 and 24: writing a term
    UnnamedSymbol = 23,
    ShortTextList = 24,
}

// Document 01's number of a kind of refusal.
impl From<Kind> for u32 {
    ghost from_gives = { λ k n. n ≡ kind_number k };

    fn from(k: Kind) -> u32 {
        k as u32
    }
}

// A refusal: of which kind, and where.
#[derive(Clone, Copy, PartialEq, Eq, Debug)]
pub struct Refusal {
    pub place: u64,
    pub kind: Kind,
}

// A result, or the refusal.
pub type Answer = Result<u64, Refusal>;

impl Refusal {
    pub fn new(kind: Kind, place: usize) -> Self
        ensures { result ≡ record { place = place; kind = kind } }
    {
        Refusal {
            place: place as u64,
            kind,
        }
    }
}

// As it is printed: the word, document 01's number and the place.
impl Display for Refusal {
    fn fmt<W: fmt::Write>(&self, f: &mut fmt::Formatter<W>) -> fmt::Result {
        f.write_str("refused")?;
        write!(f, " {} {}", u32::from(self.kind), self.place)
    }
}
