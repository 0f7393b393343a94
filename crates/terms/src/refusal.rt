ghost use Rattle.std.specs.Prelude.{◌≡◌};
ghost use Rattle.terms.specs.Numbers.{numbered};

use crate::codes::UnknownCode;

// The sorts of record that a refusal can be about.
#[derive(Clone, Copy, PartialEq, Eq, Debug)]
pub enum Sort {
    Contract,
    Group,
    Plant,
    Place,
}

// The record that a refusal is about.
#[derive(Clone, Copy, PartialEq, Eq, Debug)]
pub struct Concerned {
    pub sort: Sort,
    pub number: u32,
}

// Why a call was turned down, in the order in which the reasons are judged.
#[derive(Clone, Copy, PartialEq, Eq, Debug)]
pub enum Refusal {
    // the slip, notice or read is not of this book and stage, or the notice's line is not out
    NotOfThisStage,
    // a kind, direction, partner kind, owner kind or method is none of its values
    UnknownCode,
    // a number is not between 1 and 99,999
    NumberOutOfRange,
    // a kWh figure, rank or loss multiplier is not in its range
    FigureOutOfRange,
    // a named record is not in the book, or of the wrong kind
    UnknownRecord,
    // a contract, group or meter number is taken
    NumberTaken,
    // a contract would trade with itself
    TradeWithItself,
    // a curtailment plan is above its baseline
    PlanAboveBaseline,
    // another share at the plant has this rank
    RankTaken,
    // a table, or the allowance of a contract or owner, is full
    Full,
    // at close, this record has no group or no share
    WithoutMembers(Concerned),
    // a notice is out, or at settle one is waiting or out
    NoticeOpen,
    // at settle, this meter has no reading
    WithoutReading(Concerned),
    // the buffer is too short for the sheet
    ShortBuffer,
    // the division is outside the limits of a division rule
    NotDivisible,
}

impl Refusal {
    // The number by which a caller knows the refusal. A match, since two cases name a record: only an enum whose cases hold nothing has numbers of its own.
    pub fn number(&self) -> u32
        ensures { result ≡ numbered self.now }
    {
        match self {
            Refusal::NotOfThisStage => 1,
            Refusal::UnknownCode => 2,
            Refusal::NumberOutOfRange => 3,
            Refusal::FigureOutOfRange => 4,
            Refusal::UnknownRecord => 5,
            Refusal::NumberTaken => 6,
            Refusal::TradeWithItself => 7,
            Refusal::PlanAboveBaseline => 8,
            Refusal::RankTaken => 9,
            Refusal::Full => 10,
            Refusal::WithoutMembers(_) => 11,
            Refusal::NoticeOpen => 12,
            Refusal::WithoutReading(_) => 13,
            Refusal::ShortBuffer => 14,
            Refusal::NotDivisible => 15,
        }
    }
}

impl From<UnknownCode> for Refusal {
    ghost use Rattle.terms.specs.declared.refusal.Refusal.{Refusal};

    ghost from_gives = { λ _ r. r ≡ Refusal.UnknownCode };

    fn from(_code: UnknownCode) -> Self {
        Self::UnknownCode
    }
}
