// The cases of the trade that callers name by a code: kinds of contract, directions, kinds of owner, methods.
ghost use Rattle.std.specs.Prelude.{◌≡◌, Some};
ghost use Rattle.terms.specs.Codes.{kind_code, direction_code, owner_code, method_code, kind_of, direction_of, owner_kind_of, method_of, stated, Decodes};
ghost use Rattle.terms.specs.Text.{unknown_code_text};

use std::error::Error;
use std::fmt;

// What a contract is.
#[derive(Clone, Copy, PartialEq, Eq, Debug)]
pub enum Kind {
    Generation = 1,
    Retail = 2,
    Negawatt = 3,
}

// Which way a line trades.
#[derive(Clone, Copy, PartialEq, Eq, Debug)]
pub enum Direction {
    Sale = 1,
    Purchase = 2,
}

// What owns a place.
#[derive(Clone, Copy, PartialEq, Eq, Debug)]
pub enum OwnerKind {
    RetailContract = 1,
    CurtailmentGroup = 2,
}

// How a difference between curtailment plan and metered demand is settled: shared with the retailer, or all the aggregator's.
#[derive(Clone, Copy, PartialEq, Eq, Debug)]
pub enum Method {
    One = 1,
    Two = 2,
}

// A code that no case has.
#[derive(Clone, Copy, PartialEq, Eq, Debug)]
pub struct UnknownCode {
    pub code: u32,
}

impl fmt::Display for UnknownCode {
    ghost output = { λ e. Some (unknown_code_text e) };

    fn fmt<W: fmt::Write>(&self, f: &mut fmt::Formatter<W>) -> fmt::Result {
        write!(f, "no case has the code {}", self.code)
    }
}

impl Error for UnknownCode {}

// Each of the four conversions maps other codes to other cases, and an impl written by a macro of our own is refused.
impl TryFrom<u32> for Kind {
    type Error = UnknownCode;

    ghost try_from_gives = { Decodes kind_of kind_code };

    fn try_from(code: u32) -> Result<Kind, UnknownCode> {
        match code {
            1 => Ok(Kind::Generation),
            2 => Ok(Kind::Retail),
            3 => Ok(Kind::Negawatt),
            _ => Err(UnknownCode { code }),
        }
    }
}

impl TryFrom<u32> for Direction {
    type Error = UnknownCode;

    ghost try_from_gives = { Decodes direction_of direction_code };

    fn try_from(code: u32) -> Result<Direction, UnknownCode> {
        match code {
            1 => Ok(Direction::Sale),
            2 => Ok(Direction::Purchase),
            _ => Err(UnknownCode { code }),
        }
    }
}

impl TryFrom<u32> for OwnerKind {
    type Error = UnknownCode;

    ghost try_from_gives = { Decodes owner_kind_of owner_code };

    fn try_from(code: u32) -> Result<OwnerKind, UnknownCode> {
        match code {
            1 => Ok(OwnerKind::RetailContract),
            2 => Ok(OwnerKind::CurtailmentGroup),
            _ => Err(UnknownCode { code }),
        }
    }
}

impl TryFrom<u32> for Method {
    type Error = UnknownCode;

    ghost try_from_gives = { Decodes method_of method_code };

    fn try_from(code: u32) -> Result<Method, UnknownCode> {
        match code {
            1 => Ok(Method::One),
            2 => Ok(Method::Two),
            _ => Err(UnknownCode { code }),
        }
    }
}

impl Kind {
    // The code of the kind, as the sheet shows it.
    pub fn code(self) -> u32
        ensures { result ≡ kind_code self }
    {
        self as u32
    }
}

impl Method {
    // The method that is filed by this code; 0, unstated, counts as 1.
    pub fn filed(code: u32) -> Result<Method, UnknownCode>
        ensures { Decodes method_of method_code (stated code) result }
    {
        if code == 0 {
            Ok(Method::One)
        } else {
            Method::try_from(code)
        }
    }
}
