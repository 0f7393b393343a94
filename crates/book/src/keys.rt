// The keys by which lines and shares are known.
use terms::codes::{Direction, UnknownCode};
use terms::partner::Partner;

// A line is known by contract, direction and partner.
#[derive(Clone, Copy, PartialEq, Eq, Debug)]
pub(crate) struct LineKey {
    pub(crate) contract: u32,
    pub(crate) direction: Direction,
    pub(crate) partner: Partner,
}

// A share is known by group and plant.
#[derive(Clone, Copy, PartialEq, Eq, Debug)]
pub(crate) struct ShareKey {
    pub(crate) group: u32,
    pub(crate) plant: u32,
}

// The key of a line as a caller gives it: a contract, the code of a direction, and the kind and number of a partner.
#[derive(Clone, Copy, PartialEq, Eq, Debug)]
pub(crate) struct LineCodes {
    pub(crate) contract: u32,
    pub(crate) direction: u32,
    pub(crate) kind: u32,
    pub(crate) number: u32,
}

impl TryFrom<LineCodes> for LineKey {
    type Error = UnknownCode;

    ghost use Rattle.book.specs.Keys.{DecodesLine};

    ghost try_from_gives = { DecodesLine };

    fn try_from(codes: LineCodes) -> Result<LineKey, UnknownCode> {
        Ok(LineKey {
            contract: codes.contract,
            direction: Direction::try_from(codes.direction)?,
            partner: Partner::from_codes(codes.kind, codes.number)?,
        })
    }
}
