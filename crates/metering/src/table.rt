// Tables of meters, of whatever kind of row.
ghost use Rattle.std.specs.Prelude.{◌≡◌, ℕ, ◌≤◌, Some};
ghost use Rattle.metering.specs.Bounds.{first-at_most};
ghost use Rattle.metering.specs.Lookup.{first_reading};

use crate::lookup::{MeterRow, first_reading};
use crate::source::MeterSource;

// A kind of row with a largest reading.
pub trait MeterKind: MeterRow {
    // The largest reading that a row of this kind gives: no kind may give more than 2,000,000.
    const LARGEST: u32;

    // the constant, as clauses and laws name it: the check proves the two equal
    ghost LARGEST: { ℕ };

    // The largest reading of this kind: the constant.
    fn largest_reading() -> u32
        ensures { result ≡ LARGEST };

    // no row gives more
    ghost bounded: { (row : Self) (kwh : ℕ) → Self.gives row ≡ Some kwh → kwh ≤ LARGEST };

    // and no kind may give more than this
    ghost small: { LARGEST ≤ 2000000 };
}

// A table of meters, as it was delivered: nothing in it is checked beforehand.
#[derive(Drop)]
pub struct MeterTable<R> {
    rows: Vec<R>,
}

impl<R: Drop> MeterTable<R> {
    // The table of these rows, kept as they are.
    pub fn new(rows: Vec<R>) -> MeterTable<R>
        ensures { result.rows ≡ rows }
    {
        MeterTable { rows }
    }
}

// It reads each meter by the first row with the meter's number.
impl<R: MeterKind> MeterSource for MeterTable<R> {
    const LARGEST: u32 = R::LARGEST;

    ghost read = { λ table meter. first_reading R.numbered R.gives meter table.rows.items };

    ghost LARGEST = { R.LARGEST };

    ghost largest = { R.LARGEST };

    ghost bounded = { λ table meter kwh e. first-at_most R.numbered R.gives R.LARGEST R.bounded meter table.rows.items kwh e };

    ghost small = { R.small };

    fn largest_reading(&self) -> u32 {
        Self::LARGEST
    }

    fn reading(&self, meter: u32) -> Option<u32> {
        first_reading(self.rows.as_slice(), meter)
    }
}
