// Meters with a register that only counts up, and starts again at 0 after 99,999.
ghost use Rattle.std.specs.Prelude.{◌≡◌, ◌*◌, ◌≤◌};
ghost use Rattle.metering.specs.Readings.{advance, register_fits, register_reading};
ghost use Rattle.metering.specs.Bounds.{register_at_most};
ghost use Rattle.std.proofs.Common.{rules};

use crate::lookup::{MeterRow, is_number};
use crate::table::{MeterKind, MeterTable};

// A register shows 0 to 99,999: so many values before it starts again.
const ROUND: u32 = 100_000;

// One step of the register is 1 to 20 kWh.
const MOST_FACTOR: u32 = 20;

// What a register showed at the start and at the end of the half hour, and the kWh to a step of it.
#[derive(Clone, Copy)]
pub struct RegisterRow {
    pub number: u32,
    pub start: u32,
    pub end: u32,
    pub factor: u32,
}

// Whether everything in the row is in its range.
fn fits(row: &RegisterRow) -> bool
    ensures { result ≡ register_fits row.now }
{
    is_number(row.number)
        & (row.start < ROUND)
        & (row.end < ROUND)
        & (row.factor >= 1)
        & (row.factor <= MOST_FACTOR)
}

// The kWh from one value of a register to another, which may lie past its new start at 0.
fn used(start: u32, end: u32, factor: u32) -> u32
    requires shown { (start ≤ 99999) × (end ≤ 99999) }
    requires small { factor ≤ 20 }
    ensures { result ≡ advance start end * factor }
{
    (end + ROUND - start) % ROUND * factor
}

// Its reading is how far the register went on, times the factor; a row with anything outside its range gives none.
impl MeterRow for RegisterRow {
    ghost numbered = { λ row. row.number };

    ghost gives = { register_reading };

    fn number(&self) -> u32 {
        self.number
    }

    fn reading(&self) -> Option<u32> {
        fits(self).then(|| used(self.start, self.end, self.factor))
    }
}

// Its largest reading.
impl MeterKind for RegisterRow {
    // the most steps at the most kWh to a step: 1,999,980
    const LARGEST: u32 = (ROUND - 1) * MOST_FACTOR;

    ghost LARGEST = { 1999980 };

    ghost bounded = { register_at_most };

    ghost small = { Prim.search rules };

    fn largest_reading() -> u32 {
        Self::LARGEST
    }
}

// A table of such meters.
pub type RegisterTable = MeterTable<RegisterRow>;
