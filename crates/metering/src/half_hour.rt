// Meters that record each half hour by itself.
ghost use Rattle.std.specs.Prelude.{◌≡◌};
ghost use Rattle.metering.specs.Readings.{half_hour_reading};
ghost use Rattle.metering.specs.Bounds.{half_hour_at_most};
ghost use Rattle.std.proofs.Common.{rules};

use crate::lookup::{MeterRow, is_number};
use crate::table::{MeterKind, MeterTable};

// The largest kWh of a half hour.
const MOST_KWH: u32 = 2_000_000;

// What a meter recorded in the half hour.
#[derive(Clone, Copy)]
pub struct HalfHourRow {
    pub number: u32,
    pub kwh: u32,
}

// Its reading is what it recorded; a row with a number or kWh outside its range gives none.
impl MeterRow for HalfHourRow {
    ghost numbered = { λ row. row.number };

    ghost gives = { half_hour_reading };

    fn number(&self) -> u32 {
        self.number
    }

    fn reading(&self) -> Option<u32> {
        let fits = is_number(self.number) & (self.kwh <= MOST_KWH);
        fits.then_some(self.kwh)
    }
}

// Its largest reading.
impl MeterKind for HalfHourRow {
    const LARGEST: u32 = MOST_KWH;

    ghost LARGEST = { 2000000 };

    ghost bounded = { half_hour_at_most };

    ghost small = { Prim.search rules };

    fn largest_reading() -> u32 {
        Self::LARGEST
    }
}

// A table of such meters.
pub type HalfHourTable = MeterTable<HalfHourRow>;
