// The metered demand of an owner: what its meters read together, times the loss multiplier.
ghost use Rattle.std.specs.Prelude.{◌≡◌, ◌≤◌, length, IfOk, Ok, Err, sum};
ghost use Rattle.tables.specs.Listed.{listed};
ghost use Rattle.metering.specs.Demand.{multiplied, readings, demand_of};

use crate::source::MeterSource;
use tables::Table;
use tables::totals::{Whose, total};

// An owner has at most so many meters.
pub const MOST_METERS: usize = 64;

// A loss multiplier counts in ten-thousandths: this one leaves the sum as it is.
const EVEN: u64 = 10_000;

// A meter that has no reading.
#[derive(Clone, Copy, PartialEq, Eq, Debug)]
pub struct Unread {
    pub meter: u32,
}

// The readings of the meters in listed order, or the first meter that has none: a `for` with `?`, since the contract says which meter ends it.
fn gather_readings<S: MeterSource>(
    source: &S,
    meters: &[u32],
) -> Result<Table<u64, MOST_METERS>, Unread>
    requires { length meters.now ≤ 64 }
    ensures exact { elim result [
      | Ok gathered ↦ readings (S.MeterSource.read source.now) meters.now ≡ Ok (listed gathered)
      | Err unread ↦ readings (S.MeterSource.read source.now) meters.now ≡ Err unread
    ] }
    ensures light { IfOk result (λ gathered. sum (listed gathered) ≤ 128000000) }
{
    let mut gathered: Table<u64, MOST_METERS> = Table::new(0);
    for meter in meters {
        let kwh = source.reading(*meter).ok_or(Unread { meter: *meter })?;
        gathered.push(u64::from(kwh));
    }
    Ok(gathered)
}

// A sum of readings times the multiplier, rounded down. The multiplier is a number within its range and no type: contracts are filed with any, and a type would ask more of callers.
fn multiply(sum: u64, multiplier: u32) -> u64
    requires light { sum ≤ 128000000 }
    requires small { multiplier ≤ 12000 }
    ensures { result ≡ multiplied sum multiplier }
{
    sum * u64::from(multiplier) / EVEN
}

// The metered demand of the owner of these meters, listed in order: the sum of their readings times the multiplier, rounded down once on the sum;
// or the first meter that has no reading.
// It is public since other crates of the repository call it: they are proved to list at most 64 meters and to keep the multiplier at 12,000 or below.
pub fn metered_demand<S: MeterSource>(
    source: &S,
    meters: &[u32],
    multiplier: u32,
) -> Result<u64, Unread>
    requires few { length meters.now ≤ 64 }
    requires small { multiplier ≤ 12000 }
    ensures { result ≡ demand_of (S.MeterSource.read source.now) meters.now multiplier }
{
    let gathered = gather_readings(source, meters)?;
    let read = total(gathered.as_slice(), Whose::Everyone);
    Ok(multiply(read, multiplier))
}
