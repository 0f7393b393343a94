// Meters: tables of both kinds, read meter by meter, and an owner's metered demand by them.
ghost use Rattle.std.specs.Prelude.{◌≤◌};

use crate::draws::{Draws, DrawsRows, draw_rows};
use crate::text::Spaced;
use metering::demand::metered_demand;
use metering::half_hour::{HalfHourRow, HalfHourTable};
use metering::register::{RegisterRow, RegisterTable};
use metering::source::MeterSource;
use std::io;
use tables::Table;

// A table has at most so many rows, and an owner at most so many places.
const MOST_ROWS: usize = 8;

const MOST_PLACES: usize = 4;

// The meters that are read.
const ASKED: [u32; 6] = [0, 1, 2, 3, 99_999, 100_000];

// A row's number: one in four is outside its range.
fn draw_number(draws: &mut Draws) -> u32 {
    match draws.below(8) {
        0 => 0,
        1..=2 => 1,
        3..=4 => 2,
        5 => 3,
        6 => 99_999,
        _ => 100_000,
    }
}

// Rows of a half-hour table: one in 16 is over the limit.
struct HalfHours;

impl DrawsRows<HalfHourRow> for HalfHours {
    ghost fine = { λ _ _. Unit {0} };

    fn row(&self, _place: usize, draws: &mut Draws) -> HalfHourRow {
        let number = draw_number(draws);
        let kwh = draws.small_figure(2_000_000);
        let kwh = if draws.below(16) == 0 { 2_000_001 } else { kwh };
        HalfHourRow { number, kwh }
    }
}

// Rows of a register table: one in eight is outside a range.
struct Registers;

impl DrawsRows<RegisterRow> for Registers {
    ghost fine = { λ _ _. Unit {0} };

    fn row(&self, _place: usize, draws: &mut Draws) -> RegisterRow {
        let number = draw_number(draws);
        let start = draws.small_figure(99_999);
        let end = draws.small_figure(99_999);
        let factor = 1 + draws.small_figure(19);
        let mut row = RegisterRow {
            number,
            start,
            end,
            factor,
        };
        match draws.below(32) {
            0 => row.start = 100_000,
            1 => row.end = 100_000,
            2 => row.factor = 0,
            3 => row.factor = 21,
            _ => {}
        }
        row
    }
}

// The reading of each meter that is asked for.
fn show_readings<S: MeterSource>(rt: HostRuntime, source: &S) -> io::Result<()> {
    print!(rt; "; reads")?;
    for meter in ASKED {
        match source.reading(meter) {
            Some(kwh) => print!(rt; " {meter}: {kwh}")?,
            None => print!(rt; " {meter}: none")?,
        }
    }
    Ok(())
}

// The meters of an owner's places, in their turn.
const PLACES: [u32; 4] = [1, 2, 3, 99_999];

// An owner's places, one after another from a start, and its loss multiplier.
#[derive(Clone, Copy)]
struct Owner {
    multiplier: u32,
    count: usize,
    start: usize,
    ghost loss: { multiplier ≤ 12000 },
    ghost few: { count ≤ 4 },
    ghost first: { start ≤ 3 },
}

impl Owner {
    fn draw(draws: &mut Draws) -> Owner {
        let multiplier = 10_000 + draws.small_figure(2_000);
        let count = draws.below(5) as usize;
        let start = draws.below(4) as usize;
        Owner {
            multiplier,
            count,
            start,
        }
    }
}

impl DrawsRows<u32> for Owner {
    ghost fine = { λ _ _. Unit {0} };

    fn row(&self, place: usize, _draws: &mut Draws) -> u32 {
        PLACES[(self.start + place % 4) % 4]
    }
}

// What a source answers: the readings, and the metered demand of an owner or the first of its meters without a reading.
fn show_source<S: MeterSource>(rt: HostRuntime, source: &S, draws: &mut Draws) -> io::Result<()> {
    show_readings(rt, source)?;
    let owner = Owner::draw(draws);
    let meters: Table<u32, MOST_PLACES> = draw_rows(&owner, owner.count, 0, draws);
    print!(rt;
        "; multiplier {}, places{}",
        owner.multiplier,
        Spaced(meters.as_slice())
    )?;
    match metered_demand(source, meters.as_slice(), owner.multiplier) {
        Ok(demand) => print!(rt; ": demand {demand}"),
        Err(unread) => print!(rt; ": without {}", unread.meter),
    }
}

// A half-hour table. It and the register table differ in how a row is drawn and how it is printed: one function that took both would be longer than the two.
fn half_hour_case(rt: HostRuntime, count: usize, draws: &mut Draws) -> io::Result<()>
    requires { count ≤ 8 }
{
    let blank = HalfHourRow { number: 0, kwh: 0 };
    let rows: Table<HalfHourRow, MOST_ROWS> = draw_rows(&HalfHours, count, blank, draws);
    for row in rows.as_slice() {
        print!(rt; "; row {} {}", row.number, row.kwh)?;
    }
    let table = HalfHourTable::new(rows.as_slice().to_vec(rt.alloc())?);
    show_source(rt, &table, draws)
}

// A register table.
fn register_case(rt: HostRuntime, count: usize, draws: &mut Draws) -> io::Result<()>
    requires { count ≤ 8 }
{
    let blank = RegisterRow {
        number: 0,
        start: 0,
        end: 0,
        factor: 0,
    };
    let rows: Table<RegisterRow, MOST_ROWS> = draw_rows(&Registers, count, blank, draws);
    for row in rows.as_slice() {
        print!(rt;
            "; row {} {} {} {}",
            row.number, row.start, row.end, row.factor
        )?;
    }
    let table = RegisterTable::new(rows.as_slice().to_vec(rt.alloc())?);
    show_source(rt, &table, draws)
}

// One table of either kind.
pub fn case(rt: HostRuntime, case: u64) -> io::Result<()> {
    let mut draws = Draws::of_case(case);
    let is_half_hour = draws.below(2) == 0;
    let count = draws.below(12).min(8) as usize;
    if is_half_hour {
        print!(rt; "{case} half-hour meters")?;
        half_hour_case(rt, count, &mut draws)?;
    } else {
        print!(rt; "{case} register meters")?;
        register_case(rt, count, &mut draws)?;
    }
    println!(rt; "")
}
