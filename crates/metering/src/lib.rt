// Meters: what a source of readings answers, two kinds of table that are such sources, and the demand of an owner by its meters.
#![tactic(auto)]

pub mod demand;
pub mod half_hour;
pub mod lookup;
pub mod register;
pub mod source;
pub mod table;

#[cfg(test)]
mod tests {
    use crate::demand::{Unread, metered_demand};
    use crate::half_hour::{HalfHourRow, HalfHourTable};
    use crate::register::{RegisterRow, RegisterTable};
    use crate::source::MeterSource;
    use std::test::Fail;

    // From 99,990 to 15 a register takes 25 steps.
    #[test]
    fn register_starts_again(rt: HostRuntime) -> Result<(), Fail> {
        let row = RegisterRow {
            number: 7,
            start: 99_990,
            end: 15,
            factor: 10,
        };
        let table = RegisterTable::new([row].to_vec(rt.alloc())?);
        assert_eq!(rt; table.reading(7), Some(250));
        Ok(())
    }

    // The first row with the number is outside its range, so the one that would fit does not count.
    #[test]
    fn first_row_decides(rt: HostRuntime) -> Result<(), Fail> {
        let over = HalfHourRow {
            number: 7,
            kwh: 2_000_001,
        };
        let fitting = HalfHourRow { number: 7, kwh: 5 };
        let table = HalfHourTable::new([over, fitting].to_vec(rt.alloc())?);
        assert_eq!(rt; table.reading(7), None);
        Ok(())
    }

    // 101 kWh at 1.0450 are 105.545: three parts rounded down by themselves would come to 104.
    #[test]
    fn sum_is_rounded_once(rt: HostRuntime) -> Result<(), Fail> {
        let rows = [
            HalfHourRow { number: 1, kwh: 33 },
            HalfHourRow { number: 2, kwh: 34 },
            HalfHourRow { number: 3, kwh: 34 },
        ];
        let table = HalfHourTable::new(rows.to_vec(rt.alloc())?);
        assert_eq!(rt; metered_demand(&table, &[1, 2, 3], 10_450), Ok(105));
        assert_eq!(rt;
            metered_demand(&table, &[1, 9, 8], 10_450),
            Err(Unread { meter: 9 })
        );
        Ok(())
    }
}
