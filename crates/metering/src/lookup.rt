// The one search of every table of meters: the first row with a meter's number decides.
ghost use Rattle.std.specs.Prelude.{◌≡◌, ℕ, Option as Maybe};
ghost use Rattle.metering.specs.Lookup.{is_number, first_reading};

// Meter numbers run from 1 to this.
const MOST_NUMBER: u32 = 99_999;

// A row of a table of meters.
pub trait MeterRow {
    // the meter's number
    ghost numbered: { Self → ℕ };

    // the reading that the row gives; none where the row is outside its ranges
    ghost gives: { Self → Maybe ℕ };

    // The number of the row's meter, in its range or not.
    fn number(&self) -> u32
        ensures { result ≡ numbered self.now };

    // What the row gives as the meter's reading.
    fn reading(&self) -> Option<u32>
        ensures { result ≡ gives self.now };
}

// Whether a number is one that a meter, and any record of a book, can have.
pub fn is_number(number: u32) -> bool
    ensures { result ≡ is_number number }
{
    (number >= 1) & (number <= MOST_NUMBER)
}

// A `for` that is left at the first match, by a rule of the project: so the first row is seen to decide.
// The reading of the first row with this number; later rows with the number do not count, even where the first gives no reading.
pub fn first_reading<R: MeterRow>(rows: &[R], meter: u32) -> Option<u32>
    ensures { result ≡ first_reading R.MeterRow.numbered R.MeterRow.gives meter rows.now }
{
    for row in rows {
        if row.number() == meter {
            return row.reading();
        }
    }
    None
}
