// What reads meters: any source of readings, whatever it looks them up in.
ghost use Rattle.std.specs.Prelude.{◌≡◌, ℕ, ◌≤◌, Some, Option as Maybe};

// A source of meter readings, in kWh of one half hour.
pub trait MeterSource {
    // The largest reading that a source of this kind gives: no kind may give more than 2,000,000.
    const LARGEST: u32;

    // the source's meaning: the reading, if any, of each meter number
    ghost read: { Self → ℕ → Maybe ℕ };

    // the constant, which the check proves equal to a ghost member of its name
    ghost LARGEST: { ℕ };

    // the largest reading of the kind, which `largest_reading` ties to the constant
    ghost largest: { ℕ };

    // The largest reading of this kind: the constant.
    fn largest_reading(&self) -> u32
        ensures { result ≡ largest };

    // The reading of the meter with this number, if it has one.
    fn reading(&self, meter: u32) -> Option<u32>
        ensures { result ≡ read self.now meter };

    // no reading is larger
    ghost bounded: { (s : Self) (number kwh : ℕ) → read s number ≡ Some kwh → kwh ≤ largest };

    // and no kind may give more than this
    ghost small: { largest ≤ 2000000 };
}
