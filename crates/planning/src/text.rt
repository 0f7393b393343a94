// How a working is written.
ghost use Rattle.std.specs.Prelude.{Some};
ghost use Rattle.planning.specs.Text.{working_text};

use crate::working::Working;
use std::fmt;

// One line of a working; the kWh left over that the claimant got is 1 or 0.
impl fmt::Display for Working {
    ghost output = { λ w. Some (working_text w) };

    fn fmt<W: fmt::Write>(&self, f: &mut fmt::Formatter<W>) -> fmt::Result {
        write!(
            f,
            "{}: planned {}, rounded down {}, left over {}, corrected {}",
            self.number,
            self.claim,
            self.floor,
            u8::from(self.extra),
            self.part
        )
    }
}
