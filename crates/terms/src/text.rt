// How terms are written in a working.
ghost use Rattle.std.specs.Prelude.{Some};
ghost use Rattle.terms.specs.Text.{balance_text};

use crate::balance::Balance;
use std::fmt;

// The trades and what they make the contract's own generation, as a line of a working.
impl fmt::Display for Balance {
    ghost output = { λ b. Some (balance_text b) };

    fn fmt<W: fmt::Write>(&self, f: &mut fmt::Formatter<W>) -> fmt::Result {
        write!(
            f,
            "sold {}, bought {}: deemed plan {}",
            self.sold(),
            self.bought(),
            self.own()
        )
    }
}
