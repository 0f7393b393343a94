// The corrected figure of a line. It stands beside the line, which stays as it was filed.
ghost use Rattle.std.specs.Prelude.{◌≡◌, map, length};
ghost use Rattle.trades.specs.Trades.{opposite, corrected};

use tables::keys::{Keyed, find_row};
use terms::partner::Partner;
use terms::records::Line;

// The key of the opposite of a line. A type, since the generic search takes it.
#[derive(Clone, Copy)]
struct OppositeOf {
    line: Line,
}

impl Keyed<OppositeOf> for Line {
    ghost fits = { λ key other. opposite key.line other };

    fn is(&self, key: OppositeOf) -> bool {
        let line = key.line;
        matches!(line.partner, Partner::Contract(number) if number == self.contract)
            & matches!(self.partner, Partner::Contract(number) if number == line.contract)
            & (line.direction != self.direction)
    }
}

// The corrected figure: agreed with the exchange and outside parties, the smaller of both planned figures with a contract.
// A partner without an opposite line counts as having planned zero.
pub fn corrected_figure(lines: &[Line], line: &Line) -> u32
    ensures { result ≡ corrected lines.now line.now }
{
    match line.partner {
        Partner::Exchange | Partner::Outside(_) => line.agreed,
        Partner::Contract(_) => {
            // a missing opposite line is told apart here, by a rule of the project, and not folded into a number
            let Some(other) = find_row(lines, OppositeOf { line: *line }) else {
                return 0;
            };
            line.planned.min(other.planned)
        }
    }
}

// The corrected figure of every line, each at its line's place. Callers are proved to have a figure for each line.
pub fn correct_lines(lines: &[Line], figures: &mut [u32])
    requires { length figures.old ≡ length lines.now }
    ensures { figures.new ≡ map (corrected lines.now) lines.now }
{
    // by `enumerate`: after `zip` over an `iter_mut` a proof knows nothing of the values
    for (i, line) in lines.iter().enumerate() {
        figures[i] = corrected_figure(lines, line);
    }
}
