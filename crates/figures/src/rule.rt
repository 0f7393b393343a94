// Which of the two rules divides.
ghost use Rattle.figures.specs.Rules.{parts_by, length-parts_by, sum-parts_by};

use crate::draws::Draws;
use division::DivisionRule;
use division::pro_rata::ProRata;
use division::ranking::Ranked;
use std::fmt;
use terms::refusal::Refusal;

#[derive(Clone, Copy)]
pub enum Rule {
    ProRata,
    Ranked,
}

impl Rule {
    pub fn draw(draws: &mut Draws) -> Rule {
        if draws.below(2) == 0 {
            Rule::ProRata
        } else {
            Rule::Ranked
        }
    }
}

impl fmt::Display for Rule {
    fn fmt<W: fmt::Write>(&self, f: &mut fmt::Formatter<W>) -> fmt::Result {
        f.write_str(match self {
            Rule::ProRata => "pro rata",
            Rule::Ranked => "ranked",
        })
    }
}

// Which rule divides is drawn, so it is a case; the two types of `division` do the work.
impl DivisionRule for Rule {
    ghost parts = { parts_by };

    ghost each = { length-parts_by };

    ghost all = { sum-parts_by };

    fn divide(&self, whole: u64, claims: &[u64], into: &mut [u64]) -> Result<(), Refusal> {
        match self {
            Rule::ProRata => ProRata.divide(whole, claims, into),
            Rule::Ranked => Ranked.divide(whole, claims, into),
        }
    }
}
