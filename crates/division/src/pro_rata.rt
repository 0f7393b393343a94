// The pro rata rule: each part is in proportion to its claim.
ghost use Rattle.std.specs.Prelude.{◌≡◌, ◌+◌, ◌^◌, ◌<◌, ◌≤◌, length, sum};
ghost use Rattle.division.specs.Limits.{Divided};
ghost use Rattle.division.specs.Rules.{rounded_down, floors, topped, pro_rata};
ghost use Rattle.division.specs.Nearness.{Near, EachWithinOne};
ghost use Rattle.division.specs.Proportions.{length_pro_rata, sum_pro_rata};

use crate::{Admitted, DivisionRule};
use tables::totals::{Whose, total};
use terms::refusal::Refusal;

// One claimant's part rounded down, where so many claims come to this total; if all claims are zero, each counts as 1.
// Callers are proved to stay inside the limits of a division.
pub fn rounded_down(whole: u64, total: u64, count: usize, claim: u64) -> u64
    requires some { 1 ≤ count }
    requires small { whole ≤ 128000000 }
    requires light { claim ≤ 6144000000 }
    ensures { result ≡ rounded_down whole total count claim }
{
    if total == 0 {
        whole / count as u64
    } else {
        whole * claim / total
    }
}

// One kWh more for each of the first `left`.
fn top_up(into: &mut [u64], left: usize)
    requires few { left ≤ length into.old }
    requires small { sum into.old + left < 2 ^ 64 }
    ensures { into.new ≡ topped left into.old }
{
    for part in into[..left].iter_mut() {
        *part += 1;
    }
}

impl<'a> Admitted<'a> {
    // Writes each part rounded down.
    fn round_down(&self, into: &mut [u64])
        requires { length into.old ≡ length self.now.claims.now }
        ensures { into.new ≡ floors self.now.whole self.now.claims.now }
    {
        // by `enumerate`: after `zip` over an `iter_mut` a proof knows nothing of the values
        for (i, claim) in self.claims.iter().enumerate() {
            into[i] = rounded_down(self.whole, self.total, self.claims.len(), *claim);
        }
    }

    // Writes the parts: rounded down, and then what is left over, one kWh each to the first claimants.
    fn write_in_proportion(&self, into: &mut [u64])
        requires { length into.old ≡ length self.now.claims.now }
        ensures parts { into.new ≡ pro_rata self.now.whole self.now.claims.now }
        ensures near { EachWithinOne self.now.whole self.now.claims.now into.new }
    {
        self.round_down(into);
        let given = total(into, Whose::Everyone);
        top_up(into, (self.whole - given) as usize);
    }
}

// Whole times claim over total, rounded down; what is left over goes one kWh each to the first claimants in listed order.
#[derive(Clone, Copy)]
pub struct ProRata;

impl DivisionRule for ProRata {
    ghost parts = { λ _ whole claims. pro_rata whole claims };

    ghost each = { λ s w cs. length_pro_rata w cs };

    ghost all = { λ s w cs h. sum_pro_rata w cs h };

    fn divide(&self, whole: u64, claims: &[u64], into: &mut [u64]) -> Result<(), Refusal>
        ensures exact { Divided pro_rata whole claims.now into.old into.new result }
        ensures near { Near whole claims.now into.new result }
    {
        Admitted::judge(whole, claims, into.len())?.write_in_proportion(into);
        Ok(())
    }
}
