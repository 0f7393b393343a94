// The ranked rule: the claims are met in the order given.
ghost use Rattle.std.specs.Prelude.{◌≡◌, length};
ghost use Rattle.division.specs.Rules.{ranked};
ghost use Rattle.division.specs.Turns.{length-ranked, sum-ranked};

use crate::{Admitted, DivisionRule};
use terms::refusal::Refusal;

impl<'a> Admitted<'a> {
    // Writes the parts: each the smaller of the claim and what remains, the last all that remains.
    fn write_in_turn(&self, into: &mut [u64])
        requires { length into.old ≡ length self.now.claims.now }
        ensures { into.new ≡ ranked self.now.whole self.now.claims.now }
    {
        let last = self.claims.len() - 1;
        let mut remaining = self.whole;
        // by `enumerate`: after `zip` over an `iter_mut` a proof knows nothing of the values
        for (i, claim) in self.claims[..last].iter().enumerate() {
            let part = remaining.min(*claim);
            into[i] = part;
            remaining -= part;
        }
        into[last] = remaining;
    }
}

// Each part is the smaller of the claim and what remains; the last part is all that remains.
#[derive(Clone, Copy)]
pub struct Ranked;

impl DivisionRule for Ranked {
    ghost parts = { λ _ whole claims. ranked whole claims };

    ghost each = { λ s w cs. length-ranked w cs };

    ghost all = { λ s w cs h. sum-ranked w cs h };

    fn divide(&self, whole: u64, claims: &[u64], into: &mut [u64]) -> Result<(), Refusal> {
        Admitted::judge(whole, claims, into.len())?.write_in_turn(into);
        Ok(())
    }
}
