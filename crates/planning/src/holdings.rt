// The groups and shares of a book.
ghost use Rattle.std.specs.Prelude.{◌≤◌, length};
ghost use Rattle.std.specs.List.{AllByRecursion};
ghost use Rattle.std.proofs.Props.{props};
ghost use Rattle.terms.specs.Plans.{plan_of};
ghost use Rattle.sharing.specs.Levels.{Apart, Apart-prop};

use terms::records::{Group, Share};

// The groups of a book and the shares that they hold in plants, within the limits of a book: at most 96 groups with numbers apart,
// at most 256 shares, and plans of at most 2,000,000 kWh.
#[derive(Clone, Copy)]
pub struct Holdings<'a> {
    pub groups: &'a [Group],
    pub shares: &'a [Share],
    pub ghost few_groups: { length groups.now ≤ 96 },
    pub ghost few_shares: { length shares.now ≤ 256 },
    pub ghost apart: { Apart (λ g. g.number) groups.now } by { Apart-prop _ _ },
    pub ghost plans: { AllByRecursion (λ g. plan_of g ≤ 2000000) groups.now } by { Prim.hlevel props },
    pub ghost planned: { AllByRecursion (λ s. s.planned ≤ 2000000) shares.now } by { Prim.hlevel props },
}
