// The one totalling of the engine: what rows carry together, over the rows of one owner or over all.
ghost use Rattle.std.specs.Prelude.{◌≡◌, ◌^◌, ◌<◌, ◌≤◌, sum, MatchOption};
ghost use Rattle.tables.specs.Carried.{counts, carried_by};

use crate::bounds::Carries;

// Whose rows are totalled. An `Option` of an owner would be no plainer: `None` does not say that everyone's rows count.
#[derive(Clone, Copy)]
pub enum Whose {
    Everyone,
    Owner(u32),
}

impl Whose {
    fn counts(&self, owner: u32) -> bool
        ensures { result ≡ counts self.now owner }
    {
        match self {
            Whose::Everyone => true,
            Whose::Owner(number) => owner == *number,
        }
    }
}

// What the rows that count carry together, unless that is over `most`: then the loop is left, where a fold would have to carry an `Option` through every row.
pub fn total_within<T: Carries>(rows: &[T], whose: Whose, most: u64) -> Option<u64>
    ensures { MatchOption result (most < sum (carried_by whose T.Owned.owned T.Carries.carried rows.now))
        (λ t. (t ≡ sum (carried_by whose T.Owned.owned T.Carries.carried rows.now)) × (t ≤ most)) }
{
    let mut total: u64 = 0;
    for row in rows {
        if whose.counts(row.owner()) {
            let kwh = row.kwh();
            if kwh > most - total {
                return None;
            }
            total += kwh;
        }
    }
    Some(total)
}

// What the rows that count carry together. Callers are proved to have rows whose total fits.
pub fn total<T: Carries>(rows: &[T], whose: Whose) -> u64
    requires { sum (carried_by whose T.Owned.owned T.Carries.carried rows.now) < 2 ^ 64 }
    ensures { result ≡ sum (carried_by whose T.Owned.owned T.Carries.carried rows.now) }
{
    total_within(rows, whose, u64::MAX).unwrap()
}
