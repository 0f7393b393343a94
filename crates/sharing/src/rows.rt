// One level: a whole among the rows of one owner, each part written at its row's place.
// Figures stand in a slice beside the rows and not in them: the records stay as they were filed, in fixed memory, and have several figures.
// Each function states the limits of its own call: a type for a whole or claims within them would be made and taken apart again at every call.
ghost use Rattle.std.specs.Prelude.{◌≡◌, ◌≤◌, length, sum, unsigned_abs};
ghost use Rattle.tables.specs.Carried.{claims_of};
ghost use Rattle.tables.specs.Listed.{listed};
ghost use Rattle.division.specs.Signed.{signed_parts};
ghost use Rattle.sharing.specs.Owners.{count_of, placed, shared, SharedOut};

use division::signed::divide_signed;
use division::{DivisionRule, MOST_CLAIMS};
use tables::Table;
use tables::bounds::{Carries, Owned};

// What the owner's rows carry, in listed order. Callers are proved to have no more rows than a division takes.
pub fn gather<T: Carries>(rows: &[T], owner: u32) -> Table<u64, MOST_CLAIMS>
    requires { length rows.now ≤ 256 }
    ensures { listed result ≡ claims_of T.Owned.owned T.Carries.carried owner rows.now }
{
    let mut claims = Table::new(0);
    claims.extend(
        rows.iter()
            .filter(|row| row.owner() == owner)
            .map(|row| row.kwh()),
    );
    claims
}

// Gives the owner's rows their parts in listed order. Every other row keeps its figure.
fn scatter<T: Owned>(rows: &[T], owner: u32, parts: &[i64], figures: &mut [i64])
    requires room { length figures.old ≡ length rows.now }
    requires each { length parts.now ≡ count_of T.Owned.owned owner rows.now }
    ensures { figures.new ≡ placed T.Owned.owned owner rows.now parts.now figures.old }
{
    // by `enumerate`: after `zip` over an `iter_mut` a proof knows nothing of the values
    let mut left = parts.iter();
    for (i, row) in rows.iter().enumerate() {
        if row.owner() == owner {
            figures[i] = *left.next().unwrap();
        }
    }
}

// Divides the whole by what the owner's rows claim, and gives each row its part.
// The limits rule out that the division is refused.
pub(crate) fn give_out<R: DivisionRule, T: Owned>(
    rule: &R,
    claims: &[u64],
    rows: &[T],
    owner: u32,
    whole: i64,
    figures: &mut [i64],
)
    requires few { length claims.now ≤ 256 }
    requires each { length claims.now ≡ count_of T.Owned.owned owner rows.now }
    requires light { sum claims.now ≤ 6144000000 }
    requires small { unsigned_abs whole ≤ 128000000 }
    requires room { length figures.old ≡ length rows.now }
    ensures { figures.new ≡ placed T.Owned.owned owner rows.now
        (signed_parts whole (R.DivisionRule.parts rule.now (unsigned_abs whole) claims.now)) figures.old }
{
    if claims.is_empty() {
        return;
    }
    // fixed memory: no call allocates, so the parts have room for the most claims
    let mut space = [0; MOST_CLAIMS];
    let parts = &mut space[..claims.len()];
    divide_signed(rule, whole, claims, parts).unwrap();
    scatter(rows, owner, parts, figures);
}

// Shares a whole out by the rule among the owner's rows, by what they carry. Rows and owner are given apart:
// one list of rows is shared out for one owner after another, so a value of both would be made anew at every call.
// Callers are proved to stay inside the limits, so that the division is not refused.
pub fn share_out<R: DivisionRule, T: Carries>(
    rule: &R,
    rows: &[T],
    owner: u32,
    whole: i64,
    figures: &mut [i64],
)
    requires few { length rows.now ≤ 256 }
    requires light { sum (claims_of T.Owned.owned T.Carries.carried owner rows.now) ≤ 6144000000 }
    requires small { unsigned_abs whole ≤ 128000000 }
    requires room { length figures.old ≡ length rows.now }
    ensures value { figures.new ≡ shared (R.DivisionRule.parts rule.now) T.Owned.owned T.Carries.carried owner whole rows.now figures.old }
    ensures placed { SharedOut (R.DivisionRule.parts rule.now) T.Owned.owned T.Carries.carried owner whole rows.now figures.old figures.new }
{
    let claims = gather(rows, owner);
    give_out(rule, claims.as_slice(), rows, owner, whole, figures);
}
