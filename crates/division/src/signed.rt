// A whole that may be below zero, as a deemed plan may be: its magnitude is divided, and every part takes its sign.
ghost use Rattle.std.specs.Prelude.{◌≡◌, ◌≤◌, length};
ghost use Rattle.std.specs.List.{AllByRecursion};
ghost use Rattle.division.specs.Signed.{with_sign, signed_parts, DividedSigned};

use crate::{DivisionRule, MOST_CLAIMS};
use terms::refusal::Refusal;

// A part with the sign of its whole. Callers are proved to hand over a part of a division.
pub fn with_sign(whole: i64, part: u64) -> i64
    requires { part ≤ 128000000 }
    ensures { result ≡ with_sign whole part }
{
    if whole < 0 {
        0 - part as i64
    } else {
        part as i64
    }
}

// Writes each part with the sign of its whole.
fn sign_parts(whole: i64, parts: &[u64], into: &mut [i64])
    requires room { length into.old ≡ length parts.now }
    requires small { AllByRecursion (λ p. p ≤ 128000000) parts.now }
    ensures { into.new ≡ signed_parts whole parts.now }
{
    // by `enumerate`: after `zip` over an `iter_mut` a proof knows nothing of the values
    for (i, part) in parts.iter().enumerate() {
        into[i] = with_sign(whole, *part);
    }
}

// Divides the whole's magnitude by the rule, and gives every part the whole's sign.
pub fn divide_signed<R: DivisionRule>(
    rule: &R,
    whole: i64,
    claims: &[u64],
    into: &mut [i64],
) -> Result<(), Refusal>
    ensures { DividedSigned (R.DivisionRule.parts rule.now) whole claims.now into.old into.new result }
{
    if claims.len() > MOST_CLAIMS || into.len() != claims.len() {
        return Err(Refusal::NotDivisible);
    }
    // fixed memory: no call allocates, so the parts have room for the most claims
    let mut space = [0; MOST_CLAIMS];
    let parts = &mut space[..claims.len()];
    rule.divide(whole.unsigned_abs(), claims, parts)?;
    sign_parts(whole, parts, into);
    Ok(())
}
