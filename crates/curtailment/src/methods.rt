// The two methods.
ghost use Rattle.std.specs.Prelude.{◌≡◌, ◌≤◌, pos, ◌+ℤ◌, ◌-ℤ◌, unsigned_abs};
ghost use Rattle.curtailment.specs.Methods.{figures, settled_by};

use terms::codes::Method;
use terms::records::Curtailment;

// How a curtailment group is settled: the kWh supplied to its customers for which the retailer is settled, the kWh curtailed, and the group's imbalance.
#[derive(Clone, Copy)]
pub struct Settled {
    pub supplied: u64,
    pub curtailed: u64,
    pub imbalance: i64,
}

// What a group is settled by: what its customers would have used, how much of it they were to save, its deemed plan, and what they did use.
#[derive(Clone, Copy)]
struct Called {
    baseline: u64,
    plan: u64,
    deemed: i64,
    used: u64,
    ghost plan_within: { (plan ≤ baseline) × (baseline ≤ 2000000) },
    ghost small: { (unsigned_abs deemed ≤ 130000000) × (used ≤ 153600000) },
}

impl Called {
    // The group's imbalance is its deemed plan less what was curtailed.
    fn less_curtailed(self, supplied: u64, curtailed: u64) -> Settled
        requires { curtailed ≤ 2000000 }
        ensures { result ≡ figures supplied curtailed (self.deemed -ℤ pos curtailed) }
    {
        Settled {
            supplied,
            curtailed,
            imbalance: self.deemed - curtailed as i64,
        }
    }

    // Method 1: use above the baseline, and saving beyond the plan, are the retailer's; saving short of the plan is the group's.
    fn by_method_one(self) -> Settled
        ensures value { result ≡ settled_by Method.One self.baseline self.plan self.deemed self.used }
        ensures within { result.supplied ≤ 153600000 }
    {
        let supplied = self.baseline - self.plan;
        if self.used > self.baseline {
            self.less_curtailed(self.used - self.plan, 0)
        } else if self.used < supplied {
            self.less_curtailed(self.used, self.plan)
        } else {
            self.less_curtailed(supplied, self.baseline - self.used)
        }
    }

    // Method 2: every difference is the group's.
    fn by_method_two(self) -> Settled
        ensures value { result ≡ settled_by Method.Two self.baseline self.plan self.deemed self.used }
        ensures within { result.supplied ≤ 153600000 }
    {
        Settled {
            supplied: self.baseline - self.plan,
            curtailed: self.baseline.saturating_sub(self.used),
            imbalance: self.deemed + self.used as i64 - self.baseline as i64,
        }
    }
}

// Settles a group by its method. Callers are proved to hand over a plan inside its baseline and figures inside the limits of a book.
pub fn settle_curtailment(curtailment: &Curtailment, deemed: i64, used: u64) -> Settled
    requires plan { (curtailment.now.plan ≤ curtailment.now.baseline) × (curtailment.now.baseline ≤ 2000000) }
    requires small { (unsigned_abs deemed ≤ 130000000) × (used ≤ 153600000) }
    ensures value { result ≡ settled_by curtailment.now.method curtailment.now.baseline curtailment.now.plan deemed used }
    ensures sum { pos result.supplied +ℤ result.imbalance ≡ deemed +ℤ pos used -ℤ pos curtailment.now.plan }
    ensures within { result.supplied ≤ 153600000 }
{
    let called = Called {
        baseline: u64::from(curtailment.baseline),
        plan: u64::from(curtailment.plan),
        deemed,
        used,
    };
    // the rules know two methods and no more, so they are cases and no step that could be passed in
    match curtailment.method {
        Method::One => called.by_method_one(),
        Method::Two => called.by_method_two(),
    }
}
