// Curtailment by both methods, and what it leaves to the retailer.
ghost use Rattle.std.specs.Prelude.{◌≡◌, ◌≤◌, unsigned_abs};

use crate::draws::Draws;
use crate::trading::draw_most;
use curtailment::methods::settle_curtailment;
use curtailment::retail::retail_imbalance;
use std::io;
use terms::codes::Method;
use terms::records::Curtailment;

// A signed figure of at most this magnitude; every other one has a minus. Wholes have other odds and a lowest number besides (`Whole`).
fn draw_signed(draws: &mut Draws, most: u32) -> i64
    ensures { unsigned_abs result ≤ most }
{
    let magnitude = i64::from(draws.small_figure(most));
    if draws.below(2) == 0 {
        magnitude
    } else {
        -magnitude
    }
}

// A deemed plan: one in four is of any size, the others are like the plan.
fn draw_deemed(draws: &mut Draws, most: u32) -> i64
    requires { most ≤ 2000000 }
    ensures { unsigned_abs result ≤ 130000000 }
{
    if draws.below(4) == 0 {
        draw_signed(draws, 130_000_000)
    } else {
        draw_signed(draws, most)
    }
}

// Metered demand below, at, between and above the limits of the methods.
fn draw_used(draws: &mut Draws, baseline: u64, plan: u64) -> u64
    requires { (plan ≤ baseline) × (baseline ≤ 2000000) }
    ensures { result ≤ 153600000 }
{
    let low = baseline - plan;
    match draws.below(10) {
        0 => 0,
        1 => low.saturating_sub(1),
        2 => low,
        3..=5 => low + draws.below(plan + 1),
        6 => baseline,
        7 => baseline + 1,
        8 => draws.below(low + 1),
        _ => draws.figure(153_600_000),
    }
}

// A group and a retailer of a case, with the limits that settling them asks for: what the group filed, its deemed plan and metered demand, and the retailer's own metered demand and its deemed demand.
#[derive(Clone, Copy)]
struct Called {
    baseline: u32,
    plan: u32,
    deemed: i64,
    used: u64,
    own: u64,
    demand: i64,
    ghost filed: { (plan ≤ baseline) × (baseline ≤ 2000000) },
    ghost small: { (unsigned_abs deemed ≤ 130000000) × (used ≤ 153600000) },
    ghost retail: { (own ≤ 153600000) × (unsigned_abs demand ≤ 128000000) },
}

impl Called {
    fn draw(draws: &mut Draws) -> Called {
        let most = draw_most(draws);
        let baseline = draws.small_figure(most);
        let plan = draws.small_figure(baseline);
        let deemed = draw_deemed(draws, most);
        let used = draw_used(draws, u64::from(baseline), u64::from(plan));
        let own = draws.figure(153_600_000);
        let demand = draw_signed(draws, 128_000_000);
        Called {
            baseline,
            plan,
            deemed,
            used,
            own,
            demand,
        }
    }

    // What the group files, with this method.
    fn filed(&self, method: Method) -> Curtailment
        ensures plan { result.plan ≡ self.now.plan }
        ensures baseline { result.baseline ≡ self.now.baseline }
    {
        Curtailment {
            retailer: 12,
            baseline: self.baseline,
            plan: self.plan,
            method,
        }
    }
}

// Both settled by a method.
fn show_settled(rt: HostRuntime, called: &Called, name: u32, method: Method) -> io::Result<()> {
    let settled = settle_curtailment(&called.filed(method), called.deemed, called.used);
    let together = called.own + settled.supplied;
    print!(rt;
        "; method {name}: supplied {}, curtailed {}, imbalance {}, retailer supplied {together}, imbalance {}",
        settled.supplied,
        settled.curtailed,
        settled.imbalance,
        retail_imbalance(together, called.demand)
    )
}

// One group and its retailer, by both methods.
pub fn case(rt: HostRuntime, case: u64) -> io::Result<()> {
    let called = Called::draw(&mut Draws::of_case(case));
    print!(rt;
        "{case} curtailment: baseline {}, plan {}, deemed plan {}, metered {}; retailer: metered {}, deemed demand {}",
        called.baseline, called.plan, called.deemed, called.used, called.own, called.demand
    )?;
    show_settled(rt, &called, 1, Method::One)?;
    show_settled(rt, &called, 2, Method::Two)?;
    println!(rt; "")
}
