// Corrects one producer's generation plan from its corrected sales and purchases, and prints the working.
#![tactic(auto)]

ghost use Rattle.std.specs.Prelude.{◌≡◌, ◌≤◌, length};
ghost use Rattle.std.specs.List.{AllByRecursion};
ghost use Rattle.std.proofs.Props.{props};
ghost use Rattle.terms.specs.Plans.{plan_of};

use division::pro_rata::ProRata;
use planning::holdings::Holdings;
use planning::plan::correct_plan;
use planning::working::{Worked, work_out_groups, work_out_shares};
use std::io;
use terms::balance::Balance;
use terms::records::{Group, GroupSort, Share};

// The producer's contract.
const CONTRACT: u32 = 11;

// An example has at most so many shares.
const MOST_SHARES: usize = 6;

fn group(number: u32) -> Group
    ensures number { result.number ≡ number }
    ensures contract { result.contract ≡ CONTRACT }
    ensures plan { plan_of result ≡ 0 }
{
    Group {
        number,
        contract: CONTRACT,
        sort: GroupSort::Generation,
    }
}

fn share(group: u32, plant: u32, planned: u32) -> Share
    ensures { result.planned ≡ planned }
{
    Share {
        group,
        plant,
        rank: 1,
        planned,
    }
}

// A producer with the groups 1 and 2: what it planned share by share, and what it sold and bought.
#[derive(Clone, Copy)]
struct Example<'a> {
    title: &'a str,
    shares: &'a [Share],
    sold: u32,
    bought: u32,
    ghost few: { length shares.now ≤ 6 },
    ghost planned: { AllByRecursion (λ s. s.planned ≤ 2000000) shares.now } by { Prim.hlevel props },
    ghost traded: { (sold ≤ 128000000) × (bought ≤ 128000000) },
}

// Prints a division's lines and what their parts come to.
fn show(rt: HostRuntime, what: &str, worked: &Worked) -> io::Result<()> {
    for line in worked.lines.as_slice() {
        println!(rt; "  {what} {line}")?;
    }
    println!(rt; "  {what}s together {}", worked.together)
}

// Corrects the producer's plan, and prints every step.
fn replan(rt: HostRuntime, example: &Example) -> io::Result<()> {
    let shares = example.shares;
    let groups = [group(1), group(2)];
    let mut group_plans = [0; 2];
    // an array of as many places as any example has shares: like the engine, the program allocates nothing
    let mut space = [0; MOST_SHARES];
    let share_plans = &mut space[..shares.len()];
    let holdings = Holdings {
        groups: &groups,
        shares,
    };
    let balance = Balance::of(example.sold, example.bought);
    correct_plan(
        &ProRata,
        &ProRata,
        CONTRACT,
        &balance,
        &holdings,
        &mut group_plans,
        share_plans,
    );
    println!(rt; "{}", example.title)?;
    println!(rt; "{balance}")?;
    let worked = work_out_groups(&holdings, CONTRACT, balance.own(), &group_plans);
    show(rt, "group", &worked)?;
    for (group, plan) in groups.iter().zip(&group_plans) {
        println!(rt; "group {}, plan {plan}", group.number)?;
        let worked = work_out_shares(shares, group.number, *plan, share_plans);
        show(rt, "plant", &worked)?;
    }
    println!(rt; "")
}

// The trade's published examples of a plan that does not fit the trades, and two more: kWh left over on both levels, and purchases above the sales.
fn main(rt: HostRuntime) -> io::Result<()> {
    let examples = [
        Example {
            title: "The exchange took more than was planned",
            shares: &[
                share(1, 1, 100),
                share(1, 2, 50),
                share(2, 3, 30),
                share(2, 4, 20),
            ],
            sold: 300,
            bought: 0,
        },
        Example {
            title: "Less was sent to another area than was planned",
            shares: &[
                share(1, 1, 250),
                share(1, 2, 50),
                share(2, 3, 130),
                share(2, 4, 70),
            ],
            sold: 400,
            bought: 0,
        },
        Example {
            title: "The partner planned to buy less",
            shares: &[
                share(1, 1, 250),
                share(1, 2, 50),
                share(2, 3, 70),
                share(2, 4, 30),
            ],
            sold: 200,
            bought: 0,
        },
        Example {
            title: "The plan left the purchases out",
            shares: &[
                share(1, 1, 150),
                share(1, 2, 100),
                share(2, 3, 90),
                share(2, 4, 60),
            ],
            sold: 400,
            bought: 200,
        },
        Example {
            title: "Two groups of one plant each",
            shares: &[share(1, 1, 30), share(2, 2, 30)],
            sold: 100,
            bought: 80,
        },
        Example {
            title: "kWh left over among groups and among plants",
            shares: &[
                share(1, 1, 4),
                share(1, 2, 1),
                share(1, 3, 5),
                share(2, 4, 3),
                share(2, 5, 3),
                share(2, 6, 1),
            ],
            sold: 12,
            bought: 0,
        },
        Example {
            title: "Purchases above the sales: the magnitude is divided, and every part takes the sign",
            shares: &[share(1, 1, 4), share(1, 2, 1), share(2, 3, 5)],
            sold: 5,
            bought: 12,
        },
    ];
    for example in examples {
        replan(rt, &example)?;
    }
    Ok(())
}
