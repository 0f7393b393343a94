// Prints what the engine's functions answer on generated cases, a line for each; docs/FIGURES.md says how the cases are made.
#![tactic(auto)]

use std::io;
use std::ops::Range;

mod curtailing;
mod dividing;
mod draws;
mod meters;
mod plans;
mod rule;
mod text;
mod trading;

// The cases of one sort.
fn show_each<F: Fn(HostRuntime, u64) -> io::Result<()>>(
    rt: HostRuntime,
    cases: Range<u64>,
    show: F,
) -> io::Result<()>
    requires { F.IsAlwaysCallable show }
{
    for case in cases {
        show(rt, case)?;
    }
    Ok(())
}

fn main(rt: HostRuntime) -> io::Result<()> {
    show_each(rt, 1001..1071, dividing::unsigned_case)?;
    show_each(rt, 2001..2071, dividing::signed_case)?;
    show_each(rt, 3001..3071, trading::case)?;
    show_each(rt, 4001..4071, plans::case)?;
    show_each(rt, 5001..5071, curtailing::case)?;
    show_each(rt, 6001..6071, meters::case)
}
