#![tactic(auto)]

use report::read_input;
use spot_report::{render, spot_check};

// As in sheet: one function for both would take the report as a closure, and the host's streams into a library.
fn run(rt: &HostRuntime) -> anyhow::Result<()> {
    let input = read_input(rt.alloc(), rt.stdin())?;
    let answer = spot_check(rt.alloc(), input.as_slice());
    let text = render(rt.alloc(), &answer)?;
    rt.print(text.as_str())?;
    Ok(())
}

fn main(rt: HostRuntime) -> anyhow::Result<()> {
    run(&rt)
}
