#![tactic(auto)]
// Runs many plan files, one after another, and prints what weigh prints for each. The expected
// output was made by another program (tools/reference.py), which shares no code with this one.
ghost use Rattle.std.specs.Prelude.{length};
ghost use Rattle.std.specs.Iterator.{at_most};

use std::io::Read;
use weighing::run::weigh;

// The plan files that a bundle has left, each told by its length in two bytes, high byte first.
#[derive(Drop)]
struct Plans<'a> {
    left: &'a [u8],
}

impl<'a> Iterator for Plans<'a> {
    type Item = &'a [u8];

    ghost remaining = { λ plans. at_most (length plans.left.now) };

    fn next(&mut self) -> Option<&'a [u8]> {
        let [high, low, rest @ ..] = self.left else {
            return None;
        };
        let len = u16::from_be_bytes([*high, *low]);
        let (plan, after) = rest.split_at_checked(usize::from(len))?;
        self.left = after;
        Some(plan)
    }
}

fn print_plan(rt: &HostRuntime, number: usize, plan: &[u8]) -> anyhow::Result<()> {
    println!(rt; "plan {number}")?;
    for line in &weigh(rt.alloc(), plan)? {
        println!(rt; "{line}")?;
    }
    Ok(())
}

fn main(rt: HostRuntime) -> anyhow::Result<()> {
    let mut bundle = Vec::new(rt.alloc());
    rt.stdin().read_to_end(&mut bundle)?;
    for (number, plan) in (1..10_000).zip(Plans { left: &bundle }) {
        print_plan(&rt, number, plan)?;
    }
    Ok(())
}
