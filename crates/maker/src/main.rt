#![tactic(auto)]
// Plays one whole history of a plan, from a new draft to a sealed plan, and prints what each call
// answered.
use deck::verdict::Verdict;
use demand::{Told, ToldJob};
use engine::card::{CardParts, Mode};
use engine::numbers::Numbers;
use plan::drafted::Draft;
use plan::sealed::Sealed;
use refusal::Refusal;
use std::fmt::{self, Display};
use task::kinds::{Empty, Timed, TimedParts};

// Memory to lend, enough for windows of up to 200 ticks.
const CELLS: usize = 4824;

const TOTALS: usize = 201;

const JOBS: usize = 200;

const NO_JOB: ToldJob = ToldJob {
    place: 0,
    release: 0,
    cost: 0,
    due: 0,
};

// What tell answered, as text.
#[derive(Drop)]
struct Walked(Told);

impl fmt::Display for Walked {
    fn fmt<W: fmt::Write>(&self, f: &mut fmt::Formatter<W>) -> fmt::Result {
        write!(f, "jobs {}, demand {}", self.0.count, self.0.demand)
    }
}

// Prints what a call answered: its value, or the number of its refusal.
fn print_answer<C: Display + Drop, T: Display + Drop>(
    rt: &HostRuntime,
    call: C,
    answer: Result<T, Refusal>,
) -> anyhow::Result<()> {
    match answer {
        Ok(value) => println!(rt; "{call}: {value}")?,
        Err(refusal) => println!(rt; "{call}: no {refusal}")?,
    }
    Ok(())
}

fn print_change(rt: &HostRuntime, call: &str, answer: Result<(), Refusal>) -> anyhow::Result<()> {
    print_answer(rt, call, answer.map(|()| "ok"))
}

fn print_verdict(rt: &HostRuntime, answer: Result<Verdict, Refusal>) -> anyhow::Result<()> {
    print_answer(rt, "judge", answer)
}

fn print_told(
    rt: &HostRuntime,
    number: u8,
    window: u32,
    answer: Result<Told, Refusal>,
    jobs: &[ToldJob],
) -> anyhow::Result<()> {
    let call = format_args!("tell {number} at {window}");
    print_answer(rt, call, answer.map(Walked))?;
    if let Ok(told) = answer {
        for job in jobs.iter().take(told.count as usize) {
            println!(rt;
                "  place {}: released at {}, cost {}, due at {}",
                job.place, job.release, job.cost, job.due
            )?;
        }
    }
    Ok(())
}

// An engine, an engine card and two timed cards; some of the calls are refused.
fn make(rt: &HostRuntime, plan: &mut Draft) -> anyhow::Result<()> {
    let modes = [
        Mode {
            lower: 5000,
            cost: 9,
        },
        Mode {
            lower: 30_000,
            cost: 3,
        },
    ];
    let numbers = Numbers {
        least: 5000,
        greatest: 65_000,
        rise: 10,
        fall: 10,
        entry: 1,
    };
    let parts = CardParts {
        angle: 600_000,
        modes: &modes,
        bands: &[5000, 20_000],
    };
    let timed = TimedParts {
        period: 40,
        deadline: 30,
        cost: 10,
    };
    print_change(rt, "engine", plan.set_engine(numbers))?;
    print_change(rt, "add engine card 7", plan.add_engine_card(7, 900, parts))?;
    print_change(rt, "add timed card 9", plan.add_timed_card(9, timed))?;
    print_change(rt, "add timed card 7", plan.add_timed_card(7, timed))?;
    let free = Numbers {
        entry: 0,
        ..numbers
    };
    print_change(rt, "engine", plan.set_engine(free))?;
    print_change(rt, "recost 9", plan.recost(9, 0, 12))?;
    print_change(rt, "cut 7 at 50000", plan.cut(7, 50_000))?;
    print_change(rt, "cut 7 at rung 100", plan.rung_cut(7, 100))?;
    print_change(rt, "cut 7 at rung 281", plan.rung_cut(7, 281))?;
    Ok(())
}

// Tells the walks of both cards and of the guest.
fn explain(
    rt: &HostRuntime,
    plan: &Draft,
    guest: &Timed,
    window: u32,
    work: &mut [u32],
    jobs: &mut [ToldJob],
) -> anyhow::Result<()> {
    for number in [7, 9, 0] {
        let told = plan.tell(guest, number, window, work, jobs);
        print_told(rt, number, window, told, jobs)?;
    }
    Ok(())
}

// A sealed plan tells, and says its mark.
fn cast(
    rt: &HostRuntime,
    plan: &Sealed,
    work: &mut [u32],
    jobs: &mut [ToldJob],
) -> anyhow::Result<()> {
    for number in [7, 8] {
        let told = plan.tell(&Empty, number, 30, work, jobs);
        print_told(rt, number, 30, told, jobs)?;
    }
    println!(rt; "mark: {}", plan.mark())?;
    Ok(())
}

fn main(rt: HostRuntime) -> anyhow::Result<()> {
    let mut work = [0u32; CELLS];
    let mut totals = [0u64; TOTALS];
    let mut jobs = [NO_JOB; JOBS];
    let mut plan = Draft::new();
    make(&rt, &mut plan)?;
    let guest = Timed::new(TimedParts {
        period: 50,
        deadline: 25,
        cost: 5,
    })?;
    let verdict = plan.judge(&guest, 200, &mut work, &mut totals);
    print_verdict(&rt, verdict)?;
    if let Ok(Verdict::Over { at, .. }) = verdict {
        explain(&rt, &plan, &guest, at, &mut work, &mut jobs)?;
    }
    print_change(&rt, "recost 7, mode 0", plan.recost(7, 0, 3))?;
    print_verdict(&rt, plan.judge(&guest, 200, &mut work, &mut totals))?;
    let plan = plan.seal();
    println!(rt; "seal: ok")?;
    cast(&rt, &plan, &mut work, &mut jobs)
}
