// Cuts the power in every access of a put, and again in every access of the settling that follows, with each kind of
// lost write, and prints what the targets show when the power is back: all old or all new, never a mixture.
#![tactic(auto)]

mod trial;

use anyhow::anyhow;
use card::Card;
use cut::Loss;
use std::fmt;
use trial::{Outcome, Put, Trial};

// How many cases came out in each way.
#[derive(Clone, Copy, Default)]
struct Tally {
    old: u32,
    new: u32,
    mixed: u32,
}

impl Tally {
    fn count(&mut self, outcome: Outcome) {
        let ways = match outcome {
            Outcome::AllOld => &mut self.old,
            Outcome::AllNew => &mut self.new,
            Outcome::Mixed => &mut self.mixed,
        };
        *ways = ways.saturating_add(1);
    }
}

impl fmt::Display for Tally {
    fn fmt<W: fmt::Write>(&self, f: &mut fmt::Formatter<W>) -> fmt::Result {
        let old = self.old;
        let new = self.new;
        let mixed = self.mixed;
        let cases = old.saturating_add(new).saturating_add(mixed);
        write!(
            f,
            "{cases} cases: {old} all old, {new} all new, {mixed} mixed"
        )
    }
}

// One cut in the put, then power-up, which settles.
fn cut_once(rt: &HostRuntime, trial: Trial, tally: &mut Tally) -> anyhow::Result<()> {
    let mut store = trial.cut_put(rt.alloc())?;
    store.power_up()?;
    let targets = trial.targets(&mut store)?;
    tally.count(targets.together());
    println!(rt; "{trial}: {targets}")?;
    Ok(())
}

// The same, with a second cut in an access of the settling that the next put begins with.
fn cut_twice(rt: &HostRuntime, trial: Trial, again: u32, tally: &mut Tally) -> anyhow::Result<()> {
    let mut store = trial.cut_put(rt.alloc())?;
    trial.cut_settling(&mut store, again)?;
    store.power_up()?;
    let targets = trial.targets(&mut store)?;
    tally.count(targets.together());
    let number = again.saturating_add(1);
    println!(rt; "{trial}, and in access {number} of the settling: {targets}")?;
    Ok(())
}

// The cuts of one access: alone, and with each access of the settling after it.
fn cut_access(rt: &HostRuntime, trial: Trial, tally: &mut Tally) -> anyhow::Result<()> {
    cut_once(rt, trial, tally)?;
    let mut store = trial.cut_put(rt.alloc())?;
    for again in 0..trial.settling(&mut store)? {
        cut_twice(rt, trial, again, tally)?;
    }
    Ok(())
}

// All the cuts of one put with one kind of lost write.
fn cut_put(rt: &HostRuntime, put: Put, loss: Loss, tally: &mut Tally) -> anyhow::Result<()> {
    for (at, access) in (0u32..).zip(put.accesses()) {
        let trial = Trial {
            put,
            at,
            access: *access,
            loss,
        };
        cut_access(rt, trial, tally)?;
    }
    Ok(())
}

fn cut_each(rt: &HostRuntime, put: Put, tally: &mut Tally) -> anyhow::Result<()> {
    for loss in [Loss::Old, Loss::New, Loss::Junk] {
        cut_put(rt, put, loss, tally)?;
    }
    Ok(())
}

fn run(rt: &HostRuntime) -> anyhow::Result<()> {
    let mut tally = Tally::default();
    for put in [Put::One, Put::Two] {
        cut_each(rt, put, &mut tally)?;
    }
    println!(rt; "{tally}")?;
    if tally.mixed > 0 {
        return Err(anyhow!("a case was mixed"));
    }
    Ok(())
}

fn main(rt: HostRuntime) -> anyhow::Result<()> {
    run(&rt)
}
