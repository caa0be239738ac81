// Cuts the power in every access of a change of key, with each kind of lost write; goes on from what is found when the
// power is back, and prints for each case what that was. No case may lose a sector.
#![tactic(auto)]

mod change;
mod trial;

use accesses::Access;
use anyhow::anyhow;
use change::{CHANGE, Part};
use cut::{Loss, Script};

#[derive(Clone, Copy, Default)]
struct Tally {
    cases: u32,
    lost: u32,
}

// The cases of one access, before which the cut layer serves `left` others.
fn cut_access(
    rt: &HostRuntime,
    part: Part,
    access: Access,
    left: u32,
    tally: &mut Tally,
) -> anyhow::Result<()> {
    for loss in [Loss::Old, Loss::New, Loss::Junk] {
        let kind = u8::from(loss);
        let outcome = trial::run(rt.alloc(), Script { left, kind }, part)?;
        let way = outcome.way;
        println!(rt; "access {left}, {access} in {part}, kind {kind}: {way}")?;
        tally.cases = tally.cases.saturating_add(1);
        if !outcome.kept {
            tally.lost = tally.lost.saturating_add(1);
        }
    }
    Ok(())
}

fn run(rt: &HostRuntime) -> anyhow::Result<()> {
    let mut tally = Tally::default();
    let mut served = 0u32..=u32::MAX;
    for part in CHANGE {
        for (access, left) in part.accesses().iter().zip(served.by_ref()) {
            cut_access(rt, part, *access, left, &mut tally)?;
        }
    }
    let cases = tally.cases;
    let lost = tally.lost;
    println!(rt; "{cases} cases: {lost} lost a sector")?;
    if lost > 0 {
        return Err(anyhow!("a sector was lost"));
    }
    Ok(())
}

fn main(rt: HostRuntime) -> anyhow::Result<()> {
    run(&rt)
}
