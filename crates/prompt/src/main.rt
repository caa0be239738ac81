// Changes the key of a small volume while the power fails in a step, and prints a line for each call.
#![tactic(auto)]

use card::{FlatCard, SECTOR_BYTES};
use cut::{Cut, Loss, Script};
use history::{Call, Drive};
use journal::Journal;
use keys::AesKey;
use report::Report;

type Stack = Drive<AesKey, Journal<Cut<FlatCard>>>;

// (`rekeys` has the same stack and card: a crate for two lines would be longer.)
// Twelve sectors: the journal shows eight, and the last of these is the trailer.
const CARD_BYTES: usize = 12 * SECTOR_BYTES;

// Byte j is `first` + j.
fn key_from(first: u8) -> [u8; 64] {
    let mut key = [0u8; 64];
    for (byte, value) in key.iter_mut().zip(first..=u8::MAX) {
        *byte = value;
    }
    key
}

// Makes one call and prints what was answered.
fn tell(rt: &HostRuntime, drive: &mut Stack, call: Call) -> anyhow::Result<()> {
    let mut work = [0u8; SECTOR_BYTES];
    rt.println(Report::on(rt.alloc(), drive, call, &mut work)?)?;
    Ok(())
}

// The second step loses power once it has raised the journal's flag, so that its put shows from then on.
fn change_key<'a>(
    rt: &HostRuntime,
    drive: &mut Stack,
    old: &'a [u8],
    new: &'a [u8],
    label: &'a [u8],
    written: &'a [u8],
) -> anyhow::Result<()> {
    tell(rt, drive, Call::Load(old, Some(new)))?;
    tell(rt, drive, Call::Format(3, label))?;
    tell(rt, drive, Call::Write(2, written))?;
    tell(rt, drive, Call::Claim)?;
    tell(rt, drive, Call::Begin)?;
    tell(rt, drive, Call::Step)?;
    drive.below().below().set_script(Script {
        left: 9,
        kind: Loss::Junk.into(),
    });
    tell(rt, drive, Call::Step)?;
    tell(rt, drive, Call::PowerUp)?;
    tell(rt, drive, Call::Read(2))?;
    tell(rt, drive, Call::Step)?;
    tell(rt, drive, Call::Finish)?;
    tell(rt, drive, Call::HandIn)
}

fn run(rt: &HostRuntime) -> anyhow::Result<()> {
    let card = FlatCard::new(vec![in rt.alloc(); 0u8; CARD_BYTES]?);
    let mut drive: Stack = Drive::new(Journal::new(Cut::new(card)));
    let outcome = change_key(
        rt,
        &mut drive,
        &key_from(1),
        &key_from(101),
        &[0u8; 16],
        &[65u8; SECTOR_BYTES],
    );
    let _volume = drive.close();
    outcome
}

fn main(rt: HostRuntime) -> anyhow::Result<()> {
    run(&rt)
}
