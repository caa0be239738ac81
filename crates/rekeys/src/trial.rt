// One trial: a change of key that loses power in a chosen access, and the way on from there.
use crate::change::{CHANGE, Part, REACH};
use anyhow::anyhow;
use card::{FlatCard, SECTOR_BYTES};
use cut::{Cut, Script};
use history::{Call, Drive};
use journal::Journal;
use keys::AesKey;
use refusal::Refusal;
use report::{Answer, Report};
use std::alloc::Global;
use std::fmt;
use trailer::Stage;

type Stack = Drive<AesKey, Journal<Cut<FlatCard>>>;

// (`prompt` has the same stack and card: a crate for two lines would be longer.)
// Twelve sectors: the journal shows eight, and the last of these is the trailer.
const CARD_BYTES: usize = 12 * SECTOR_BYTES;

// How the change went on once the power was back, by the stage that the new claim told, and how many steps it took.
#[derive(Clone, Copy)]
pub enum Way {
    // Resting, since the begin had not taken effect.
    FromBegin(u32),
    Changing(u32),
    // Resting, since the finish had taken effect.
    Over,
}

impl fmt::Display for Way {
    fn fmt<W: fmt::Write>(&self, f: &mut fmt::Formatter<W>) -> fmt::Result {
        match self {
            Way::FromBegin(left) => write!(f, "resting, so it begins again; sectors left: {left}"),
            Way::Changing(left) => write!(f, "changing, so it goes on; sectors left: {left}"),
            Way::Over => f.pad("resting, so it is over"),
        }
    }
}

// The way on, and whether every sector showed what was written, before it and after.
#[derive(Clone, Copy)]
pub struct Outcome {
    pub way: Way,
    pub kept: bool,
}

// A first byte and zeros: the halves differ.
fn key_of(first: u8) -> [u8; 64] {
    let mut key = [0u8; 64];
    key[0] = first;
    key
}

// What is written in each byte of a data sector.
fn byte_of(n: u32) -> u8 {
    65 + (n % 26) as u8
}

// Calls that borrow nothing are made by functions, which fix their lifetime: the proof asks for that.
fn power_up() -> Call<'static> {
    Call::PowerUp
}

fn hand_in() -> Call<'static> {
    Call::HandIn
}

fn read(n: u32) -> Call<'static> {
    Call::Read(n)
}

// A drive on trial, and the heap that its log is kept on.
struct Rig {
    heap: Global,
    drive: Stack,
}

impl Rig {
    fn ask(&mut self, call: Call) -> anyhow::Result<Option<Result<Answer, Refusal>>> {
        let mut work = [0u8; SECTOR_BYTES];
        Ok(Report::on(self.heap, &mut self.drive, call, &mut work)?.reply)
    }

    // A call that has to be done.
    fn must(&mut self, call: Call) -> anyhow::Result<()> {
        let Some(reply) = self.ask(call)? else {
            return Err(anyhow!("the permit is not held"));
        };
        reply?;
        Ok(())
    }

    fn load_one(&mut self, key: &[u8]) -> anyhow::Result<()> {
        self.must(Call::Load(key, None))
    }

    fn load_two<'a>(&mut self, first: &'a [u8], second: &'a [u8]) -> anyhow::Result<()> {
        self.must(Call::Load(first, Some(second)))
    }

    fn format(&mut self, label: &[u8]) -> anyhow::Result<()> {
        self.must(Call::Format(REACH, label))
    }

    fn write(&mut self, n: u32, bytes: &[u8]) -> anyhow::Result<()> {
        self.must(Call::Write(n, bytes))
    }

    // Formats the volume and writes every sector.
    fn fill(&mut self) -> anyhow::Result<()> {
        self.format(&[0u8; 16])?;
        for n in 0..REACH {
            self.write(n, &[byte_of(n); SECTOR_BYTES])?;
        }
        Ok(())
    }

    fn shows(&mut self, n: u32) -> anyhow::Result<bool> {
        let mut work = [0u8; SECTOR_BYTES];
        Report::on(self.heap, &mut self.drive, read(n), &mut work)?;
        Ok(octets::all_are(&work, byte_of(n)))
    }

    fn shows_all(&mut self) -> anyhow::Result<bool> {
        for n in 0..REACH {
            if !self.shows(n)? {
                return Ok(false);
            }
        }
        Ok(true)
    }

    // Makes the calls of a change up to the one that loses power.
    fn change_until_cut(&mut self) -> anyhow::Result<Option<Part>> {
        for part in CHANGE {
            match self.ask(part.call())? {
                Some(Err(Refusal::PowerOff)) => return Ok(Some(part)),
                Some(Err(refusal)) => return Err(refusal.into()),
                _ => {}
            }
        }
        Ok(None)
    }

    // Makes the steps that are left, and finishes; answers how many they were.
    fn finish(&mut self) -> anyhow::Result<u32> {
        for steps in 0..=REACH {
            match self.ask(Part::Step(steps + 1).call())? {
                Some(Ok(Answer::Number(_))) => {}
                Some(Err(Refusal::NothingLeft)) => {
                    self.must(Part::Finish.call())?;
                    return Ok(steps);
                }
                _ => return Err(anyhow!("a step was refused")),
            }
        }
        Err(anyhow!("the steps do not end"))
    }

    // Claims again, and goes on from the stage that is found. A claim that lost power left no permit to hand in.
    fn go_on(&mut self, cut_in: Part) -> anyhow::Result<Way> {
        let _ = self.ask(hand_in())?;
        match (self.ask(Part::Claim.call())?, cut_in) {
            (Some(Ok(Answer::Stage(Stage::Resting))), Part::Finish) => Ok(Way::Over),
            (Some(Ok(Answer::Stage(Stage::Resting))), _) => {
                self.must(Part::Begin.call())?;
                Ok(Way::FromBegin(self.finish()?))
            }
            (Some(Ok(Answer::Stage(Stage::Changing))), _) => Ok(Way::Changing(self.finish()?)),
            _ => Err(anyhow!("the new claim was refused")),
        }
    }

    // At the end the new key alone is loaded.
    fn change<'a>(
        &mut self,
        old: &'a [u8],
        new: &'a [u8],
        script: Script,
        cut_in: Part,
    ) -> anyhow::Result<Outcome> {
        self.load_two(old, new)?;
        self.fill()?;
        self.drive.below().below().set_script(script);
        if self.change_until_cut()? != Some(cut_in) {
            return Err(anyhow!("the power failed in another call"));
        }
        self.must(power_up())?;
        let kept_half_way = self.shows_all()?;
        let way = self.go_on(cut_in)?;
        self.must(hand_in())?;
        self.load_one(new)?;
        let kept = self.shows_all()? && kept_half_way;
        Ok(Outcome { way, kept })
    }
}

// A change on a fresh volume, with this script set before its claim; the power should fail in this call.
pub(crate) fn run(heap: Global, script: Script, cut_in: Part) -> anyhow::Result<Outcome> {
    let card = FlatCard::new(vec![in heap; 0u8; CARD_BYTES]?);
    let drive = Drive::new(Journal::new(Cut::new(card)));
    let mut rig = Rig { heap, drive };
    let outcome = rig.change(&key_of(1), &key_of(2), script, cut_in);
    let Rig { heap: _, drive } = rig;
    let _volume = drive.close();
    outcome
}
