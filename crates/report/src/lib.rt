// What is printed of a call on a volume: one line, from its entry in the log.
#![tactic(auto)]

ghost use Rattle.std.specs.Prelude.{◌≡◌, Some, MatchResult};
ghost use Rattle.keys.specs.Rings.{suite_of};
ghost use Rattle.volume.specs.States.{state_of};
ghost use Rattle.history.specs.Scripts.{held_stage};
ghost use Rattle.report.specs.Reports.{initial_of, ends_of, reply_of, report_of, Reported};
ghost use Rattle.report.specs.Texts.{text};

use card::{Card, SECTOR_BYTES, WholeStore};
use history::{Call, Drive, Entry};
use keys::LoadedKey;
use refusal::Refusal;
use std::alloc::{AllocError, Global};
use std::fmt;
use trailer::Stage;

// What a call that is done answers.
#[derive(Clone, Copy, PartialEq, Eq, Debug)]
pub enum Answer {
    // Nothing more.
    Done,
    // The count or the watermark.
    Number(u32),
    Stage(Stage),
    // The first and the last byte that were read.
    Ends(u8, u8),
}

#[derive(Clone, Copy)]
pub struct Report {
    // The first letter of the call's name.
    pub initial: char,
    // None where no call was made.
    pub reply: Option<Result<Answer, Refusal>>,
}

// Count and claim share a letter, and so do format and finish.
fn initial_of(call: &Call) -> char
    ensures { result ≡ initial_of call.now }
{
    match call {
        Call::PowerUp => 'P',
        Call::Count => 'C',
        Call::Load(_, _) => 'L',
        Call::Format(_, _) => 'F',
        Call::Read(_) => 'R',
        Call::Write(_, _) => 'W',
        Call::Claim => 'C',
        Call::Begin => 'B',
        Call::Step => 'S',
        Call::Finish => 'F',
        Call::HandIn => 'H',
    }
}

// What a read answers.
fn ends(bytes: [u8; SECTOR_BYTES]) -> Answer
    ensures { result ≡ ends_of bytes }
{
    Answer::Ends(bytes[0], bytes[519])
}

fn reply_of(entry: &Entry) -> Option<Result<Answer, Refusal>>
    ensures { result ≡ reply_of entry.now }
{
    match entry {
        Entry::PoweredUp(r)
        | Entry::Loaded(_, _, r)
        | Entry::Formatted(_, _, r)
        | Entry::Wrote(_, _, r)
        | Entry::Begun(r)
        | Entry::Finished(r) => Some(r.map(|_| Answer::Done)),
        Entry::Counted(r) | Entry::Stepped(r) => Some(r.map(Answer::Number)),
        Entry::Read(_, r) => Some(r.map(ends)),
        Entry::Claimed(r) => Some(r.map(Answer::Stage)),
        Entry::HandedIn => Some(Ok(Answer::Done)),
        Entry::NotMade(_) => None,
    }
}

impl Report {
    pub fn of(entry: &Entry) -> Report
        ensures { result ≡ report_of entry.now }
    {
        Report {
            initial: initial_of(&entry.call()),
            reply: reply_of(entry),
        }
    }

    // Makes one call and reports what it answered. A read and a step use the work buffer.
    pub fn on<'a, K: LoadedKey + Drop, S: WholeStore>(
        heap: Global,
        drive: &mut Drive<K, S>,
        call: Call<'a>,
        work: &mut [u8],
    ) -> Result<Report, AllocError>
        ensures { MatchResult result (λ report. Reported (suite_of K.LoadedKey) (state_of K.LoadedKey S.Card drive.old.volume) (held_stage drive.old.permit) work.old call.entry report (state_of K.LoadedKey S.Card drive.new.volume) (held_stage drive.new.permit) work.new) (λ _. (drive.new ≡ drive.old) × (work.new ≡ work.old)) }
    {
        let log = drive.run(heap, &[call], work)?;
        Ok(Report::of(&log[0]))
    }
}

impl fmt::Display for Report {
    ghost output = { λ r. Some (text r) };

    fn fmt<W: fmt::Write>(&self, f: &mut fmt::Formatter<W>) -> fmt::Result {
        let initial = self.initial;
        match self.reply {
            None => write!(f, "{initial} -"),
            Some(Err(refusal)) => {
                let number = u8::from(refusal);
                write!(f, "{initial} {number}")
            }
            Some(Ok(Answer::Done)) => write!(f, "{initial} 0"),
            Some(Ok(Answer::Number(n))) => write!(f, "{initial} 0 {n}"),
            Some(Ok(Answer::Stage(stage))) => {
                let number = u8::from(stage);
                write!(f, "{initial} 0 {number}")
            }
            Some(Ok(Answer::Ends(first, last))) => write!(f, "{initial} 0 {first} {last}"),
        }
    }
}
