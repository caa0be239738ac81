// What is printed of an outcome, and how many came out as expected.
ghost use Rattle.std.specs.Prelude.{◌≡◌, IfOk, Some, string_bytes};
ghost use Rattle.units.specs.Replies.{outcome_text, verdict_word, reply_text, Judged, Matched, Counted};

use crate::task::Outcome;
use std::alloc::{AllocError, Global};
use std::fmt;

// How an outcome stands to what was expected of it: two names that are printed, which a bool has not.
#[derive(Clone, Copy)]
pub enum Verdict {
    Agrees,
    Differs,
}

// Written by hand, since no derive promises the text.
impl fmt::Display for Verdict {
    ghost output = { λ v. Some (verdict_word v) };

    fn fmt<W: fmt::Write>(&self, f: &mut fmt::Formatter<W>) -> fmt::Result {
        match self {
            Verdict::Agrees => f.pad("ok"),
            Verdict::Differs => f.pad("differs"),
        }
    }
}

// The bytes in hex, or the refusal's number.
fn bare(heap: Global, outcome: &Outcome) -> Result<String, AllocError>
    ensures { IfOk result (λ s. string_bytes s ≡ outcome_text outcome.now) }
{
    match outcome {
        Ok(bytes) => hex_text::encode(heap, bytes),
        Err(refusal) => format!(in heap; "refused {}", u8::from(*refusal)),
    }
}

// The outcome, followed by the verdict where there is one.
pub fn reply(
    heap: Global,
    outcome: &Outcome,
    verdict: Option<Verdict>,
) -> Result<String, AllocError>
    ensures { IfOk result (λ s. string_bytes s ≡ reply_text outcome.now verdict) }
{
    let text = bare(heap, outcome)?;
    match verdict {
        Some(verdict) => format!(in heap; "{text} {verdict}"),
        None => Ok(text),
    }
}

impl Verdict {
    fn on(outcome: &Outcome, expected: &[u8]) -> Verdict
        ensures { Judged expected.now outcome.now result }
    {
        match outcome {
            Ok(bytes) if bytes.as_slice() == expected => Verdict::Agrees,
            _ => Verdict::Differs,
        }
    }

    // The verdict on an outcome of which something was expected.
    pub fn of(outcome: &Outcome, expected: &Option<Vec<u8>>) -> Option<Verdict>
        ensures { Matched expected.now outcome.now result }
    {
        expected.as_ref().map(|bytes| Verdict::on(outcome, bytes))
    }
}

// How many outcomes agreed with what was expected, and how many did not.
#[derive(Clone, Copy, Default)]
pub struct Tally {
    pub agreed: u64,
    pub differed: u64,
}

impl Tally {
    pub fn count(&mut self, verdict: Option<Verdict>)
        ensures { Counted verdict self.old self.new }
    {
        match verdict {
            Some(Verdict::Agrees) => self.agreed = self.agreed.saturating_add(1),
            Some(Verdict::Differs) => self.differed = self.differed.saturating_add(1),
            None => {}
        }
    }
}
