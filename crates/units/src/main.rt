// Enciphers and deciphers blocks and units, each given by a line of standard input.
#![tactic(auto)]

ghost use Rattle.std.specs.Prelude.{string_bytes, MatchResult};
ghost use Rattle.units.specs.Lines.{Wrong};
ghost use Rattle.units.specs.Served.{Served, Replied, Unread};

mod fault;
mod read;
mod reply;
mod run;
mod task;

use fault::{Expected, Fault};
use read::Line;
use reply::{Tally, Verdict};
use std::alloc::Global;
use std::io::{BufRead, BufReader};

// Runs the task that the words of a line say, counts how it came out, and gives what to print.
fn serve(heap: Global, words: &[&str], tally: &mut Tally) -> Result<String, Expected>
    ensures { MatchResult result (λ s. Served words.now tally.old tally.new (string_bytes s)) (λ e. Wrong words.now e) }
{
    let line = Line::read(heap, words)?;
    let outcome = line.task.run(heap)?;
    let verdict = Verdict::of(&outcome, &line.expected);
    tally.count(verdict);
    Ok(reply::reply(heap, &outcome, verdict)?)
}

// What to print for a line: nothing where it has no words.
fn reply_to(heap: Global, line: &str, tally: &mut Tally) -> Result<Option<String>, Expected>
    ensures { MatchResult result (λ o. Replied line.now tally.old tally.new o) (λ e. Unread line.now e) }
{
    let words = words::split(heap, line)?;
    if words.is_empty() {
        return Ok(None);
    }
    Ok(Some(serve(heap, &words, tally)?))
}

fn serve_all(rt: &HostRuntime) -> Result<(), Fault> {
    let heap = rt.alloc();
    let mut tally = Tally::default();
    let lines = BufReader::new(heap, rt.stdin())?.lines(heap);
    for (number, line) in (1..=u64::MAX).zip(lines) {
        let reply = reply_to(heap, &line?, &mut tally).map_err(|e| Fault::Line(number, e))?;
        if let Some(reply) = reply {
            rt.println(reply)?;
        }
    }
    println!(rt; "{} agreed, {} differed", tally.agreed, tally.differed)?;
    Ok(())
}

fn main(rt: HostRuntime) -> anyhow::Result<()> {
    serve_all(&rt)?;
    Ok(())
}

#[cfg(test)]
mod tests {
    use super::*;
    use std::test::Fail;

    // A line that cannot be read, and what was expected in it.
    const BAD_LINES: [(&str, &str); 14] = [
        ("blocks", "block, block-back, unit or unit-back"),
        ("Block speck", "block, block-back, unit or unit-back"),
        ("block", "aes256 or speck"),
        ("block aes128 00 00", "aes256 or speck"),
        ("block speck", "KEY in hex"),
        ("block speck # 00 00", "KEY in hex"),
        ("block speck 000 00", "KEY in hex"),
        ("unit aes256 0x 0 00", "KEY in hex"),
        ("unit aes256 00", "NUMBER, a decimal number below 2^64"),
        (
            "unit aes256 00 18446744073709551616 00",
            "NUMBER, a decimal number below 2^64",
        ),
        (
            "unit aes256 00 -1 00",
            "NUMBER, a decimal number below 2^64",
        ),
        ("unit-back aes256 00 0", "IN in hex"),
        ("block speck 00 00 zz", "EXPECTED in hex"),
        ("block speck 00 00 00 00", "nothing after EXPECTED"),
    ];

    #[test]
    fn bad_lines_are_named(rt: HostRuntime) -> Result<(), Fail> {
        let heap = rt.alloc();
        for (line, wanted) in BAD_LINES {
            let mut tally = Tally::default();
            let Err(expected) = reply_to(heap, line, &mut tally) else {
                return Err(Fail::new("a bad line was read"));
            };
            let fault = anyhow::Error::from(Fault::Line(7, expected));
            let said = format!(in heap; "{fault:?}")?;
            let should = format!(in heap; "line 7: expected {wanted}")?;
            assert_eq!(rt; said, should);
        }
        Ok(())
    }
}
