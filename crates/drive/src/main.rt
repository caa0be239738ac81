// Rehearses a drive: makes the calls that standard input lists, one a line, and prints what each answers.
#![tactic(auto)]

mod fault;
mod lines;
mod order;
mod read;
mod stack;

use card::{BatteryCard, SECTOR_BYTES};
use fault::{Expected, Fault};
use history::{Call, Drive};
use keys::{AesKey, LoadedKey, SpeckKey};
use lines::Lines;
use order::{CipherName, Order, Plan, StoreName};
use report::Report;
use stack::{Bench, JournalStack, journal_stack};
use std::alloc::{AllocError, Global};
use std::io::{BufRead, BufReader};

// Makes one call, and gives what to print. (The heap and the drive come apart: what held both would be taken apart again
// wherever the drive is closed.)
fn tell<K: LoadedKey + Drop, S: Bench>(
    heap: Global,
    drive: &mut Drive<K, S>,
    call: Call,
) -> Result<String, AllocError> {
    let mut work = [0u8; SECTOR_BYTES];
    let report = Report::on(heap, drive, call, &mut work)?;
    format!(in heap; "{report}")
}

// A sector of the card at the bottom in hex, or the refusal's number.
fn dump<K, S: Bench>(heap: Global, drive: &mut Drive<K, S>, n: u32) -> Result<String, AllocError> {
    let mut sector = [0u8; SECTOR_BYTES];
    match drive.below().dump(n, &mut sector) {
        Ok(()) => {
            let bytes = hex_text::encode(heap, &sector)?;
            format!(in heap; "D {bytes}")
        }
        Err(refusal) => {
            let number = u8::from(refusal);
            format!(in heap; "D {number}")
        }
    }
}

fn obey<K: LoadedKey + Drop, S: Bench>(
    heap: Global,
    drive: &mut Drive<K, S>,
    order: &Order,
) -> Result<Option<String>, Expected> {
    match order {
        Order::Call(request) => Ok(Some(tell(heap, drive, request.call())?)),
        Order::Dump(n) => Ok(Some(dump(heap, drive, *n)?)),
        Order::Cut(script) => {
            drive.below().cut(*script).ok_or(Expected::CutLayer)?;
            Ok(None)
        }
    }
}

// What to print for a line: nothing where it has no words.
fn reply_to<K: LoadedKey + Drop, S: Bench>(
    heap: Global,
    drive: &mut Drive<K, S>,
    line: &str,
) -> Result<Option<String>, Expected> {
    let words = words::split(heap, line)?;
    if words.is_empty() {
        return Ok(None);
    }
    obey(heap, drive, &read::order(heap, &words)?)
}

// Counted, since nothing says that the lines end. A match: `map_err` and `?` took a seventh more for a line of no words.
fn serve<K: LoadedKey + Drop, S: Bench, B: BufRead>(
    rt: &HostRuntime,
    drive: &mut Drive<K, S>,
    lines: &mut Lines<B>,
) -> Result<(), Fault> {
    let mut line = String::new(rt.alloc());
    for _ in 0..u64::MAX {
        let Some(number) = lines.next_into(&mut line)? else {
            return Ok(());
        };
        match reply_to(rt.alloc(), drive, &line) {
            Ok(Some(reply)) => rt.println(reply)?,
            Ok(None) => {}
            Err(expected) => return Err(Fault::Line(number, expected)),
        }
    }
    Ok(())
}

// However the lines end, the drive is closed: it may hold a permit.
fn rehearse_on<K: LoadedKey + Drop, S: Bench + Drop, B: BufRead>(
    rt: &HostRuntime,
    store: S,
    lines: &mut Lines<B>,
) -> Result<(), Fault> {
    let mut drive: Drive<K, S> = Drive::new(store);
    let outcome = serve(rt, &mut drive, lines);
    let _volume = drive.close();
    outcome
}

fn plan_in(heap: Global, line: &str) -> Result<Option<Plan>, Expected> {
    let words = words::split(heap, line)?;
    if words.is_empty() {
        return Ok(None);
    }
    Ok(Some(read::plan(&words)?))
}

// The plan of the first line that has words, and its number; none where no line has.
fn first_plan<B: BufRead>(
    heap: Global,
    lines: &mut Lines<B>,
) -> Result<Option<(u64, Plan)>, Fault> {
    let mut line = String::new(heap);
    for _ in 0..u64::MAX {
        let Some(number) = lines.next_into(&mut line)? else {
            return Ok(None);
        };
        let plan = plan_in(heap, &line).map_err(|e| Fault::Line(number, e))?;
        if let Some(plan) = plan {
            return Ok(Some((number, plan)));
        }
    }
    Ok(None)
}

fn zeroed(heap: Global, plan: Plan) -> Result<Vec<u8>, Expected> {
    Ok(vec![in heap; 0u8; plan.sectors as usize * SECTOR_BYTES]?)
}

fn rehearse_with<K: LoadedKey + Drop, B: BufRead>(
    rt: &HostRuntime,
    number: u64,
    plan: Plan,
    lines: &mut Lines<B>,
) -> Result<(), Fault> {
    let bytes = zeroed(rt.alloc(), plan).map_err(|e| Fault::Line(number, e))?;
    match plan.store {
        StoreName::Journal => { rehearse_on::<K, JournalStack, B>(rt, journal_stack(bytes), lines) }
        StoreName::Battery => {
            rehearse_on::<K, BatteryCard, B>(rt, BatteryCard::new(bytes), lines)
        }
    }
}

fn rehearse<B: BufRead + Drop>(rt: &HostRuntime, reader: B) -> Result<(), Fault> {
    let mut lines = Lines::new(reader);
    let Some((number, plan)) = first_plan(rt.alloc(), &mut lines)? else {
        return Ok(());
    };
    match plan.cipher {
        CipherName::Aes256 => rehearse_with::<AesKey, B>(rt, number, plan, &mut lines),
        CipherName::Speck => rehearse_with::<SpeckKey, B>(rt, number, plan, &mut lines),
    }
}

fn main(rt: HostRuntime) -> Result<(), Fault> {
    rehearse(&rt, BufReader::new(rt.alloc(), rt.stdin())?)
}

#[cfg(test)]
mod tests {
    use super::*;
    use std::process::Abort;
    use std::test::Fail;

    // A script whose last line is no call, and what is said of that line.
    const BAD_SCRIPTS: [(&str, &str); 36] = [
        (
            "count",
            "line 1: expected stack CIPHER STORE SECTORS, before any call",
        ),
        (
            "\n# no stack yet\n\tload 00",
            "line 3: expected stack CIPHER STORE SECTORS, before any call",
        ),
        (
            "Stack aes256 journal 12",
            "line 1: expected stack CIPHER STORE SECTORS, before any call",
        ),
        ("stack", "line 1: expected aes256 or speck"),
        (
            "stack aes128 journal 12",
            "line 1: expected aes256 or speck",
        ),
        ("stack speck", "line 1: expected journal or battery"),
        ("stack speck flat 12", "line 1: expected journal or battery"),
        (
            "stack speck battery",
            "line 1: expected SECTORS, a decimal number of at most 4096",
        ),
        (
            "stack speck battery 4097",
            "line 1: expected SECTORS, a decimal number of at most 4096",
        ),
        (
            "stack speck battery 4294967296",
            "line 1: expected SECTORS, a decimal number of at most 4096",
        ),
        (
            "stack speck battery 12 1",
            "line 1: expected the end of the line",
        ),
        (
            "stack speck battery 8\nstack speck battery 8",
            "line 2: expected load, format, count, read, write, claim, begin, step, finish, hand-in, power-up, cut or dump",
        ),
        (
            "stack speck battery 8\n\n\nreads 0",
            "line 4: expected load, format, count, read, write, claim, begin, step, finish, hand-in, power-up, cut or dump",
        ),
        (
            "stack speck battery 8\nload",
            "line 2: expected a key in hex",
        ),
        (
            "stack speck battery 8\nload 0",
            "line 2: expected a key in hex",
        ),
        (
            "stack speck battery 8\n# load 00\nload 00 0g",
            "line 3: expected a key in hex",
        ),
        (
            "stack speck battery 8\nload 00 00 00",
            "line 2: expected the end of the line",
        ),
        (
            "stack speck battery 8\nformat 0x1 00",
            "line 2: expected REACH, a decimal number below 2^32",
        ),
        (
            "stack speck battery 8\nformat 4294967296 00",
            "line 2: expected REACH, a decimal number below 2^32",
        ),
        (
            "stack speck battery 8\nformat 1",
            "line 2: expected LABEL in hex",
        ),
        (
            "stack speck battery 8\nformat 1 000",
            "line 2: expected LABEL in hex",
        ),
        (
            "stack speck battery 8\nformat 1 00 00",
            "line 2: expected the end of the line",
        ),
        (
            "stack speck battery 8\nread",
            "line 2: expected N, a decimal number below 2^32",
        ),
        (
            "stack speck battery 8\nread +1",
            "line 2: expected N, a decimal number below 2^32",
        ),
        (
            "stack speck battery 8\nread 4294967296",
            "line 2: expected N, a decimal number below 2^32",
        ),
        (
            "stack speck battery 8\nread 1 2",
            "line 2: expected the end of the line",
        ),
        (
            "stack speck battery 8\nwrite -1 65",
            "line 2: expected N, a decimal number below 2^32",
        ),
        (
            "stack speck battery 8\nwrite 1 256",
            "line 2: expected BYTE, a decimal number below 256",
        ),
        (
            "stack speck battery 8\nwrite 1 65 65",
            "line 2: expected the end of the line",
        ),
        (
            "stack speck battery 8\nstep 1",
            "line 2: expected the end of the line",
        ),
        (
            "stack speck battery 8\ncut 1 0",
            "line 2: expected no cut, since a battery stack has no cut layer",
        ),
        (
            "stack speck journal 12\ncut",
            "line 2: expected K, a decimal number below 2^32",
        ),
        (
            "stack speck journal 12\ncut 0 0\ncut 0 256",
            "line 3: expected KIND, a decimal number below 256",
        ),
        (
            "stack speck journal 12\ncut 0 0 0",
            "line 2: expected the end of the line",
        ),
        (
            "stack speck journal 12\ndump eleven",
            "line 2: expected N, a decimal number below 2^32",
        ),
        (
            "stack speck journal 12\ndump 11 12",
            "line 2: expected the end of the line",
        ),
    ];

    #[test]
    fn bad_lines_are_named(rt: HostRuntime) -> Result<(), Fail> {
        let heap = rt.alloc();
        for (script, wanted) in BAD_SCRIPTS {
            let Err(fault) = rehearse(&rt, script.as_bytes()) else {
                return Err(Fail::new("a bad line was read"));
            };
            let said = format!(in heap; "{fault:?}")?;
            assert_eq!(rt; said.as_str(), wanted);
        }
        Ok(())
    }

    #[test]
    fn the_longest_fault_is_whole(rt: HostRuntime) -> Result<(), Fail> {
        let fault = Fault::Line(u64::MAX, Expected::Call);
        let said = format!(in rt.alloc(); "{fault:?}")?;
        assert_eq!(rt;
            said.as_str(),
            "line 18446744073709551615: expected load, format, count, read, write, claim, begin, step, finish, hand-in, power-up, cut or dump"
        );
        Ok(())
    }

    // A whole change of key, with no cut.
    const CHANGE: [&str; 14] = [
        "load 01020304 # too short",
        "load 0102030405060708090a0b0c0d0e0f101112131415161718191a1b1c1d1e1f202122232425262728292a2b2c2d2e2f303132333435363738393a3b3c3d3e3f40 65666768696a6b6c6d6e6f707172737475767778797a7b7c7d7e7f808182838485868788898a8b8c8d8e8f909192939495969798999a9b9c9d9e9fa0a1a2a3a4",
        "format 1 00 # too short",
        "format 1 00000000000000000000000000000000",
        "write 0 65",
        "claim",
        "begin",
        "step",
        "finish",
        "power-up",
        "hand-in",
        "count",
        "read 0",
        "read 1",
    ];

    const ANSWERS: &str = "L 1;L 0;F 1;F 0;W 0;C 0 0;B 0;S 0 1;F 0;P 0;H 0;C 0 1;R 0 65 65;R 3;";

    fn change<K: LoadedKey + Drop, S: Bench>(
        heap: Global,
        drive: &mut Drive<K, S>,
    ) -> Result<String, Fail> {
        let mut answers = String::new(heap);
        for line in CHANGE {
            let Ok(Some(answer)) = reply_to(heap, drive, line) else {
                return Err(Fail::new("a line was no call"));
            };
            answers.push_str(&answer)?;
            answers.push(';')?;
        }
        Ok(answers)
    }

    fn changes<K: LoadedKey + Drop, S: Bench + Drop>(
        rt: &impl Abort,
        heap: Global,
        store: S,
    ) -> Result<(), Fail> {
        let mut drive: Drive<K, S> = Drive::new(store);
        let outcome = change(heap, &mut drive);
        let _volume = drive.close();
        assert_eq!(rt; outcome?.as_str(), ANSWERS);
        Ok(())
    }

    #[test]
    fn every_stack_changes_its_key(rt: HostRuntime) -> Result<(), Fail> {
        let heap = rt.alloc();
        changes::<AesKey, JournalStack>(&rt, heap, journal_stack(vec![in heap; 0u8; 3120]?))?;
        changes::<SpeckKey, JournalStack>(&rt, heap, journal_stack(vec![in heap; 0u8; 3120]?))?;
        changes::<AesKey, BatteryCard>(&rt, heap, BatteryCard::new(vec![in heap; 0u8; 1040]?))?;
        changes::<SpeckKey, BatteryCard>(&rt, heap, BatteryCard::new(vec![in heap; 0u8; 1040]?))
    }
}
