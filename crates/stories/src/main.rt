//! The program `stories`: it runs the scripts of its folder, and tells of each story whether its replies are as written.
//!
//! A story is a script `NAME.jsonl` and the replies `NAME.out` that it must print byte for byte. `NAME.2.jsonl` is a second
//! script, on the journal that a crash after the first one leaves, `NAME.2.out` has its replies, and so on. NAME may begin
//! with a folder. `stories.txt` has a line for each story:
//!
//!     NAME END ..: what it shows
//!
//! with an END for each of its scripts: the status that the script ends with, as `0`; in brackets the number beside the
//! status, where that is compared too, as `5(16)`; behind an `@` which call of the disk fails, as `5(16)@41`; and behind a
//! `+` how many of the writes since the last sync the crash then keeps, where it keeps any, as `5(16)@41+1`. A file that
//! belongs to no story is told.
#![tactic(auto)]

mod compare;
mod folder;
mod run;
mod story;

use crate::compare::difference;
use crate::folder::files;
use crate::run::run_script;
use crate::story::{Story, is_of_a_story, read_story, read_wanted, stem};
use std::process::ExitCode;
use std::{fs, io};

const LIST: &str = "stories.txt";

fn main(rt: HostRuntime) -> ExitCode {
    match tell_all(&rt) {
        Ok(true) => ExitCode::SUCCESS,
        Ok(false) => ExitCode::FAILURE,
        Err(error) => {
            let _ = eprintln!(rt; "stories: {error}");
            ExitCode::FAILURE
        }
    }
}

// Tells of each story and of each file that belongs to none, and answers whether all is as written.
fn tell_all(rt: &HostRuntime) -> io::Result<bool> {
    let list = fs::read_to_string(rt, LIST)?;
    let mut well = true;
    for line in list.lines() {
        well = tell_line(rt, line)? && well;
    }
    for file in &files(rt)? {
        if file.as_str() != LIST && !is_of_a_story(rt.alloc(), &list, file)? {
            println!(rt; "{file}: no story has this file")?;
            well = false;
        }
    }
    Ok(well)
}

// Tells of the story of a line, and answers whether all is as written. A blank line has none.
fn tell_line(rt: &HostRuntime, line: &str) -> io::Result<bool> {
    if line.is_empty() {
        return Ok(true);
    }
    let Some(story) = read_story(line) else {
        println!(rt; "{line}: not of the form NAME END ..: what it shows")?;
        return Ok(false);
    };
    match fault_of(rt, story)? {
        None => {
            println!(rt; "{}: as written", story.name)?;
            Ok(true)
        }
        Some(fault) => {
            println!(rt; "{}: {fault}", story.name)?;
            Ok(false)
        }
    }
}

// Runs the scripts of a story one after the other, and gives the first difference from what is written.
fn fault_of(rt: &HostRuntime, story: Story<'_>) -> io::Result<Option<String>> {
    let mut journal = Vec::new(rt.alloc());
    let mut number = 1u64;
    for end in story.ends.split_whitespace() {
        let stem = stem(rt.alloc(), story.name, number)?;
        let fault = fault_of_script(rt, stem.as_str(), end, &mut journal)?;
        if fault.is_some() {
            return Ok(fault);
        }
        number = number.saturating_add(1);
    }
    Ok(None)
}

// Runs one script on the journal, which is then what a crash after it leaves.
fn fault_of_script(
    rt: &HostRuntime,
    stem: &str,
    end: &str,
    journal: &mut Vec<u8>,
) -> io::Result<Option<String>> {
    let alloc = rt.alloc();
    let script_file = format!(in alloc; "{stem}.jsonl")?;
    let replies_file = format!(in alloc; "{stem}.out")?;
    let Some(wanted) = read_wanted(end) else {
        return Ok(Some(format!(in alloc; "{end} is not of the form 5(16)@41+1")?));
    };
    let Ok(script) = fs::read(rt, script_file.as_str()) else {
        return Ok(Some(format!(in alloc; "{script_file} cannot be read")?));
    };
    let Ok(written) = fs::read(rt, replies_file.as_str()) else {
        return Ok(Some(format!(in alloc; "{replies_file} cannot be read")?));
    };
    let left = run_script(alloc, &script, journal, wanted.mishap)?;
    *journal = left.journal;
    if !wanted.is_met(left.end) {
        let (status, number) = (left.end.status, left.end.detail);
        return Ok(Some(format!(in alloc;
            "{script_file} ends with {status}({number}), and {end} is written"
        )?));
    }
    match difference(alloc, &written, &left.replies)? {
        None => Ok(None),
        Some(found) => Ok(Some(format!(in alloc; "{replies_file} {found}")?)),
    }
}
