// The lines of the list.
use std::alloc::{AllocError, Global};
use tf_cli::End;

/// A story: its name, and the words that say what its scripts end with.
#[derive(Clone, Copy, Debug)]
pub struct Story<'a> {
    pub name: &'a str,
    pub ends: &'a str,
}

/// What a script must end with, and what happens to the disk in it.
#[derive(Clone, Copy, Debug, PartialEq, Eq)]
pub struct Wanted {
    pub status: u8,
    pub number: Option<u64>,
    pub mishap: Mishap,
}

/// Which call of the disk fails, counted from 1, and how many of the writes since the last sync the crash after it keeps.
#[derive(Clone, Copy, Debug, PartialEq, Eq)]
pub struct Mishap {
    pub failing: Option<u64>,
    pub kept: u64,
}

impl Wanted {
    /// Whether an end has the status, and the number where one is wanted.
    pub fn is_met(&self, end: End) -> bool {
        let number = self.number.unwrap_or(end.detail);
        end.status == self.status && end.detail == number
    }
}

/// Reads `NAME END ..: what it shows`.
pub fn read_story(line: &str) -> Option<Story<'_>> {
    let (head, _) = line.split_once(": ")?;
    let (name, ends) = head.split_once(' ')?;
    if ends.trim().is_empty() {
        return None;
    }
    Some(Story { name, ends })
}

/// Reads `STATUS`, which may have `(NUMBER)` and then `@CALL` or `@CALL+KEPT` behind it.
pub fn read_wanted(word: &str) -> Option<Wanted> {
    let (end, mishap) = match word.split_once('@') {
        None => (word, NO_MISHAP),
        Some((end, mishap)) => (end, read_mishap(mishap)?),
    };
    let (status, number) = match end.split_once('(') {
        None => (end, None),
        Some((status, number)) => (status, Some(number.strip_suffix(')')?.parse().ok()?)),
    };
    Some(Wanted {
        status: status.parse().ok()?,
        number,
        mishap,
    })
}

const NO_MISHAP: Mishap = Mishap {
    failing: None,
    kept: 0,
};

// Reads `CALL` or `CALL+KEPT`.
fn read_mishap(word: &str) -> Option<Mishap> {
    let (call, kept) = word.split_once('+').unwrap_or((word, "0"));
    Some(Mishap {
        failing: Some(call.parse().ok()?),
        kept: kept.parse().ok()?,
    })
}

/// What the files of the script with a number are called, without `.jsonl` and `.out`.
pub fn stem(alloc: Global, name: &str, number: u64) -> Result<String, AllocError> {
    if number == 1 {
        String::from_str(alloc, name)
    } else {
        format!(in alloc; "{name}.{number}")
    }
}

/// Whether a file belongs to a story of the list.
pub fn is_of_a_story(alloc: Global, list: &str, file: &str) -> Result<bool, AllocError> {
    let Some((wanted, "jsonl" | "out")) = file.rsplit_once('.') else {
        return Ok(false);
    };
    for story in list.lines().filter_map(read_story) {
        if has_stem(alloc, story, wanted)? {
            return Ok(true);
        }
    }
    Ok(false)
}

// Whether the files of one of the scripts of a story are called so.
fn has_stem(alloc: Global, story: Story<'_>, wanted: &str) -> Result<bool, AllocError> {
    let mut number = 1u64;
    for _ in story.ends.split_whitespace() {
        if stem(alloc, story.name, number)?.as_str() == wanted {
            return Ok(true);
        }
        number = number.saturating_add(1);
    }
    Ok(false)
}
