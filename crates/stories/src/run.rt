// One script through the top call, over memory.
use crate::story::Mishap;
use std::alloc::{AllocError, Global};
use tf_cli::{End, run_top};
use tf_disk::MemDisk;
use tf_io::{MemSink, MemSource};

/// What a script left: its end, its replies, and the journal as a crash then leaves it.
#[derive(Drop)]
pub struct Left {
    pub end: End,
    pub replies: Vec<u8>,
    pub journal: Vec<u8>,
}

/// Runs a script on the bytes of a journal, with a mishap.
pub fn run_script(
    alloc: Global,
    script: &[u8],
    journal: &[u8],
    mishap: Mishap,
) -> Result<Left, AllocError> {
    let words = vec![in alloc;
        String::from_str(alloc, "run")?,
        String::from_str(alloc, "journal")?,
    ]?;
    let mut src = MemSource::new(alloc, script, &[])?;
    let mut out = MemSink::new(alloc, &[], &[])?;
    let disk = MemDisk::new(alloc, journal, mishap.failing.as_slice())?;
    let (end, disk) = run_top(alloc, &words, &mut src, &mut out, disk);
    let left = disk.image(0, mishap.kept)?;
    Ok(Left {
        end,
        replies: out.bytes().to_vec(alloc)?,
        journal: left.bytes().to_vec(alloc)?,
    })
}
