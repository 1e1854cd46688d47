//! The program `transforms`: it makes the real source, sink and disk, and `run_top` does all the rest.
#![tactic(auto)]

use std::env;
use std::process::ExitCode;
use tf_cli::{End, file_word, run_top};
use tf_disk::{Disk, FileDisk, MemDisk};
use tf_io::{InSource, OutSink};

const USAGE: End = End {
    status: 2,
    detail: 0,
};

const NO_MEMORY: End = End {
    status: 8,
    detail: 0,
};

fn main(rt: HostRuntime) -> ExitCode {
    let end = run(&rt);
    if end.status != 0 {
        let _ = eprintln!(rt; "transforms: status {} ({})", end.status, end.detail);
    }
    ExitCode::from(end.status)
}

// Runs over the file that the words name, or over an empty disk in memory where they name none.
fn run(rt: &HostRuntime) -> End {
    let alloc = rt.alloc();
    let Ok(args) = env::args(rt) else {
        return USAGE;
    };
    let Ok(words) = args.skip(1).collect::<Vec<String>>(alloc) else {
        return NO_MEMORY;
    };
    match file_word(&words) {
        Some(file) => match FileDisk::new(rt, alloc, file) {
            Ok(disk) => run_over(rt, &words, disk),
            Err(_) => NO_MEMORY,
        },
        None => match MemDisk::new(alloc, &[], &[]) {
            Ok(disk) => run_over(rt, &words, disk),
            Err(_) => NO_MEMORY,
        },
    }
}

fn run_over<D: Disk + Drop>(rt: &HostRuntime, words: &[String], disk: D) -> End {
    let mut src = InSource::new(rt);
    let mut out = OutSink::new(rt);
    let (end, _) = run_top(rt.alloc(), words, &mut src, &mut out, disk);
    end
}
