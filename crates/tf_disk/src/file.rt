// A disk over a real file.
ghost use Rattle.std.specs.Prelude.{◌≡◌, ◌≤◌, IfOk};
ghost use Rattle.std.proofs.Common.{rules};
ghost use Rattle.tf_model.specs.Causes.{Rose};
ghost use Rattle.tf_disk.specs.Disk.{tells_nothing};
ghost use Rattle.tf_disk.specs.RealFile.{fault_count, path_of};

use crate::device::Disk;
use std::alloc::Global;
use std::fs::{File, OpenOptions};
use std::io;
use std::os::unix::fs::FileExt;
use tf_model::{Failed, OutOfMemory};

/// A disk over the file at a path, which is opened, or made, at the first call. A call that cannot reach the
/// file answers `Failed`, and the next one tries again.
///
/// Contracts learn nothing of its bytes and of what a crash leaves: that the machine keeps the promises of
/// `Disk` is a premise.
#[derive(Drop)]
pub struct FileDisk {
    rt: HostRuntime,
    path: String,
    file: Option<File>,
    faults: u64,
}

impl FileDisk {
    /// A disk over the file at this path. It makes no call of the system.
    pub fn new(rt: &HostRuntime, alloc: Global, path: &str) -> Result<FileDisk, OutOfMemory>
        ensures path { IfOk result (λ disk. path_of disk ≡ path.now) }
        ensures faults { IfOk result (λ disk. fault_count disk ≡ 0) }
    {
        let path = String::from_str(alloc, path)?;
        Ok(FileDisk {
            rt: *rt,
            path,
            file: None,
            faults: 0,
        })
    }

    // The file, which the caller puts back.
    fn open(&mut self) -> io::Result<File>
        ensures { self.new.faults ≡ self.old.faults }
    {
        match self.file.take() {
            Some(file) => Ok(file),
            None => OpenOptions::new()
                .read(true)
                .write(true)
                .create(true)
                .open(&self.rt, self.path.as_str()),
        }
    }

    // Counts a call that failed.
    fn fail(&mut self) -> Failed
        ensures rose { Rose self.old.faults self.new.faults }
        ensures later { self.old.faults ≤ self.new.faults }
    {
        self.faults = self.faults.saturating_add(1);
        Failed
    }
}

// Cuts a file that is longer, and leaves one that is not.
fn cut_file(file: &File, len: u64) -> io::Result<()> {
    if file.metadata()?.len() <= len {
        return Ok(());
    }
    file.set_len(len)
}

impl Disk for FileDisk {
    ghost meaning = { tells_nothing fault_count };

    ghost as_it_reads = { Prim.search rules };

    ghost counts_now = { λ disk t image le now. now };

    ghost only_now = { λ disk image left. left };

    fn faults(&self) -> u64 {
        self.faults
    }

    fn len(&mut self) -> Result<u64, Failed> {
        if let Ok(file) = self.open() {
            let size = file.metadata();
            self.file = Some(file);
            if let Ok(size) = size {
                return Ok(size.len());
            }
        }
        Err(self.fail())
    }

    fn read(&mut self, place: u64, buf: &mut [u8]) -> Result<usize, Failed> {
        if let Ok(file) = self.open() {
            let count = file.read_at(buf, place);
            self.file = Some(file);
            if let Ok(count) = count {
                return Ok(count);
            }
        }
        Err(self.fail())
    }

    fn write_at(&mut self, place: u64, bytes: &[u8]) -> Result<(), Failed> {
        if let Ok(file) = self.open() {
            let written = file.write_all_at(bytes, place);
            self.file = Some(file);
            if written.is_ok() {
                return Ok(());
            }
        }
        Err(self.fail())
    }

    fn cut(&mut self, len: u64) -> Result<(), Failed> {
        if let Ok(file) = self.open() {
            let cut = cut_file(&file, len);
            self.file = Some(file);
            if cut.is_ok() {
                return Ok(());
            }
        }
        Err(self.fail())
    }

    fn sync(&mut self) -> Result<(), Failed> {
        if let Ok(file) = self.open() {
            let synced = file.sync_all();
            self.file = Some(file);
            if synced.is_ok() {
                return Ok(());
            }
        }
        Err(self.fail())
    }
}
