// Standard input and output.
ghost use Rattle.std.specs.Prelude.{None, ◌≡◌};

use crate::sink::Sink;
use crate::source::Source;
use std::io::{Read, Stdin, Stdout, Write};
use tf_model::Failed;

/// Standard input, which tells nothing of its bytes. A read that a signal breaks off counts as one that failed.
#[derive(Drop)]
pub struct InSource {
    stdin: Stdin,
    faults: u64,
}

impl InSource {
    /// The standard input of the process, with no fault counted.
    pub fn new(rt: &HostRuntime) -> InSource
        ensures { result.faults ≡ 0 }
    {
        InSource {
            stdin: rt.stdin(),
            faults: 0,
        }
    }
}

impl Source for InSource {
    ghost left = { λ _. None };

    ghost faults = { λ s. s.faults };

    fn read(&mut self, buf: &mut [u8]) -> Result<usize, Failed> {
        let faults = self.faults;
        match self.stdin.read(buf) {
            Ok(count) => Ok(count),
            Err(_) => {
                self.faults = faults.saturating_add(1);
                Err(Failed)
            }
        }
    }
}

/// Standard output, which tells nothing of its bytes. It is flushed at each write, and a write whose flush fails
/// counts as one that failed.
#[derive(Drop)]
pub struct OutSink {
    stdout: Stdout,
    faults: u64,
}

impl OutSink {
    /// The standard output of the process, with no fault counted.
    pub fn new(rt: &HostRuntime) -> OutSink
        ensures { result.faults ≡ 0 }
    {
        OutSink {
            stdout: rt.stdout(),
            faults: 0,
        }
    }
}

impl Sink for OutSink {
    ghost written = { λ _. None };

    ghost faults = { λ s. s.faults };

    fn write(&mut self, bytes: &[u8]) -> Result<usize, Failed> {
        let faults = self.faults;
        let result = self.stdout.write(bytes);
        let flushed = self.stdout.flush();
        match result {
            Ok(count) if flushed.is_ok() => {
                if count == 0 && !bytes.is_empty() {
                    self.faults = faults.saturating_add(1);
                }
                Ok(count)
            }
            _ => {
                self.faults = faults.saturating_add(1);
                Err(Failed)
            }
        }
    }
}
