//! A disk that holds one file: the calls that a journal makes and what a crash may leave of them, a disk in
//! memory whose calls can be made to fail, and one over a real file.
#![tactic(auto)]

mod change;
mod device;
mod file;
mod memory;

pub use change::Change;
pub use device::Disk;
pub use file::FileDisk;
pub use memory::MemDisk;
