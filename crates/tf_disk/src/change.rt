// What was done to a file in memory, and what that makes of its bytes and of an image.
ghost use Rattle.std.specs.Prelude.{◌≡◌, ◌≤◌, ◌+◌, ◌-◌, ◌++◌, length, take, drop, replicate, IfOk, OnOk, OnErr};
ghost use Rattle.tf_disk.specs.Disk.{written};
ghost use Rattle.tf_disk.specs.InMemory.{changed, imaged, to_keep_after, image_from};
ghost use Rattle.tf_disk.specs.declared.change.Change.TheVariants.{Write};

use std::alloc::Global;
use tf_model::{List, OutOfMemory};

/// What was done to a file in memory. A write or a cut that is not done was only begun.
#[derive(Debug, Drop)]
pub enum Change {
    /// These bytes at this place.
    Write {
        place: u64,
        bytes: List<u8>,
        is_done: bool,
    },
    /// A cut to this length.
    Trim {
        len: u64,
        is_done: bool,
    },
    /// A sync that answered `Ok`.
    Sync,
}

// A write as a change.
pub fn write_change(
    alloc: Global,
    place: u64,
    bytes: &[u8],
    is_done: bool,
) -> Result<Change, OutOfMemory>
    ensures { IfOk result (λ change. change ≡ Write place bytes.now is_done) }
{
    let bytes = List::from_vec(bytes.to_vec(alloc)?);
    Ok(Change::Write {
        place,
        bytes,
        is_done,
    })
}

// Makes a change to the bytes that a read gives.
pub fn apply(file: &mut Vec<u8>, change: &Change) -> Result<(), OutOfMemory>
    ensures ok { OnOk result (file.new.items ≡ changed change.now file.old.items) }
    ensures err { OnErr result (file.new.items ≡ file.old.items) }
{
    match change {
        Change::Write {
            place,
            bytes,
            is_done: true,
        } => write_over(file, *place as usize, bytes.as_slice()),
        Change::Trim { len, is_done: true } => {
            file.truncate(*len as usize);
            Ok(())
        }
        Change::Write { .. } | Change::Trim { .. } | Change::Sync => Ok(()),
    }
}

// One image after all the changes.
pub fn image_after(
    alloc: Global,
    first: &[u8],
    changes: &[Change],
    fill: u8,
    keep: u64,
) -> Result<Vec<u8>, OutOfMemory>
    ensures { IfOk result (λ image. image.items ≡ image_from fill keep changes.now first.now first.now keep) }
{
    let mut now = first.to_vec(alloc)?;
    let mut image = first.to_vec(alloc)?;
    let mut to_keep = keep;
    for change in changes {
        tear(alloc, &mut image, &now, change, fill, to_keep)?;
        apply(&mut now, change)?;
        to_keep = keep_after(keep, change, to_keep);
    }
    Ok(image)
}

// Makes a change to an image: whole where some are left to keep, else torn.
fn tear(
    alloc: Global,
    image: &mut Vec<u8>,
    now: &[u8],
    change: &Change,
    fill: u8,
    to_keep: u64,
) -> Result<(), OutOfMemory>
    ensures { OnOk result (image.new.items ≡ imaged fill to_keep change.now now.now image.old.items) }
{
    match change {
        Change::Write { place, bytes, .. } => {
            if to_keep == 0 {
                let torn = vec![in alloc; fill; bytes.len()]?;
                return write_over(image, *place as usize, &torn);
            }
            write_over(image, *place as usize, bytes.as_slice())
        }
        Change::Trim { len, .. } => {
            if to_keep > 0 {
                image.truncate(*len as usize);
            }
            Ok(())
        }
        Change::Sync => {
            image.clear();
            image.extend_from_slice(now)
        }
    }
}

// How many changes are left to keep after one. A sync begins anew.
fn keep_after(keep: u64, change: &Change, to_keep: u64) -> u64
    ensures { result ≡ to_keep_after keep change.now to_keep }
{
    match change {
        Change::Write { .. } | Change::Trim { .. } => to_keep.saturating_sub(1),
        Change::Sync => keep,
    }
}

// Writes bytes over others at a place, with zeros between the end and the place.
fn write_over(file: &mut Vec<u8>, place: usize, bytes: &[u8]) -> Result<(), OutOfMemory>
    ensures ok { OnOk result (file.new.items ≡ written file.old.items place bytes.now) }
    ensures err { OnErr result (file.new.items ≡ file.old.items) }
{
    let Some(end) = place.checked_add(bytes.len()) else {
        return Err(OutOfMemory);
    };
    lengthen(file, end)?;
    copy_at(file, place, bytes);
    Ok(())
}

// Adds zeros up to an end.
fn lengthen(file: &mut Vec<u8>, end: usize) -> Result<(), OutOfMemory>
    ensures ok { OnOk result (file.new.items ≡ file.old.items ++ replicate (end - length file.old.items) 0) }
    ensures err { OnErr result (file.new.items ≡ file.old.items) }
{
    if file.len() < end {
        file.resize(end, 0)?;
    }
    Ok(())
}

// Copies bytes over those at a place.
fn copy_at(file: &mut [u8], place: usize, bytes: &[u8])
    requires { place + length bytes.now ≤ length file.old }
    ensures len { length file.new ≡ length file.old }
    ensures bytes { file.new ≡ take place file.old ++ bytes.now ++ drop (place + length bytes.now) file.old }
{
    file[place..place + bytes.len()].copy_from_slice(bytes);
}
