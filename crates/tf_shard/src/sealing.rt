// Sealing: moving the first documents of the tail into segments.
ghost use Rattle.std.specs.Prelude.{◌≡◌, ◌+◌, ◌≤◌, ◌<◌, OnOk, vec_len};
ghost use Rattle.tf_segment.specs.Segments.{segment_len};
ghost use Rattle.tf_shard.specs.Parts.{HasTheSame, IsWhole, spare_of};

use crate::parts::Parts;
use std::alloc::Global;
use std::sync::Arc;
use tf_model::OutOfMemory;
use tf_segment::{SEGMENT_LEN, Segment, first_shares};

/// Moves the first documents of the tail into segments while it has enough for one. After want of memory some stay.
pub fn seal(alloc: Global, parts: &mut Parts) -> Result<(), OutOfMemory>
    requires { IsWhole parts.old }
    ensures whole { IsWhole parts.new }
    ensures same { HasTheSame parts.old parts.new }
    ensures spare { spare_of parts.new ≡ spare_of parts.old }
    ensures short { OnOk result (vec_len parts.new.tail < segment_len) }
{
    while SEGMENT_LEN <= parts.tail.len() {
        seal_one(alloc, parts)?;
    }
    Ok(())
}

// Moves the first documents of the tail into a segment.
fn seal_one(alloc: Global, parts: &mut Parts) -> Result<(), OutOfMemory>
    requires whole { IsWhole parts.old }
    requires enough { segment_len ≤ vec_len parts.old.tail }
    ensures whole { IsWhole parts.new }
    ensures same { HasTheSame parts.old parts.new }
    ensures spare { spare_of parts.new ≡ spare_of parts.old }
    ensures moved { OnOk result (vec_len parts.new.tail + segment_len ≡ vec_len parts.old.tail) }
{
    let docs = first_shares(alloc, parts.tail.as_slice(), SEGMENT_LEN)?;
    let segment = Arc::new(alloc, Segment::new(docs))?;
    parts.segments.push(segment)?;
    parts.tail.rotate_left(SEGMENT_LEN);
    parts.tail.truncate(parts.tail.len() - SEGMENT_LEN);
    Ok(())
}
