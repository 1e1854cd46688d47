// The laws of stamps.
ghost use Rattle.tf_mapping.specs.Written.{StampedIsWritten};

/// A document that a mapping reads with its stamp free is one that the index keeps, once the stamp is put: the mapping
/// reads it, and the moment is the stamp's value.
pub fn stamped_is_written()
    ensures { StampedIsWritten }
{}
