// By whom and when commands are given.
ghost use Rattle.std.specs.Prelude.{◌≡◌};

/// By whom and when a command is given: an actor, and a moment in milliseconds since 1970.
#[derive(Drop)]
pub struct Given {
    pub actor: u8,
    pub at_ms: i64,
}

/// A command by an actor, where a moment is given.
pub fn given_by(actor: u8, now: i64) -> Given
    ensures { result ≡ record { actor = actor; at_ms = now } }
{
    Given { actor, at_ms: now }
}
