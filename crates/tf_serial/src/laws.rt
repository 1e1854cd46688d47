// The law of settlings.
ghost use Rattle.tf_serial.specs.Settling.{SettlingsFollowTheRule};

/// A settling passes over the transforms in the order of their ids, each moved until it is idle, until a whole pass moves
/// nothing; and behind it no transform has a next move.
pub fn settlings_follow_the_rule()
    ensures { SettlingsFollowTheRule }
{}
