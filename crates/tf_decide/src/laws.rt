// The law of refusals.
ghost use Rattle.tf_decide.specs.Moments.{NoRefusalDependsOnTheMoment};

/// What is told of a command is told by the history before it alone: no refusal depends on the moment or on the actor, those
/// of the documents of a bulk neither.
pub fn no_refusal_depends_on_the_moment()
    ensures { NoRefusalDependsOnTheMoment }
{}
