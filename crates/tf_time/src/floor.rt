// Multiples of a step.
ghost use Rattle.std.specs.Prelude.{◌≡◌, ◌^◌, pos, neg_ℤ};
ghost use Rattle.jiff.specs.Words.{IsBetween, IsWithin};
ghost use Rattle.tf_time.specs.Floors.{IsFloor, floor_of};

/// The greatest multiple of `step` that is at most `ms`, both in milliseconds. Takes no memory.
#[tactic(auto, using(std::proofs::lemmas::Int::ints))]
pub fn floor_to(ms: i64, step: i64) -> i64
    requires ms_in { IsWithin (2 ^ 60) ms }
    requires step_in { IsBetween (pos 1) (pos (2 ^ 60)) step }
    ensures value { result ≡ floor_of ms step }
    ensures floor { IsFloor ms step result }
{
    ms - ms.rem_euclid(step)
}
