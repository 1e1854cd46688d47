// The laws of the orders, beside those that `Ord` itself asks for.
ghost use Rattle.std.proofs.lemmas.Map.Lookups.{CmpEqualImpliesEq};
ghost use Rattle.tf_model.specs.Order.{value_cmp, key_cmp};

/// Values that compare as equal are equal: an ordered map by values keeps each value once.
#[tactic(auto, using(crate::proofs::OrderLaws::value_cmp_exact))]
pub fn value_order_is_exact()
    ensures { CmpEqualImpliesEq value_cmp }
{}

/// Keys that compare as equal are equal: a destination by keys has one row for each key.
#[tactic(auto, using(crate::proofs::OrderLaws::key_cmp_exact))]
pub fn key_order_is_exact()
    ensures { CmpEqualImpliesEq key_cmp }
{}
