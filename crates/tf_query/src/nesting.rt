// How deep queries nest.
ghost use Rattle.std.specs.Prelude.{◌≡◌, nat_le};
ghost use Rattle.std.specs.List.{list_all};
ghost use Rattle.tf_query.specs.Reading.{nesting};

use tf_model::Query;

/// Whether queries nest at most so deep. One without others inside counts as 1. Takes no memory.
#[cycle(nesting)]
#[tactic(auto, using(crate::proofs::NestingLaws::nestings))]
pub fn nests_within(query: &Query, most: u32) -> bool
    ensures { result ≡ nat_le (nesting query.now) most }
{
    match query {
        Query::Bool { filter, must_not } => most > 0
            && all_nest_within(filter.as_slice(), most - 1)
            && all_nest_within(must_not.as_slice(), most - 1),
        Query::MatchAll | Query::Term { .. } | Query::Exists { .. } | Query::Range { .. } => most
            > 0,
    }
}

#[cycle(nesting)]
fn all_nest_within(queries: &[Query], most: u32) -> bool
    ensures { result ≡ list_all (λ query. nat_le (nesting query) most) queries.now }
{
    for query in queries {
        if !nests_within(query, most) {
            return false;
        }
    }
    true
}
