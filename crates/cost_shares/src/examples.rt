//! Small operations, and what their nodes add, computed by the definitions alone.

ghost use Rattle.std.specs.Prelude.{◌≡◌, ◌+◌, ◌*◌, [], ◌∷◌, codes};
ghost use Rattle.serde_json.specs.Data.{string};
ghost use Rattle.response_model.specs.Response.{null, leaf, element, no_element};
ghost use Rattle.response_model.specs.Cost.{types, fields};
ghost use Rattle.response_model.specs.Filled.{filled};
ghost use Rattle.response_model.specs.Examples.{one, half, quarter, search, found, post_of_author, tags_and_kind, tagged, five};
ghost use Rattle.cost_shares.specs.Shares.{shares_in};
ghost use Rattle.cost_shares.specs.Examples.{friends_of_two, share, no_share};

/// Two users with three friends each: six friends, with six ids and six names.
pub fn lists_in_lists()
    ensures types_part { shares_in types friends_of_two (filled types friends_of_two) ≡ share 1 2 (2 * one) ∷ share 2 6 (6 * one) ∷ share 6 6 0 ∷ share 6 6 0 ∷ [] }
    ensures fields_part { shares_in fields friends_of_two (filled fields friends_of_two) ≡ share 1 2 one ∷ share 2 6 (2 * one) ∷ share 6 6 0 ∷ share 6 6 (6 * quarter) ∷ [] }
{}

/// Five users have the greatest type cost, five posts the greatest field cost: each part of the cost has the nodes of another type.
pub fn types_of_each_part()
    ensures types_part { shares_in types search (filled types search) ≡ share 1 5 (5 * one) ∷ share 5 15 (15 * one) ∷ share 15 15 0 ∷ no_share ∷ no_share ∷ [] }
    ensures fields_part { shares_in fields search (filled fields search) ≡ share 1 5 one ∷ no_share ∷ no_share ∷ share 5 5 (20 * one) ∷ share 5 5 0 ∷ [] }
{}

/// A list of any length has no items in the filled response; its entry counts. Elsewhere it may have items, which weigh nothing.
pub fn lists_of_any_length()
    ensures filled_part { shares_in fields tags_and_kind (filled fields tags_and_kind) ≡ share 1 0 half ∷ share 1 1 0 ∷ [] }
    ensures with_items { shares_in types tags_and_kind (tagged (five (leaf (string (codes "a")))) (codes "Query")) ≡ share 1 5 0 ∷ share 1 1 0 ∷ [] }
{}

/// Null is an entry's value as any other, and no value for what stands below.
pub fn nulls()
    ensures item { shares_in fields search (found (element null (element post_of_author no_element))) ≡ share 1 1 one ∷ no_share ∷ no_share ∷ share 1 1 (4 * one) ∷ share 1 1 0 ∷ [] }
    ensures root { shares_in types search null ≡ no_share ∷ no_share ∷ no_share ∷ no_share ∷ no_share ∷ [] }
{}
