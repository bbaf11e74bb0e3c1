//! Small selections, computed by the definitions alone.

ghost use Rattle.std.specs.Prelude.{◌≡◌, ◌*◌, [], ◌∷◌, codes, length, None, Some};
ghost use Rattle.cost_directives.specs.declared.sizes.SizeFault.TheVariants.{SlicingCount};
ghost use Rattle.response_model.specs.Cost.{types, fields};
ghost use Rattle.response_model.specs.Bound.{greatest_cost};
ghost use Rattle.plan_model.specs.SelectedFields.{size_at};
ghost use Rattle.plan_model.specs.Collecting.{collected};
ghost use Rattle.plan_model.specs.MergingWalk.{walked};
ghost use Rattle.plan_model.specs.Visits.{conflict, refused_size, planned_well, faulty};
ghost use Rattle.plan_model.specs.Examples.{field, small_setting, id_only, of_me, friends_twice, friends_and_id, search_both, left_out, names_twice, friends_path, paths_of_friends, paths_of_search, paths, answered, friends_call, search_call, planned_query};

use cost_num::UNIT;

/// Two fields of one key are one node, and their selections stand together below it.
pub fn fields_of_a_key_merge()
    ensures paths { paths (friends_twice 2 2) ≡ paths_of_friends }
    ensures well { answered (friends_twice 2 2) ≡ planned_well }
{}

/// Fields of one key whose names or arguments differ don't merge. A list that is sliced needs its argument.
pub fn fields_that_differ_conflict()
    ensures arguments { answered (friends_twice 2 3) ≡ faulty (friends_path, conflict) }
    ensures names { answered friends_and_id ≡ faulty (friends_path, conflict) }
    ensures size { answered (of_me (field (codes "friends") id_only ∷ [])) ≡ faulty (friends_path, refused_size (SlicingCount 0)) }
{}

/// At a union each object type has its own nodes, in the order of the schema.
pub fn types_have_their_own_nodes()
    ensures { paths search_both ≡ paths_of_search }
{}

/// `@skip` leaves out where it is true, and `@include` where it is false.
pub fn selections_are_left_out()
    ensures { paths left_out ≡ (codes "me" ∷ []) ∷ (codes "me" ∷ codes "__typename" ∷ []) ∷ [] }
{}

/// A fragment that is spread twice gives its fields twice, and the walk gives them once.
pub fn fragments_are_walked_once()
    ensures listed { length (collected small_setting 1 names_twice) ≡ 2 }
    ensures walked { length (walked small_setting 1 names_twice) ≡ 1 }
{}

/// A list has the size that is handed down to it, or else that of its slicing argument, or that of lists that declare none.
pub fn sizes_of_lists()
    ensures handed { size_at small_setting 1 (friends_call 2) (Some (codes "friends" ∷ [], 7)) ≡ Some 7 }
    ensures sliced { size_at small_setting 1 (friends_call 2) None ≡ Some 2 }
    ensures undeclared { size_at small_setting 0 search_call None ≡ Some 10 }
{}

/// Two friends of one user are four objects with the query; the two fields that return objects weigh 1 each.
pub fn greatest_costs()
    ensures types_cost { greatest_cost types (planned_query (friends_twice 2 2)) ≡ 4 * UNIT }
    ensures fields_cost { greatest_cost fields (planned_query (friends_twice 2 2)) ≡ 2 * UNIT }
{}
