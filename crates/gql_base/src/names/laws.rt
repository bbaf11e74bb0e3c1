//! What holds of names. These functions do nothing: their contracts are the laws.

ghost use Rattle.std.specs.Prelude.{◌≡◌, ◌+◌, ◌↔◌, ℕ, true, false, List, None, Some, take};
ghost use Rattle.std.specs.List.{IsDistinct};
ghost use Rattle.std.specs.Str.{bytes_eq};
ghost use Rattle.gql_base.specs.names.Names.{are_distinct, first_repeated};

/// Names are distinct exactly where none is equal to one after it.
pub fn distinct_names_stand_once()
    ensures once { (names : List (List ℕ)) → are_distinct names ≡ true → IsDistinct bytes_eq names }
    ensures distinct { (names : List (List ℕ)) → IsDistinct bytes_eq names → are_distinct names ≡ true }
{}

/// No name is repeated exactly where names are distinct. The names before the first repeated one are distinct, and with it
/// they aren't.
pub fn the_first_repeated_name_ends_distinct_ones()
    ensures none { (names : List (List ℕ)) → (first_repeated names ≡ None) ↔ (are_distinct names ≡ true) }
    ensures before { (names : List (List ℕ)) (at : ℕ) → first_repeated names ≡ Some at → are_distinct (take at names) ≡ true }
    ensures with_it { (names : List (List ℕ)) (at : ℕ) → first_repeated names ≡ Some at → are_distinct (take (at + 1) names) ≡ false }
{}
