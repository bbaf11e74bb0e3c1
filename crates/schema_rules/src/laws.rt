//! What holds of the things of all texts and of their first faults. These functions do nothing: their contracts are the laws.

ghost use Rattle.std.specs.Prelude.{◌≡◌, ◌↔◌, true, List, Option, None, Some};
ghost use Rattle.schema_rules.specs.Places.{PlaceTree};
ghost use Rattle.schema_rules.specs.Items.{ItemTree};
ghost use Rattle.schema_rules.specs.Scopes.{has_names, HaveOneName};
ghost use Rattle.schema_rules.specs.Repeated.{key_of};
ghost use Rattle.schema_rules.specs.First.{first_of, AreGood, IsFirst};

/// The place that a test tells is that of a thing at fault before which nothing is; and it tells none exactly where no thing
/// is at fault.
pub fn a_told_place_is_the_first()
    ensures is_first { (test : ItemTree → Option PlaceTree) (items : List ItemTree) (place : PlaceTree) → first_of test items ≡ Some place → IsFirst test items place }
    ensures first_is { (test : ItemTree → Option PlaceTree) (items : List ItemTree) (place : PlaceTree) → IsFirst test items place → first_of test items ≡ Some place }
    ensures none { (test : ItemTree → Option PlaceTree) (items : List ItemTree) → first_of test items ≡ None → AreGood test items }
    ensures good { (test : ItemTree → Option PlaceTree) (items : List ItemTree) → AreGood test items → first_of test items ≡ None }
{}

/// Two things have one key exactly where they have one name in one scope, since names hold letters, digits and `_` alone
/// (GraphQL October 2021, 2.1.9).
pub fn equal_keys_are_one_name_in_one_scope()
    ensures { (one other : ItemTree) → has_names one ≡ true → has_names other ≡ true → ((key_of one ≡ key_of other) ↔ HaveOneName one other) }
{}
