//! What holds of all printed values and types. This function does nothing: its contract is the law.

ghost use Rattle.std.specs.Prelude.{◌≡◌, ℕ, Bool};
ghost use Rattle.gql_base.specs.ways.Grammar.{Nested, plain, Within};
ghost use Rattle.gql_base.specs.parts.Values.{ValueTree, IsValue};
ghost use Rattle.gql_base.specs.parts.TypeReferences.{TypeTree, IsType};
ghost use Rattle.gql_base.specs.printing.PrintedTrees.{value_symbols, type_symbols, placeless, type_placeless};

/// The symbols in which a value or a type is printed are written as the same tree without offsets, and nested no deeper
/// than the value or the type was.
pub fn what_is_printed_is_written_as_the_same_tree()
    ensures values { (n : ℕ) (constant : Bool) (t : ValueTree) (ws : Nested) → IsValue constant 0 t ws → Within n ws → (front : Nested) × (plain front ≡ value_symbols t) × IsValue constant 0 (placeless t) front × Within n front }
    ensures types { (n : ℕ) (t : TypeTree) (ws : Nested) → IsType 0 t ws → Within n ws → (front : Nested) × (plain front ≡ type_symbols t) × IsType 0 (type_placeless t) front × Within n front }
{}
