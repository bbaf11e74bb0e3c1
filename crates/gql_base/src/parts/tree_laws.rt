//! What holds of the trees of all values and types. These functions do nothing: their contracts are the laws.

ghost use Rattle.std.specs.Prelude.{◌≡◌, ℕ, Bool, map};
ghost use Rattle.gql_base.specs.ways.Symbols.{Symbols};
ghost use Rattle.gql_base.specs.ways.Grammar.{Nested, plain, Within};
ghost use Rattle.gql_base.specs.parts.Values.{ValueTree, IsValue};
ghost use Rattle.gql_base.specs.parts.TypeReferences.{TypeTree, IsType};
ghost use Rattle.gql_base.specs.printing.PrintedTrees.{value_symbols, type_symbols, placeless, type_placeless};
ghost use Rattle.gql_base.specs.printing.PlacelessSymbols.{placeless_symbol};
ghost use Rattle.gql_base.specs.printing.Alike.{AreAlike};

/// The symbols of a value or a type with other offsets of names are those of the same value or type, but for the offsets
/// of its names.
pub fn offsets_change_no_tree()
    ensures values { (constant : Bool) (t : ValueTree) (ws vs : Nested) → IsValue constant 0 t ws → AreAlike ws vs → (u : ValueTree) × IsValue constant 0 u vs × (placeless u ≡ placeless t) }
    ensures types { (t : TypeTree) (ws vs : Nested) → IsType 0 t ws → AreAlike ws vs → (u : TypeTree) × IsType 0 u vs × (type_placeless u ≡ type_placeless t) }
{}

/// Symbols that are the same but for the offsets of names have the same nestings, and so are nested no deeper.
pub fn offsets_change_no_nesting()
    ensures alike { (ws : Nested) (symbols : Symbols) → map placeless_symbol (plain ws) ≡ map placeless_symbol symbols → (vs : Nested) × (plain vs ≡ symbols) × AreAlike ws vs }
    ensures within { (n : ℕ) (ws vs : Nested) → AreAlike ws vs → Within n ws → Within n vs }
{}

/// A value or a type is printed in the symbols that it is written with, without the offsets of names.
pub fn what_is_printed_has_the_symbols_of_its_text()
    ensures values { (constant : Bool) (t : ValueTree) (ws : Nested) → IsValue constant 0 t ws → value_symbols t ≡ map placeless_symbol (plain ws) }
    ensures types { (t : TypeTree) (ws : Nested) → IsType 0 t ws → type_symbols t ≡ map placeless_symbol (plain ws) }
{}

/// No symbols are those of two values, or of two types.
pub fn a_text_is_one_value()
    ensures values { (constant : Bool) (t u : ValueTree) (ws vs : Nested) → IsValue constant 0 t ws → IsValue constant 0 u vs → plain ws ≡ plain vs → t ≡ u }
    ensures types { (t u : TypeTree) (ws vs : Nested) → IsType 0 t ws → IsType 0 u vs → plain ws ≡ plain vs → t ≡ u }
{}
