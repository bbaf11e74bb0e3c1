//! What holds of the texts in which values and types are printed. This function does nothing: its contract is the law.

ghost use Rattle.std.specs.Prelude.{ℕ, List, Bool, IsUtf8};
ghost use Rattle.gql_base.specs.ways.TextFaults.{HasTree};
ghost use Rattle.gql_base.specs.parts.Values.{ValueTree, IsValue};
ghost use Rattle.gql_base.specs.parts.TypeReferences.{TypeTree, IsType};
ghost use Rattle.gql_base.specs.printing.Printing.{printed};
ghost use Rattle.gql_base.specs.printing.PrintedTrees.{value_symbols, type_symbols, placeless, type_placeless};
ghost use Rattle.gql_base.specs.printing.ReadingBack.{SpellsAgain};

/// The text in which a value or a type is printed spells the same value or type, but for the offsets of names. So it
/// is for every one that some text spells, whatever characters its strings stand for.
pub fn what_is_printed_reads_back()
    ensures values { (floats constant : Bool) (t : ValueTree) (text : List ℕ) → IsUtf8 text → HasTree floats (IsValue constant 0) text t → SpellsAgain floats (IsValue constant 0) placeless (printed (value_symbols t)) t }
    ensures types { (floats : Bool) (t : TypeTree) (text : List ℕ) → IsUtf8 text → HasTree floats (IsType 0) text t → SpellsAgain floats (IsType 0) type_placeless (printed (type_symbols t)) t }
{}
