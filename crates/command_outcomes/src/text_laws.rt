//! What holds of the texts of all refusals of files. This function does nothing: its contract is the law.

ghost use Rattle.std.specs.Prelude.{◌≡◌, ℕ, List, true};
ghost use Rattle.gql_base.specs.printing.OneLine.{is_one_line};
ghost use Rattle.command_outcomes.specs.declared.checked.SchemaRefusal.{SchemaRefusal};
ghost use Rattle.command_outcomes.specs.Texts.{too_large_text, not_text_text};
ghost use Rattle.command_outcomes.specs.SchemaTexts.{schema_refusal_text};

use local_introspection::refusal_texts_are_one_line;

/// The text by which a file is refused is one line: no line feed and no other control character stands in it, whatever names it
/// tells.
pub fn refusals_of_files_are_one_line()
    ensures schema { (name : List ℕ) (refusal : SchemaRefusal) → is_one_line (schema_refusal_text name refusal) ≡ true }
    ensures too_large { (name : List ℕ) → is_one_line (too_large_text name) ≡ true }
    ensures no_text { (name : List ℕ) → is_one_line (not_text_text name) ≡ true }
{
    refusal_texts_are_one_line();
}
