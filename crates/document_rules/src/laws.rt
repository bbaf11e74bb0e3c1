//! What holds of all operations that break no rule. These functions do nothing: their contracts are the laws.

ghost use Rattle.std.specs.Prelude.{◌≡◌, ℕ, true, None, List};
ghost use Rattle.document_reader.specs.declared.trees.Definition.{Definition};
ghost use Rattle.document_reader.specs.declared.trees.Operation.{Operation};
ghost use Rattle.document_reader.specs.Documents.{SelectionTrees};
ghost use Rattle.document_reader.specs.Trees.{set_tree};
ghost use Rattle.schema_model.specs.SchemaData.{SchemaData};
ghost use Rattle.document_rules.specs.Checking.{first_broken, fragments_in, reached_by};
ghost use Rattle.document_rules.specs.Parts.{FragmentData};
ghost use Rattle.document_rules.specs.Met.{is_met, reached};
ghost use Rattle.document_rules.specs.Reached.{AreReaching, AreSpreadBefore, AreMetOnce, AreCycles};
ghost use Rattle.document_rules.specs.Ranks.{HasRanks};

/// The fragments that are met are those that the selections reach, each once: each is spread in the selections or in one that
/// was met before it, and what is spread in one was met. A fragment in whose spreads the walk is, where it stands in one that
/// was met, leads to that one; so where it is spread there again, it comes back to itself.
pub fn what_is_met_is_reached()
    ensures only { (fragments : List FragmentData) (below : SelectionTrees) (number : ℕ) → is_met (reached fragments below) number ≡ true → AreReaching fragments below number }
    ensures all { (fragments : List FragmentData) (below : SelectionTrees) (number : ℕ) → AreReaching fragments below number → is_met (reached fragments below) number ≡ true }
    ensures before { (fragments : List FragmentData) (below : SelectionTrees) → AreSpreadBefore fragments below (reached fragments below) }
    ensures once { (fragments : List FragmentData) (below : SelectionTrees) → AreMetOnce (reached fragments below) }
    ensures cycles { (fragments : List FragmentData) (below : SelectionTrees) → AreCycles fragments (reached fragments below) }
{}

/// The fragments that an operation reaches have ranks, where no rule is broken: whatever is spread was met, and in a fragment
/// that was met only fragments of lower ranks are spread.
pub fn what_is_reached_has_ranks()
    ensures { (s : SchemaData) (ds : List Definition) (o : Operation) → first_broken s ds o ≡ None → HasRanks (fragments_in ds) (reached_by ds o) (set_tree o.selections.items) }
{}
