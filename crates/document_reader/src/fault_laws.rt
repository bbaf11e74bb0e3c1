//! What holds of the faults of all texts that are no documents. These functions do nothing: their contracts are the laws.

ghost use Rattle.std.specs.Prelude.{◌≡◌, ◌⊎◌, ℕ, Bool, List, map};
ghost use Rattle.document_reader.specs.declared.document.DocFault.{DocFault};
ghost use Rattle.document_reader.specs.declared.trees.Document.{Document};
ghost use Rattle.document_reader.specs.Documents.{DefinitionTree};
ghost use Rattle.document_reader.specs.Trees.{definition_tree};
ghost use Rattle.document_reader.specs.DocumentAnswers.{IsDocumentOf, HasDocument, HasDocumentFault};

/// Each text, in which floats may stand or may not, is a document or has a fault, and not both. It has one fault at most, which is its first. Want of memory
/// is none.
pub fn a_text_is_a_document_or_has_one_fault()
    ensures either { (floats : Bool) (text : List ℕ) → ((trees : List DefinitionTree) × HasDocument floats text trees) ⊎ ((fault : DocFault) × HasDocumentFault floats text fault) }
    ensures not_both { (floats : Bool) (text : List ℕ) (trees : List DefinitionTree) (fault : DocFault) → HasDocument floats text trees → HasDocumentFault floats text fault → ⊥ }
    ensures one_fault { (floats : Bool) (text : List ℕ) (fault other : DocFault) → HasDocumentFault floats text fault → HasDocumentFault floats text other → fault ≡ other }
    ensures documents { (floats : Bool) (text : List ℕ) (document : Document) → IsDocumentOf floats text document → HasDocument floats text (map definition_tree document.definitions.items) }
{}
