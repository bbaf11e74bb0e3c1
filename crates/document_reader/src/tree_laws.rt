//! What holds of the trees of all documents. These functions do nothing: their contracts are the laws.

ghost use Rattle.std.specs.Prelude.{◌≡◌, ℕ, Bool, List, map};
ghost use Rattle.gql_base.specs.ways.Grammar.{Nested, plain};
ghost use Rattle.gql_base.specs.printing.Alike.{AreAlike};
ghost use Rattle.document_reader.specs.declared.trees.Document.{Document};
ghost use Rattle.document_reader.specs.Documents.{DefinitionTree, IsDocument};
ghost use Rattle.document_reader.specs.Trees.{definition_tree};
ghost use Rattle.document_reader.specs.Places.{operation_offset};
ghost use Rattle.document_reader.specs.DocumentAnswers.{IsDocumentOf};
ghost use Rattle.document_reader.specs.PlacelessDocuments.{document_placeless};

/// The symbols of a document with other offsets of names are those of the same document, but for the offsets of its
/// names.
pub fn offsets_change_no_document()
    ensures { (ts : List DefinitionTree) (ws vs : Nested) → IsDocument ts ws → AreAlike ws vs → (us : List DefinitionTree) × IsDocument us vs × (document_placeless us ≡ document_placeless ts) }
{}

/// No symbols are written as two documents, however deep they nest, and no text is two documents: their trees are the
/// same, with the offsets of names, and so are the offsets of their operations.
pub fn a_text_is_one_document()
    ensures symbols { (trees others : List DefinitionTree) (ws vs : Nested) → IsDocument trees ws → IsDocument others vs → plain ws ≡ plain vs → trees ≡ others }
    ensures texts { (floats : Bool) (text : List ℕ) (document other : Document) → IsDocumentOf floats text document → IsDocumentOf floats text other → map definition_tree document.definitions.items ≡ map definition_tree other.definitions.items }
    ensures places { (floats : Bool) (text : List ℕ) (document other : Document) → IsDocumentOf floats text document → IsDocumentOf floats text other → map operation_offset document.definitions.items ≡ map operation_offset other.definitions.items }
{}
