//! What holds of all printed documents. This function does nothing: its contract is the law.

ghost use Rattle.std.specs.Prelude.{◌≡◌, ℕ, List};
ghost use Rattle.gql_base.specs.ways.Grammar.{Nested, plain, Within};
ghost use Rattle.document_reader.specs.Documents.{DefinitionTree, IsDocument};
ghost use Rattle.document_reader.specs.PrintedDocuments.{document_symbols};
ghost use Rattle.document_reader.specs.PlacelessDocuments.{document_placeless};

/// The symbols in which a document is printed are written as the same document without offsets, and nested no deeper
/// than the document was.
pub fn what_is_printed_is_written_as_the_same_document()
    ensures { (n : ℕ) (trees : List DefinitionTree) (ws : Nested) → IsDocument trees ws → Within n ws → (front : Nested) × (plain front ≡ document_symbols trees) × IsDocument (document_placeless trees) front × Within n front }
{}
