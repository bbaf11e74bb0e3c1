//! What holds of the texts of printed documents. This function does nothing: its contract is the law.

ghost use Rattle.std.specs.Prelude.{ℕ, Bool, List, IsUtf8};
ghost use Rattle.gql_base.specs.printing.Printing.{printed};
ghost use Rattle.gql_base.specs.printing.ReadingBack.{SpellsAgain};
ghost use Rattle.document_reader.specs.Documents.{DefinitionTree, IsDocument};
ghost use Rattle.document_reader.specs.DocumentAnswers.{HasDocument};
ghost use Rattle.document_reader.specs.PrintedDocuments.{document_symbols};
ghost use Rattle.document_reader.specs.PlacelessDocuments.{document_placeless};

/// What is printed of a document that a text is, is UTF-8. It is the text of the same document, but for the offsets of names, and is
/// nested no deeper than documents may be. Floats may stand in it where they might stand in the first.
pub fn what_is_printed_reads_back_as_the_same_document()
    ensures reads_back { (floats : Bool) (text : List ℕ) (trees : List DefinitionTree) → IsUtf8 text → HasDocument floats text trees → SpellsAgain floats IsDocument document_placeless (printed (document_symbols trees)) trees }
    ensures utf8 { (floats : Bool) (text : List ℕ) (trees : List DefinitionTree) → IsUtf8 text → HasDocument floats text trees → IsUtf8 (printed (document_symbols trees)) }
{}
