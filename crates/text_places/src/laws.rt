//! What holds of every text and every offset in it.

ghost use Rattle.std.specs.Prelude.{◌≡◌, ◌≤◌, ◌<◌, ℕ, List, [], IsUtf8, length, get_or};
ghost use Rattle.std.specs.Str.{chars};
ghost use Rattle.gql_base.specs.lexical.Blocks.{lines_of};
ghost use Rattle.text_places.specs.Places.{lines_ended, line_of, characters};

/// The line of an offset is the one of the text's lines whose number is told, counted from 0; the text has that many lines.
pub fn the_line_is_one_of_the_text()
    ensures there { (text : List ℕ) (at : ℕ) → at ≤ length text → lines_ended text at < length (lines_of text) }
    ensures same { (text : List ℕ) (at : ℕ) → at ≤ length text → get_or (lines_of text) (lines_ended text at) [] ≡ line_of text at }
{}

/// Columns count the characters of a text, and not its bytes.
pub fn columns_count_characters()
    ensures { (text : List ℕ) → IsUtf8 text → characters text ≡ length (chars text) }
{}
