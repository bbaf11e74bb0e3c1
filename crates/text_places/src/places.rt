//! The line and the column of an offset.

ghost use Rattle.std.specs.Prelude.{◌≡◌, ◌+◌, ◌-◌, ◌≤◌, ◌==◌, not, length, take, drop, get_or, min};
ghost use Rattle.std.specs.List.{prefix_len, filter};
ghost use Rattle.gql_base.specs.lexical.Characters.{is_line_end};
ghost use Rattle.text_places.specs.Places.{ends_line, lines_ended, line_start, line_number, line_from, line_of, line_before, begins_character, characters, column};

/// Where a byte of a text stands.
#[derive(Clone, Copy, Debug, PartialEq, Eq)]
pub struct TextPlace {
    /// The number of its line, from 1.
    pub line: usize,
    /// Its column, from 1: characters are counted, whatever bytes they have.
    pub column: usize,
    /// The offset at which its line begins.
    pub start: usize,
    /// The offset at which its line ends: of the line end, or of the text's end.
    pub end: usize,
}

fn byte_at(bytes: &[u8], at: usize) -> u8
    ensures { result ≡ get_or bytes.now at 0 }
{
    match bytes.get(at) {
        Some(byte) => *byte,
        None => 0,
    }
}

fn ends_line(bytes: &[u8], at: usize) -> bool
    requires { at + 1 ≤ length bytes.now }
    ensures { result ≡ ends_line bytes.now at }
{
    let byte = byte_at(bytes, at);
    byte == b'\n' || (byte == b'\r' && byte_at(bytes, at + 1) != b'\n')
}

/// How many lines end before an offset, and where the line begins in which it is.
fn lines_before(bytes: &[u8], at: usize) -> (usize, usize)
    requires { at ≤ length bytes.now }
    ensures ended { result.0 ≡ lines_ended bytes.now at }
    ensures start { result.1 ≡ line_start bytes.now at }
    ensures few { result.0 ≤ at }
    ensures before { result.1 ≤ at }
{
    let mut ended = 0;
    let mut start = 0;
    for index in 0..at {
        if ends_line(bytes, index) {
            ended += 1;
            start = index + 1;
        }
    }
    (ended, start)
}

/// How many bytes stand before the first line end.
fn line_length(bytes: &[u8]) -> usize
    ensures longest { result ≡ prefix_len (λ c. not (is_line_end c)) bytes.now }
    ensures within { result ≤ length bytes.now }
{
    bytes
        .iter()
        .take_while(|byte| **byte != b'\n' && **byte != b'\r')
        .count()
}

/// How many characters these are.
fn characters(bytes: &[u8]) -> usize
    ensures count { result ≡ characters bytes.now }
    ensures within { result ≤ length bytes.now }
{
    bytes
        .iter()
        .filter(|byte| **byte < 128 || **byte >= 192)
        .count()
}

/// Where the byte at this offset stands in the text. An offset past the end of the text is that of its end.
pub fn place_in(text: &str, offset: usize) -> TextPlace
    ensures line { result.line ≡ line_number text.now (min offset (length text.now)) }
    ensures column { result.column ≡ column text.now (min offset (length text.now)) }
    ensures start { result.start ≡ line_start text.now (min offset (length text.now)) }
    ensures end { result.end ≡ result.start + length (line_of text.now (min offset (length text.now))) }
{
    let bytes = text.as_bytes();
    let at = offset.min(bytes.len());
    let (ended, start) = lines_before(bytes, at);
    let length = line_length(&bytes[start..]);
    let front = (at - start).min(length);
    TextPlace {
        line: ended + 1,
        column: characters(&bytes[start..start + front]) + 1,
        start,
        end: start + length,
    }
}
