//! The characters that tokens are told by.

ghost use Rattle.std.specs.Prelude.{◌≡◌, ◌<◌};
ghost use Rattle.std.specs.Bool.{OnTrue};
ghost use Rattle.gql_base.specs.lexical.Characters.{is_name_start, is_name_continue, is_blank, is_comment_byte, is_line_end, is_block_byte, is_hex, hex_value};

/// Whether a name may begin with this byte: a letter or `_`.
pub fn is_name_start(byte: u8) -> bool
    ensures { result ≡ is_name_start byte }
{
    byte.is_ascii_alphabetic() || byte == b'_'
}

/// Whether a name may go on with this byte: a letter, `_` or a digit.
pub fn is_name_continue(byte: u8) -> bool
    ensures { result ≡ is_name_continue byte }
{
    is_name_start(byte) || byte.is_ascii_digit()
}

/// Whether this byte is ignored by itself: a tab, a line end, a space or a comma.
pub fn is_blank(byte: u8) -> bool
    ensures { result ≡ is_blank byte }
{
    byte == b'\t' || byte == b'\n' || byte == b'\r' || byte == b' ' || byte == b','
}

/// Whether a comment or a string may hold this byte: a tab, or a byte of a character from U+0020 on.
pub fn is_comment_byte(byte: u8) -> bool
    ensures { result ≡ is_comment_byte byte }
{
    byte == b'\t' || byte >= b' '
}

/// Whether this byte is a line feed or a carriage return.
pub fn is_line_end(byte: u8) -> bool
    ensures { result ≡ is_line_end byte }
{
    byte == b'\n' || byte == b'\r'
}

/// Whether a block string may hold this byte: what a string may hold, and line ends.
pub fn is_block_byte(byte: u8) -> bool
    ensures { result ≡ is_block_byte byte }
{
    is_comment_byte(byte) || is_line_end(byte)
}

/// The value of a hexadecimal digit, and 16 for any other byte.
pub fn hex_value(byte: u8) -> u32
    ensures { result ≡ hex_value byte }
{
    if b'0' <= byte && byte <= b'9' {
        (byte - b'0') as u32
    } else if b'A' <= byte && byte <= b'F' {
        (byte - 55) as u32
    } else if b'a' <= byte && byte <= b'f' {
        (byte - 87) as u32
    } else {
        16
    }
}

/// Whether this byte is a hexadecimal digit.
pub fn is_hex(byte: u8) -> bool
    ensures test { result ≡ is_hex byte }
    ensures small { OnTrue result (hex_value byte < 16) }
{
    hex_value(byte) < 16
}
