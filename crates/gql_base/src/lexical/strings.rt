//! Strings and block strings as they are written.

ghost use Rattle.std.specs.Prelude.{◌≡◌, ℕ, ◌+◌, ◌<◌, ◌≤◌, false, ◌==◌, ◌&&◌, not, length, take, drop, get_or, IfSome};
ghost use Rattle.std.specs.Prelude.{◌⊎◌};
ghost use Rattle.std.specs.List.{prefix_len};
ghost use Rattle.std.specs.Option.{IsSome};
ghost use Rattle.std.specs.Bool.{OnTrue};
ghost use Rattle.gql_base.specs.lexical.Characters.{is_comment_byte, is_line_end, is_block_byte};
ghost use Rattle.gql_base.specs.lexical.Fronts.{IsWithin, mark_size};
ghost use Rattle.gql_base.specs.lexical.Strings.{begins_with_marks, letter_escape, is_leading, is_trailing, joined};
ghost use Rattle.gql_base.specs.lexical.Scans.{closed_at, block_closed_at, letter_at, four_digits, code_unit, pair_with, code_escape, escape_at, byte_step, step_with, text_step, text_fault_at, text_fault, block_fault, closing_of, fault_before};

use crate::lexical::characters::{hex_value, is_block_byte, is_comment_byte, is_hex, is_line_end};
use crate::lexical::lexing::LexFault;

/// An escape at the front of a text: how many bytes it has, and the character that it stands for.
#[derive(Clone, Copy)]
pub struct Escape {
    pub length: usize,
    pub character: u32,
}

/// What follows so many bytes.
pub fn after(bytes: &[u8], count: usize) -> &[u8]
    ensures { result.now ≡ drop count bytes.now }
{
    if count <= bytes.len() {
        &bytes[count..]
    } else {
        &[]
    }
}

/// Whether three marks stand at the front.
pub fn begins_with_marks(bytes: &[u8]) -> bool
    ensures test { result ≡ begins_with_marks bytes.now }
    ensures within { OnTrue result (3 ≤ length bytes.now) }
{
    match bytes {
        [first, second, third, ..] => *first == b'"' && *second == b'"' && *third == b'"',
        _ => false,
    }
}

/// Whether a byte is this one, and isn't escaped.
fn is_unescaped(wanted: u8, byte: u8, escaped: bool) -> bool
    ensures { result ≡ ((byte == wanted) && not escaped) }
{
    byte == wanted && !escaped
}

/// The place of the mark that closes the string at the front.
fn string_closing(bytes: &[u8]) -> Option<usize>
    ensures place { result ≡ closed_at false 1 (drop 1 bytes.now) }
    ensures within { IfSome result (λ at. at < length bytes.now) }
{
    let mut at = 1;
    let mut escaped = false;
    while at < bytes.len() {
        let byte = bytes[at];
        if is_unescaped(b'"', byte, escaped) {
            return Some(at);
        }
        if is_line_end(byte) {
            return None;
        }
        escaped = is_unescaped(b'\\', byte, escaped);
        at += 1;
    }
    None
}

/// Whether `\` and three marks stand at a place.
pub fn escapes_marks(bytes: &[u8], at: usize) -> bool
    requires { at < length bytes.now }
    ensures test { result ≡ ((get_or bytes.now at 0 == 92) && begins_with_marks (drop (at + 1) bytes.now)) }
    ensures within { OnTrue result (at + 4 ≤ length bytes.now) }
{
    bytes[at] == b'\\' && begins_with_marks(after(bytes, at + 1))
}

/// The place of the marks that close the block string at the front.
fn block_closing(bytes: &[u8]) -> Option<usize>
    ensures place { result ≡ block_closed_at 0 3 (drop 3 bytes.now) }
    ensures within { IfSome result (λ at. at + 3 ≤ length bytes.now) }
{
    let mut at = 3;
    while at < bytes.len() {
        if begins_with_marks(after(bytes, at)) {
            return Some(at);
        }
        if escapes_marks(bytes, at) {
            at += 4;
        } else {
            at += 1;
        }
    }
    None
}

/// The place of the mark or the marks that close the string or block string at the front.
pub fn closing_of(bytes: &[u8]) -> Option<usize>
    ensures place { result ≡ closing_of bytes.now }
    ensures within { IfSome result (λ at. at + mark_size bytes.now ≤ length bytes.now) }
{
    if begins_with_marks(bytes) {
        block_closing(bytes)
    } else {
        string_closing(bytes)
    }
}

/// The character that `\` and this letter stand for.
fn letter_escape(letter: u8) -> Option<u32>
    ensures { result ≡ letter_escape letter }
{
    match letter {
        b'"' => Some(34),
        b'\\' => Some(92),
        b'/' => Some(47),
        b'b' => Some(8),
        b'f' => Some(12),
        b'n' => Some(10),
        b'r' => Some(13),
        b't' => Some(9),
        _ => None,
    }
}

/// The character that `\` and a letter at the front stand for.
fn letter_at(bytes: &[u8]) -> Option<u32>
    ensures character { result ≡ letter_at bytes.now }
    ensures within { IfSome result (λ c. 2 ≤ length bytes.now) }
{
    match bytes {
        [first, letter, ..] => {
            if *first == b'\\' {
                letter_escape(*letter)
            } else {
                None
            }
        }
        _ => None,
    }
}

/// The number that four hexadecimal digits at the front are.
fn four_digits(bytes: &[u8]) -> Option<u32>
    ensures value { result ≡ four_digits bytes.now }
    ensures within { IfSome result (λ n. (n < 65536) × (4 ≤ length bytes.now)) }
{
    match bytes {
        [a, b, c, d, ..] => {
            if is_hex(*a) && is_hex(*b) && is_hex(*c) && is_hex(*d) {
                let high = hex_value(*a) * 4096 + hex_value(*b) * 256;
                let low = hex_value(*c) * 16;
                Some(high + low + hex_value(*d))
            } else {
                None
            }
        }
        _ => None,
    }
}

/// The number of `\u` and four hexadecimal digits at the front.
fn code_unit(bytes: &[u8]) -> Option<u32>
    ensures value { result ≡ code_unit bytes.now }
    ensures within { IfSome result (λ n. (n < 65536) × (6 ≤ length bytes.now)) }
{
    match bytes {
        [first, second, rest @ ..] => {
            if *first == b'\\' && *second == b'u' {
                four_digits(rest)
            } else {
                None
            }
        }
        _ => None,
    }
}

/// Whether a number is the first of a surrogate pair.
fn is_leading(number: u32) -> bool
    ensures { result ≡ is_leading number }
{
    0xd800 <= number && number <= 0xdbff
}

/// Whether a number is the second of a surrogate pair.
fn is_trailing(number: u32) -> bool
    ensures { result ≡ is_trailing number }
{
    0xdc00 <= number && number <= 0xdfff
}

/// The one character of a surrogate pair.
fn joined(leading: u32, trailing: u32) -> u32
    requires leading_is_unit { leading < 65536 }
    requires trailing_is_unit { trailing < 65536 }
    ensures { result ≡ joined leading trailing }
{
    let high = leading.saturating_sub(0xd800) * 1024;
    let low = trailing.saturating_sub(0xdc00);
    0x10000 + (high + low)
}

/// The escape of a surrogate pair that begins with this number, and goes on with the next one.
fn pair_with(leading: u32, next: Option<u32>) -> Option<Escape>
    requires leading_is_unit { leading < 65536 }
    requires next_is_unit { IfSome next (λ n. n < 65536) }
    ensures escape { result ≡ pair_with leading next }
    ensures within { IfSome result (λ escape. (escape.length ≡ 12) × IsSome next) }
{
    match next {
        Some(trailing) => {
            if is_trailing(trailing) {
                Some(Escape {
                    length: 12,
                    character: joined(leading, trailing),
                })
            } else {
                None
            }
        }
        None => None,
    }
}

/// The escape that begins with a code unit, where one is there.
fn code_escape(unit: Option<u32>, next: Option<u32>) -> Option<Escape>
    requires is_unit { IfSome unit (λ n. n < 65536) }
    requires next_is_unit { IfSome next (λ n. n < 65536) }
    ensures escape { result ≡ code_escape unit next }
    ensures within { IfSome result (λ escape. (IsSome unit × (escape.length ≡ 6)) ⊎ ((escape.length ≡ 12) × IsSome next)) }
{
    let number = unit?;
    if is_leading(number) {
        pair_with(number, next)
    } else if is_trailing(number) {
        None
    } else {
        Some(Escape {
            length: 6,
            character: number,
        })
    }
}

/// The escape at the front, if one begins there.
#[tactic(auto, unfolding(crate::specs::lexical::Scans::escape_at))]
pub fn escape_at(bytes: &[u8]) -> Option<Escape>
    ensures escape { result ≡ escape_at bytes.now }
    ensures within { IfSome result (λ escape. (0 < escape.length) × (escape.length ≤ length bytes.now)) }
{
    match letter_at(bytes) {
        Some(character) => Some(Escape {
            length: 2,
            character,
        }),
        None => code_escape(code_unit(bytes), code_unit(after(bytes, 6))),
    }
}

/// Whether a string may hold this byte by itself.
fn is_plain(byte: u8) -> bool
    ensures { result ≡ (not (byte == 92) && is_comment_byte byte) }
{
    byte != b'\\' && is_comment_byte(byte)
}

/// 1 where a string may hold the first byte by itself, and 0 otherwise.
fn byte_step(bytes: &[u8]) -> usize
    ensures size { result ≡ byte_step bytes.now }
    ensures within { result ≤ length bytes.now }
{
    match bytes {
        [first, ..] => { if is_plain(*first) { 1 } else { 0 } }
        [] => 0,
    }
}

/// How many bytes the escape or the byte at the front has, 0 where it is a fault.
#[tactic(auto, unfolding(crate::specs::lexical::Scans::text_step))]
fn text_step(bytes: &[u8]) -> usize
    ensures size { result ≡ text_step bytes.now }
    ensures within { result ≤ length bytes.now }
{
    match escape_at(bytes) {
        Some(escape) => escape.length,
        None => byte_step(bytes),
    }
}

/// The fault at a byte that begins no escape.
fn text_fault_at(byte: u8, at: usize) -> LexFault
    ensures fault { result ≡ text_fault_at byte at }
    ensures within { IsWithin at result }
{
    if byte == b'\\' {
        LexFault::BadEscape { at }
    } else {
        LexFault::BadChar { at }
    }
}

/// The first fault in a string that begins with its opening mark, and ends before the closing one.
fn text_fault(bytes: &[u8]) -> Option<LexFault>
    ensures first { result ≡ text_fault 0 1 (drop 1 bytes.now) }
    ensures within { IfSome result (λ fault. IsWithin (length bytes.now) fault) }
{
    let mut at = 1;
    while at < bytes.len() {
        let size = text_step(after(bytes, at));
        if size == 0 {
            return Some(text_fault_at(bytes[at], at));
        }
        at += size;
    }
    None
}

/// The number of bytes at the front that a block string may hold.
fn block_length(bytes: &[u8]) -> usize
    ensures longest { result ≡ prefix_len is_block_byte bytes.now }
    ensures within { result ≤ length bytes.now }
{
    bytes
        .iter()
        .take_while(|byte| is_block_byte(**byte))
        .count()
}

/// The first fault in a block string that begins with its opening marks, and ends before the closing ones.
fn block_fault(bytes: &[u8]) -> Option<LexFault>
    ensures first { result ≡ block_fault 3 (drop 3 bytes.now) }
    ensures within { IfSome result (λ fault. IsWithin (length bytes.now) fault) }
{
    let body = after(bytes, 3);
    let good = block_length(body);
    if good < body.len() {
        Some(LexFault::BadChar { at: 3 + good })
    } else {
        None
    }
}

/// The first fault of the string or block string at the front, up to the place where it is closed.
pub fn fault_before(closing: usize, bytes: &[u8]) -> Option<LexFault>
    requires { closing ≤ length bytes.now }
    ensures first { result ≡ fault_before closing bytes.now }
    ensures within { IfSome result (λ fault. IsWithin (length bytes.now) fault) }
{
    if begins_with_marks(bytes) {
        block_fault(&bytes[..closing])
    } else {
        text_fault(&bytes[..closing])
    }
}
