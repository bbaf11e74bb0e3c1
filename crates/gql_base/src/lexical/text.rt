//! A text, seen by contracts as the list of its UTF-8 bytes.

ghost use Rattle.std.specs.Prelude.{◌≡◌, IfOk, IfErr, OnOk, OnErr, IsUtf8, string_bytes};

use std::alloc::{AllocError, Global};
use std::fmt;
use std::marker::Model;

/// A UTF-8 text. Contracts see it as the list of its bytes.
#[derive(Drop)]
pub struct Text {
    inner: String,
}

impl Model for Text {
    ghost use Rattle.std.specs.Prelude.{ℕ, List, string_bytes};

    ghost Value = { List ℕ };

    ghost view = { λ text. string_bytes text.inner };
}

/// Prints the text between quotation marks, as it prints a `String`.
impl fmt::Debug for Text {
    fn fmt<W: fmt::Write>(&self, f: &mut fmt::Formatter<W>) -> fmt::Result {
        fmt::Debug::fmt(&self.inner, f)
    }
}

/// Prints the text as it is.
impl fmt::Display for Text {
    ghost use Rattle.std.specs.Prelude.{Some};
    ghost use Rattle.std.specs.Fmt.{styled_text};

    ghost output = { λ text. Some text };

    ghost styled_output = { λ text spec. Some (styled_text spec text) };

    fn fmt<W: fmt::Write>(&self, f: &mut fmt::Formatter<W>) -> fmt::Result {
        fmt::Display::fmt(&self.inner, f)
    }
}

impl Text {
    /// A copy of `text`. It fails for want of memory alone.
    pub fn copy_of(alloc: Global, text: &str) -> Result<Text, AllocError>
        ensures { IfOk result (λ copy. copy ≡ text.now) }
    {
        Ok(Text {
            inner: text.to_string(alloc)?,
        })
    }

    /// The text that `bytes` are, or the bytes again where they are not UTF-8. It takes no memory.
    pub fn from_utf8(bytes: Vec<u8>) -> Result<Text, Vec<u8>>
        ensures text { IfOk result (λ text. text ≡ bytes.items) }
        ensures utf8 { OnOk result (IsUtf8 bytes.items) }
        ensures same { IfErr result (λ same. same ≡ bytes) }
        ensures refused { OnErr result (¬ IsUtf8 bytes.items) }
    {
        match String::from_utf8(bytes) {
            Ok(inner) => Ok(Text { inner }),
            Err(error) => Err(error.into_bytes()),
        }
    }

    /// The bytes of this text, without taking memory.
    pub fn into_bytes(self) -> Vec<u8>
        ensures { result.items ≡ self }
    {
        self.inner.into_bytes()
    }

    /// The string that this text holds, without taking memory.
    pub fn into_string(self) -> String
        ensures { string_bytes result ≡ self }
    {
        self.inner
    }

    /// This text as a `&str`.
    pub fn as_str(&self) -> &str
        ensures { result.now ≡ self.now }
    {
        self.inner.as_str()
    }

    /// The bytes of this text.
    pub fn as_bytes(&self) -> &[u8]
        ensures { result.now ≡ self.now }
    {
        self.inner.as_bytes()
    }
}

impl From<String> for Text {
    ghost use Rattle.std.specs.Prelude.{string_bytes};

    ghost from_gives = { λ string text. text ≡ string_bytes string };

    fn from(inner: String) -> Text {
        Text { inner }
    }
}

impl PartialEq for Text {
    ghost use Rattle.std.specs.Prelude.{nat_eq};
    ghost use Rattle.std.specs.Cmp.Lexicographic.{pointwise};
    ghost use Rattle.std.proofs.Common.{rules};
    ghost use Rattle.std.specs.Cmp.Rules.{comparing};

    ghost eq = { pointwise nat_eq };

    ghost laws = { Prim.search (comparing, rules) };

    fn eq(&self, other: &Text) -> bool {
        self.as_str() == other.as_str()
    }
}
