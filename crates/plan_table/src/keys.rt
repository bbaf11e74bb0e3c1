//! Response keys of rows, and names of their fields.

ghost use Rattle.std.specs.Prelude.{◌≡◌, IfOk};

use gql_base::Text;
use std::alloc::{AllocError, Global};
use std::marker::Model;
use std::sync::Arc;

/// How long keys and names are, in bytes, whose text each row has for itself. Rows share a longer one.
pub const SHORT_KEY: usize = 64;

/// The text of a key.
#[derive(Drop)]
enum Held {
    Own(Text),
    Common(Arc<Text>),
}

/// The response key of a row, or the name of its field. Contracts see it as the list of its bytes.
#[derive(Drop)]
pub struct RowKey {
    held: Held,
}

impl Model for RowKey {
    ghost use Rattle.std.specs.Prelude.{ℕ, List};
    ghost use Rattle.plan_table.specs.RowKeys.{text_held};

    ghost Value = { List ℕ };

    ghost view = { λ key. text_held key.held };
}

impl RowKey {
    /// A key of this text. It fails for want of memory alone.
    pub fn copy_of(alloc: Global, text: &str) -> Result<RowKey, AllocError>
        ensures { IfOk result (λ key. key ≡ text.now) }
    {
        let own = Text::copy_of(alloc, text)?;
        if text.len() <= SHORT_KEY {
            return Ok(RowKey {
                held: Held::Own(own),
            });
        }
        Ok(RowKey {
            held: Held::Common(Arc::new(alloc, own)?),
        })
    }

    /// The same key for another row. It fails for want of memory alone.
    pub fn again(&self, alloc: Global) -> Result<RowKey, AllocError>
        ensures { IfOk result (λ key. key ≡ self.now) }
    {
        match &self.held {
            Held::Own(text) => RowKey::copy_of(alloc, text.as_str()),
            Held::Common(text) => Ok(RowKey {
                held: Held::Common(Arc::try_clone(text)?),
            }),
        }
    }

    /// This key as a `&str`.
    pub fn as_str(&self) -> &str
        ensures { result.now ≡ self.now }
    {
        match &self.held {
            Held::Own(text) => text.as_str(),
            Held::Common(text) => text.as_str(),
        }
    }
}
