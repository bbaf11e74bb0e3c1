//! The response keys of a plan that is being built, and the names of its fields: rows share long ones.

ghost use Rattle.std.specs.Prelude.{◌≡◌, IfOk, IfSome};

use plan_table::{RowKey, SHORT_KEY};
use std::alloc::{AllocError, Global};
use std::collections::BTreeMap;

/// The long keys of rows that were made, by their texts.
#[derive(Drop)]
pub struct Keys<'a> {
    long: BTreeMap<&'a str, RowKey>,
}

impl<'a> Keys<'a> {
    /// None.
    pub(crate) fn new(alloc: Global) -> Keys<'a> {
        Keys {
            long: BTreeMap::new(alloc),
        }
    }

    /// The key of this text, if it is known.
    fn known(&self, text: &str) -> Option<&RowKey>
        ensures { IfSome result (λ key. key.now ≡ text.now) }
    {
        match self.long.get(text) {
            Some(key) => {
                if key.as_str() == text {
                    Some(key)
                } else {
                    None
                }
            }
            None => None,
        }
    }

    /// A row's key of this text, which is long. One that is known is shared.
    fn long_key(&mut self, alloc: Global, text: &'a str) -> Result<RowKey, AllocError>
        ensures { IfOk result (λ key. key ≡ text.now) }
    {
        match self.known(text) {
            Some(key) => key.again(alloc),
            None => {
                let key = RowKey::copy_of(alloc, text)?;
                self.long.insert(text, key.again(alloc)?)?;
                Ok(key)
            }
        }
    }

    /// A row's key of this text.
    pub fn row_key(&mut self, alloc: Global, text: &'a str) -> Result<RowKey, AllocError>
        ensures { IfOk result (λ key. key ≡ text.now) }
    {
        if text.len() <= SHORT_KEY {
            RowKey::copy_of(alloc, text)
        } else {
            self.long_key(alloc, text)
        }
    }
}
