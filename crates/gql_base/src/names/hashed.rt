//! A list that is kept with the hashes of its names.

ghost use Rattle.std.specs.Prelude.{◌≡◌, ◌<◌, length, option_copied, IfOk, IfSome};
ghost use Rattle.std.specs.HashMap.{get_by_text};
ghost use Rattle.gql_base.specs.names.Names.{first_of_name, has_name, place_of_name};
ghost use Rattle.gql_base.specs.names.Indexes.{FindsFrom};

use crate::names::named::Named;
use std::alloc::{AllocError, Global};
use std::collections::HashMap;

/// A list of things of its own, found by the hashes of their names. The hashes have a fixed seed, so it is for names that whoever asks
/// didn't choose, as those of a schema; `Indexed` finds others by a tree.
#[derive(Drop)]
pub struct Hashed<T: Named + Drop> {
    items: Vec<T>,
    /// The place of the first of each name.
    firsts: HashMap<String, usize>,
    ghost finds: { FindsFrom 0 (get_by_text firsts) T.name_of items.items },
}

impl<T: Named + Drop> Hashed<T> {
    /// The things of the list, in their order.
    pub fn items(&self) -> &[T]
        ensures { result.now ≡ self.now.items.items }
    {
        &self.items
    }

    /// The things of the list without their index.
    pub fn into_items(self) -> Vec<T>
        ensures { result.items ≡ self.items.items }
    {
        self.items
    }

    /// The place of the first of this name.
    pub fn position(&self, name: &str) -> Option<usize>
        ensures place { result ≡ place_of_name T.name_of self.now.items.items name.now }
        ensures within { IfSome result (λ at. at < length self.now.items.items) }
    {
        self.firsts.get(name).copied()
    }

    /// The first of this name.
    pub fn first_named(&self, name: &str) -> Option<&T>
        ensures { option_copied result ≡ first_of_name T.name_of self.now.items.items name.now }
    {
        match self.position(name) {
            Some(at) => self.items.get(at),
            None => None,
        }
    }

    /// Whether something has this name.
    pub fn has(&self, name: &str) -> bool
        ensures { result ≡ has_name T.name_of self.now.items.items name.now }
    {
        self.position(name).is_some()
    }
}

/// The list with the hashes of its names. It fails for want of memory alone. The list is gone through from its end, so
/// that the first of a name is what stays.
pub fn hashed_by_name<T: Named + Drop>(
    alloc: Global,
    items: Vec<T>,
) -> Result<Hashed<T>, AllocError>
    ensures { IfOk result (λ index. index.items.items ≡ items.items) }
{
    let mut firsts = HashMap::new(alloc);
    for at in (0..items.len()).rev() {
        let name = items[at].name().to_string(alloc)?;
        firsts.insert(name, at)?;
    }
    Ok(Hashed { items, firsts })
}
