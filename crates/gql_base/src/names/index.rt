//! Finding things by their names, and whether no name stands twice.

ghost use Rattle.std.specs.Prelude.{◌≡◌, ◌<◌, length, map, option_copied, IfOk, IfSome};
ghost use Rattle.gql_base.specs.names.Names.{are_distinct, first_of_name, has_name, place_of_name};
ghost use Rattle.gql_base.specs.names.Indexes.{at_name, FindsFrom};

use crate::names::named::Named;
use std::alloc::{AllocError, Global};
use std::collections::BTreeMap;

/// A list of things, found by their names.
#[derive(Drop)]
pub struct NameIndex<'a, T: Named> {
    items: &'a [T],
    /// The place of the first of each name.
    firsts: BTreeMap<&'a str, usize>,
    /// Whether no name stands twice.
    distinct: bool,
    ghost finds: { FindsFrom 0 (at_name firsts) T.name_of items.now },
    ghost tells: { distinct ≡ are_distinct (map T.name_of items.now) },
}

impl<'a, T: Named> NameIndex<'a, T> {
    /// The things of the list, in their order.
    pub fn items(&self) -> &'a [T]
        ensures { result.now ≡ self.now.items.now }
    {
        self.items
    }

    /// The place of the first of this name, in the time of a search in a tree.
    pub fn position(&self, name: &str) -> Option<usize>
        ensures place { result ≡ place_of_name T.name_of self.now.items.now name.now }
        ensures within { IfSome result (λ at. at < length self.now.items.now) }
    {
        self.firsts.get(name).copied()
    }

    /// The first of this name.
    pub fn first_named(&self, name: &str) -> Option<&'a T>
        ensures { option_copied result ≡ first_of_name T.name_of self.now.items.now name.now }
    {
        match self.position(name) {
            Some(at) => self.items.get(at),
            None => None,
        }
    }

    /// Whether something has this name.
    pub fn has(&self, name: &str) -> bool
        ensures { result ≡ has_name T.name_of self.now.items.now name.now }
    {
        self.position(name).is_some()
    }

    /// Whether no name stands twice.
    pub fn are_distinct(&self) -> bool
        ensures { result ≡ are_distinct (map T.name_of self.now.items.now) }
    {
        self.distinct
    }
}

/// The index of a list by its names. It fails for want of memory alone. The list is gone through from its end: the
/// first of a name is what stays, and where it takes the place of a later one the name stands twice.
pub fn index_of<'a, T: Named>(alloc: Global, items: &'a [T]) -> Result<NameIndex<'a, T>, AllocError>
    ensures { IfOk result (λ index. index.items.now ≡ items.now) }
{
    let mut firsts = BTreeMap::new(alloc);
    let mut distinct = true;
    for at in (0..items.len()).rev() {
        let later = firsts.insert(items[at].name(), at)?;
        distinct &= later.is_none();
    }
    Ok(NameIndex {
        items,
        firsts,
        distinct,
    })
}
