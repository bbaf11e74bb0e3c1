//! Why a reply is not measured.

ghost use Rattle.std.specs.Prelude.{◌≡◌, ◌++◌, [], Option, Some, IfOk};
ghost use Rattle.response_meter.specs.Faults.{Fault, not_response as refused, size_broken as broken, Tells, at_step, key_step, item_step, why_name};

use gql_base::Text;
use std::alloc::{AllocError, Global};
use std::fmt;
use thiserror::Error;

/// The test that a reply does not pass, by its number.
#[derive(Clone, Copy, Debug, PartialEq, Eq, Error)]
pub enum Why {
    /// The bytes are not JSON.
    #[error("the bytes are not JSON")]
    NotJson = 1,
    /// The JSON value is not an object.
    #[error("the JSON value is not an object")]
    NotObject = 2,
    /// There is neither data nor an error.
    #[error("there is neither data nor an error")]
    NoData = 3,
    /// The errors are not a list of errors (GraphQL October 2021, 7.1.2).
    #[error("the errors are not a list of errors")]
    BadErrors = 4,
    /// An object lacks the entry of a selected field.
    #[error("the entry of a selected field is missing")]
    MissingKey = 5,
    /// An object has an entry that was not selected.
    #[error("there is an entry that was not selected")]
    ExtraKey = 6,
    /// A null stands where the type is non-null.
    #[error("a null stands where the type is non-null")]
    NullHere = 7,
    /// A list is due, and another value stands there.
    #[error("a list is due")]
    NotList = 8,
    /// A leaf is due, and the value is none of its type.
    #[error("the value is none of its type")]
    BadLeaf = 9,
    /// An object does not say by its type name which possible type it is of.
    #[error("the object does not name a possible type")]
    BadType = 10,
    /// An object is due, and another value stands there.
    #[error("an object is due")]
    BadObject = 11,
}

/// The name of a test that a reply does not pass.
pub fn why_name(why: Why) -> &'static str
    ensures { result.now ≡ why_name why }
{
    match why {
        Why::NotJson => "NotJson",
        Why::NotObject => "NotObject",
        Why::NoData => "NoData",
        Why::BadErrors => "BadErrors",
        Why::MissingKey => "MissingKey",
        Why::ExtraKey => "ExtraKey",
        Why::NullHere => "NullHere",
        Why::NotList => "NotList",
        Why::BadLeaf => "BadLeaf",
        Why::BadType => "BadType",
        Why::BadObject => "BadObject",
    }
}

/// Why a reply is not measured.
///
/// A path begins with `data`, and has for each step down a full stop and a response key, or a full stop
/// and an item's number from 0.
#[derive(Drop, Error)]
pub enum MeterFault {
    /// The reply is no response to the operation (1).
    #[error("at {path}: {why}", path = .path.as_str())]
    NotResponse { path: Text, why: Why },
    /// A list has more items than its declared size (2).
    #[error("at {path}: {length} items, where at most {size} are declared", path = .path.as_str())]
    SizeBroken { path: Text, size: u64, length: u64 },
    /// There was not enough memory (3).
    #[error("there was not enough memory")]
    Memory,
}

/// Prints the sentence of the fault, whose path is a text.
impl fmt::Debug for MeterFault {
    fn fmt<W: fmt::Write>(&self, f: &mut fmt::Formatter<W>) -> fmt::Result {
        fmt::Display::fmt(self, f)
    }
}

impl From<AllocError> for MeterFault {
    ghost use Rattle.std.specs.Prelude.{◌≡◌};
    ghost use Rattle.response_meter.specs.declared.fault.MeterFault.TheVariants.{Memory};

    ghost from_gives = { λ _ fault. fault ≡ Memory };

    fn from(_error: AllocError) -> MeterFault {
        MeterFault::Memory
    }
}

/// The fault that a test finds at the place itself.
pub(crate) fn not_response(alloc: Global, why: Why) -> MeterFault
    ensures { Tells result (Some (refused [] why)) }
{
    match Text::copy_of(alloc, "") {
        Ok(path) => MeterFault::NotResponse { path, why },
        Err(_) => MeterFault::Memory,
    }
}

/// The fault of a list at the place itself that has more items than its declared size.
pub(crate) fn size_broken(alloc: Global, size: u64, length: u64) -> MeterFault
    ensures { Tells result (Some (broken [] size length)) }
{
    match Text::copy_of(alloc, "") {
        Ok(path) => MeterFault::SizeBroken { path, size, length },
        Err(_) => MeterFault::Memory,
    }
}

/// The path with a step before it.
fn stepped(alloc: Global, step: &str, path: &Text) -> Result<Text, AllocError>
    ensures { IfOk result (λ text. text ≡ step.now ++ path.now) }
{
    let mut whole = String::from_str(alloc, step)?;
    whole.push_str(path.as_str())?;
    Ok(Text::from(whole))
}

impl MeterFault {
    /// The same fault with a step before its path.
    pub(crate) fn after(self, alloc: Global, step: &str) -> MeterFault
        ensures { (fault : Option Fault) → Tells self fault → Tells result (at_step step.now fault) }
    {
        match self {
            MeterFault::NotResponse { path, why } => match stepped(alloc, step, &path) {
                Ok(path) => MeterFault::NotResponse { path, why },
                Err(_) => MeterFault::Memory,
            },
            MeterFault::SizeBroken { path, size, length } => match stepped(alloc, step, &path) {
                Ok(path) => MeterFault::SizeBroken { path, size, length },
                Err(_) => MeterFault::Memory,
            },
            MeterFault::Memory => MeterFault::Memory,
        }
    }

    /// The same fault, seen from the object that has it under this key.
    pub(crate) fn at_key(self, alloc: Global, key: &str) -> MeterFault
        ensures { (fault : Option Fault) → Tells self fault → Tells result (at_step (key_step key.now) fault) }
    {
        match format!(in alloc; ".{key}") {
            Ok(step) => self.after(alloc, step.as_str()),
            Err(_) => MeterFault::Memory,
        }
    }

    /// The same fault, seen from the list that has it at this item.
    pub(crate) fn at_item(self, alloc: Global, index: usize) -> MeterFault
        ensures { (fault : Option Fault) → Tells self fault → Tells result (at_step (item_step index) fault) }
    {
        match format!(in alloc; ".{index}") {
            Ok(step) => self.after(alloc, step.as_str()),
            Err(_) => MeterFault::Memory,
        }
    }
}
