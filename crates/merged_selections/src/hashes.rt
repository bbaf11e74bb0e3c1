//! Hashes of what is looked for among the calls that were made. They say where to look, and nothing rests on them.

use collected_fields::Collected;
use schema_model::FieldId;
use std::hash::{FoldHasher, Hasher};

/// The hash of a field that is written so.
pub(crate) fn hash_of(of: FieldId, field: &Collected<'_>) -> u64 {
    let mut hasher = FoldHasher::default();
    hasher.write_usize(of.number);
    hasher.write_u64(field.written);
    hasher.finish()
}
