//! The size of a list by its source.

ghost use Rattle.std.specs.Prelude.{◌≡◌};
ghost use Rattle.plan_table.specs.ListSizes.{size_from};

use cost_directives::SizeSource;

/// How many items a list has by the source of its declared size; none where it is no list, or may have any length.
pub fn size_from(source: Option<SizeSource>) -> Option<u64>
    ensures { result ≡ size_from source }
{
    match source {
        None => None,
        Some(SizeSource::Handed(size)) => Some(size),
        Some(SizeSource::Sliced(_, value)) => Some(u64::from(value.unsigned_abs())),
        Some(SizeSource::Assumed(value)) => Some(u64::from(value.unsigned_abs())),
        Some(SizeSource::Free) => None,
        Some(SizeSource::Undeclared(size)) => Some(u64::from(size)),
    }
}
