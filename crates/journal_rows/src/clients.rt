//! The clients of all rows.

ghost use Rattle.std.specs.Prelude.{◌≡◌, ◌<◌, ℕ, IfOk, length, get_or};
ghost use Rattle.account_core.specs.Costs.{cost};
ghost use Rattle.account_core.specs.Numbers.{FitsCap};
ghost use Rattle.account_journal.specs.Histories.{no_limit};

use account_core::Limit;
use cost_num::{CAP, Cost};
use std::alloc::{AllocError, Global};

/// Client 0 may spend 6.000 of each component in a window; client 1 may spend 2.000, and carries over what is left.
const LIMITS: [Limit; 2] = [
    Limit {
        allowance: Cost {
            types: 6_000_000,
            fields: 6_000_000,
        },
        carry: false,
    },
    Limit {
        allowance: Cost {
            types: 2_000_000,
            fields: 2_000_000,
        },
        carry: true,
    },
];

/// Their limits.
pub(crate) fn limits(alloc: Global) -> Result<Vec<Limit>, AllocError>
    ensures { IfOk result (λ limits. (k : ℕ) → k < length limits.items → FitsCap (cost CAP CAP) (get_or limits.items k no_limit)) }
{
    Vec::from_slice(alloc, &LIMITS)
}
