//! Laws of journals, each a function that does nothing.

ghost use Rattle.std.specs.Prelude.{◌≡◌, ◌<◌, ◌⊎◌, ◌++◌, ◌∷◌, ℕ, List, length, get_or, [], Some};
ghost use Rattle.cost_num.specs.Within.{Within};
ghost use Rattle.account_core.specs.declared.Limit as limit_type;
ghost use Rattle.cost_num.specs.declared.Cost as cost_type;
ghost use Rattle.account_journal.specs.declared.journal.Journal as journal_type;
ghost use Rattle.account_journal.specs.declared.journal.KeptTicket as ticket_type;
ghost use Rattle.account_core.specs.Machine.{Entry};
ghost use Rattle.account_core.specs.Costs.{nothing};
ghost use Rattle.account_core.specs.History.{entries_by};
ghost use Rattle.account_core.specs.Sums.{open_grants, KeepsAllowance};
ghost use Rattle.account_journal.specs.Records.{Record, record_of, spelling_of};
ghost use Rattle.account_journal.specs.Journals.{Follows, IsOpenIn, MaySettle, account_in, limit_in};
ghost use Rattle.account_journal.specs.Reading.{IsIntact, IsDamaged, HasOtherMark};
ghost use Rattle.account_journal.specs.Recovery.{FollowsPartly, FollowsSettled};
ghost use Rattle.account_journal.specs.Reopening.{OpensAfterCall, OpensAfterOpening};

use journal_disk::Disk;

/// Slots are intact, or damaged first in one slot, or of other clients, and no two of these. So a refusal of a journal that is
/// told has one reason.
pub fn refusals_exclude_each_other()
    ensures intact_damaged { (limits : List limit_type.Limit) (mark : List ℕ) (slots : List (List ℕ)) (n : ℕ)
        → IsIntact limits mark slots → IsDamaged limits mark slots n → ⊥ }
    ensures intact_other { (limits : List limit_type.Limit) (mark : List ℕ) (slots : List (List ℕ))
        → IsIntact limits mark slots → HasOtherMark mark slots → ⊥ }
    ensures damaged_other { (limits : List limit_type.Limit) (mark : List ℕ) (slots : List (List ℕ)) (n : ℕ)
        → IsDamaged limits mark slots n → HasOtherMark mark slots → ⊥ }
    ensures damaged_once { (limits : List limit_type.Limit) (mark : List ℕ) (slots : List (List ℕ)) (n m : ℕ)
        → IsDamaged limits mark slots n → IsDamaged limits mark slots m → n ≡ m }
{}

/// Whatever entries a journal follows, each client's keep its allowance; and where they leave nothing open, no account holds anything.
pub fn keeps_allowances<D: Disk>()
    ensures keeps { (j : journal_type.Journal D) (hs : List Entry) (client : ℕ) → Follows j hs → client < length j.limits.items
        → KeepsAllowance (limit_in j client) (entries_by client hs) }
    ensures idle { (j : journal_type.Journal D) (hs : List Entry) (client : ℕ) → Follows j hs → client < length j.limits.items
        → open_grants hs ≡ [] → (account_in j client).held ≡ nothing }
{}

/// A ticket whose grant is open in entries that a journal follows may be settled at any cost within its bound.
pub fn open_tickets_may_be_settled<D: Disk>()
    ensures { (j : journal_type.Journal D) (hs : List Entry) (ticket : ticket_type.KeptTicket) (measured : cost_type.Cost)
        → IsOpenIn j hs ticket → Within ticket.bound measured → MaySettle j ticket measured }
{}

/// What was acknowledged outlives a crash: a journal that is opened on what a crash amid a call left follows the entries from before the
/// call, or those and the call's, and then a settlement at its bound of each grant that they leave open. A crash amid an opening leaves
/// what the disk had before its sync; or what is opened then follows the file's history and some first ones of its settlements, and the rest of them.
pub fn opens_after_a_crash<D: Disk>()
    ensures call { (j : journal_type.Journal D) (hs : List Entry) (e : Entry) (now : D) (left : List ℕ) (opened : journal_type.Journal D)
        → OpensAfterCall D.reads D.image D.moment D.image_since j hs e now left opened
        → FollowsSettled opened left hs ⊎ FollowsSettled opened left (hs ++ e ∷ []) }
    ensures opening { (old : D) (file : List ℕ) (now : D) (left : List ℕ) (opened : journal_type.Journal D)
        → OpensAfterOpening D.reads D.image D.moment D.image_since old file now left opened
        → D.image old left ⊎ FollowsPartly opened file left }
{}

/// A body that reads as a record is spelled just as that record is written.
pub fn reads_what_is_spelled()
    ensures { (body : List ℕ) → length body ≡ 63 → ((i : ℕ) → get_or body i 0 < 256)
        → (r : Record) → record_of body ≡ Some r → body ≡ spelling_of r }
{}
