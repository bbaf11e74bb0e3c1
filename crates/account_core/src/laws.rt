//! Laws of the budget machine. Each is what a function ensures that does nothing.

ghost use Rattle.std.specs.Prelude.{◌≡◌, ℕ, ◌≤◌, false, not, List, [], ◌∷◌, ◌++◌};
ghost use Rattle.std.specs.List.{filter};
ghost use Rattle.cost_num.specs.Within.{Within};
ghost use Rattle.cost_num.specs.declared.Cost.{Cost};
ghost use Rattle.account_core.specs.declared.Account.{Account};
ghost use Rattle.account_core.specs.declared.Limit.{Limit};
ghost use Rattle.account_core.specs.Machine.{Grant, State, Entry, is_grant, open_grant, account_of};
ghost use Rattle.account_core.specs.History.{state_from, state_after, AreSteps, entries_by, grants_by, NumbersBelow, NumbersRise, IsNext, IsLegal, without_refusals};
ghost use Rattle.account_core.specs.Sums.{is_settled, open_grants, opening_entry, settling_entry, HasGrant, spent_in, carried_in, KeepsAllowance};
ghost use Rattle.account_core.specs.Numbers.{StandsFor, FollowsHistory, StepsTo, KeepsLimit, reservation_entry, reserved_account, settled_account};

/// Never more than the allowance: at every moment of a legal history and in every window, the
/// settled costs and the bounds of the open grants are together at most what the window may take.
pub fn keeps_allowance()
    ensures { (limit : Limit) (history : List Entry) → IsLegal limit history → KeepsAllowance limit history }
{}

/// What the machine carries after a legal history is what the history carries into its window.
pub fn carries_by_history()
    ensures { (limit : Limit) (history : List Entry) → IsLegal limit history
        → (state_after limit history).carried ≡ carried_in limit (state_after limit history).window history }
{}

/// A legal history begins with nothing, goes on by each entry that comes next, and was legal at
/// every moment before.
pub fn grows_legally()
    ensures empty { (limit : Limit) → IsLegal limit [] }
    ensures next { (limit : Limit) (history : List Entry) (e : Entry) → IsLegal limit history → IsNext limit history e
        → IsLegal limit (history ++ e ∷ []) }
    ensures front { (limit : Limit) (history front rest : List Entry) → history ≡ front ++ rest → IsLegal limit history
        → IsLegal limit front }
{}

/// An account follows its history: where it stands for the state after a legal one, a step under a
/// number that is new to its caller makes a longer legal history, and the account after the step
/// stands for the state after that.
pub fn follows_its_history()
    ensures { (limit : Limit) (history : List Entry) (e : Entry) (account : Account) → IsLegal limit history
        → NumbersBelow e.number (entries_by e.caller history) → StepsTo limit (state_after limit history) e account
        → FollowsHistory limit (history ++ e ∷ []) account }
{}

/// Entries that are steps one after the other: two such runs make one where the second begins at the
/// state that the first leaves; the numbers of the last state stand for it where some stand for the
/// first; and from the state after a legal history, under numbers that rise, they make a longer one.
pub fn runs_on()
    ensures appends { (limit : Limit) (s : State) (these those : List Entry) → AreSteps limit s these
        → AreSteps limit (state_from limit s these) those → AreSteps limit s (these ++ those) }
    ensures stands { (limit : Limit) (s : State) (entries : List Entry) (account : Account) → StandsFor account s
        → AreSteps limit s entries → StandsFor (account_of (state_from limit s entries)) (state_from limit s entries) }
    ensures legal { (limit : Limit) (entries history : List Entry) → IsLegal limit history
        → AreSteps limit (state_after limit history) entries → NumbersRise history entries → IsLegal limit (history ++ entries) }
{}

/// A history may do without its refusals: it leads to the same state, leaves the same grants open and
/// has spent as much, and where it was legal it stays so.
pub fn does_without_refusals()
    ensures state { (limit : Limit) (history : List Entry) → state_after limit (without_refusals history) ≡ state_after limit history }
    ensures open_grants { (history : List Entry) → open_grants (without_refusals history) ≡ open_grants history }
    ensures spent { (window : ℕ) (history : List Entry) → spent_in window (without_refusals history) ≡ spent_in window history }
    ensures legal { (limit : Limit) (history : List Entry) → IsLegal limit history → IsLegal limit (without_refusals history) }
{}

/// After a legal history the machine lists just the grants that the history left open, and its seven
/// numbers stand for its state and keep to the allowance.
pub fn lists_open_grants()
    ensures listed { (limit : Limit) (history : List Entry) → IsLegal limit history
        → (state_after limit history).grants ≡ open_grants history }
    ensures stands { (limit : Limit) (history : List Entry) → IsLegal limit history
        → StandsFor (account_of (state_after limit history)) (state_after limit history) }
    ensures within { (limit : Limit) (history : List Entry) → IsLegal limit history
        → KeepsLimit limit (account_of (state_after limit history)) }
{}

/// A caller's open grants hang on its own entries alone.
pub fn keeps_callers_apart()
    ensures own { (caller : ℕ) (history : List Entry) → open_grants (entries_by caller history) ≡ grants_by caller (open_grants history) }
    // What the caller's own entries leave open under a number is what the machine has open there.
    ensures number { (limit : Limit) (history : List Entry) (caller number : ℕ) → IsLegal limit history
        → open_grant caller number (open_grants (entries_by caller history)) ≡ open_grant caller number (state_after limit history).grants }
    ensures none { (limit : Limit) (history : List Entry) → IsLegal limit history
        → ((caller : ℕ) → open_grants (entries_by caller history) ≡ []) → (state_after limit history).grants ≡ [] }
{}

/// An open grant can be settled: it isn't of a window to come, and in the account's window its bound
/// is part of what is held.
pub fn holds_open_grants()
    ensures { (account : Account) (s : State) (g : Grant) → StandsFor account s
        → HasGrant g s.grants
        → (g.window ≤ account.window) × (g.window ≡ account.window → Within account.held g.bound) }
{}

/// A call on an account's seven numbers is a step from each state that they stand for: a reservation
/// with the reply that the numbers give, and a settlement of a grant that is open there.
pub fn steps_on_numbers()
    ensures reserves { (limit : Limit) (bound : Cost) (account : Account) (s : State) (caller number window : ℕ)
        → StandsFor account s → KeepsLimit limit account
        → StepsTo limit s (reservation_entry limit account caller number window bound) (reserved_account limit account window bound) }
    ensures settles { (limit : Limit) (measured : Cost) (account : Account) (s : State) (number : ℕ) (g : Grant)
        → StandsFor account s → HasGrant g s.grants → Within g.bound measured
        → StepsTo limit s (settling_entry number measured g)
        (settled_account account g.window g.bound measured) }
{}

/// How a history's open grants change: a granted reservation opens its grant, under a number that is
/// new to its caller and so never settled, and a settlement closes it. What a grant has opened its
/// caller's own entries owe.
pub fn opens_and_closes()
    ensures new_numbers { (limit : Limit) (history : List Entry) (g : Grant) → IsLegal limit history
        → NumbersBelow g.number (entries_by g.caller history) → is_settled history g ≡ false }
    ensures opens { (history : List Entry) (window : ℕ) (g : Grant) → is_settled history g ≡ false
        → open_grants (history ++ opening_entry window g ∷ [])
        ≡ open_grants history ++ g ∷ [] }
    ensures closes { (history : List Entry) (number : ℕ) (measured : Cost) (g : Grant)
        → open_grants (history ++ settling_entry number measured g ∷ [])
        ≡ filter (λ other. not (is_grant g.caller g.number other)) (open_grants history) }
    ensures owed { (limit : Limit) (history : List Entry) (window : ℕ) (g : Grant)
        → IsLegal limit (history ++ opening_entry window g ∷ [])
        → HasGrant g (open_grants (entries_by g.caller (history ++ opening_entry window g ∷ []))) }
{}
