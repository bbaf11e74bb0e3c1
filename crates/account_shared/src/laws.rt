//! Laws of stretches of calls. Each is what a function ensures that does nothing.

ghost use Rattle.std.specs.Prelude.{◌≡◌, ℕ, ◌++◌, ◌∷◌, [], List};
ghost use Rattle.account_core.specs.Machine.{Call, CallReply};
ghost use Rattle.account_shared.specs.Views.{PassesView, client_at, IsIdle};
ghost use Rattle.account_shared.specs.Gains.{ClientCall, client_call, entries_for, Gains, IsOneCall, LeavesNoneOpen};

/// Where no call is made, nothing is gained.
pub fn gains_none()
    ensures { (p : PassesView) → Gains p p [] }
{}

/// One call is gained where its client goes on by its entry and all else stays.
pub fn gains_one()
    ensures { (p q : PassesView) (client : ℕ) (call : Call) (reply : CallReply) → IsOneCall p q client call reply
        → Gains p q (client_call client call reply ∷ []) }
{}

/// Stretches of calls add up.
pub fn gains_then()
    ensures { (p q r : PassesView) (these those : List ClientCall) → Gains p q these → Gains q r those
        → Gains p r (these ++ those) }
{}

/// Where the first passes were never split, nobody else's entries are seen: each client's history
/// goes on by just the entries of the calls.
pub fn never_split()
    ensures { (p q : PassesView) (calls : List ClientCall) (client : ℕ) → Gains p q calls → p.label.name ≡ 0
        → (client_at p client).splits ≡ 0
        → (client_at q client).seen ≡ (client_at p client).seen ++ entries_for client 0 p.made calls }
{}

/// Where no grant was open and the calls leave none open, none is open after them.
pub fn stays_idle()
    ensures { (p q : PassesView) (calls : List ClientCall) → Gains p q calls → IsIdle p → LeavesNoneOpen p calls → IsIdle q }
{}
