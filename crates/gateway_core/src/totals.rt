//! The accounts after the last call.

ghost use Rattle.std.specs.Prelude.{◌≡◌, ◌<◌, length, get_or, All};
ghost use Rattle.account_core.specs.declared.Account as account_type;
ghost use Rattle.gateway_core.specs.Rules.{IsSettledWithin, IsCarriedWithin};

use account_core::Account;
use account_shared::Totals as AccountTotals;
use client_files::Client;
use gql_base::Indexed;

/// The clients, and the account of each after the last call.
#[derive(Drop)]
pub struct Totals {
    pub(crate) clients: Indexed<Client>,
    pub(crate) accounts: AccountTotals,
    ghost paired: { length accounts ≡ length clients.items.items },
    ghost within: { All IsSettledWithin accounts },
    ghost carried: { All IsCarriedWithin accounts },
}

impl Totals {
    /// The clients, in their order.
    pub fn clients(&self) -> &[Client]
        ensures { result.now ≡ self.now.clients.items.items }
    {
        self.clients.items()
    }

    /// A client's account, by its place among the clients. What is settled in it, and what is carried into its window, is
    /// within the cap.
    pub fn account(&self, client: u32) -> Account
        requires { client < length self.now.clients.items.items }
        ensures account { (d : account_type.Account) → result ≡ get_or self.now.accounts client d }
        ensures within { IsSettledWithin result }
        ensures carried { IsCarriedWithin result }
    {
        self.accounts.account(client)
    }
}
