//! A granted request.

ghost use Rattle.std.specs.Prelude.{◌≡◌};
ghost use Rattle.cost_num.specs.Within.{Within};
ghost use Rattle.gateway_core.specs.Rules.{greatest};
ghost use Rattle.gateway_core.specs.PlanBounds.{Covers};

use account_core::Ticket;
use cost_num::Cost;
use gql_base::Text;
use plan_table::Plan;

/// A granted request, whose bound its client's account holds. It must be finished: it can be neither copied nor dropped.
pub struct Grant<'g> {
    pub(crate) ticket: Ticket,
    pub(crate) plan: Plan<'g>,
    /// The response key under which the names of types are added.
    pub(crate) alias: Text,
    /// The body that is sent to the upstream.
    pub(crate) forward: Text,
    ghost covered: { Covers plan ticket.bound },
}

impl<'g> Grant<'g> {
    /// The body that is sent to the upstream.
    pub fn forward(&self) -> &str
        ensures { result.now ≡ self.now.forward }
    {
        self.forward.as_str()
    }

    /// What a response costs at most.
    pub fn bound(&self) -> Cost
        ensures bound { result ≡ self.now.ticket.bound }
        ensures within { Within greatest result }
    {
        self.ticket.bound
    }

    /// The client's place among the clients.
    pub fn client(&self) -> u32
        ensures { result ≡ self.now.ticket.client }
    {
        self.ticket.client
    }
}
