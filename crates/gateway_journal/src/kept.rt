//! Accounts in a journal, as a worker has them.

ghost use Rattle.std.specs.Prelude.{◌≡◌, ◌-◌, ◌+◌, ◌<◌, Some};

use account_core::Ticket;
use account_journal::laws::open_tickets_may_be_settled;
use account_journal::{Journal, JournalFault, KeptReply, KeptTicket};
use cost_num::Cost;
use gateway_workers::{Gate, Ledger, Reserved};
use journal_disk::Disk;
use std::sync::Wait;

/// The accounts of clients in a journal, each call on which is on the disk before it is answered.
#[derive(Drop)]
pub struct Kept<D: Disk> {
    pub(crate) journal: Journal<D>,
}

impl<D: Disk> Ledger for Kept<D> {
    ghost use Rattle.std.specs.Prelude.{List};
    ghost use Rattle.account_core.specs.Machine.{Entry};
    ghost use Rattle.account_journal.specs.declared.slots.TheConstants.{SLOTS};
    ghost use Rattle.account_journal.specs.Journals.{Follows, IsSound, Rests};
    ghost use Rattle.gateway_workers.specs.PassedOn.{rules_of};
    ghost use Rattle.gateway_journal.specs.Kept.{kept_slots, HasGained, IsOpenHere, IsKeptFor, IsLostIn};
    ghost use Rattle.gateway_journal.specs.Composed.{none_gained, gained_then, settled_idle, has_filled, would_fill};

    type Lost = JournalFault;

    ghost made = { λ k. k.journal.used };

    ghost slots = { kept_slots };

    ghost gains = { λ a b calls. HasGained D.reads D.image D.faults a.journal b.journal calls };

    ghost belongs = { λ k gate. IsKeptFor D.reads k.journal gate };

    ghost opens = { λ k ticket. IsOpenHere k.journal ticket };

    ghost idle = { λ k. k.journal.opened ≡ 0 };

    ghost full = { λ k. SLOTS - k.journal.used < k.journal.opened + 2 };

    ghost faults = { λ k. D.faults k.journal.disk };

    ghost loses = { λ a b client call. IsLostIn D.reads D.image D.moment D.image_since a.journal b.journal.disk client call };

    fn reserve<R: Wait>(
        &mut self,
        gate: &Gate,
        rt: &R,
        client: u32,
        window: u64,
        bound: Cost,
    ) -> Result<Reserved, JournalFault> {
        let reply = self.journal.reserve_mut(client, window, bound)?;
        match reply {
            KeptReply::Granted(ticket) => {
                let KeptTicket {
                    client,
                    slot,
                    window,
                    bound,
                } = ticket;
                Ok(Reserved::Granted(Ticket {
                    client,
                    seq: slot,
                    window,
                    bound,
                }))
            }
            KeptReply::Short { left } => Ok(Reserved::Short { left }),
            KeptReply::Full => Ok(Reserved::Full),
        }
    }

    fn settle<R: Wait>(
        &mut self,
        gate: &Gate,
        rt: &R,
        ticket: Ticket,
        measured: Cost,
    ) -> Result<(), JournalFault> {
        open_tickets_may_be_settled::<D>();
        let Ticket {
            client,
            seq,
            window,
            bound,
        } = ticket;
        let kept = KeptTicket {
            client,
            slot: seq,
            window,
            bound,
        };
        self.journal.settle_mut(kept, measured)?;
        Ok(())
    }

    ghost gains_none = { λ a. none_gained D.reads D.image D.faults a.journal };

    ghost gains_then = { λ a b c these those one two. gained_then D.reads D.image D.faults a.journal b.journal c.journal these those one two };

    ghost counts = { λ a b calls gained. gained.used };

    ghost stays_idle = { λ a b calls gained settled idle. settled_idle D.reads D.image D.faults a.journal b.journal calls gained settled idle };

    ghost fills = { λ a idle full. has_filled a.journal.used a.journal.opened idle full };

    ghost has_room = { λ a idle full. would_fill a.journal.used a.journal.opened idle full };
}
