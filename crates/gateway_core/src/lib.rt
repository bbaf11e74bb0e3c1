//! The decision of the gateway on each request, without HTTP: whether it is forwarded, what it is answered, and what its client
//! is charged.
#![tactic(auto)]

mod beginning;
mod cells;
mod examining;
mod finishing;
mod gate;
mod grant;
mod laws;
mod ledger;
mod making;
mod messages;
mod own_answers;
mod promise;
mod sharing;
mod totals;

pub use beginning::{Begun, Denial, LocalAnswer, begin_in};
pub use cells::{begin, finish};
pub use finishing::{Finished, Outcome, finish_in};
pub use gate::{Gate, Settings};
pub use grant::Grant;
pub use laws::{
    a_body_comes_to_one_thing, a_reply_has_one_answer, a_reply_to_a_body_has_one_measure,
    no_window_has_more_room,
};
pub use ledger::{Ledger, Reserved};
pub use making::close;
pub use messages::{denial_message, denial_status, message_body, printed_cost};
pub use response_meter::laws::types_of_built_schemas_differ;
pub use sharing::{answers_are_shared, gates_are_shared};
pub use totals::Totals;
