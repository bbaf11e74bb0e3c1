//! What holds of what is sent for the operation of all texts, and of what its replies come to. These functions do nothing: their
//! contracts are the laws.

ghost use Rattle.std.specs.Prelude.{◌≡◌, ℕ, List, false};
ghost use Rattle.serde_json.specs.Read.{read as read_text};
ghost use Rattle.response_meter.specs.Metered.{AreMeasuredAlike};
ghost use Rattle.command_words.specs.declared.command.Asked.{Asked};
ghost use Rattle.response_meter.specs.declared.metered.Metered.{Metered};
ghost use Rattle.response_meter.specs.declared.fault.MeterFault.{MeterFault};
ghost use Rattle.operation_commands.specs.declared.asked.AskedTexts.{AskedTexts};
ghost use Rattle.operation_commands.specs.declared.asking.AskedRefusal.{AskedRefusal};
ghost use Rattle.operation_commands.specs.Asked.{IsRefusalOf, LetsFloatsIn};
ghost use Rattle.operation_commands.specs.Forward.{IsSent, AreGivenAsRead};
ghost use Rattle.operation_commands.specs.Meter.{HasMeasure, HasReplyFault};

use crate::price_laws::a_refused_operation_has_no_price;
use acceptance::{
    alike_requests_are_answered_alike, read_values_are_in_order, sent_bodies_hold_no_float,
    sent_texts_are_read_alike,
};
use command_outcomes::a_schema_file_has_one_check;
use document_reader::a_text_is_one_document;
use response_meter::laws::{
    answers_without_floats, fault_or_reading, named_tables, one_reply,
    types_of_built_schemas_differ,
};

/// For an operation that is refused nothing is sent, and a reply to it isn't measured and has no fault.
pub fn a_refused_operation_has_no_reply()
    ensures sent { (asked : Asked) (texts : AskedTexts) (text : List ℕ) (refusal : AskedRefusal) → IsRefusalOf asked texts refusal → IsSent asked texts text → ⊥ }
    ensures measured { (asked : Asked) (texts : AskedTexts) (reply : List ℕ) (metered : Metered) (refusal : AskedRefusal) → IsRefusalOf asked texts refusal → HasMeasure asked texts reply metered → ⊥ }
    ensures faulty { (asked : Asked) (texts : AskedTexts) (reply : List ℕ) (fault : MeterFault) (refusal : AskedRefusal) → IsRefusalOf asked texts refusal → HasReplyFault asked texts reply fault → ⊥ }
{
    a_refused_operation_has_no_price();
}

/// For an operation of texts one text is sent at most, however often the texts are read, where the schema lets no floats in. In any case all
/// texts that are sent for it are read as the same JSON, where the variables leave a level of nesting to the body.
pub fn one_text_is_sent()
    ensures one_text { (asked : Asked) (texts : AskedTexts) (text other : List ℕ) → LetsFloatsIn texts.schema asked.undeclared false → IsSent asked texts text → IsSent asked texts other → text ≡ other }
    ensures alike { (asked : Asked) (texts : AskedTexts) (text other : List ℕ) → AreGivenAsRead asked texts → IsSent asked texts text → IsSent asked texts other → read_text text ≡ read_text other }
{
    a_schema_file_has_one_check();
    a_text_is_one_document();
    alike_requests_are_answered_alike();
    types_of_built_schemas_differ();
    named_tables();
    one_reply();
    fault_or_reading();
    answers_without_floats();
    read_values_are_in_order();
    sent_bodies_hold_no_float();
    sent_texts_are_read_alike();
}

/// A reply to an operation of texts costs one cost at most, or has one fault at most, and not both, however often the texts are read. Its answers are
/// texts of the one content, with its errors, that it reads as; where the schema lets no floats in there is one.
pub fn a_reply_has_one_measure()
    ensures cost { (asked : Asked) (texts : AskedTexts) (reply : List ℕ) (metered other : Metered) → HasMeasure asked texts reply metered → HasMeasure asked texts reply other → AreMeasuredAlike reply metered other }
    ensures measure { (asked : Asked) (texts : AskedTexts) (reply : List ℕ) (metered other : Metered) → LetsFloatsIn texts.schema asked.undeclared false → HasMeasure asked texts reply metered → HasMeasure asked texts reply other → metered ≡ other }
    ensures fault { (asked : Asked) (texts : AskedTexts) (reply : List ℕ) (fault other : MeterFault) → HasReplyFault asked texts reply fault → HasReplyFault asked texts reply other → fault ≡ other }
    ensures not_both { (asked : Asked) (texts : AskedTexts) (reply : List ℕ) (metered : Metered) (fault : MeterFault) → HasMeasure asked texts reply metered → HasReplyFault asked texts reply fault → ⊥ }
{
    a_schema_file_has_one_check();
    a_text_is_one_document();
    alike_requests_are_answered_alike();
    types_of_built_schemas_differ();
    named_tables();
    one_reply();
    fault_or_reading();
    answers_without_floats();
}
