//! What holds of the price of all texts. These functions do nothing: their contracts are the laws.

ghost use Rattle.std.specs.Prelude.{◌≡◌, true};
ghost use Rattle.cost_num.specs.declared.Cost.{Cost as CostType};
ghost use Rattle.response_model.specs.Plan.{Plan as PlanTree};
ghost use Rattle.command_words.specs.declared.command.Asked.{Asked};
ghost use Rattle.operation_commands.specs.declared.asked.AskedTexts.{AskedTexts};
ghost use Rattle.operation_commands.specs.declared.asking.AskedRefusal.{AskedRefusal};
ghost use Rattle.gql_base.specs.printing.OneLine.{is_one_line};
ghost use Rattle.operation_commands.specs.Asked.{IsRefusalOf, asked_text};
ghost use Rattle.operation_commands.specs.Price.{HasBound};
ghost use Rattle.operation_commands.specs.Worst.{OfPlan};

use acceptance::{
    alike_requests_are_answered_alike, alike_requests_have_one_verdict, refusal_texts_are_one_line,
};
use command_outcomes::{a_schema_file_has_one_check, refusals_of_files_are_one_line};
use document_reader::{a_text_is_a_document_or_has_one_fault, a_text_is_one_document};

/// An operation of texts has one price and one plan at most, however often its texts are read.
pub fn two_files_have_one_price()
    ensures price { (asked : Asked) (texts : AskedTexts) (cost other : CostType) → HasBound asked texts cost → HasBound asked texts other → cost ≡ other }
    ensures plan { (asked : Asked) (texts : AskedTexts) (plan other : PlanTree) → OfPlan asked texts (λ tree. tree ≡ plan) → OfPlan asked texts (λ tree. tree ≡ other) → plan ≡ other }
{
    a_schema_file_has_one_check();
    a_text_is_one_document();
    alike_requests_have_one_verdict();
    alike_requests_are_answered_alike();
}

/// The text of why an operation is refused is one line: no line feed and no other control character stands in it, whatever names it
/// tells.
pub fn refusals_of_operations_are_one_line()
    ensures { (asked : Asked) (refusal : AskedRefusal) → is_one_line (asked_text asked refusal) ≡ true }
{
    refusal_texts_are_one_line();
    refusals_of_files_are_one_line();
}

/// An operation of texts that is refused has no price, and is refused in one way at most.
pub fn a_refused_operation_has_no_price()
    ensures not_both { (asked : Asked) (texts : AskedTexts) (cost : CostType) (refusal : AskedRefusal) → IsRefusalOf asked texts refusal → HasBound asked texts cost → ⊥ }
    ensures one_refusal { (asked : Asked) (texts : AskedTexts) (refusal other : AskedRefusal) → IsRefusalOf asked texts refusal → IsRefusalOf asked texts other → refusal ≡ other }
{
    a_schema_file_has_one_check();
    a_text_is_one_document();
    a_text_is_a_document_or_has_one_fault();
    alike_requests_have_one_verdict();
}
