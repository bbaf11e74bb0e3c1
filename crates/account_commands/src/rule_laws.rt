//! What holds of the rules of all texts. This function does nothing: its contract is the law.

ghost use Rattle.std.specs.Prelude.{◌≡◌, ℕ};
ghost use Rattle.account_commands.specs.declared.rule_texts.RuleTexts as texts_type;
ghost use Rattle.account_commands.specs.declared.rule_inputs.RuleInputs as inputs_type;
ghost use Rattle.account_commands.specs.declared.rule_inputs.RulesRefusal as refusal_type;
ghost use Rattle.account_commands.specs.RuleFiles.{HoldRules, IsRulesRefusal};

use client_files::laws::a_text_has_one_reading;
use command_outcomes::a_schema_file_has_one_check;

/// Texts of a schema and of clients that are refused hold no rules, and are refused in one way at most.
pub fn refused_texts_hold_no_rules()
    ensures not_both { (texts : texts_type.RuleTexts) (undeclared : ℕ) (refusal : refusal_type.RulesRefusal) (inputs : inputs_type.RuleInputs)
        → IsRulesRefusal texts undeclared refusal → HoldRules texts undeclared inputs → ⊥ }
    ensures one_refusal { (texts : texts_type.RuleTexts) (undeclared : ℕ) (refusal other : refusal_type.RulesRefusal)
        → IsRulesRefusal texts undeclared refusal → IsRulesRefusal texts undeclared other → refusal ≡ other }
{
    a_schema_file_has_one_check();
    a_text_has_one_reading();
}
