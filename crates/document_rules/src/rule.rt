//! The rules by their names, and the answer of a check that finds one broken.

ghost use Rattle.std.specs.Prelude.{◌≡◌};
ghost use Rattle.document_rules.specs.Names.{rule_number, rule_name};

use std::alloc::{AllocError, AllocFailed};
use thiserror::Error;

/// A rule, by what breaks it. They are tried in this order.
#[derive(Clone, Copy, Debug, PartialEq, Eq)]
pub enum Rule {
    /// Two operations or two fragments share a name.
    RepeatedName,
    /// An operation without a name stands beside another one.
    LoneAnonymous,
    /// The operation is a subscription.
    Subscription,
    /// The operation is a mutation, and the schema has no type of mutations.
    NoRoot,
    /// A spread names no fragment.
    UnknownFragment,
    /// A spread names a fragment that it stands in, or that was entered on the way to it.
    FragmentCycle,
    /// A type condition names no object, interface or union type.
    FragmentOn,
    /// A directive is neither `@skip` nor `@include`, and the schema doesn't define it.
    UnknownDirective,
    /// A directive is neither `@skip` nor `@include`, and the schema defines it.
    CustomDirective,
    /// `@skip` or `@include` stands where it may not, twice, or without one argument `if` that is a boolean or a variable.
    DirectiveUse,
    /// A field other than `__typename` has a name that begins with two underscores.
    Introspection,
    /// The type has no such field.
    UnknownField,
    /// A field of a scalar or enum type, or `__typename`, has selections.
    LeafWithSelection,
    /// A field of an object, interface or union type has no selections.
    CompositeWithout,
    /// Two variables share a name.
    RepeatedVariable,
    /// A variable's type is no input type, or is made of Float.
    VariableType,
    /// A variable is used that isn't declared.
    UndefinedVariable,
    /// The field has no such argument.
    UnknownArgument,
    /// A field's argument is written twice.
    RepeatedArgument,
    /// A variable's type doesn't fit the place where it stands.
    VariablePlace,
}

impl Rule {
    /// The rule's number, from 1 on.
    pub fn number(self) -> u32
        ensures { result ≡ rule_number self }
    {
        match self {
            Rule::RepeatedName => 1,
            Rule::LoneAnonymous => 2,
            Rule::Subscription => 3,
            Rule::NoRoot => 4,
            Rule::UnknownFragment => 5,
            Rule::FragmentCycle => 6,
            Rule::FragmentOn => 7,
            Rule::UnknownDirective => 8,
            Rule::CustomDirective => 9,
            Rule::DirectiveUse => 10,
            Rule::Introspection => 11,
            Rule::UnknownField => 12,
            Rule::LeafWithSelection => 13,
            Rule::CompositeWithout => 14,
            Rule::RepeatedVariable => 15,
            Rule::VariableType => 16,
            Rule::UndefinedVariable => 17,
            Rule::UnknownArgument => 18,
            Rule::RepeatedArgument => 19,
            Rule::VariablePlace => 20,
        }
    }

    /// The rule's name.
    pub fn name(self) -> &'static str
        ensures { result.now ≡ rule_name self }
    {
        match self {
            Rule::RepeatedName => "RepeatedName",
            Rule::LoneAnonymous => "LoneAnonymous",
            Rule::Subscription => "Subscription",
            Rule::NoRoot => "NoRoot",
            Rule::UnknownFragment => "UnknownFragment",
            Rule::FragmentCycle => "FragmentCycle",
            Rule::FragmentOn => "FragmentOn",
            Rule::UnknownDirective => "UnknownDirective",
            Rule::CustomDirective => "CustomDirective",
            Rule::DirectiveUse => "DirectiveUse",
            Rule::Introspection => "Introspection",
            Rule::UnknownField => "UnknownField",
            Rule::LeafWithSelection => "LeafWithSelection",
            Rule::CompositeWithout => "CompositeWithout",
            Rule::RepeatedVariable => "RepeatedVariable",
            Rule::VariableType => "VariableType",
            Rule::UndefinedVariable => "UndefinedVariable",
            Rule::UnknownArgument => "UnknownArgument",
            Rule::RepeatedArgument => "RepeatedArgument",
            Rule::VariablePlace => "VariablePlace",
        }
    }
}

/// Why an operation isn't planned: the first rule that is broken, in their order, and the byte of the document at which it
/// is first broken, in the order of the text: the operation's own first, and then that of each fragment it reaches.
#[derive(Clone, Copy, Debug, PartialEq, Eq, Error)]
pub enum RuleFault {
    #[error("the rule {rule:?} is broken at byte {at}")]
    Broken { rule: Rule, at: usize },
    #[error("memory ran out")]
    Memory,
}

impl From<AllocError> for RuleFault {
    ghost use Rattle.std.specs.Prelude.{◌≡◌};
    ghost use Rattle.document_rules.specs.declared.rule.RuleFault.TheVariants.{Memory};

    ghost from_gives = { λ _ fault. fault ≡ Memory };

    fn from(_error: AllocError) -> RuleFault {
        RuleFault::Memory
    }
}

impl<T: Drop> From<AllocFailed<T>> for RuleFault {
    ghost use Rattle.std.specs.Prelude.{◌≡◌};
    ghost use Rattle.document_rules.specs.declared.rule.RuleFault.TheVariants.{Memory};

    ghost from_gives = { λ _ fault. fault ≡ Memory };

    fn from(_failed: AllocFailed<T>) -> RuleFault {
        RuleFault::Memory
    }
}
