//! What holds of the faults of all values and types. These functions do nothing: their contracts are the laws.

ghost use Rattle.std.specs.Prelude.{Bool};
ghost use Rattle.gql_base.specs.parts.Values.{IsValue};
ghost use Rattle.gql_base.specs.parts.TypeReferences.{IsType};
ghost use Rattle.gql_base.specs.parts.Answers.{HasOneFault, HasNoFaultWhereRead};

/// From a token on, the reading of a value has one fault at most, and that of a type. Want of memory is no such fault.
pub fn a_value_has_one_fault()
    ensures values { (constant : Bool) → HasOneFault (IsValue constant 0) }
    ensures types { HasOneFault (IsType 0) }
{}

/// Where a value is read from a token on, its reading has no fault, and so for types. Want of memory is no such fault.
pub fn a_read_value_has_no_fault()
    ensures values { (constant : Bool) → HasNoFaultWhereRead (IsValue constant 0) }
    ensures types { HasNoFaultWhereRead (IsType 0) }
{}
