//! What holds of variables and arguments. These functions do nothing: their contracts are the laws.

ghost use Rattle.std.specs.Prelude.{ℕ, ◌≡◌, List, map, Ok};
ghost use Rattle.std.specs.List.{flat_map};
ghost use Rattle.gql_base.specs.declared.parts.trees.Argument.{Argument};
ghost use Rattle.serde_json.specs.Data.{Data};
ghost use Rattle.document_reader.specs.declared.trees.VariableDef.{VariableDef};
ghost use Rattle.input_values.specs.coercion.Literals.{Environment};
ghost use Rattle.schema_model.specs.SchemaData.{SchemaData, field_at};
ghost use Rattle.schema_model.specs.InputForms.{input_forms};
ghost use Rattle.schema_model.specs.Arguments.{ArgData};
ghost use Rattle.variable_coercion.specs.declared.variables.Variables.{Variables};
ghost use Rattle.variable_coercion.specs.Variables.{VariableData, declared_of, values_by_name, variables_answer};
ghost use Rattle.variable_coercion.specs.Arguments.{argument_given, arguments_answer};
ghost use Rattle.variable_coercion.specs.Relation.{AreVariables, AreArguments, all_variable_refusals, all_argument_refusals, first_refusal, refusal_in};
ghost use Rattle.variable_coercion.specs.Calls.{variables_data, environment};

/// Variables come to values exactly where each value is that of its variable.
pub fn what_variables_are()
    ensures found { (s : SchemaData) (variables : List VariableDef) (given : Data) (values : List VariableData) → variables_answer s variables given ≡ Ok values → AreVariables s variables given values }
    ensures only { (s : SchemaData) (variables : List VariableDef) (given : Data) (values : List VariableData) → AreVariables s variables given values → variables_answer s variables given ≡ Ok values }
{}

/// Arguments come to values exactly where each value is that of its argument.
pub fn what_arguments_are()
    ensures found { (s : SchemaData) (field : ℕ) (written : List Argument) (env : Environment) (values : List ArgData) → arguments_answer s field written env ≡ Ok values → AreArguments s field written env values }
    ensures only { (s : SchemaData) (field : ℕ) (written : List Argument) (env : Environment) (values : List ArgData) → AreArguments s field written env values → arguments_answer s field written env ≡ Ok values }
{}

/// What is told is the first of all that is refused, and nothing is told where nothing is refused.
pub fn what_is_refused_first()
    ensures variables { (s : SchemaData) (variables : List VariableDef) (given : Data) → first_refusal (all_variable_refusals s variables given) ≡ refusal_in (variables_answer s variables given) }
    ensures arguments { (s : SchemaData) (field : ℕ) (written : List Argument) (env : Environment) → first_refusal (all_argument_refusals s field written env) ≡ refusal_in (arguments_answer s field written env) }
{}

/// What arguments see of an operation's variables is their values by their names.
pub fn what_arguments_see()
    ensures { (variables : Variables) → environment variables ≡ values_by_name (variables_data variables) }
{}
