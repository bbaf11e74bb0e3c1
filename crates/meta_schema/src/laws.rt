//! What holds of each schema of schemas that is made. These functions do nothing: their contracts are the laws.

ghost use Rattle.schema_model.specs.SchemaViews.{schema_data};
ghost use Rattle.plan_model.specs.SelectedFields.{Setting};
ghost use Rattle.meta_schema.specs.declared.schema.MetaSchema.{MetaSchema};
ghost use Rattle.meta_schema.specs.TestedSchemas.{name_of_queries};
ghost use Rattle.meta_schema.specs.MetaSchemas.{IsOver};
ghost use Rattle.meta_schema.specs.MetaFields.{HasMetaForm};

/// What is planned over it finds just the fields that the schema of schemas has, with their forms, their weights and their
/// arguments, objects of one type at each place, and leaves that hold what they are to hold.
pub fn a_meta_schema_has_its_form()
    ensures { (m : MetaSchema) (e : Setting) → IsOver m e → HasMetaForm (name_of_queries (schema_data m.schema)) e }
{}
