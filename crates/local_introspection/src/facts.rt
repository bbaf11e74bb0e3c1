//! What the gateway answers introspection by.

ghost use Rattle.std.specs.Prelude.{◌≡◌};
ghost use Rattle.schema_model.specs.SchemaViews.{schema_data};
ghost use Rattle.schema_facts.specs.FactsViews.{facts_data};
ghost use Rattle.meta_schema.specs.TestedSchemas.{name_of_queries};

use meta_schema::MetaSchema;
use schema_facts::{SchemaFacts, facts_of};
use schema_reader::SchemaText;
use std::alloc::{AllocError, Global};

/// What is known of a schema, and the schema of schemas over which operations that ask for it are planned. In both the type of queries
/// has one name.
#[derive(Drop)]
pub struct Facts {
    pub(crate) known: SchemaFacts,
    pub(crate) meta: MetaSchema,
    /// How many bytes the text of an answer has at most, where it may not have more.
    pub(crate) most: Option<usize>,
    ghost named: { name_of_queries (schema_data meta.schema) ≡ (facts_data known).query_name },
}

impl Facts {
    ghost use Rattle.std.specs.Prelude.{IfOk, None};
    ghost use Rattle.schema_reader.specs.Trees.{schema_trees};
    ghost use Rattle.schema_facts.specs.Facts.{AreFacts};
    ghost use Rattle.local_introspection.specs.LocalRequests.{IsMade};

    /// What is known of a schema by its text, which it keeps. It asks for a text that `Schema::build` accepts; of another
    /// one it knows what can be said, or it fails as if there were no memory. Of a text that is accepted it fails for want of memory alone.
    pub fn make(alloc: Global, text: SchemaText) -> Result<Facts, AllocError>
        ensures known { IfOk result (λ f. AreFacts (schema_trees text) (facts_data f.known)) }
        ensures made { IfOk result IsMade }
        ensures most { IfOk result (λ f. f.most ≡ None) }
    {
        let known = facts_of(alloc, text)?;
        let meta = MetaSchema::make(alloc, known.query_name())?;
        Ok(Facts {
            known,
            meta,
            most: None,
        })
    }

    /// The same, where the text of an answer may have at most so many bytes.
    pub fn with_most(self, most: Option<usize>) -> Facts
        ensures { result ≡ record self { most = most } }
    {
        let mut facts = self;
        facts.most = most;
        facts
    }
}
