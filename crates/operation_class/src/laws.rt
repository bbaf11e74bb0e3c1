//! What holds of all classes. These functions do nothing: their contracts are the laws.

ghost use Rattle.std.specs.Prelude.{◌≡◌, ◌≢◌, ◌⊎◌, ◌↔◌, ℕ, List, map, None, Some};
ghost use Rattle.gql_base.specs.declared.parts.trees.OperationKind.TheVariants.{Query as QueryKind};
ghost use Rattle.gql_base.specs.ways.Reading.{Identifier};
ghost use Rattle.document_reader.specs.Documents.{SelectionTrees};
ghost use Rattle.document_reader.specs.Trees.{definition_tree};
ghost use Rattle.document_reader.specs.declared.trees.Definition.{Definition};
ghost use Rattle.document_reader.specs.declared.trees.Operation.{Operation};
ghost use Rattle.document_rules.specs.Parts.{FragmentData, operation_at};
ghost use Rattle.operation_class.specs.RootParts.{root_parts};
ghost use Rattle.operation_class.specs.RootFields.{root_fields};
ghost use Rattle.operation_class.specs.StandingFields.{IsAmong, Stands};
ghost use Rattle.operation_class.specs.Classes.{root_names, class_at};
ghost use Rattle.operation_class.specs.ToldNames.{IsQueryAt, Tells};
ghost use Rattle.operation_class.specs.declared.classes.Class.{Class};
ghost use Rattle.operation_class.specs.declared.classes.Class.TheVariants.{Upstream as UpstreamClass, Local as LocalClass, Mixed as MixedClass};

/// There are three classes: an operation is the upstream's, the gateway's, or mixed.
pub fn there_are_three_classes()
    ensures { (ds : List Definition) (place : ℕ) → (class_at ds place ≡ UpstreamClass) ⊎ (class_at ds place ≡ LocalClass) ⊎ ((at : ℕ) × (class_at ds place ≡ MixedClass at)) }
{}

/// The upstream answers each operation that isn't a query, and what is no operation has its class.
pub fn queries_alone_are_answered_here()
    ensures none { (ds : List Definition) (place : ℕ) → operation_at ds place ≡ None → class_at ds place ≡ UpstreamClass }
    ensures other { (ds : List Definition) (place : ℕ) (o : Operation) → operation_at ds place ≡ Some o → o.kind ≢ QueryKind → class_at ds place ≡ UpstreamClass }
{}

/// The class of a query tells just what is among the names of the fields at its root: what it tells of them is so, and a class that tells
/// what is so is its class.
pub fn a_class_tells_the_names_at_the_root()
    ensures told { (ds : List Definition) (place : ℕ) (o : Operation) → IsQueryAt ds place o → Tells (root_names ds o) (class_at ds place) }
    ensures only { (ds : List Definition) (place : ℕ) (o : Operation) (c : Class) → IsQueryAt ds place o → Tells (root_names ds o) c → class_at ds place ≡ c }
{}

/// The fields at the root of an operation are just those that stand there, however many spreads lead to them: the walk leaves out none, and finds
/// no other.
pub fn root_fields_are_those_that_stand_there()
    ensures { (fs : List FragmentData) (s : SelectionTrees) (name : Identifier) → IsAmong name (root_fields fs s) ↔ Stands fs (root_parts s) name }
{}

/// The class of an operation depends on the trees of its document's definitions alone.
pub fn equal_trees_have_one_class()
    ensures { (ds es : List Definition) (place : ℕ) → map definition_tree ds ≡ map definition_tree es → class_at ds place ≡ class_at es place }
{}
