//! Whether what is written in two places comes to the same. Where two literals are written in one form it is seen by their parts; else
//! these two are built.

ghost use Rattle.std.specs.Prelude.{◌≡◌, All, IsTrue, IfOk, IfSome};
ghost use Rattle.gql_base.specs.parts.Trees.{value_tree};
ghost use Rattle.input_values.specs.values.Coerced.{coerced_tree};
ghost use Rattle.input_values.specs.inputs.Shapes.{shape_tree};
ghost use Rattle.input_values.specs.inputs.Definitions.{input_data};
ghost use Rattle.input_values.specs.coercion.Given.{is_nothing};
ghost use Rattle.input_values.specs.coercion.Literals.{literal_given};
ghost use Rattle.literal_loads.specs.Loads.{ComesTo};
ghost use Rattle.literal_loads.specs.KnownInputs.{scale_of, placed_in, IsKnown, AreRight};
ghost use Rattle.literal_loads.specs.Comparing.{AreSame, AreSameLists, AreSameObjects, AreLike, IsDefault, IsSameAmong, IsAmong, AreSameInputs, AreSameArguments};

use crate::inputs::{KnownInputs, Owner};
use crate::loads::Loads;
use crate::same_values::same_value;
use crate::weighing::Weighing;
use crate::written::{steps_of, writes_more};
use gql_base::{Argument, NameIndex, Value, index_of};
use input_values::places::innermost;
use input_values::{Coerced, InputDef, Shape, TypeId};
use schema_model::{FieldId, Kind};
use std::alloc::{AllocError, Global};

/// A literal that writes more values is great.
const SHORT: usize = 64;

/// Whether two literals are the same variable.
#[tactic(auto, using(crate::proofs::OpenedTrees::opened_literals))]
fn same_variable(value: &Value, other: &Value) -> bool
    ensures { IsTrue result → AreLike value.now other.now }
{
    match value {
        Value::Var(name) => match other {
            Value::Var(same) => name.text.as_str() == same.text.as_str(),
            _ => false,
        },
        _ => false,
    }
}

impl<'p> Weighing<'p> {
    /// Whether neither of two literals is a variable without a value, or both are.
    fn are_alike_absent(&self, literal: &Value, other: &Value) -> bool
        ensures { IsTrue result → is_nothing (literal_given (scale_of self.now).values (value_tree literal.now)) ≡ is_nothing (literal_given (scale_of self.now).values (value_tree other.now)) }
    {
        self.is_absent(literal) == self.is_absent(other)
    }

    /// What a short literal comes to, as it is built. A great one isn't built at each place where it is compared.
    fn built_short(&self, alloc: Global, shape: &Shape, literal: &Value) -> Option<Coerced>
        ensures { IfSome result (λ built. ComesTo (scale_of self.now) (shape_tree shape.now) literal.now (coerced_tree built)) }
    {
        if writes_more(literal, SHORT) {
            return None;
        }
        self.built(alloc, shape, literal)
    }

    /// Whether a literal comes to this value. Where that isn't seen it says no.
    fn comes_to(&self, alloc: Global, shape: &Shape, literal: &Value, value: &Coerced) -> bool
        ensures { IsTrue result → ComesTo (scale_of self.now) (shape_tree shape.now) literal.now (coerced_tree value.now) }
    {
        match self.built_short(alloc, shape, literal) {
            Some(built) => same_value(self.work, &built, value),
            None => false,
        }
    }

    /// Whether two literals are the same variable, or come to the same value when they are built.
    fn are_same_built(&self, alloc: Global, shape: &Shape, literal: &Value, other: &Value) -> bool
        ensures { IsTrue result → AreSame (scale_of self.now) (shape_tree shape.now) literal.now other.now }
    {
        if same_variable(literal, other) {
            return true;
        }
        match self.built_short(alloc, shape, literal) {
            Some(built) => self.comes_to(alloc, shape, other, &built),
            None => false,
        }
    }

    /// Whether what is written for an input comes to what it is without it.
    fn is_default(&self, alloc: Global, input: &InputDef, literal: &Value) -> bool
        ensures { IsTrue result → IsDefault (scale_of self.now) (input_data input.now) literal.now }
    {
        self.work.count(steps_of(literal));
        if self.is_absent(literal) {
            return true;
        }
        match &input.default {
            Some(default) => self.comes_to(alloc, &input.shape, literal, default),
            None => false,
        }
    }
}

impl<'p> Loads<'p> {
    /// Whether two literals come to the same at a place of this shape.
    #[cycle(compares)]
    #[tactic(auto, using(crate::proofs::OpenedTrees::opened_literals))]
    fn are_same_literals(&self, alloc: Global, shape: &Shape, value: &Value, other: &Value) -> bool
        ensures { AreRight self.now → IsTrue result → AreSame (scale_of self.now.of) (shape_tree shape.now) value.now other.now }
    {
        self.of.work.count(steps_of(value));
        match value {
            Value::List(items) => match other {
                Value::List(others) => match shape {
                    Shape::ListOf { item, .. } => {
                        self.are_same_lists(alloc, &**item, items.as_slice(), others.as_slice())
                    }
                    Shape::Named { .. } => self.of.are_same_built(alloc, shape, value, other),
                },
                _ => self.of.are_same_built(alloc, shape, value, other),
            },
            Value::Object(fields) => match other {
                Value::Object(others) => match self.of.schema.kind(innermost(shape)) {
                    Kind::Input => self.are_same_objects(
                        alloc,
                        innermost(shape),
                        fields.as_slice(),
                        others.as_slice(),
                    ),
                    _ => self.of.are_same_built(alloc, shape, value, other),
                },
                _ => self.of.are_same_built(alloc, shape, value, other),
            },
            _ => self.of.are_same_built(alloc, shape, value, other),
        }
    }

    /// Whether two lists of as many items do, each item at a place of this shape.
    #[cycle(compares)]
    fn are_same_lists(&self, alloc: Global, item: &Shape, items: &[Value], others: &[Value]) -> bool
        ensures { AreRight self.now → IsTrue result → AreSameLists (scale_of self.now.of) (shape_tree item.now) items.now others.now }
    {
        if items.len() != others.len() {
            return false;
        }
        'items: for at in (0..items.len()).rev() {
            if !self.are_same_literals(alloc, item, &items[at], &others[at]) {
                return false;
            }
        }
        true
    }

    /// Whether two objects do at an input object type.
    #[cycle(compares)]
    fn are_same_objects(
        &self,
        alloc: Global,
        of: TypeId,
        fields: &[Argument],
        others: &[Argument],
    ) -> bool
        ensures { AreRight self.now → IsTrue result → AreSameObjects (scale_of self.now.of) of.number fields.now others.now }
    {
        match self.of.schema.kind(of) {
            Kind::Input => match self.known(Owner::OfType(of)) {
                Some(known) => self.are_same_inputs(alloc, known, fields, others),
                None => false,
            },
            _ => false,
        }
    }

    /// Whether the same is written for the inputs of a type or of a field.
    #[cycle(compares)]
    fn are_same_inputs(
        &self,
        alloc: Global,
        known: &KnownInputs<'p>,
        written: &[Argument],
        others: &[Argument],
    ) -> bool
        ensures { AreRight self.now → IsKnown (scale_of self.now.of) known.now → IsTrue result → AreSameInputs (scale_of self.now.of) (placed_in known.now) written.now others.now }
    {
        self.of.work.count(written.len());
        self.of.work.count(others.len());
        match index_of(alloc, written) {
            Ok(index) => match index_of(alloc, others) {
                Ok(among) => {
                    if !index.are_distinct() {
                        return false;
                    }
                    if !among.are_distinct() {
                        return false;
                    }
                    if !self.are_among(alloc, known, &index, others) {
                        return false;
                    }
                    'written: for argument in written {
                        if !self.is_same_among(alloc, known, argument, &among) {
                            return false;
                        }
                    }
                    true
                }
                Err(_) => false,
            },
            Err(_) => false,
        }
    }

    /// Whether what is written for an input is the same as what stands among others.
    #[cycle(compares)]
    fn is_same_among(
        &self,
        alloc: Global,
        known: &KnownInputs<'p>,
        argument: &Argument,
        others: &NameIndex<'_, Argument>,
    ) -> bool
        ensures { AreRight self.now → IsKnown (scale_of self.now.of) known.now → IsTrue result → IsSameAmong (scale_of self.now.of) (placed_in known.now) others.now.items.now argument.now }
    {
        let name = argument.name.text.as_str();
        match known.named(name) {
            Some(placed) => match others.first_named(name) {
                Some(other) => {
                    if !self.of.are_alike_absent(&argument.value, &other.value) {
                        return false;
                    }
                    self.are_same_literals(
                        alloc,
                        &placed.input.shape,
                        &argument.value,
                        &other.value,
                    )
                }
                None => self.of.is_default(alloc, placed.input, &argument.value),
            },
            None => false,
        }
    }

    /// Whether what stands among others for an input is written too, or is the same without it.
    fn is_among(
        &self,
        alloc: Global,
        known: &KnownInputs<'p>,
        written: &NameIndex<'_, Argument>,
        other: &Argument,
    ) -> bool
        ensures { IsTrue result → IsAmong (scale_of self.now.of) (placed_in known.now) written.now.items.now other.now }
    {
        let name = other.name.text.as_str();
        match known.named(name) {
            Some(placed) => {
                if written.has(name) {
                    return true;
                }
                self.of.is_default(alloc, placed.input, &other.value)
            }
            None => false,
        }
    }

    /// Whether that holds of each of them.
    fn are_among(
        &self,
        alloc: Global,
        known: &KnownInputs<'p>,
        written: &NameIndex<'_, Argument>,
        others: &[Argument],
    ) -> bool
        ensures { IsTrue result → All (IsAmong (scale_of self.now.of) (placed_in known.now) written.now.items.now) others.now }
    {
        for other in others {
            if !self.is_among(alloc, known, written, other) {
                return false;
            }
        }
        true
    }

    /// Whether the arguments of a field come to the same values as others. Where that isn't seen it says no.
    pub fn are_same(
        &mut self,
        alloc: Global,
        of: FieldId,
        written: &'p [Argument],
        others: &[Argument],
    ) -> Result<bool, AllocError>
        ensures of { self.new.of ≡ self.old.of }
        ensures right { AreRight self.old → AreRight self.new }
        ensures same { AreRight self.old → IfOk result (λ same. IsTrue same → AreSameArguments (scale_of self.old.of) of.number written.now others.now) }
    {
        self.of.work.take(1)?;
        self.learn_inputs(alloc, Owner::OfField(of), written)?;
        match self.known(Owner::OfField(of)) {
            Some(known) => Ok(self.are_same_inputs(alloc, known, written, others)),
            None => Ok(false),
        }
    }
}
