//! What the great values of variables come to at places of a type.

ghost use Rattle.std.specs.Prelude.{◌≡◌, IfSome};
ghost use Rattle.input_values.specs.inputs.Shapes.{shape_tree};
ghost use Rattle.literal_loads.specs.Loads.{Scale};
ghost use Rattle.literal_loads.specs.KnownInputs.{lists_round, IsHeld, IsHeldAs};

use crate::load::Load;
use input_values::places::innermost;
use input_values::{Coerced, CoercedField, Shape, VariableValue};

/// What the value of a variable comes to at each place of a type in so many lists.
#[derive(Clone, Copy)]
pub struct HeldLoad<'p> {
    pub name: &'p str,
    /// The number of the type.
    pub of: usize,
    pub lists: usize,
    pub load: Load,
}

/// A value of more nodes is great.
const MANY: usize = 8;

/// How many of so many nodes are left when those of a value are counted; none where it has more. It ends there.
#[cycle(counts)]
fn nodes_left(value: &Coerced, most: usize) -> Option<usize> {
    if most == 0 {
        return None;
    }
    match value {
        Coerced::Shared(held) => nodes_left(held, most),
        Coerced::List(items) => items_left(items.as_slice(), most - 1),
        Coerced::Object(fields) => fields_left(fields.as_slice(), most - 1),
        Coerced::Null => Some(most - 1),
        Coerced::Int(_) => Some(most - 1),
        Coerced::Float(_) => Some(most - 1),
        Coerced::Str(_) => Some(most - 1),
        Coerced::Bool(_) => Some(most - 1),
        Coerced::EnumName(_) => Some(most - 1),
    }
}

#[cycle(counts)]
fn items_left(items: &[Coerced], most: usize) -> Option<usize> {
    let mut left = most;
    'items: for item in items {
        match nodes_left(item, left) {
            Some(more) => left = more,
            None => return None,
        }
    }
    Some(left)
}

#[cycle(counts)]
fn fields_left(fields: &[CoercedField], most: usize) -> Option<usize> {
    let mut left = most;
    'fields: for field in fields {
        match nodes_left(&field.value, left) {
            Some(more) => left = more,
            None => return None,
        }
    }
    Some(left)
}

/// Whether the value of a variable is great, so that what it comes to is held.
pub(crate) fn is_great(variable: &VariableValue) -> bool {
    match &variable.value {
        Some(value) => nodes_left(value, MANY).is_none(),
        None => false,
    }
}

/// Whether a value is neither a list nor an object, nor shared.
pub(crate) fn is_leaf(value: &Coerced) -> bool {
    match value {
        Coerced::List(_) => false,
        Coerced::Object(_) => false,
        Coerced::Shared(_) => false,
        _ => true,
    }
}

/// How many lists stand round the named type of a shape.
#[tactic(auto, using(crate::proofs::OpenedTrees::opened_shapes))]
pub fn lists_round(shape: &Shape) -> Option<usize>
    ensures { IfSome result (λ lists. lists ≡ lists_round (shape_tree shape.now)) }
{
    match shape {
        Shape::Named { .. } => Some(0),
        Shape::ListOf { item, .. } => lists_round(&**item)?.checked_add(1),
    }
}

impl<'p> HeldLoad<'p> {
    /// What the variable of this name comes to at a place, where it is this variable at such a place.
    pub fn load_at(&self, name: &str, shape: &Shape) -> Option<Load>
        ensures { (e : Scale) → IsHeld e self.now → IfSome result (IsHeldAs e name.now (shape_tree shape.now)) }
    {
        let lists = lists_round(shape)?;
        let of = innermost(shape).number;
        if self.of == of && self.lists == lists && self.name == name {
            return Some(self.load);
        }
        None
    }
}
