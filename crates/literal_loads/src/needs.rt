//! What a literal asks for: the types of its objects, and its variables at their places.

ghost use Rattle.std.specs.Prelude.{◌≡◌, IfOk, IfSome};
ghost use Rattle.literal_loads.specs.KnownInputs.{scale_of, IsHeld, AreRight};
ghost use Rattle.literal_loads.specs.Walks.{HasWeighed};

use crate::held::{HeldLoad, is_great, lists_round};
use crate::inputs::Owner;
use crate::loads::{Loads, owner_number};
use crate::written::steps_of;
use gql_base::{Argument, Value};
use input_values::places::innermost;
use input_values::{Shape, value_of};
use schema_model::{FieldId, Kind};
use std::alloc::{AllocError, Global};

/// So few arguments are built sooner than the inputs of a field are learned.
const SHORT: usize = 8;

/// So many values of variables are held at most.
const HELD: usize = 20_000;

impl<'p> Loads<'p> {
    /// Keeps the inputs of a type or of a field, the first time that they are asked for.
    fn know(&mut self, alloc: Global, owner: Owner) -> Result<(), AllocError>
        ensures of { self.new.of ≡ self.old.of }
        ensures right { AreRight self.old → AreRight self.new }
    {
        let number = owner_number(owner);
        if self.places.contains_key(&number) {
            return Ok(());
        }
        let at = self.known.len();
        self.places.insert(number, at)?;
        match self.of.known_inputs(alloc, owner)? {
            Some(known) => {
                self.known.push(known)?;
                Ok(())
            }
            None => Ok(()),
        }
    }

    /// Forgets all that is held, where it is much.
    fn make_room(&mut self)
        ensures of { self.new.of ≡ self.old.of }
        ensures right { AreRight self.old → AreRight self.new }
    {
        if self.held.len() >= HELD {
            self.held.clear();
            self.held_places.clear();
        }
    }

    /// What the value of a variable comes to at a place.
    fn held_at(&self, name: &'p str, shape: &Shape) -> Option<HeldLoad<'p>>
        ensures { IfSome result (IsHeld (scale_of self.now.of)) }
    {
        let value = value_of(self.of.variables, name)?;
        let load = self.of.value_load(value, shape)?;
        let lists = lists_round(shape)?;
        Some(HeldLoad {
            name,
            of: innermost(shape).number,
            lists,
            load,
        })
    }

    /// Looks once which values of variables are great.
    fn measure(&mut self) -> Result<(), AllocError>
        ensures of { self.new.of ≡ self.old.of }
        ensures right { AreRight self.old → AreRight self.new }
    {
        let of = self.of;
        let variables = of.variables.items();
        if self.great.len() == variables.len() {
            return Ok(());
        }
        of.work.take(variables.len())?;
        self.great.clear();
        for variable in variables {
            let great = is_great(variable);
            self.great.push(great)?;
            self.some_great |= great;
        }
        Ok(())
    }

    /// Whether the value of the variable of this name is great.
    fn has_great_value(&self, name: &str) -> bool {
        if !self.some_great {
            return false;
        }
        match self.of.variables.position(name) {
            Some(at) => self.great.get(at).copied().unwrap_or(false),
            None => false,
        }
    }

    /// Keeps what the value of a variable comes to at a place, where it is great and isn't kept already.
    fn hold(&mut self, name: &'p str, shape: &Shape) -> Result<(), AllocError>
        ensures of { self.new.of ≡ self.old.of }
        ensures right { AreRight self.old → AreRight self.new }
    {
        self.measure()?;
        if !self.has_great_value(name) {
            return Ok(());
        }
        self.make_room();
        if self.held_load(name, shape).is_some() {
            return Ok(());
        }
        match self.held_at(name, shape) {
            Some(held) => {
                let hash = self.held_hash(name, shape);
                let at = self.held.len();
                self.held_places.insert(hash, at)?;
                self.held.push(held)?;
                Ok(())
            }
            None => Ok(()),
        }
    }

    /// The shape of an input that is known.
    fn place_of(&self, owner: Owner, name: &str) -> Option<&'p Shape> {
        let placed = self.known(owner)?.named(name)?;
        Some(&placed.input.shape)
    }

    /// Learns what a literal asks for.
    #[cycle(needs)]
    #[tactic(auto, using(crate::proofs::OpenedTrees::opened_literals))]
    fn learn(&mut self, alloc: Global, shape: &Shape, value: &'p Value) -> Result<(), AllocError>
        ensures of { self.new.of ≡ self.old.of }
        ensures right { AreRight self.old → AreRight self.new }
    {
        self.of.work.take(steps_of(value))?;
        match value {
            Value::Var(name) => self.hold(name.text.as_str(), shape),
            Value::List(items) => match shape {
                Shape::Named { .. } => Ok(()),
                Shape::ListOf { item, .. } => { self.learn_items(alloc, &**item, items.as_slice()) }
            },
            Value::Object(fields) => match self.of.schema.kind(innermost(shape)) {
                Kind::Input => {
                    self.learn_inputs(alloc, Owner::OfType(innermost(shape)), fields.as_slice())
                }
                _ => Ok(()),
            },
            Value::Int(_) => Ok(()),
            Value::Float(_) => Ok(()),
            Value::Str(_) => Ok(()),
            Value::Bool(_) => Ok(()),
            Value::Null => Ok(()),
            Value::EnumName(_) => Ok(()),
        }
    }

    /// Learns what the items of a list ask for.
    #[cycle(needs)]
    fn learn_items(
        &mut self,
        alloc: Global,
        shape: &Shape,
        items: &'p [Value],
    ) -> Result<(), AllocError>
        ensures of { self.new.of ≡ self.old.of }
        ensures right { AreRight self.old → AreRight self.new }
    {
        'items: for item in items {
            self.learn(alloc, shape, item)?;
        }
        Ok(())
    }

    /// Learns what the inputs of a type or of a field come to, and what those that are written ask for.
    #[cycle(needs)]
    pub(crate) fn learn_inputs(
        &mut self,
        alloc: Global,
        owner: Owner,
        written: &'p [Argument],
    ) -> Result<(), AllocError>
        ensures of { self.new.of ≡ self.old.of }
        ensures right { AreRight self.old → AreRight self.new }
    {
        self.of.work.take(written.len())?;
        self.know(alloc, owner)?;
        'written: for argument in written {
            self.learn_input(alloc, owner, argument)?;
        }
        Ok(())
    }

    /// Learns what the literal asks for that is written for an input.
    #[cycle(needs)]
    fn learn_input(
        &mut self,
        alloc: Global,
        owner: Owner,
        argument: &'p Argument,
    ) -> Result<(), AllocError>
        ensures of { self.new.of ≡ self.old.of }
        ensures right { AreRight self.old → AreRight self.new }
    {
        match self.place_of(owner, argument.name.text.as_str()) {
            Some(shape) => self.learn(alloc, shape, &argument.value),
            None => Ok(()),
        }
    }

    /// Whether arguments are few, and none of them is a list, an object or a variable whose value is great.
    fn write_little(&self, written: &[Argument]) -> bool {
        if written.len() > SHORT {
            return false;
        }
        for argument in written {
            match &argument.value {
                Value::List(_) => return false,
                Value::Object(_) => return false,
                Value::Var(name) => {
                    if self.has_great_value(name.text.as_str()) {
                        return false;
                    }
                }
                _ => {}
            }
        }
        true
    }

    /// Whether a field is asked for the first time.
    fn is_first(&mut self, of: FieldId) -> Result<bool, AllocError>
        ensures of { self.new.of ≡ self.old.of }
        ensures right { AreRight self.old → AreRight self.new }
    {
        let number = owner_number(Owner::OfField(of));
        if self.asked.contains_key(&number) {
            return Ok(false);
        }
        self.asked.insert(number, 0)?;
        Ok(true)
    }

    /// What the arguments of a field cost as they are written; none where one is refused, or where that isn't known. Where little is
    /// written the first time that a field is asked for, nothing is told: what is called once isn't learned.
    pub fn cost_of(
        &mut self,
        alloc: Global,
        of: FieldId,
        written: &'p [Argument],
    ) -> Result<Option<u64>, AllocError>
        ensures of { self.new.of ≡ self.old.of }
        ensures right { AreRight self.old → AreRight self.new }
        ensures cost { AreRight self.old → IfOk result (λ found. IfSome found (HasWeighed (scale_of self.old.of) of.number written.now)) }
    {
        self.of.work.take(1)?;
        self.measure()?;
        if self.write_little(written) && self.is_first(of)? {
            return Ok(None);
        }
        self.learn_inputs(alloc, Owner::OfField(of), written)?;
        Ok(self.cost_known(alloc, of, written))
    }
}
