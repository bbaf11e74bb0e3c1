//! The calls that were made, found by how they are written.

ghost use Rattle.std.specs.Prelude.{◌≡◌, ◌<◌, ◌++◌, ◌∷◌, [], IsTrue, IfOk, IfSome, OnOk, Ok, get_or, length};
ghost use Rattle.schema_model.specs.Arguments.{args_data};
ghost use Rattle.collected_fields.specs.Views.{setting_of_planning, collected_field};
ghost use Rattle.plan_model.specs.SelectedFields.{Setting};
ghost use Rattle.merged_selections.specs.NodeTests.{IsKept, AreKept, IsAlikeAt, FindsCall, Grows, ComparesAt, ComparesPlaces, ComparesArgs, ComparesField, GivesAt, IsSameAsAt, IsSameField, TellsRefusal, values_at};

use crate::arguments::arguments_of;
use crate::call::{Call, is_alike, new_call, same_as};
use crate::hashes::hash_of;
use crate::held::bytes_of;
use crate::written::are_more;
use collected_fields::{Collected, Planning};
use counted_work::Work;
use literal_loads::{Loads, no_loads, weighing_of};
use schema_model::{Args, FieldId};
use std::alloc::{AllocError, Global};
use std::collections::HashMap;
use variable_coercion::ArgFault;

/// How many bytes the kept calls hold, about, when some are forgotten.
const ROOM: usize = 64_000_000;

/// How often the last call goes for a new one before all are forgotten.
const TURNS: usize = 256;

/// So many calls are looked at, each equal to the next one, for the one that stands for all of them.
const HOPS: usize = 64;

/// So many calls find no room before all that are kept are forgotten.
const REFUSED: usize = 1024;

/// So many calls are made before literals are weighed that write little.
const FEW: usize = 16;

/// Arguments of so many values write little.
const SHORT: usize = 8;

/// The coerced arguments of the call at a place.
#[derive(Drop)]
pub struct BuiltAt {
    pub at: usize,
    pub args: Args,
}

/// Calls, each found by its field and by how its arguments are written.
#[derive(Drop)]
pub struct Calls<'a> {
    pub made: Vec<Call<'a>>,
    /// For some calls, the place of another one whose arguments are equal. The one to which equal calls lead stands for all of them.
    pub equal: Vec<usize>,
    /// For each hash, the place of the last call that has it.
    places: HashMap<u64, usize>,
    /// The place of the call that was found last.
    last: usize,
    /// How many bytes the calls hold, about.
    held: usize,
    /// How often the last call went for a new one since all were forgotten.
    turns: usize,
    /// How many calls found no room since all were forgotten.
    refused: usize,
    /// What arguments come to without being built.
    pub loads: Loads<'a>,
    /// The arguments of the call with which others were compared last.
    pub built: Option<BuiltAt>,
    pub work: Work<'a>,
}

/// How many bytes a call holds, about, if there is one.
fn bytes_with(call: Option<&Call<'_>>) -> usize {
    match call {
        Some(call) => bytes_of(&call.sizes),
        None => 0,
    }
}

impl<'a> Calls<'a> {
    /// None.
    pub fn new(alloc: Global, planning: &Planning<'a>) -> Calls<'a>
        ensures { AreKept (setting_of_planning planning.now) result }
    {
        let weighing = weighing_of(
            planning.schema,
            planning.weights,
            planning.variables,
            planning.work,
        );
        Calls {
            made: Vec::new(alloc),
            equal: Vec::new(alloc),
            places: HashMap::new(alloc),
            last: 0,
            held: 0,
            turns: 0,
            refused: 0,
            loads: no_loads(alloc, weighing),
            built: None,
            work: planning.work,
        }
    }

    /// Whether the call at a place is of this field, with arguments that are written alike.
    fn is_alike_at(&self, at: usize, of: FieldId, field: &Collected<'_>) -> bool
        ensures { IsTrue result → IsAlikeAt self.now.made.items at of.number (collected_field field.now) }
    {
        match self.made.get(at) {
            Some(call) => call.field.written == field.written
                && is_alike(self.work, call, of, field),
            None => false,
        }
    }

    /// The place of a call of this field with arguments that are written alike, if one is known by this hash.
    fn known(&self, hash: u64, of: FieldId, field: &Collected<'_>) -> Option<usize>
        ensures { IfSome result (λ at. IsAlikeAt self.now.made.items at of.number (collected_field field.now)) }
    {
        let at = self.places.get(&hash).copied().unwrap_or(0);
        if self.is_alike_at(at, of, field) {
            Some(at)
        } else {
            None
        }
    }

    /// Forgets all of them.
    fn forget(&mut self)
        ensures made { self.new.made.items ≡ [] }
        ensures kept { (e : Setting) → AreKept e self.old → AreKept e self.new }
    {
        self.made.clear();
        self.equal.clear();
        self.places.clear();
        self.built = None;
        self.held = 0;
        self.turns = 0;
        self.refused = 0;
    }

    /// Puts a call behind the others, under this hash.
    fn put(&mut self, hash: u64, call: Call<'a>) -> Result<(), AllocError>
        ensures put { OnOk result (self.new.made.items ≡ self.old.made.items ++ call.entry ∷ []) }
        ensures kept { (e : Setting) → AreKept e self.old → IsKept e call.entry → AreKept e self.new }
        ensures grows { Grows self.old.made.items self.new.made.items }
    {
        let at = self.made.len();
        let bytes = bytes_of(&call.sizes);
        self.places.insert(hash, at)?;
        self.made.push(call)?;
        self.held = self.held.saturating_add(bytes);
        self.last = at;
        Ok(())
    }

    /// Forgets the last of them, and which are equal.
    fn forget_last(&mut self)
        ensures { (e : Setting) → AreKept e self.old → AreKept e self.new }
    {
        self.equal.clear();
        self.built = None;
        let last = self.made.pop();
        self.held = self.held.saturating_sub(bytes_with(last.as_ref()));
    }

    /// Makes room where none is left. Mostly the last of them goes, so that of many that are made by turns most stay; at times
    /// all go, so that those which aren't made any more don't stay.
    fn make_room(&mut self)
        ensures { (e : Setting) → AreKept e self.old → AreKept e self.new }
    {
        if self.held <= ROOM {
            return;
        }
        if self.turns >= TURNS {
            self.forget();
            return;
        }
        self.turns += 1;
        self.forget_last();
    }

    /// Forgets all where many found no room, so that those which aren't made any more don't keep others out.
    fn forget_where_refused(&mut self)
        ensures { (e : Setting) → AreKept e self.old → AreKept e self.new }
    {
        if self.refused >= REFUSED {
            self.forget();
        }
    }

    /// Whether few calls were made, and a field writes so little that its arguments are built sooner than they are weighed.
    fn are_few(&self, field: &Collected<'_>) -> bool {
        self.made.len() < FEW && !are_more(field.field.arguments.as_slice(), SHORT)
    }

    /// The place of a field's call that is made anew. Where there is no room left, the others are forgotten.
    fn make(
        &mut self,
        alloc: Global,
        planning: &Planning<'a>,
        of: FieldId,
        field: &Collected<'a>,
        hash: u64,
    ) -> Result<usize, ArgFault>
        ensures kept { AreKept (setting_of_planning planning.now) self.old → AreKept (setting_of_planning planning.now) self.new }
        ensures within { IfOk result (λ at. at < length self.new.made.items) }
        ensures found { AreKept (setting_of_planning planning.now) self.old → FindsCall (setting_of_planning planning.now) of.number (collected_field field.now) self.new.made.items result }
    {
        self.make_room();
        let at = self.made.len();
        let few = self.are_few(field);
        match new_call(alloc, planning, of, field, few, &mut self.loads) {
            Ok(call) => {
                self.put(hash, call)?;
                Ok(at)
            }
            Err(fault) => Err(fault),
        }
    }

    /// The place of a field's call. One that is known is taken where it comes to the same, so that one call is made for all
    /// that are written alike, however great the values of their variables are.
    pub fn call_of(
        &mut self,
        alloc: Global,
        planning: &Planning<'a>,
        of: FieldId,
        field: &Collected<'a>,
    ) -> Result<usize, ArgFault>
        ensures kept { AreKept (setting_of_planning planning.now) self.old → AreKept (setting_of_planning planning.now) self.new }
        ensures within { IfOk result (λ at. at < length self.new.made.items) }
        ensures found { AreKept (setting_of_planning planning.now) self.old → FindsCall (setting_of_planning planning.now) of.number (collected_field field.now) self.new.made.items result }
    {
        self.forget_where_refused();
        if self.is_alike_at(self.last, of, field) {
            return Ok(self.last);
        }
        let hash = hash_of(of, field);
        match self.known(hash, of, field) {
            Some(at) => {
                self.last = at;
                Ok(at)
            }
            None => self.make(alloc, planning, of, field, hash),
        }
    }

    /// The place that is noted for a call, or its own.
    fn equal_to(&self, at: usize) -> usize
        ensures { result ≡ get_or self.now.equal.items at at }
    {
        match self.equal.get(at) {
            Some(place) => *place,
            None => at,
        }
    }

    /// The place of the call that stands for all that are equal to one, as far as that is known.
    fn root(&self, at: usize) -> usize
        ensures { (e : Setting) → AreKept e self.now → values_at e self.now.made.items result ≡ values_at e self.now.made.items at }
    {
        let mut root = at;
        let mut hops = 0;
        while hops < HOPS {
            self.work.count(1);
            let next = self.equal_to(root);
            if next == root {
                return root;
            }
            root = next;
            hops += 1;
        }
        root
    }

    /// Notes one call for another whose arguments are equal.
    fn point(&mut self, place: usize, to: usize) -> Result<(), AllocError>
        ensures made { self.new.made.items ≡ self.old.made.items }
        ensures kept { (e : Setting) → AreKept e self.old → values_at e self.old.made.items to ≡ values_at e self.old.made.items place → AreKept e self.new }
    {
        if place >= self.made.len() {
            return Ok(());
        }
        self.work.count(place.saturating_sub(self.equal.len()));
        while self.equal.len() <= place {
            let at = self.equal.len();
            self.equal.push(at)?;
        }
        self.equal[place] = to;
        Ok(())
    }

    /// The arguments of the call at a place.
    fn build(&self, alloc: Global, planning: &Planning<'a>, at: usize) -> Result<Args, ArgFault>
        requires there { at < length self.now.made.items }
        ensures { AreKept (setting_of_planning planning.now) self.now → GivesAt (setting_of_planning planning.now) self.now.made.items at result }
    {
        let call = &self.made[at];
        arguments_of(alloc, planning, call.of, &call.field)
    }

    /// The same. Those that were built last are taken.
    fn take_built(
        &mut self,
        alloc: Global,
        planning: &Planning<'a>,
        at: usize,
    ) -> Result<Args, ArgFault>
        requires there { at < length self.old.made.items }
        ensures made { self.new.made.items ≡ self.old.made.items }
        ensures kept { (e : Setting) → AreKept e self.old → AreKept e self.new }
        ensures given { AreKept (setting_of_planning planning.now) self.old → GivesAt (setting_of_planning planning.now) self.old.made.items at result }
    {
        match self.built.take() {
            Some(BuiltAt { at: place, args }) => {
                if place == at {
                    return Ok(args);
                }
                self.build(alloc, planning, at)
            }
            None => self.build(alloc, planning, at),
        }
    }

    /// Whether the arguments of a field are equal to those of the call at a place, which are built and kept.
    fn compare_built(
        &mut self,
        alloc: Global,
        planning: &Planning<'a>,
        at: usize,
        args: Args,
        of: FieldId,
        field: &Collected<'a>,
    ) -> Result<bool, ArgFault>
        ensures made { self.new.made.items ≡ self.old.made.items }
        ensures kept { GivesAt (setting_of_planning planning.now) self.old.made.items at (Ok args) → AreKept (setting_of_planning planning.now) self.old → AreKept (setting_of_planning planning.now) self.new }
        ensures compares { ComparesArgs (setting_of_planning planning.now) (args_data args) of.number (collected_field field.now) result }
    {
        let same = same_as(alloc, planning, &args, of, field);
        self.built = Some(BuiltAt { at, args });
        same
    }

    /// Whether the arguments of a field are equal to those of the call at a place, as far as that is seen by what is written.
    fn seen_same(
        &mut self,
        alloc: Global,
        at: usize,
        of: FieldId,
        field: &Collected<'a>,
    ) -> Result<bool, AllocError>
        requires there { at < length self.old.made.items }
        ensures made { self.new.made.items ≡ self.old.made.items }
        ensures kept { (e : Setting) → AreKept e self.old → AreKept e self.new }
        ensures same { (e : Setting) → AreKept e self.old → IfOk result (λ same. IsTrue same → IsSameField e self.old.made.items at of.number (collected_field field.now)) }
    {
        let call = &self.made[at];
        let first = call.field;
        if call.of == of {
            let written = first.field.arguments.as_slice();
            let others = field.field.arguments.as_slice();
            return self.loads.are_same(alloc, of, written, others);
        }
        Ok(false)
    }

    /// Whether the arguments of a field are equal to those of the call at a place. They are built only where that isn't seen by
    /// what is written.
    fn compare(
        &mut self,
        alloc: Global,
        planning: &Planning<'a>,
        at: usize,
        of: FieldId,
        field: &Collected<'a>,
    ) -> Result<bool, ArgFault>
        requires there { at < length self.old.made.items }
        ensures made { self.new.made.items ≡ self.old.made.items }
        ensures kept { AreKept (setting_of_planning planning.now) self.old → AreKept (setting_of_planning planning.now) self.new }
        ensures compares { AreKept (setting_of_planning planning.now) self.old → ComparesField (setting_of_planning planning.now) self.old.made.items at of.number (collected_field field.now) result }
    {
        if self.seen_same(alloc, at, of, field)? {
            return Ok(true);
        }
        match self.take_built(alloc, planning, at) {
            Ok(args) => self.compare_built(alloc, planning, at, args, of, field),
            Err(fault) => Err(fault),
        }
    }

    /// Whether the arguments of the calls at two places are equal. What is equal to one and the same isn't compared again.
    fn are_same(
        &mut self,
        alloc: Global,
        planning: &Planning<'a>,
        at: usize,
        place: usize,
    ) -> Result<bool, ArgFault>
        requires there { at < length self.old.made.items }
        requires there_too { place < length self.old.made.items }
        ensures made { self.new.made.items ≡ self.old.made.items }
        ensures kept { AreKept (setting_of_planning planning.now) self.old → AreKept (setting_of_planning planning.now) self.new }
        ensures same { AreKept (setting_of_planning planning.now) self.old → ComparesPlaces (setting_of_planning planning.now) self.old.made.items at place result }
    {
        let one = self.root(at);
        let other = self.root(place);
        if one == other {
            self.point(place, one)?;
            return Ok(true);
        }
        let second = &self.made[place];
        let of = second.of;
        let field = second.field;
        match self.compare(alloc, planning, at, of, &field) {
            Ok(true) => {
                self.point(other, one)?;
                self.point(place, one)?;
                Ok(true)
            }
            Ok(false) => Ok(false),
            Err(fault) => Err(fault),
        }
    }

    /// Puts a call behind the others whose arguments are equal to those of the call at a place, where there is room.
    fn put_same(&mut self, hash: u64, call: Call<'a>, at: usize) -> Result<(), AllocError>
        ensures kept { (e : Setting) → AreKept e self.old → IsKept e call.entry → IsSameAsAt e self.old.made.items at call.entry → AreKept e self.new }
        ensures grows { Grows self.old.made.items self.new.made.items }
    {
        if self.held > ROOM {
            self.refused = self.refused.saturating_add(1);
            return Ok(());
        }
        let place = self.made.len();
        self.put(hash, call)?;
        self.point(place, at)?;
        Ok(())
    }

    /// Whether the arguments of a field differ from those of the call at a place, where its call isn't known.
    fn differs_anew(
        &mut self,
        alloc: Global,
        planning: &Planning<'a>,
        of: FieldId,
        at: usize,
        other: &Collected<'a>,
        hash: u64,
    ) -> Result<bool, ArgFault>
        requires there { at < length self.old.made.items }
        ensures kept { AreKept (setting_of_planning planning.now) self.old → AreKept (setting_of_planning planning.now) self.new }
        ensures grows { Grows self.old.made.items self.new.made.items }
        ensures compares { AreKept (setting_of_planning planning.now) self.old → ComparesAt planning.now of self.old.made.items at other.now result }
    {
        let few = self.are_few(other);
        let call = match new_call(alloc, planning, of, other, few, &mut self.loads) {
            Ok(call) => call,
            Err(fault) => return Err(fault),
        };
        match self.compare(alloc, planning, at, of, other) {
            Ok(true) => {
                self.put_same(hash, call, at)?;
                Ok(false)
            }
            Ok(false) => Ok(true),
            Err(fault) => Err(fault),
        }
    }

    /// Whether the arguments of a field differ from those of the call at a place. Where they are written alike they aren't
    /// compared.
    pub fn differs(
        &mut self,
        alloc: Global,
        planning: &Planning<'a>,
        of: FieldId,
        at: usize,
        other: &Collected<'a>,
    ) -> Result<bool, ArgFault>
        requires there { at < length self.old.made.items }
        ensures kept { AreKept (setting_of_planning planning.now) self.old → AreKept (setting_of_planning planning.now) self.new }
        ensures grows { Grows self.old.made.items self.new.made.items }
        ensures compares { AreKept (setting_of_planning planning.now) self.old → ComparesAt planning.now of self.old.made.items at other.now result }
    {
        if self.is_alike_at(at, of, other) {
            return Ok(false);
        }
        let hash = hash_of(of, other);
        match self.known(hash, of, other) {
            Some(place) => match self.are_same(alloc, planning, at, place) {
                Ok(same) => Ok(!same),
                Err(fault) => Err(fault),
            },
            None => self.differs_anew(alloc, planning, of, at, other, hash),
        }
    }

    /// What the arguments of a field are refused for, if they are. Its call isn't kept.
    pub fn refused(
        &mut self,
        alloc: Global,
        planning: &Planning<'a>,
        of: FieldId,
        field: &Collected<'a>,
    ) -> Result<(), ArgFault>
        ensures made { self.new.made.items ≡ self.old.made.items }
        ensures kept { AreKept (setting_of_planning planning.now) self.old → AreKept (setting_of_planning planning.now) self.new }
        ensures refused { AreKept (setting_of_planning planning.now) self.old → TellsRefusal (setting_of_planning planning.now) of.number (collected_field field.now) result }
    {
        let few = self.are_few(field);
        match self.known(hash_of(of, field), of, field) {
            Some(_) => Ok(()),
            None => match new_call(alloc, planning, of, field, few, &mut self.loads) {
                Ok(_) => Ok(()),
                Err(fault) => Err(fault),
            },
        }
    }
}
