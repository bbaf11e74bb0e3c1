//! Numbers of what is written alike. They say where to look for a selection that is repeated, and nothing rests on them. What is given a
//! number is counted here, for its copy too.

use crate::stand_ins::StandIns;
use counted_work::{Work, steps_of_text};
use document_reader::Field;
use gql_base::{Argument, Name, Value};
use std::alloc::{AllocError, Global};
use std::collections::BTreeMap;

/// So many words that are compared are one step.
const WORDS_IN_A_STEP: usize = 8;

/// The numbers of names, of whole numbers, and of what is written with these and with other numbers.
#[derive(Drop)]
pub struct Numbers<'a> {
    names: BTreeMap<&'a str, usize>,
    integers: BTreeMap<i128, usize>,
    words: BTreeMap<Vec<usize>, usize>,
    work: Work<'a>,
}

impl<'a> Numbers<'a> {
    pub(crate) fn new(alloc: Global, work: Work<'a>) -> Numbers<'a> {
        Numbers {
            names: BTreeMap::new(alloc),
            integers: BTreeMap::new(alloc),
            words: BTreeMap::new(alloc),
            work,
        }
    }

    fn name(&mut self, name: &'a str) -> Result<usize, AllocError> {
        match self.names.get(name).copied() {
            Some(number) => Ok(number),
            None => {
                let number = self.names.len();
                self.names.insert(name, number)?;
                Ok(number)
            }
        }
    }

    fn integer(&mut self, value: i128) -> Result<usize, AllocError> {
        match self.integers.get(&value).copied() {
            Some(number) => Ok(number),
            None => {
                let number = self.integers.len();
                self.integers.insert(value, number)?;
                Ok(number)
            }
        }
    }

    /// The number of these words, among which are numbers of names of so many bytes.
    pub(crate) fn of_words(
        &mut self,
        words: Vec<usize>,
        bytes: usize,
    ) -> Result<usize, AllocError> {
        let steps = 1 + words.len() / WORDS_IN_A_STEP;
        self.work.take(steps.wrapping_add(steps_of_text(bytes)))?;
        match self.words.get(words.as_slice()).copied() {
            Some(number) => Ok(number),
            None => {
                let number = self.words.len();
                self.words.insert(words, number)?;
                Ok(number)
            }
        }
    }

    fn put_name(
        &mut self,
        kind: usize,
        name: &'a str,
        words: &mut Vec<usize>,
    ) -> Result<(), AllocError> {
        words.push(kind)?;
        words.push(self.name(name)?)?;
        Ok(())
    }

    fn put_text(
        &mut self,
        kind: usize,
        text: &'a str,
        words: &mut Vec<usize>,
    ) -> Result<(), AllocError> {
        self.work.take(steps_of_text(text.len()))?;
        self.put_name(kind, text, words)
    }

    #[cycle(words)]
    fn put_value(
        &mut self,
        stand_ins: &StandIns<'a>,
        value: &'a Value,
        words: &mut Vec<usize>,
    ) -> Result<(), AllocError> {
        match value {
            Value::Var(name) => self.put_text(1, stand_ins.name_for(name.text.as_str()), words),
            Value::Int(number) => {
                words.push(2)?;
                words.push(self.integer(*number)?)?;
                Ok(())
            }
            Value::Float(text) => self.put_text(20, text.as_str(), words),
            Value::Str(text) => self.put_text(3, text.as_str(), words),
            Value::Bool(truth) => {
                words.push(if *truth { 4 } else { 5 })?;
                Ok(())
            }
            Value::Null => {
                words.push(6)?;
                Ok(())
            }
            Value::EnumName(name) => self.put_text(7, name.text.as_str(), words),
            Value::List(items) => self.put_items(stand_ins, items.as_slice(), words),
            Value::Object(fields) => self.put_arguments(stand_ins, fields.as_slice(), words),
        }
    }

    #[cycle(words)]
    fn put_items(
        &mut self,
        stand_ins: &StandIns<'a>,
        items: &'a [Value],
        words: &mut Vec<usize>,
    ) -> Result<(), AllocError> {
        self.work.take(items.len())?;
        words.push(8)?;
        words.push(items.len())?;
        'items: for item in items {
            self.put_value(stand_ins, item, words)?;
        }
        Ok(())
    }

    #[cycle(words)]
    fn put_arguments(
        &mut self,
        stand_ins: &StandIns<'a>,
        arguments: &'a [Argument],
        words: &mut Vec<usize>,
    ) -> Result<(), AllocError> {
        words.push(9)?;
        words.push(arguments.len())?;
        'arguments: for argument in arguments {
            let name = argument.name.text.as_str();
            self.work.take(steps_of_text(name.len()).wrapping_add(2))?;
            words.push(self.name(name)?)?;
            self.put_value(stand_ins, &argument.value, words)?;
        }
        Ok(())
    }

    /// The number of a field whose selections have a number.
    pub(crate) fn of_field(
        &mut self,
        alloc: Global,
        stand_ins: &StandIns<'a>,
        field: &'a Field,
        below: usize,
    ) -> Result<usize, AllocError> {
        let mut words = Vec::new(alloc);
        let name = field.name.text.as_str();
        let key = match &field.alias {
            Some(alias) => alias.text.as_str(),
            None => name,
        };
        self.put_name(10, key, &mut words)?;
        words.push(self.name(name)?)?;
        words.push(below)?;
        self.put_arguments(stand_ins, field.arguments.as_slice(), &mut words)?;
        self.of_words(words, key.len().wrapping_add(name.len()))
    }

    /// The number of the spread of a fragment.
    pub(crate) fn of_spread(&mut self, alloc: Global, name: &'a Name) -> Result<usize, AllocError> {
        let mut words = Vec::new(alloc);
        let name = name.text.as_str();
        self.put_name(11, name, &mut words)?;
        self.of_words(words, name.len())
    }

    /// The number of an inline fragment whose selections have a number.
    pub(crate) fn of_inline(
        &mut self,
        alloc: Global,
        on: &'a Option<Name>,
        below: usize,
    ) -> Result<usize, AllocError> {
        let mut words = Vec::new(alloc);
        let bytes = match on {
            Some(name) => {
                let name = name.text.as_str();
                self.put_name(12, name, &mut words)?;
                name.len()
            }
            None => {
                words.push(13)?;
                0
            }
        };
        words.push(below)?;
        self.of_words(words, bytes)
    }
}
