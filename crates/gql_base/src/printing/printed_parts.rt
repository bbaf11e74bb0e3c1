//! Printing of values and types.

ghost use Rattle.std.specs.Prelude.{◌≡◌, ◌∷◌, map, IfOk, OnOk};
ghost use Rattle.gql_base.specs.declared.lexical.token.TokenKind.TheVariants.{Colon};
ghost use Rattle.gql_base.specs.ways.Symbols.{punctuator};
ghost use Rattle.gql_base.specs.printing.Printing.{put_all, printed};
ghost use Rattle.gql_base.specs.printing.Printers.{printed_by};
ghost use Rattle.gql_base.specs.printing.PrintedTrees.{printed_name, boolean_name, value_symbols, values_symbols, fields_symbols, type_symbols};
ghost use Rattle.gql_base.specs.parts.Values.{list_value, object_value, values_from, fields_from};
ghost use Rattle.gql_base.specs.parts.Trees.{value_tree, named_value, type_tree};

use crate::lexical::text::Text;
use crate::lexical::token::TokenKind;
use crate::parts::trees::{Argument, TypeRef, Value};
use crate::printing::printer::Printer;
use std::alloc::{AllocError, Global};

fn boolean_name(value: bool) -> &'static str
    ensures { result.now ≡ boolean_name value }
{
    if value { "true" } else { "false" }
}

/// A value, after what the printer has printed.
#[cycle(printing)]
pub fn write_value(printer: &mut Printer, value: &Value) -> Result<(), AllocError>
    ensures { OnOk result (printed_by printer.new ≡ put_all (printed_by printer.old) (value_symbols (value_tree value.now))) }
{
    match value {
        Value::Var(name) => {
            printer.mark(TokenKind::Dollar)?;
            printer.word(name.text.as_str())
        }
        Value::Int(value) => printer.integer(value),
        Value::Float(digits) => printer.decimal(digits.as_str()),
        Value::Str(text) => printer.string(text.as_str()),
        Value::Bool(value) => printer.word(boolean_name(*value)),
        Value::Null => printer.word("null"),
        Value::EnumName(name) => printer.word(name.text.as_str()),
        Value::List(items) => write_list(printer, items.as_slice()),
        Value::Object(fields) => write_object(printer, fields.as_slice()),
    }
}

#[cycle(printing)]
fn write_list(printer: &mut Printer, items: &[Value]) -> Result<(), AllocError>
    ensures { OnOk result (printed_by printer.new ≡ put_all (printed_by printer.old) (value_symbols (list_value (values_from (map value_tree items.now))))) }
{
    printer.mark(TokenKind::OpenBracket)?;
    write_values(printer, items)?;
    printer.mark(TokenKind::CloseBracket)
}

/// Values, one after the other.
#[cycle(printing)]
fn write_values(printer: &mut Printer, items: &[Value]) -> Result<(), AllocError>
    ensures { OnOk result (printed_by printer.new ≡ put_all (printed_by printer.old) (values_symbols (values_from (map value_tree items.now)))) }
{
    for item in items {
        write_value(printer, item)?;
    }
    Ok(())
}

#[cycle(printing)]
fn write_object(printer: &mut Printer, fields: &[Argument]) -> Result<(), AllocError>
    ensures { OnOk result (printed_by printer.new ≡ put_all (printed_by printer.old) (value_symbols (object_value (fields_from (map named_value fields.now))))) }
{
    printer.mark(TokenKind::OpenBrace)?;
    write_arguments(printer, fields)?;
    printer.mark(TokenKind::CloseBrace)
}

/// Arguments or the fields of an object, one after the other.
#[cycle(printing)]
pub fn write_arguments(printer: &mut Printer, arguments: &[Argument]) -> Result<(), AllocError>
    ensures { OnOk result (printed_by printer.new ≡ put_all (printed_by printer.old) (fields_symbols (fields_from (map named_value arguments.now)))) }
{
    for argument in arguments {
        write_argument(printer, argument)?;
    }
    Ok(())
}

#[cycle(printing)]
fn write_argument(printer: &mut Printer, argument: &Argument) -> Result<(), AllocError>
    ensures { OnOk result (printed_by printer.new ≡ put_all (printed_by printer.old) (printed_name (named_value argument.now).0.0 ∷ punctuator Colon ∷ value_symbols (named_value argument.now).1)) }
{
    printer.word(argument.name.text.as_str())?;
    printer.mark(TokenKind::Colon)?;
    write_value(printer, &argument.value)
}

/// A type, after what the printer has printed.
pub fn write_type(printer: &mut Printer, of: &TypeRef) -> Result<(), AllocError>
    ensures { OnOk result (printed_by printer.new ≡ put_all (printed_by printer.old) (type_symbols (type_tree of.now))) }
{
    match of {
        TypeRef::Named(name) => printer.word(name.text.as_str()),
        TypeRef::ListOf(item) => {
            printer.mark(TokenKind::OpenBracket)?;
            write_type(printer, item)?;
            printer.mark(TokenKind::CloseBracket)
        }
        TypeRef::NonNull(of) => {
            write_type(printer, of)?;
            printer.mark(TokenKind::Bang)
        }
    }
}

/// The printed form of a value: its tokens with one space between two of them, but none after `$`. Strings stand
/// between `"`.
pub fn print_value(alloc: Global, value: &Value) -> Result<Text, AllocError>
    ensures { IfOk result (λ text. text ≡ printed (value_symbols (value_tree value.now))) }
{
    let mut printer = Printer::new(alloc);
    write_value(&mut printer, value)?;
    Ok(printer.finish())
}

/// The printed form of a type: its tokens with one space between two of them.
pub fn print_type_ref(alloc: Global, of: &TypeRef) -> Result<Text, AllocError>
    ensures { IfOk result (λ text. text ≡ printed (type_symbols (type_tree of.now))) }
{
    let mut printer = Printer::new(alloc);
    write_type(&mut printer, of)?;
    Ok(printer.finish())
}
