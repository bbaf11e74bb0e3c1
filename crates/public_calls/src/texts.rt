//! Texts and trees as they are read and printed, where no command prints them, and the sentences of faults.

use cost_num::WeightFault;
use document_reader::{print_document, read_document};
use gql_base::{Text, index_owned, lex, print_type_ref, print_value, read_type_ref, read_value};
use http_fields::BadLength;
use http_front::FrontFault;
use outside::WriteFault;
use std::alloc::Global;
use std::fmt::InlineText;
use std::test::Fail;
use upstream_link::LinkFault;

const DOCUMENTS: &[(&str, &str)] = &[
    (
        "mutation Q($a: [Int!]! = [1,2] @x, $b: T! @x(y: [A]) @z, $c: [[T]] = {}) @x { a }{b:a(x:$y,z:null){c:d e}}subscription{f}",
        "mutation Q ( $a : [ Int ! ] ! = [ 1 2 ] @x $b : T ! @x ( y : [ A ] ) @z $c : [ [ T ] ] = { } ) @x { a } query { b : a ( x : $y z : null ) { c : d e } } subscription { f }",
    ),
    (
        "query on @x(y: 1) { ...F, ... on T @x { a } ...@x{ c } ...onT } fragment F on on @x { true(x:\"\"\"one \"two\"\nc\\d\"\"\"#,\n,y:\"\\u00e9\") }",
        "query on @x ( y : 1 ) { ... F ... on T @x { a } ... @x { c } ... onT } fragment F on on @x { true ( x : \"one \\\"two\\\"\\nc\\\\d\" y : \"\u{e9}\" ) }",
    ),
];

const VALUE: &str = "{a:-12,b:[true,null,$a,truth,\"\\\"\\\\\\/\\n\\u007f\u{1f600}\"],c:{}} 1";

const PRINTED_VALUE: &str =
    "{ a : -12 b : [ true null $a truth \"\\\"\\\\/\\n\\u007F\u{1f600}\" ] c : { } }";

#[test]
fn documents_are_printed(rt: HostRuntime) -> Result<(), Fail> {
    let alloc = rt.alloc();
    for (text, printed) in DOCUMENTS {
        let document = read_document(alloc, text, false)?;
        assert!(rt; print_document(alloc, &document)?.as_str() == *printed);
    }
    Ok(())
}

// What is printed of the value that a text begins with, and the token behind it.
fn printed_value(alloc: Global, text: &str) -> Result<(Text, usize), Fail> {
    let tokens = lex(alloc, text, false)?;
    let (value, end) = read_value(alloc, &tokens, text, 0)?;
    Ok((print_value(alloc, &value)?, end))
}

// The same of a type.
fn printed_type(alloc: Global, text: &str) -> Result<(Text, usize), Fail> {
    let tokens = lex(alloc, text, false)?;
    let (of, end) = read_type_ref(alloc, &tokens, text, 0)?;
    Ok((print_type_ref(alloc, &of)?, end))
}

#[test]
fn values_and_types_are_printed(rt: HostRuntime) -> Result<(), Fail> {
    let (printed, end) = printed_value(rt.alloc(), VALUE)?;
    assert!(rt; end == 19 && printed.as_str() == PRINTED_VALUE);
    let (printed, end) = printed_type(rt.alloc(), "[[A!]]!b")?;
    assert!(rt; end == 7 && printed.as_str() == "[ [ A ! ] ] !");
    Ok(())
}

#[test]
fn texts_are_shown_and_given_back(rt: HostRuntime) -> Result<(), Fail> {
    let alloc = rt.alloc();
    let text = Text::from(String::from_str(alloc, "caf\u{e9}")?);
    assert!(rt; text == Text::copy_of(alloc, "caf\u{e9}")?);
    let shown = format!(in alloc; "{text} {text:?}")?;
    assert!(rt; shown.as_str() == "caf\u{e9} \"caf\u{e9}\"");
    let mut names = Vec::new(alloc);
    names.push(text)?;
    let mut kept = index_owned(alloc, names)?.into_items();
    assert!(rt; kept.pop().map(|name| name.into_string().len()) == Some(5));
    Ok(())
}

#[test]
fn faults_are_sentences(rt: HostRuntime) {
    let told = InlineText::<64>::of(WeightFault::TooFine { at: 8 });
    assert!(rt; told.as_str() == "the digit at byte 8 is finer than a millionth");
    let told = InlineText::<64>::of(WriteFault);
    assert!(rt; told.as_str() == "the stream took nothing");
    let told = InlineText::<64>::of(BadLength);
    assert!(rt; told.as_str() == "the length of the body is not a number");
    let told = InlineText::<64>::of(FrontFault::Truncated { missing: 3 });
    assert!(rt; told.as_str() == "3 bytes of the body are missing");
    let told = InlineText::<64>::of(LinkFault::Down);
    assert!(rt; told.as_str() == "the upstream did not answer");
}
