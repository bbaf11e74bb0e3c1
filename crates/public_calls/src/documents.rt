//! Lists of trusted documents, and bodies of requests by one.

use gql_base::Text;
use request_bodies::BodyFault;
use std::alloc::Global;
use std::test::Fail;
use trusted_documents::{
    DOCUMENT_LIMIT, ExpandFault, Expanded, LIST_LIMIT, Trusted, Unread, expand, expand_fault_text,
    read_request_by, read_trusted, trusted_fault_text,
};

// Texts of lists, each with its refusal; nothing where it is read. The first key is the SHA-256 of `abc` (FIPS 180-4).
const LISTS: &[(&str, &str)] = &[
    (
        r#"{"ba7816bf8f01cfea414140de5dae2223b00361a396177a9cb410ff61f20015ad":"abc"}"#,
        "",
    ),
    ("{}", ""),
    (
        r#"{"ba7816bf8f01cfea414140de5dae2223b00361a396177a9cb410ff61f20015ad":3,"ba7816bf8f01cfea414140de5dae2223b00361a396177a9cb410ff61f20015ad":"abc"}"#,
        "",
    ),
    (
        r#"{"ba7816bf8f01cfea414140de5dae2223b00361a396177a9cb410ff61f20015ad":"abc""#,
        "trusted 1 NotJson",
    ),
    (r#"["abc"]"#, "trusted 2 NotObject"),
    (
        r#"{"BA7816BF8F01CFEA414140DE5DAE2223B00361A396177A9CB410FF61F20015AD":"abc"}"#,
        "trusted 4 BadHash BA7816BF8F01CFEA414140DE5DAE2223B00361A396177A9CB410FF61F20015AD",
    ),
    (
        r#"{"ba7816bf8f01cfea414140de5dae2223b00361a396177a9cb410ff61f20015a":"abc"}"#,
        "trusted 4 BadHash ba7816bf8f01cfea414140de5dae2223b00361a396177a9cb410ff61f20015a",
    ),
    (
        r#"{"ba7816bf8f01cfea414140de5dae2223b00361a396177a9cb410ff61f20015ag":"abc"}"#,
        "trusted 4 BadHash ba7816bf8f01cfea414140de5dae2223b00361a396177a9cb410ff61f20015ag",
    ),
    (
        r#"{"a\nb\u0000\u007f\u0080\"":"abc"}"#,
        "trusted 4 BadHash a\\u000ab\\u0000\\u007f\u{80}\"",
    ),
    (
        r#"{"ba7816bf8f01cfea414140de5dae2223b00361a396177a9cb410ff61f20015ad":"abc","ba7816bf8f01cfea414140de5dae2223b00361a396177a9cb410ff61f20015ad":null}"#,
        "trusted 5 NotString ba7816bf8f01cfea414140de5dae2223b00361a396177a9cb410ff61f20015ad",
    ),
    (
        r#"{"ba7816bf8f01cfea414140de5dae2223b00361a396177a9cb410ff61f20015ad":"abd"}"#,
        "trusted 7 WrongHash ba7816bf8f01cfea414140de5dae2223b00361a396177a9cb410ff61f20015ad",
    ),
    (
        r#"{"b":"abc","ba7816bf8f01cfea414140de5dae2223b00361a396177a9cb410ff61f20015ad":"abd"}"#,
        "trusted 4 BadHash b",
    ),
    (
        r#"{"bb":"abc","ba7816bf8f01cfea414140de5dae2223b00361a396177a9cb410ff61f20015ad":"abd"}"#,
        "trusted 7 WrongHash ba7816bf8f01cfea414140de5dae2223b00361a396177a9cb410ff61f20015ad",
    ),
    (
        r#"{"cccccccccccccccccccccccccccccccccccccccccccccccccccccccccccccccc":"abd","bbbbbbbbbbbbbbbbbbbbbbbbbbbbbbbbbbbbbbbbbbbbbbbbbbbbbbbbbbbbbbbb":3,"ba7816bf8f01cfea414140de5dae2223b00361a396177a9cb410ff61f20015ad":"abc"}"#,
        "trusted 5 NotString bbbbbbbbbbbbbbbbbbbbbbbbbbbbbbbbbbbbbbbbbbbbbbbbbbbbbbbbbbbbbbbb",
    ),
];

const LIST: &str =
    r#"{"4fde0939ccf99237eff71494fd68feba25ff12c77d028679f8583dca25cf477a":"{ user { id } }","ba7816bf8f01cfea414140de5dae2223b00361a396177a9cb410ff61f20015ad":"abc"}"#;

// Whether the list above takes no others, a body, and what comes of it: a body, a refusal, or nothing where it stays.
const BODIES: &[(bool, &str, &str)] = &[
    (
        false,
        r#"{"extensions":{"persistedQuery":{"version":1,"sha256Hash":"ba7816bf8f01cfea414140de5dae2223b00361a396177a9cb410ff61f20015ad"}}}"#,
        r#"{"query":"abc"}"#,
    ),
    (
        true,
        r#"{"extensions":{"persistedQuery":{"version":1,"sha256Hash":"4fde0939ccf99237eff71494fd68feba25ff12c77d028679f8583dca25cf477a"}}}"#,
        r#"{"query":"{ user { id } }"}"#,
    ),
    (
        false,
        r#"{"variables":{"b":1.5,"a":null},"extensions":{"persistedQuery":{"version":1,"sha256Hash":"ba7816bf8f01cfea414140de5dae2223b00361a396177a9cb410ff61f20015ad"}},"query":null,"other":[],"operationName":"Q"}"#,
        r#"{"operationName":"Q","other":[],"query":"abc","variables":{"a":null,"b":1.5}}"#,
    ),
    (
        false,
        r#"{"extensions":{"persistedQuery":{"version":1,"sha256Hash":"0000000000000000000000000000000000000000000000000000000000000000"}}}"#,
        "expand 3 UnknownHash",
    ),
    (
        false,
        r#"{"query":null,"extensions":{"persistedQuery":{"version":1,"sha256Hash":"BA7816BF8F01CFEA414140DE5DAE2223B00361A396177A9CB410FF61F20015AD"}}}"#,
        "expand 3 UnknownHash",
    ),
    (false, r#"{"extensions":{"persistedQuery":null}}"#, ""),
    (
        false,
        r#"{"extensions":{"persistedQuery":3}}"#,
        "expand 1 BadExtension",
    ),
    (
        false,
        r#"{"extensions":{"persistedQuery":{"sha256Hash":"ba7816bf8f01cfea414140de5dae2223b00361a396177a9cb410ff61f20015ad"}}}"#,
        "expand 1 BadExtension",
    ),
    (
        false,
        r#"{"extensions":{"persistedQuery":{"version":1.0,"sha256Hash":"ba7816bf8f01cfea414140de5dae2223b00361a396177a9cb410ff61f20015ad"}}}"#,
        "expand 1 BadExtension",
    ),
    (
        false,
        r#"{"extensions":{"persistedQuery":{"version":"1","sha256Hash":"ba7816bf8f01cfea414140de5dae2223b00361a396177a9cb410ff61f20015ad"}}}"#,
        "expand 1 BadExtension",
    ),
    (
        false,
        r#"{"query":"abc","extensions":{"persistedQuery":{"version":2,"sha256Hash":"ba7816bf8f01cfea414140de5dae2223b00361a396177a9cb410ff61f20015ad"}}}"#,
        "expand 1 BadExtension",
    ),
    (
        false,
        r#"{"query":"abc","extensions":{"persistedQuery":{"version":1,"sha256Hash":null}}}"#,
        "expand 1 BadExtension",
    ),
    (
        false,
        r#"{"extensions":{"persistedQuery":{"version":2,"version":1,"sha256Hash":"ba7816bf8f01cfea414140de5dae2223b00361a396177a9cb410ff61f20015ad"}}}"#,
        r#"{"query":"abc"}"#,
    ),
    (false, r#"{"extensions":[{"persistedQuery":3}]}"#, ""),
    (false, r#"{"extensions":{"other":3},"query":"abd"}"#, ""),
    (
        false,
        r#"{"query":"abc","extensions":{"persistedQuery":{"version":1,"sha256Hash":"ba7816bf8f01cfea414140de5dae2223b00361a396177a9cb410ff61f20015ad"}}}"#,
        "",
    ),
    (
        false,
        r#"{"query":"abd","extensions":{"persistedQuery":{"version":1,"sha256Hash":"a52d159f262b2c6ddb724a61840befc36eb30c88877a4030b65cbe86298449c9"}}}"#,
        "",
    ),
    (
        false,
        r#"{"query":"abd","extensions":{"persistedQuery":{"version":1,"sha256Hash":"ba7816bf8f01cfea414140de5dae2223b00361a396177a9cb410ff61f20015ad"}}}"#,
        "expand 2 HashMismatch",
    ),
    (
        false,
        r#"{"query":"abc","extensions":{"persistedQuery":{"version":1,"sha256Hash":"BA7816BF8F01CFEA414140DE5DAE2223B00361A396177A9CB410FF61F20015AD"}}}"#,
        "expand 2 HashMismatch",
    ),
    (
        true,
        r#"{"query":"abd","extensions":{"persistedQuery":{"version":1,"sha256Hash":"ba7816bf8f01cfea414140de5dae2223b00361a396177a9cb410ff61f20015ad"}}}"#,
        "expand 2 HashMismatch",
    ),
    (
        true,
        r#"{"query":"abd","extensions":{"persistedQuery":{"version":1,"sha256Hash":"a52d159f262b2c6ddb724a61840befc36eb30c88877a4030b65cbe86298449c9"}}}"#,
        "expand 4 NotTrusted",
    ),
    (
        true,
        r#"{"query":"abc","extensions":{"persistedQuery":{"version":1,"sha256Hash":"ba7816bf8f01cfea414140de5dae2223b00361a396177a9cb410ff61f20015ad"}}}"#,
        "",
    ),
    (true, r#"{"query":"{ user { id } }"}"#, ""),
    (
        true,
        r#"{"query":"{ user { name } }"}"#,
        "expand 4 NotTrusted",
    ),
    (false, r#"{"query":"{ user { name } }"}"#, ""),
    (
        false,
        r#"{"query":3,"extensions":{"persistedQuery":{"version":1,"sha256Hash":"ba7816bf8f01cfea414140de5dae2223b00361a396177a9cb410ff61f20015ad"}}}"#,
        "",
    ),
    (true, r#"{"variables":{}}"#, ""),
    (true, r#"["abd"]"#, ""),
    (true, r#"{"query":"abd""#, ""),
];

// Whether the list is there, a body, and its query or why it is no request.
const REQUESTS: &[(bool, &str, Result<&str, Unread>)] = &[
    (
        true,
        r#"{"extensions":{"persistedQuery":{"version":1,"sha256Hash":"ba7816bf8f01cfea414140de5dae2223b00361a396177a9cb410ff61f20015ad"}}}"#,
        Ok("abc"),
    ),
    (true, r#"{"query":"abd"}"#, Ok("abd")),
    (
        true,
        r#"{"operationName":3,"variables":3,"extensions":{"persistedQuery":{"version":1,"sha256Hash":"ba7816bf8f01cfea414140de5dae2223b00361a396177a9cb410ff61f20015ad"}}}"#,
        Err(Unread::BadBody(BodyFault::BadName)),
    ),
    (
        true,
        r#"{"variables":[],"extensions":{"persistedQuery":{"version":1,"sha256Hash":"ba7816bf8f01cfea414140de5dae2223b00361a396177a9cb410ff61f20015ad"}}}"#,
        Err(Unread::BadBody(BodyFault::BadVariables)),
    ),
    (
        true,
        r#"{"operationName":3,"extensions":{"persistedQuery":{"version":1,"sha256Hash":"0000000000000000000000000000000000000000000000000000000000000000"}}}"#,
        Err(Unread::Unexpanded(ExpandFault::UnknownHash)),
    ),
    (
        true,
        r#"{"query":3,"extensions":{"persistedQuery":{"version":1,"sha256Hash":"ba7816bf8f01cfea414140de5dae2223b00361a396177a9cb410ff61f20015ad"}}}"#,
        Err(Unread::BadBody(BodyFault::NoQuery)),
    ),
    (
        false,
        r#"{"extensions":{"persistedQuery":{"version":1,"sha256Hash":"ba7816bf8f01cfea414140de5dae2223b00361a396177a9cb410ff61f20015ad"}}}"#,
        Err(Unread::BadBody(BodyFault::NoQuery)),
    ),
    (
        false,
        r#"{"query":"abd","extensions":{"persistedQuery":{"version":1,"sha256Hash":"ba7816bf8f01cfea414140de5dae2223b00361a396177a9cb410ff61f20015ad"}}}"#,
        Ok("abd"),
    ),
];

#[test]
fn lists_are_read_or_refused(rt: HostRuntime) -> Result<(), Fail> {
    let alloc = rt.alloc();
    for (text, refusal) in LISTS {
        assert_eq!(rt; refusal_of(alloc, text)?.as_str(), *refusal);
    }
    Ok(())
}

// The refusal of a text as a list.
fn refusal_of(alloc: Global, text: &str) -> Result<Text, Fail> {
    match read_trusted(alloc, text, false) {
        Ok(_) => Ok(Text::copy_of(alloc, "")?),
        Err(fault) => Ok(trusted_fault_text(alloc, &fault)?),
    }
}

const LONG_DOCUMENT: &str =
    "{\"0000000000000000000000000000000000000000000000000000000000000000\":\"";

// A list with so many entries, none of which is a document.
fn long_list(alloc: Global, count: usize) -> Result<String, Fail> {
    let mut text = String::from_str(alloc, "{\"a\":0")?;
    for number in 1..count {
        text.push_str(format!(in alloc; ",\"{number}\":0")?.as_str())?;
    }
    text.push('}')?;
    Ok(text)
}

// A list whose one document has so many bytes, and another hash.
fn long_document(alloc: Global, length: usize) -> Result<String, Fail> {
    let mut text = String::from_str(alloc, LONG_DOCUMENT)?;
    for _ in 0..length {
        text.push('a')?;
    }
    text.push_str("\"}")?;
    Ok(text)
}

#[test]
fn lists_are_read_up_to_their_limits(rt: HostRuntime) -> Result<(), Fail> {
    let alloc = rt.alloc();
    for (text, refusal) in [
        (long_list(alloc, LIST_LIMIT)?, "trusted 4 BadHash 1"),
        (long_list(alloc, LIST_LIMIT + 1)?, "trusted 3 TooMany 10001"),
        (
            long_document(alloc, DOCUMENT_LIMIT)?,
            "trusted 7 WrongHash 0000000000000000000000000000000000000000000000000000000000000000",
        ),
        (
            long_document(alloc, DOCUMENT_LIMIT + 1)?,
            "trusted 6 TooLong 0000000000000000000000000000000000000000000000000000000000000000",
        ),
    ] {
        assert_eq!(rt; refusal_of(alloc, text.as_str())?.as_str(), refusal);
    }
    Ok(())
}

// What comes of a body.
fn outcome_of(alloc: Global, trusted: &Trusted, body: &str) -> Result<Vec<u8>, Fail> {
    match expand(alloc, trusted, body.as_bytes()) {
        Ok(Expanded::Plain) => Ok(Vec::new(alloc)),
        Ok(Expanded::Body(expanded)) => Ok(expanded),
        Err(fault) => Ok(Vec::from_slice(alloc, expand_fault_text(fault).as_bytes())?),
    }
}

#[test]
fn bodies_are_expanded_or_refused(rt: HostRuntime) -> Result<(), Fail> {
    let alloc = rt.alloc();
    for (only, body, outcome) in BODIES {
        let trusted = read_trusted(alloc, LIST, *only)?;
        assert!(rt; outcome_of(alloc, &trusted, body)?.as_slice() == outcome.as_bytes());
    }
    Ok(())
}

#[test]
fn bodies_are_read_by_a_list(rt: HostRuntime) -> Result<(), Fail> {
    let alloc = rt.alloc();
    let trusted = read_trusted(alloc, LIST, false)?;
    for (listed, body, outcome) in REQUESTS {
        let list = if *listed { Some(&trusted) } else { None };
        match read_request_by(alloc, list, body.as_bytes()) {
            Ok(request) => assert!(rt; *outcome == Ok(request.query.as_str())),
            Err(unread) => assert!(rt; *outcome == Err(unread)),
        }
    }
    Ok(())
}
