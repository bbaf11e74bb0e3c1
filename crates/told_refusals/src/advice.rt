//! What is wrong, and what helps, by refusal.

/// What is said of the refusals with this fault. In a sentence `{1}` stands for the first of a refusal's fields, `{2}` for those behind it, `{*}` for all
/// of them, `{@}` for the name at its place, and `{(}` and `{)}` for braces.
pub struct Advice {
    /// The number and the name of the fault.
    pub fault: &'static str,
    /// Those of the fault behind the first field; empty where there are none.
    pub inner: &'static str,
    /// What is wrong.
    pub wrong: &'static str,
    /// A change that helps.
    pub helps: &'static str,
}

/// What refusals begin with, and the stages whose sentences are said of them, the first that has some.
pub const STAGES: &[(&str, &str)] = &[
    ("document 1 Lex", "tokens"),
    ("text 1 Lex", "tokens"),
    ("local 2 Rule", "schema of schemas"),
    ("local 2 Rule", "rule"),
    ("local 3 Variable", "variable"),
    ("local 4 Plan", "plan"),
    ("input", "input"),
    ("body", "body"),
    ("text", "text"),
    ("schema", "schema"),
    ("directive", "directive"),
    ("document", "document"),
    ("pick", "pick"),
    ("rule", "rule"),
    ("variable", "variable"),
    ("plan", "plan"),
    ("bound", "bound"),
    ("local", "local"),
    ("worst", "worst"),
    ("work", "work"),
    ("clients", "clients"),
    ("script", "script"),
    ("trusted", "trusted"),
    ("meter", "meter"),
];

/// The sentences of a stage.
pub(crate) fn advice_of(stage: &str) -> &'static [Advice] {
    match stage {
        "input" => INPUT,
        "body" => BODY,
        "tokens" => TOKENS,
        "text" => TEXT,
        "schema" => SCHEMA,
        "directive" => DIRECTIVE,
        "document" => DOCUMENT,
        "pick" => PICK,
        "schema of schemas" => OVER_SCHEMAS,
        "rule" => RULE,
        "variable" => VARIABLE,
        "plan" => PLAN,
        "bound" => BOUND,
        "local" => LOCAL,
        "worst" => WORST,
        "work" => WORK,
        "clients" => CLIENTS,
        "script" => SCRIPT,
        "trusted" => TRUSTED,
        "meter" => METER,
        _ => &[],
    }
}

/// Files that are longer than they may be, or no text.
const INPUT: &[Advice] = &[
    Advice {
        fault: "1 TooLarge",
        inner: "",
        wrong: "The file {*} is longer than the bytes that are read of it.",
        helps: "Make it shorter; the limit is fixed.",
    },
    Advice {
        fault: "2 NotText",
        inner: "",
        wrong: "The file {*} isn't UTF-8.",
        helps: "Save it as UTF-8.",
    },
];

/// Files of variables.
const BODY: &[Advice] = &[
    Advice {
        fault: "1 NotJson",
        inner: "",
        wrong: "The file of variables isn't JSON.",
        helps: "Write one JSON object, for example {(}\"id\": \"7\"{)}.",
    },
    Advice {
        fault: "5 BadVariables",
        inner: "",
        wrong: "The file of variables holds JSON that isn't an object.",
        helps: "Put the values into one object, by the names of the variables without the $.",
    },
];

/// Texts that are not made of tokens.
const TOKENS: &[Advice] = &[
    Advice {
        fault: "1 BadChar",
        inner: "",
        wrong: "The character at the mark begins no token, or is a control character inside a string or a comment.",
        helps: "Remove it, or put it into a string; `...` has three dots.",
    },
    Advice {
        fault: "2 BadNumber",
        inner: "",
        wrong: "What begins at the mark is no whole number of at most 128 bits: a number has no leading zero, and no letter follows it.",
        helps: "Write the number without leading zeros, or put it into quotation marks.",
    },
    Advice {
        fault: "3 OpenText",
        inner: "",
        wrong: "The string that begins at the mark isn't closed.",
        helps: "Close it with `\"` on its line, or write it between three of them.",
    },
    Advice {
        fault: "4 BadEscape",
        inner: "",
        wrong: "The `\\` at the mark begins none of the escapes of strings.",
        helps: "Write one of `\\\" \\\\ \\/ \\b \\f \\n \\r \\t`, or `\\u` with four hexadecimal digits.",
    },
    Advice {
        fault: "5 FloatValue",
        inner: "",
        wrong: "The number that begins at the mark has a fraction or an exponent.",
        helps: "Write a whole number, or a string; a schema with the line `scalar Float @floats` lets such a number in.",
    },
];

/// Texts that are no schema text.
const TEXT: &[Advice] = &[
    Advice {
        fault: "2 Unexpected",
        inner: "",
        wrong: "{@} can't follow what stands before it.",
        helps: "Look at what stands in front of it: no braces and no parentheses are empty, and each opening one has its closing one.",
    },
    Advice {
        fault: "3 Extension",
        inner: "",
        wrong: "A type extension begins at the mark, and extensions aren't read.",
        helps: "Write its fields into the definition of the type.",
    },
    Advice {
        fault: "4 TooDeep",
        inner: "",
        wrong: "{@} opens a 51st level of lists, objects or list types.",
        helps: "Nest at most 50 of them.",
    },
];

/// Schemas.
const SCHEMA: &[Advice] = &[
    Advice {
        fault: "1 TooMany",
        inner: "",
        wrong: "The schema has {1} types or fields, and may have 5,000 types and 50,000 fields.",
        helps: "Leave out what the gateway's clients don't ask for, or split the schema.",
    },
    Advice {
        fault: "2 Repeated",
        inner: "",
        wrong: "{*} is defined a second time.",
        helps: "Remove one of the two, or rename it.",
    },
    Advice {
        fault: "3 Reserved",
        inner: "",
        wrong: "The name of {*} begins with two underscores, which only names of introspection may.",
        helps: "Rename it.",
    },
    Advice {
        fault: "4 UnknownType",
        inner: "",
        wrong: "No type is called {*}.",
        helps: "Define it, or write its name as it is defined.",
    },
    Advice {
        fault: "5 NoQuery",
        inner: "",
        wrong: "The schema has no type of queries.",
        helps: "Define `type Query`, or name one by `schema {(} query: NAME {)}`.",
    },
    Advice {
        fault: "6 WrongKind",
        inner: "",
        wrong: "The type that is named at {*} is of a kind that may not stand there.",
        helps: "Use an input type for arguments and input fields, an output type for fields, object types as roots and members, and interfaces behind `implements`.",
    },
    Advice {
        fault: "7 FloatScalar",
        inner: "",
        wrong: "{*} is of the type Float, which this schema doesn't let in.",
        helps: "Write the line `scalar Float @floats`; or let the server send a whole number or a string there, and write Int, String, or a scalar of your own.",
    },
    Advice {
        fault: "8 NestedList",
        inner: "",
        wrong: "The field {*} returns a list of lists.",
        helps: "Put an object type between the two lists.",
    },
    Advice {
        fault: "9 EmptyType",
        inner: "",
        wrong: "The type {*} has no fields, values or members.",
        helps: "Give it one, or remove it.",
    },
    Advice {
        fault: "10 NotImplemented",
        inner: "",
        wrong: "{*} isn't as an interface that its type implements asks for.",
        helps: "Give the type the interface's interfaces, fields and arguments, with the same types or narrower ones, and no further argument that is required.",
    },
    Advice {
        fault: "11 BadDirective",
        inner: "",
        wrong: "The `@cost`, `@listSize` or `@floats` at {*} isn't allowed there, stands twice, or has arguments that it may not have.",
        helps: "Write `@cost(weight: \"1.5\")` or `@listSize(assumedSize: 10)`, once, with arguments of these types, and `@floats` at scalars alone.",
    },
    Advice {
        fault: "12 BadDefault",
        inner: "",
        wrong: "The default of {*} is no value of its type, leads back to itself, or has more than 1,000 parts.",
        helps: "Write a value of the type, or leave the default out.",
    },
];

/// Cost directives.
const DIRECTIVE: &[Advice] = &[
    Advice {
        fault: "1 Weight",
        inner: "1 Empty",
        wrong: "The weight at {1} is empty.",
        helps: "Write a decimal number, as in `weight: \"1.5\"`.",
    },
    Advice {
        fault: "1 Weight",
        inner: "2 Negative",
        wrong: "The weight at {1} is negative.",
        helps: "Write 0 or more: nothing costs less than nothing.",
    },
    Advice {
        fault: "1 Weight",
        inner: "3 Exponent",
        wrong: "The weight at {1} has an exponent.",
        helps: "Write it out: `\"1000\"` for `\"1e3\"`.",
    },
    Advice {
        fault: "1 Weight",
        inner: "4 BadDigit",
        wrong: "Character {2} of the weight at {1}, counted from 0, is no digit.",
        helps: "Write digits, and digits behind one dot at most.",
    },
    Advice {
        fault: "1 Weight",
        inner: "5 TooFine",
        wrong: "The weight at {1} has a seventh decimal place.",
        helps: "Round it to six places.",
    },
    Advice {
        fault: "1 Weight",
        inner: "6 TooLarge",
        wrong: "The weight at {1} is greater than 1000000.",
        helps: "Write a smaller one.",
    },
    Advice {
        fault: "2 NotAList",
        inner: "",
        wrong: "{1} isn't a list, and its `@listSize` hands no size down.",
        helps: "Remove the directive, or add `sizedFields` with the list fields below it.",
    },
    Advice {
        fault: "3 Dotted",
        inner: "",
        wrong: "A name in the `@listSize` of {1} has a dot; paths into values aren't supported.",
        helps: "Name an argument or a field itself.",
    },
    Advice {
        fault: "4 SlicingUnknown",
        inner: "",
        wrong: "{1} has no argument {2}, which its `slicingArguments` name.",
        helps: "Write the name of one of its arguments.",
    },
    Advice {
        fault: "5 SlicingNotInt",
        inner: "",
        wrong: "The argument {2} of {1} isn't an Int, and can't say how long the list is.",
        helps: "Slice by an argument of the type Int or Int!.",
    },
    Advice {
        fault: "6 SizedOnList",
        inner: "",
        wrong: "{1} is a list itself, and can't hand a size down by `sizedFields`.",
        helps: "Write `sizedFields` at a field that returns one object.",
    },
    Advice {
        fault: "7 SizedUnknown",
        inner: "",
        wrong: "{2} is no list field of the type that {1} returns.",
        helps: "Name a list field of that type; a union has none.",
    },
    Advice {
        fault: "8 NegativeSize",
        inner: "",
        wrong: "The `assumedSize` of {1} is negative.",
        helps: "Write 0 or more.",
    },
    Advice {
        fault: "9 Disagree",
        inner: "",
        wrong: "The interfaces of {1} give it different weights or sizes.",
        helps: "Write a `@cost` or `@listSize` of its own at the field.",
    },
];

/// Texts that are no document.
const DOCUMENT: &[Advice] = &[
    Advice {
        fault: "2 Unexpected",
        inner: "",
        wrong: "{@} can't follow what stands before it.",
        helps: "Look at what stands in front of it: each opening brace and parenthesis has its closing one, and none is empty.",
    },
    Advice {
        fault: "3 TooDeep",
        inner: "",
        wrong: "{@} opens a 51st level of selections, lists or objects.",
        helps: "Split the operation: 50 levels are the limit.",
    },
];

/// Which operation is meant.
const PICK: &[Advice] = &[
    Advice {
        fault: "1 NoOperation",
        inner: "",
        wrong: "The document has fragments alone, and no operation.",
        helps: "Add a query.",
    },
    Advice {
        fault: "2 Several",
        inner: "",
        wrong: "The document has {1} operations, and none was named.",
        helps: "Name one: `--operation NAME`.",
    },
    Advice {
        fault: "3 NotThere",
        inner: "",
        wrong: "The document has no operation with the name that was given.",
        helps: "Give the name of one that it has.",
    },
];

/// Rules of documents.
const RULE: &[Advice] = &[
    Advice {
        fault: "1 RepeatedName",
        inner: "",
        wrong: "A second operation or fragment is called {@}.",
        helps: "Give each a name of its own.",
    },
    Advice {
        fault: "2 LoneAnonymous",
        inner: "",
        wrong: "The operation at the mark has no name, and stands beside others.",
        helps: "Name every operation of the document.",
    },
    Advice {
        fault: "3 Subscription",
        inner: "",
        wrong: "The operation is a subscription, which isn't served.",
        helps: "Send a query or a mutation.",
    },
    Advice {
        fault: "4 NoRoot",
        inner: "",
        wrong: "The operation is a mutation, and the schema has none.",
        helps: "Send a query; or define `type Mutation` in the schema, and where it has a `schema {(} .. {)}`, write `mutation: Mutation` into that.",
    },
    Advice {
        fault: "5 UnknownFragment",
        inner: "",
        wrong: "The document has no fragment called {@}.",
        helps: "Define it, or remove the spread.",
    },
    Advice {
        fault: "6 FragmentCycle",
        inner: "",
        wrong: "The fragment {@} comes back to itself by this spread.",
        helps: "Write the fields out, as deep as they are needed.",
    },
    Advice {
        fault: "7 FragmentOn",
        inner: "",
        wrong: "{@} is no object, interface or union type.",
        helps: "Put the condition on a type that has fields, or on a union.",
    },
    Advice {
        fault: "8 UnknownDirective",
        inner: "",
        wrong: "The schema defines no directive {@}.",
        helps: "Remove it; `@skip` and `@include` are supported.",
    },
    Advice {
        fault: "9 CustomDirective",
        inner: "",
        wrong: "The directive {@} is the schema's own; only `@skip` and `@include` are supported in operations.",
        helps: "Remove it.",
    },
    Advice {
        fault: "10 DirectiveUse",
        inner: "",
        wrong: "The directive {@} stands where it may not, stands twice, or has other arguments than one `if`.",
        helps: "Write it once, at a field, a spread or an inline fragment, with `(if: true)` or `(if: $v)`.",
    },
    Advice {
        fault: "11 Introspection",
        inner: "",
        wrong: "Of the names that begin with two underscores, `__typename` is taken everywhere, and `__schema` and `__type` only at the root of a query that asks for nothing else; {@} is none of these here.",
        helps: "Ask for a field that the type has, or for the schema in a query of its own.",
    },
    Advice {
        fault: "12 UnknownField",
        inner: "",
        wrong: "The type at this place has no field {@}.",
        helps: "Ask for a field that it has, or put this one into a fragment on the type that has it.",
    },
    Advice {
        fault: "13 LeafWithSelection",
        inner: "",
        wrong: "The field {@} returns a value without fields, and some are selected of it.",
        helps: "Remove the braces behind it.",
    },
    Advice {
        fault: "14 CompositeWithout",
        inner: "",
        wrong: "The field {@} returns an object, and nothing of it is selected.",
        helps: "Select fields of it: `{@} {(} .. {)}`.",
    },
    Advice {
        fault: "15 RepeatedVariable",
        inner: "",
        wrong: "The variable {@} is declared twice.",
        helps: "Declare it once.",
    },
    Advice {
        fault: "16 VariableType",
        inner: "",
        wrong: "{@} is no scalar, enum or input object type that a variable may have.",
        helps: "Give the variable such a type; Float is one where the schema has the line `scalar Float @floats`.",
    },
    Advice {
        fault: "17 UndefinedVariable",
        inner: "",
        wrong: "The operation doesn't declare the variable {@}.",
        helps: "Declare it behind the name of the operation, with its type.",
    },
    Advice {
        fault: "18 UnknownArgument",
        inner: "",
        wrong: "The field has no argument {@}.",
        helps: "Write an argument that it has, or remove this one.",
    },
    Advice {
        fault: "19 RepeatedArgument",
        inner: "",
        wrong: "The argument {@} is written twice.",
        helps: "Write it once.",
    },
    Advice {
        fault: "20 VariablePlace",
        inner: "",
        wrong: "The type of the variable {@} doesn't fit this place.",
        helps: "Declare it with the type that is taken here, or give it a default where only null is in the way.",
    },
];

/// Rules of documents that ask for the schema, whose operations are checked over the schema of schemas.
const OVER_SCHEMAS: &[Advice] = &[
    Advice {
        fault: "7 FragmentOn",
        inner: "",
        wrong: "An operation that asks for the schema has conditions on its root type and on the object types of introspection alone, and {@} is none of these.",
        helps: "Put the condition on the root type, or select the fields without one.",
    },
    Advice {
        fault: "8 UnknownDirective",
        inner: "",
        wrong: "An operation that asks for the schema has the directives `@skip` and `@include` alone, and {@} is none of these.",
        helps: "Remove it.",
    },
    Advice {
        fault: "16 VariableType",
        inner: "",
        wrong: "The variables of an operation that asks for the schema are of String, Boolean, Int, ID or the enums of introspection, and {@} is none of these.",
        helps: "Declare only the variables that its own arguments take, as String or Boolean.",
    },
];

/// Values of variables.
const VARIABLE: &[Advice] = &[
    Advice {
        fault: "1 Missing",
        inner: "",
        wrong: "The variable {1} has no value, and its type needs one.",
        helps: "Give one in the file of `--variables`, or declare a default.",
    },
    Advice {
        fault: "2 BadValue",
        inner: "",
        wrong: "The value at {*} is none of its type.",
        helps: "Give a value of the type; a number is whole, and an enum's value is spelled as in the schema.",
    },
    Advice {
        fault: "3 TooLarge",
        inner: "",
        wrong: "The value of {1} has more than 20,000 parts.",
        helps: "Give fewer at once.",
    },
];

/// Plans.
const PLAN: &[Advice] = &[
    Advice {
        fault: "1 Argument",
        inner: "1 Missing",
        wrong: "At {1} the argument {2} has no value, and its type needs one.",
        helps: "Write it, or give its variable a value.",
    },
    Advice {
        fault: "1 Argument",
        inner: "2 BadValue",
        wrong: "At {1} the value of the argument {2} is none of its type.",
        helps: "Write a value of the type.",
    },
    Advice {
        fault: "1 Argument",
        inner: "3 TooLarge",
        wrong: "At {1} the value of the argument {2} has more than 20,000 parts.",
        helps: "Write fewer at once.",
    },
    Advice {
        fault: "2 Conflict",
        inner: "",
        wrong: "At {1} two fields of one response key differ in their names or arguments.",
        helps: "Give one of them an alias.",
    },
    Advice {
        fault: "3 Size",
        inner: "1 SlicingCount",
        wrong: "At {1} {2} slicing arguments are given, and the list needs just one of them.",
        helps: "Write one of those that the schema names, or set `requireOneSlicingArgument: false` there.",
    },
    Advice {
        fault: "3 Size",
        inner: "2 NegativeSlice",
        wrong: "At {1} a slicing argument is {2}, which is negative.",
        helps: "Write 0 or more.",
    },
    Advice {
        fault: "4 NoPossibleType",
        inner: "",
        wrong: "At {1} no object can stand: no type implements the interface.",
        helps: "Let a type implement it, or don't ask for the field.",
    },
    Advice {
        fault: "5 TooLarge",
        inner: "",
        wrong: "The operation has more than 20,000 nodes.",
        helps: "Split it.",
    },
    Advice {
        fault: "6 TooDeep",
        inner: "",
        wrong: "{1} is 51 fields deep.",
        helps: "Split the operation: 50 levels are the limit.",
    },
];

/// Bounds.
const BOUND: &[Advice] = &[
    Advice {
        fault: "1 TooCostly types",
        inner: "",
        wrong: "A response may hold values that cost more than 1000000000000.",
        helps: "Ask for smaller lists or fewer levels of them, or declare smaller sizes in the schema.",
    },
    Advice {
        fault: "1 TooCostly fields",
        inner: "",
        wrong: "The fields of a response may cost more than 1000000000000.",
        helps: "Ask for smaller lists or fewer levels of them, or declare smaller sizes in the schema.",
    },
    Advice {
        fault: "1 TooCostly both",
        inner: "",
        wrong: "Both the values and the fields of a response may cost more than 1000000000000.",
        helps: "Ask for smaller lists or fewer levels of them, or declare smaller sizes in the schema.",
    },
];

/// Answers from the schema.
const LOCAL: &[Advice] = &[
    Advice {
        fault: "1 Mixed",
        inner: "",
        wrong: "Beside a field that asks for the schema stands {@}, which doesn't.",
        helps: "Send the two in operations of their own.",
    },
    Advice {
        fault: "5 TooLarge",
        inner: "",
        wrong: "The answer has more than 1,000,000 values.",
        helps: "Ask for fewer types, or for less of each.",
    },
    Advice {
        fault: "7 NotLocal",
        inner: "",
        wrong: "The operation doesn't ask for the schema.",
        helps: "Ask for `__schema` or `__type`, or use `price`.",
    },
];

/// Responses that are written out.
const WORST: &[Advice] = &[Advice {
    fault: "1 TooLarge",
    inner: "",
    wrong: "The response has more than 100,000 values.",
    helps: "Take smaller lists; `price` and `explain` tell its cost without writing it.",
}];

/// Operations that take many steps.
const WORK: &[Advice] = &[Advice {
    fault: "1 TooMuch",
    inner: "",
    wrong: "To price the operation takes more steps than `--most-work` says.",
    helps: "Write it shorter, with fewer fragments on interfaces, or give a greater number.",
}];

/// Client files.
const CLIENTS: &[Advice] = &[
    Advice {
        fault: "1 BadLine",
        inner: "",
        wrong: "Line {1} of the client file isn't written as it has to be.",
        helps: "Write `KEY TYPES FIELDS` with single spaces, below a line `clients 2` and a line `window SECONDS`.",
    },
    Advice {
        fault: "2 Repeated",
        inner: "",
        wrong: "The client of line {1} has the key of an earlier one.",
        helps: "Give each client a key of its own.",
    },
    Advice {
        fault: "3 TooMany",
        inner: "",
        wrong: "Line {1} names the 1,001st client.",
        helps: "Keep at most 1,000 clients in a file.",
    },
    Advice {
        fault: "4 NoClient",
        inner: "",
        wrong: "The client file names no client.",
        helps: "Add a line for one: `KEY TYPES FIELDS`.",
    },
];

/// Scripts of a replay.
const SCRIPT: &[Advice] = &[
    Advice {
        fault: "1 BadLine",
        inner: "",
        wrong: "Line {1} of the script is no step.",
        helps: "Write `begin ID KEY MOMENT BODY`, `end ID BODY`, `down ID` or `fail ID`, and at most 10,000 lines.",
    },
    Advice {
        fault: "2 RepeatedId",
        inner: "",
        wrong: "Line {1} begins a request with the id of an earlier one.",
        helps: "Give each request an id of its own.",
    },
    Advice {
        fault: "3 UnknownId",
        inner: "",
        wrong: "Line {1} ends a request that no line before it begins.",
        helps: "Begin it in an earlier line, or correct its id.",
    },
];

/// Lists of trusted documents.
const TRUSTED: &[Advice] = &[
    Advice {
        fault: "1 NotJson",
        inner: "",
        wrong: "The list of trusted documents isn't JSON.",
        helps: "Write one JSON object, from the hash of each document to its text.",
    },
    Advice {
        fault: "2 NotObject",
        inner: "",
        wrong: "The list of trusted documents is JSON, and no object.",
        helps: "Write one JSON object, from the hash of each document to its text.",
    },
    Advice {
        fault: "3 TooMany",
        inner: "",
        wrong: "The list of trusted documents has {1} entries.",
        helps: "Keep at most 10,000 documents in a list.",
    },
    Advice {
        fault: "4 BadHash",
        inner: "",
        wrong: "The key {*} is no hash.",
        helps: "Write the SHA-256 of the document as 64 digits from 0 to 9 and a to f.",
    },
    Advice {
        fault: "5 NotString",
        inner: "",
        wrong: "The value under the hash {*} is no string.",
        helps: "Write the text of the document there.",
    },
    Advice {
        fault: "6 TooLong",
        inner: "",
        wrong: "The document under the hash {*} has more than 262,144 bytes.",
        helps: "Make it shorter, or split it.",
    },
    Advice {
        fault: "7 WrongHash",
        inner: "",
        wrong: "The hash {*} isn't that of the document under it.",
        helps: "Write the SHA-256 of the document's bytes, just as they stand in the list.",
    },
];

/// Replies.
const METER: &[Advice] = &[
    Advice {
        fault: "1 NotResponse",
        inner: "NotJson",
        wrong: "The reply isn't JSON.",
        helps: "Look at what the server sent.",
    },
    Advice {
        fault: "1 NotResponse",
        inner: "NotObject",
        wrong: "The reply is JSON, and no object.",
        helps: "Look at what the server sent.",
    },
    Advice {
        fault: "1 NotResponse",
        inner: "BadErrors",
        wrong: "`errors` of the reply is no list of objects with a `message`.",
        helps: "Mend the server's errors.",
    },
    Advice {
        fault: "1 NotResponse",
        inner: "NoData",
        wrong: "The reply has neither `data` nor an error.",
        helps: "Look at what the server sent.",
    },
    Advice {
        fault: "1 NotResponse",
        inner: "MissingKey",
        wrong: "{1} isn't there, though it was asked for.",
        helps: "See that the reply belongs to this operation, and that the server leaves no field out.",
    },
    Advice {
        fault: "1 NotResponse",
        inner: "ExtraKey",
        wrong: "The object at {1} has a key that wasn't asked for.",
        helps: "See that the reply belongs to this operation.",
    },
    Advice {
        fault: "1 NotResponse",
        inner: "NullHere",
        wrong: "{1} is null, and the schema says that it never is.",
        helps: "Mend the server, or remove the `!` in the schema.",
    },
    Advice {
        fault: "1 NotResponse",
        inner: "NotList",
        wrong: "{1} is no list.",
        helps: "Mend the server or the schema, whichever is wrong.",
    },
    Advice {
        fault: "1 NotResponse",
        inner: "BadLeaf",
        wrong: "The value at {1} is none of its type.",
        helps: "Mend the server or the schema, whichever is wrong; a number with a fraction is taken nowhere, so let the server send a whole number or a string.",
    },
    Advice {
        fault: "1 NotResponse",
        inner: "BadType",
        wrong: "The object at {1} doesn't say, or says wrongly, of which type it is.",
        helps: "Send the upstream what `forward` prints.",
    },
    Advice {
        fault: "1 NotResponse",
        inner: "BadObject",
        wrong: "{1} is no object.",
        helps: "Mend the server or the schema, whichever is wrong.",
    },
    Advice {
        fault: "2 SizeBroken",
        inner: "",
        wrong: "The list at {1} is longer than its declared size: size and length are {2}.",
        helps: "Raise the size in the schema, or mend the server.",
    },
];
