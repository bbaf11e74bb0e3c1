//! What is seen on the way through the tokens of a schema text.

ghost use Rattle.std.specs.Prelude.{◌≡◌, ◌<◌};
ghost use Rattle.schema_rules.specs.Views.{maybe_place};
ghost use Rattle.definition_places.specs.Sites.{at_first, is_name, opens, closes, leads_on, is_at, depth_after, defines_type, links, refers, outer_site, inner_site, argument_site, bracket_site, site_at, site_of, owner_after, field_after, outer_after, keyword_of, lead_after, seen_after};
ghost use Rattle.definition_places.specs.Views.{walk_seen};

use gql_base::TokenKind;
use schema_rules::Place;

/// What stands before a token.
#[derive(Clone, Copy)]
pub struct Walk<'a> {
    /// How many brackets are open.
    pub depth: usize,
    /// The kind of the token before.
    pub last: TokenKind,
    /// The keyword that may stand before, with nothing but an `@` between; else nothing.
    pub lead: &'a str,
    /// The bracket that is open outside of all others, or was the last.
    pub outer: TokenKind,
    /// The type or the directive that is being defined.
    pub owner: Option<Place<'a>>,
    /// The last of its fields.
    pub field: Option<Place<'a>>,
}

/// What stands before the first token.
pub fn at_first<'a>() -> Walk<'a>
    ensures { walk_seen result ≡ at_first }
{
    Walk {
        depth: 0,
        last: TokenKind::CloseBrace,
        lead: "",
        outer: TokenKind::CloseBrace,
        owner: None,
        field: None,
    }
}

// ---- tokens

fn is_name(kind: TokenKind) -> bool
    ensures { result ≡ is_name kind }
{
    matches!(kind, TokenKind::Name)
}

fn is_at(kind: TokenKind) -> bool
    ensures { result ≡ is_at kind }
{
    matches!(kind, TokenKind::At)
}

fn opens(kind: TokenKind) -> bool
    ensures { result ≡ opens kind }
{
    matches!(
        kind,
        TokenKind::OpenParen | TokenKind::OpenBracket | TokenKind::OpenBrace
    )
}

fn closes(kind: TokenKind) -> bool
    ensures { result ≡ closes kind }
{
    matches!(
        kind,
        TokenKind::CloseParen | TokenKind::CloseBracket | TokenKind::CloseBrace
    )
}

fn leads_on(kind: TokenKind) -> bool
    ensures { result ≡ leads_on kind }
{
    matches!(
        kind,
        TokenKind::Colon | TokenKind::At | TokenKind::Equals | TokenKind::OpenBracket
    )
}

fn links(kind: TokenKind) -> bool
    ensures { result ≡ links kind }
{
    matches!(kind, TokenKind::Equals | TokenKind::Pipe | TokenKind::Amp)
}

// ---- sites

fn defines_type(word: &str) -> bool
    ensures { result ≡ defines_type word.now }
{
    word == "type"
        || word == "interface"
        || word == "union"
        || word == "scalar"
        || word == "enum"
        || word == "input"
}

fn refers(last: TokenKind, lead: &str) -> bool
    ensures { result ≡ refers last lead.now }
{
    is_at(last) || links(last) || lead == "implements"
}

fn outer_site<'a>(last: TokenKind, lead: &str, word: &'a str) -> Option<Place<'a>>
    ensures { maybe_place result ≡ outer_site last lead.now word.now }
{
    if is_at(last) && lead == "directive" {
        return Some(Place::Directive { name: word });
    }
    if is_name(last) && defines_type(lead) {
        return Some(Place::Type { name: word });
    }
    if !refers(last, lead) && word == "schema" {
        return Some(Place::Schema);
    }
    None
}

fn inner_site<'a>(outer: TokenKind, owner: Option<Place<'a>>, word: &'a str) -> Option<Place<'a>>
    ensures { maybe_place result ≡ inner_site outer (maybe_place owner.entry) word.now }
{
    match (outer, owner) {
        (TokenKind::OpenBrace, Some(Place::Type { name })) => Some(Place::Field {
            of: name,
            name: word,
        }),
        (TokenKind::OpenParen, Some(Place::Directive { name })) => Some(Place::DirectiveArgument {
            directive: name,
            name: word,
        }),
        _ => None,
    }
}

fn argument_site<'a>(field: Option<Place<'a>>, word: &'a str) -> Option<Place<'a>>
    ensures { maybe_place result ≡ argument_site (maybe_place field.entry) word.now }
{
    match field {
        Some(Place::Field { of, name }) => Some(Place::Argument {
            of,
            field: name,
            name: word,
        }),
        _ => None,
    }
}

fn bracket_site<'a>(walk: Walk<'a>, word: &'a str) -> Option<Place<'a>>
    ensures { maybe_place result ≡ bracket_site walk.entry.depth (walk_seen walk.entry) word.now }
{
    if walk.depth == 1 {
        inner_site(walk.outer, walk.owner, word)
    } else if walk.depth == 2 {
        argument_site(walk.field, word)
    } else {
        None
    }
}

fn site_at<'a>(walk: Walk<'a>, word: &'a str) -> Option<Place<'a>>
    ensures { maybe_place result ≡ site_at (walk_seen walk.entry) word.now }
{
    if walk.depth == 0 {
        outer_site(walk.last, walk.lead, word)
    } else if leads_on(walk.last) {
        None
    } else {
        bracket_site(walk, word)
    }
}

/// What a token names, where it is one of a definition.
pub fn site_of<'a>(walk: Walk<'a>, kind: TokenKind, word: &'a str) -> Option<Place<'a>>
    ensures { maybe_place result ≡ site_of (walk_seen walk.entry) kind word.now }
{
    if is_name(kind) {
        site_at(walk, word)
    } else {
        None
    }
}

// ---- what stands before the next

fn depth_after(depth: usize, kind: TokenKind) -> usize
    requires { depth < 18446744073709551615 }
    ensures { result ≡ depth_after depth kind }
{
    if opens(kind) {
        depth + 1
    } else if closes(kind) {
        depth.saturating_sub(1)
    } else {
        depth
    }
}

fn owner_after<'a>(owner: Option<Place<'a>>, site: Option<Place<'a>>) -> Option<Place<'a>>
    ensures { maybe_place result ≡ owner_after (maybe_place owner.entry) (maybe_place site.entry) }
{
    match site {
        Some(Place::Type { .. }) | Some(Place::Directive { .. }) => site,
        Some(Place::Schema) => None,
        _ => owner,
    }
}

fn field_after<'a>(field: Option<Place<'a>>, site: Option<Place<'a>>) -> Option<Place<'a>>
    ensures { maybe_place result ≡ field_after (maybe_place field.entry) (maybe_place site.entry) }
{
    match site {
        Some(Place::Field { .. }) => site,
        Some(Place::Argument { .. }) | None => field,
        Some(_) => None,
    }
}

fn outer_after(outer: TokenKind, depth: usize, kind: TokenKind) -> TokenKind
    ensures { result ≡ outer_after outer depth kind }
{
    if depth == 0 && opens(kind) {
        kind
    } else {
        outer
    }
}

fn keyword_of<'a>(walk: Walk<'a>, word: &'a str) -> &'a str
    ensures { result.now ≡ keyword_of (walk_seen walk.entry) word.now }
{
    if site_at(walk, word).is_some() || refers(walk.last, walk.lead) {
        ""
    } else {
        word
    }
}

fn lead_after<'a>(walk: Walk<'a>, kind: TokenKind, word: &'a str) -> &'a str
    ensures { result.now ≡ lead_after (walk_seen walk.entry) kind word.now }
{
    if is_name(kind) {
        keyword_of(walk, word)
    } else if is_at(kind) {
        walk.lead
    } else {
        ""
    }
}

/// What stands before the token behind one.
pub fn walk_after<'a>(walk: Walk<'a>, kind: TokenKind, word: &'a str) -> Walk<'a>
    requires { walk.depth < 18446744073709551615 }
    ensures { walk_seen result ≡ seen_after (walk_seen walk.entry) kind word.now }
{
    let site = site_of(walk, kind, word);
    Walk {
        depth: depth_after(walk.depth, kind),
        last: kind,
        lead: lead_after(walk, kind, word),
        outer: outer_after(walk.outer, walk.depth, kind),
        owner: owner_after(walk.owner, site),
        field: field_after(walk.field, site),
    }
}
