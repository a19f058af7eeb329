//! The calls of `scim_filter` and `scim_filter_grammar`.
use case_values::{
    Case, CaseFault, attribute_name, between, debugged, joined, named, push_all, said, shown,
    spaced_text, truth,
};
use scim_cell::Text;
use scim_filter::{holds, holds_at};
use scim_filter_grammar::{
    Filter, FilterFault, Literal, Meant, Named, Node, Operator, Token, WrittenPath, attribute_path,
    knows_names, lone_word, mentioned_names, read_filter, read_tokens, written_path,
};
use scim_samples::leaf_text;
use scim_schema::Leaf;
use scim_text::Failed;
use std::alloc::Global;
use std::str;

/// A call of `scim_filter` or `scim_filter_grammar`.
#[derive(Clone, Copy)]
enum FilterCall {
    OnFilter(OfFilter),
    Names,
    Tokens,
    AttributePath,
    LoneWord,
    WrittenPath,
}

/// A call on a filter.
#[derive(Clone, Copy)]
enum OfFilter {
    Tree,
    Holds,
    HoldsAt,
    KnowsNames,
    String,
}

static CALLS: [(&str, FilterCall); 10] = [
    ("read_filter", FilterCall::OnFilter(OfFilter::Tree)),
    ("holds", FilterCall::OnFilter(OfFilter::Holds)),
    ("holds_at", FilterCall::OnFilter(OfFilter::HoldsAt)),
    ("knows_names", FilterCall::OnFilter(OfFilter::KnowsNames)),
    ("string_literal", FilterCall::OnFilter(OfFilter::String)),
    ("names", FilterCall::Names),
    ("tokens", FilterCall::Tokens),
    ("attribute_path", FilterCall::AttributePath),
    ("lone_word", FilterCall::LoneWord),
    ("written_path", FilterCall::WrittenPath),
];

/// Returns the result of the case's call, or `None` if it isn't a call on filters.
pub fn answer(case: &Case<'_>, call: &str) -> Option<Result<String, CaseFault>> {
    let call = named(&CALLS, call)?;
    Some(match call {
        FilterCall::OnFilter(told) => filter_call(case, told),
        FilterCall::Names => names_call(case),
        FilterCall::Tokens => tokens_call(case),
        FilterCall::AttributePath => attribute_path_call(case),
        FilterCall::LoneWord => lone_word_call(case),
        FilterCall::WrittenPath => written_path_call(case),
    })
}

/// Reads the filter in the argument `filter`.
pub fn filter_of(case: &Case<'_>) -> Result<Result<Filter, Failed<FilterFault>>, CaseFault> {
    let text = spaced_text(case, "filter")?;
    Ok(read_filter(case.alloc, case.kind(), text.as_str()))
}

/// Returns the name of an error. The name `Syntax` is followed by the byte position of the error.
fn fault_text(alloc: Global, fault: Failed<FilterFault>) -> Result<String, CaseFault> {
    match fault {
        Failed::Because(FilterFault::Syntax(at)) => between(alloc, "Syntax ", &at, ""),
        Failed::Because(FilterFault::WrongType) => said(alloc, "WrongType"),
        Failed::Because(FilterFault::TooDeep) => said(alloc, "TooDeep"),
        Failed::Because(FilterFault::TooLong) => said(alloc, "TooLong"),
        Failed::NoMemory => Err(CaseFault::NoMemory),
    }
}

/// Returns the attribute or leaf that a path names, such as `emails.value`, or `nothing` if the kind doesn't
/// have it.
fn meant_text(alloc: Global, meant: Meant) -> Result<String, CaseFault> {
    match meant {
        Meant::Nothing => said(alloc, "nothing"),
        Meant::Attribute(attribute) => said(alloc, attribute.name()),
        Meant::SubAttribute(attribute, sub_attribute) => {
            Ok(leaf_text(alloc, Leaf::of(attribute, sub_attribute))?)
        }
    }
}

fn push_meant(alloc: Global, meant: Meant, text: &mut String) -> Result<(), CaseFault> {
    let name = meant_text(alloc, meant)?;
    Ok(text.push_str(name.as_str())?)
}

fn literal_text(alloc: Global, literal: &Literal) -> Result<String, CaseFault> {
    match literal {
        Literal::Text(string) => joined(alloc, &["\"", string.as_str(), "\""]),
        Literal::Number(number) => shown(alloc, number),
        Literal::Truth(own) => truth(alloc, *own),
        Literal::Null => said(alloc, "null"),
    }
}

/// Returns the text that begins a node in prefix notation.
fn opening(node: &Node) -> &'static str {
    match node {
        Node::Or(_, _) => "(or ",
        Node::And(_, _) => "(and ",
        Node::Not(_) => "(not ",
        Node::Present(_) => "(pr ",
        Node::Compare(_, _, _) => "(",
        Node::Values(_, _) => "(of ",
    }
}

/// Appends a tree in prefix notation, such as `(and (pr title) (Eq emails.value "a"))`.
///
/// A path is printed as the attribute or leaf that it names. A value path is printed as
/// `(of emails (pr emails.type))`.
pub fn push_tree(alloc: Global, node: &Node, text: &mut String) -> Result<(), CaseFault> {
    text.push_str(opening(node))?;
    match node {
        Node::Or(a, b) | Node::And(a, b) => {
            push_tree(alloc, a, text)?;
            text.push(' ')?;
            push_tree(alloc, b, text)?;
        }
        Node::Not(a) => push_tree(alloc, a, text)?,
        Node::Present(path) => push_meant(alloc, path.meant, text)?,
        Node::Compare(path, operator, literal) => {
            push_comparison(alloc, path.meant, *operator, literal, text)?;
        }
        Node::Values(path, inner) => {
            push_meant(alloc, path.meant, text)?;
            text.push(' ')?;
            push_tree(alloc, inner, text)?;
        }
    }
    text.push(')')?;
    Ok(())
}

fn push_comparison(
    alloc: Global,
    meant: Meant,
    operator: Operator,
    literal: &Literal,
    text: &mut String,
) -> Result<(), CaseFault> {
    let operator = debugged(alloc, &operator)?;
    let path = meant_text(alloc, meant)?;
    let value = literal_text(alloc, literal)?;
    push_all(
        text,
        &[operator.as_str(), " ", path.as_str(), " ", value.as_str()],
    )
}

/// Returns the result of a call on the filter in the argument `filter`, or the error if it is invalid.
fn filter_call(case: &Case<'_>, told: OfFilter) -> Result<String, CaseFault> {
    match filter_of(case)? {
        Ok(filter) => told_of_filter(case, told, &filter),
        Err(fault) => fault_text(case.alloc, fault),
    }
}

fn told_of_filter(case: &Case<'_>, told: OfFilter, filter: &Filter) -> Result<String, CaseFault> {
    match told {
        OfFilter::Tree => tree_text(case.alloc, filter.tree()),
        OfFilter::Holds => holds_text(case, filter),
        OfFilter::HoldsAt => holds_at_text(case, filter),
        OfFilter::KnowsNames => truth(case.alloc, knows_names(filter.tree())),
        OfFilter::String => string_text(case.alloc, filter.tree()),
    }
}

fn tree_text(alloc: Global, node: &Node) -> Result<String, CaseFault> {
    let mut text = String::new(alloc);
    push_tree(alloc, node, &mut text)?;
    Ok(text)
}

fn holds_text(case: &Case<'_>, filter: &Filter) -> Result<String, CaseFault> {
    let part = case.part()?;
    let found = holds(case.alloc, filter, &part)?;
    truth(case.alloc, found)
}

/// Whether the part matches the filter at the argument `position`.
fn holds_at_text(case: &Case<'_>, filter: &Filter) -> Result<String, CaseFault> {
    let position = case.count("position")?;
    let part = case.part()?;
    let found = holds_at(case.alloc, filter, &part, position)?;
    truth(case.alloc, found)
}

/// Returns the attribute names in the filter in the order of the text, each as written and followed by the
/// attribute that it names. Returns `no filter` if the filter is invalid.
fn names_call(case: &Case<'_>) -> Result<String, CaseFault> {
    match filter_of(case)? {
        Ok(filter) => listed_names(case.alloc, &filter),
        Err(_) => said(case.alloc, "no filter"),
    }
}

/// Returns the attribute names in a filter, each followed by the attribute that it names.
fn listed_names(alloc: Global, filter: &Filter) -> Result<String, CaseFault> {
    let names = mentioned_names(alloc, filter)?;
    let mut text = String::new(alloc);
    for name in names.as_slice() {
        push_name(name, &mut text)?;
    }
    Ok(text)
}

fn push_name(name: &Named, text: &mut String) -> Result<(), CaseFault> {
    if !text.is_empty() {
        text.push_str(", ")?;
    }
    text.push_str(name.text.as_str())?;
    push_all(text, &[" ", attribute_name(name.attribute)])
}

/// Returns the string in a comparison, its folded form, and its second if it is a timestamp or else `none`.
/// Returns `no string` if the node isn't a comparison with a string.
fn string_text(alloc: Global, node: &Node) -> Result<String, CaseFault> {
    let Node::Compare(_, _, Literal::Text(string)) = node else {
        return said(alloc, "no string");
    };
    let (text, folded) = (string.as_str(), string.folded());
    match string.moment() {
        Some(reading) => {
            let second = shown(alloc, &reading.second)?;
            joined(alloc, &[text, "|", folded, "|", second.as_str()])
        }
        None => joined(alloc, &[text, "|", folded, "|none"]),
    }
}

/// Returns each token with its start and end in bytes, such as `0-5 title|6-8 pr`.
fn tokens_call(case: &Case<'_>) -> Result<String, CaseFault> {
    let source = spaced_text(case, "text")?;
    match read_tokens(case.alloc, source.as_str()) {
        Ok(tokens) => tokens_text(case.alloc, tokens.as_slice()),
        Err(fault) => fault_text(case.alloc, fault),
    }
}

fn tokens_text(alloc: Global, tokens: &[Token<'_>]) -> Result<String, CaseFault> {
    let mut text = String::new(alloc);
    for token in tokens {
        push_token(alloc, token, &mut text)?;
    }
    Ok(text)
}

fn push_token(alloc: Global, token: &Token<'_>, text: &mut String) -> Result<(), CaseFault> {
    if !text.is_empty() {
        text.push('|')?;
    }
    let start = shown(alloc, &token.start)?;
    let end = shown(alloc, &token.end)?;
    push_all(text, &[start.as_str(), "-", end.as_str(), " ", token.slice])
}

/// Returns what the path names: the attribute or leaf, the attribute whose sub-attributes are allowed in
/// brackets, the attribute that the path mentions, and the leaf that a comparison with the path compares.
/// Returns `none` if the text isn't a path.
fn attribute_path_call(case: &Case<'_>) -> Result<String, CaseFault> {
    match attribute_path(case.kind(), case.text("text")?) {
        Some(meant) => told_of_meant(case.alloc, meant),
        None => said(case.alloc, "none"),
    }
}

fn told_of_meant(alloc: Global, meant: Meant) -> Result<String, CaseFault> {
    let inside = attribute_name(meant.attribute());
    let own = attribute_name(meant.mentioned_attribute());
    let mut text = meant_text(alloc, meant)?;
    push_all(&mut text, &[", ", inside, ", ", own, ", "])?;
    let leaf = compared_text(alloc, meant)?;
    text.push_str(leaf.as_str())?;
    Ok(text)
}

fn compared_text(alloc: Global, meant: Meant) -> Result<String, CaseFault> {
    match meant.compared_leaf() {
        Some(leaf) => Ok(leaf_text(alloc, leaf)?),
        None => said(alloc, "none"),
    }
}

fn lone_word_call(case: &Case<'_>) -> Result<String, CaseFault> {
    match lone_word(case.text("text")?) {
        Some(word) => said(case.alloc, str::from_utf8(word).unwrap_or("none")),
        None => said(case.alloc, "none"),
    }
}

/// Returns what the path names. For a value path, this is the tree of its filter and the name after the
/// filter, with `wrong types` before the tree if the filter compares values of wrong types. Returns `none`
/// if the text isn't a path.
fn written_path_call(case: &Case<'_>) -> Result<String, CaseFault> {
    let source = spaced_text(case, "text")?;
    match written_path(case.alloc, case.kind(), source.as_str())? {
        Some(path) => written_text(case.alloc, &path),
        None => said(case.alloc, "none"),
    }
}

fn written_text(alloc: Global, path: &WrittenPath) -> Result<String, CaseFault> {
    match path {
        WrittenPath::Plain(path) => meant_text(alloc, path.meant),
        WrittenPath::Filtered(filter, sub_name) => {
            let mut text = String::new(alloc);
            push_filter(alloc, filter, sub_name.as_ref(), &mut text)?;
            Ok(text)
        }
    }
}

/// Appends the tree of a filter and the name after the filter. Puts `wrong types` before the tree if the
/// filter compares values of wrong types.
fn push_filter(
    alloc: Global,
    filter: &Filter,
    sub_name: Option<&Text>,
    text: &mut String,
) -> Result<(), CaseFault> {
    if !filter.has_right_types() {
        text.push_str("wrong types ")?;
    }
    push_tree(alloc, filter.tree(), text)?;
    match sub_name {
        Some(name) => push_all(text, &[".", name.as_str()]),
        None => Ok(()),
    }
}
