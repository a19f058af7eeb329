//! Reads a JSON text into a tree, in one pass over its tokens.
ghost use Rattle.std.specs.Prelude.{◌≡◌, ◌<◌, length, Some, None, IfOk, OnOk, option_map};
ghost use Rattle.json.specs.Json.{value, items, members, read_key};
ghost use Rattle.serde_json.specs.Data.{no_members, put as with_member};
ghost use Rattle.serde_json.specs.Read.{of_json, of_items, of_members, converted, read};
ghost use Rattle.scim_text.specs.Failures.{OnFault};
ghost use Rattle.scim_body.specs.View.{view, items_view, members_view};

use crate::json_numbers::read_number;
use crate::trees::{Member, Tree};
use json::{Reader, Scratch, Token};
use scim_text::{Failed, NoMemory, push};
use std::alloc::Global;
use std::collections::BTreeMap;
use thiserror::Error;

/// How deep arrays and objects may nest.
const MAX_DEPTH: usize = 127;

/// The text isn't a JSON value, nests deeper than 127 levels, or has a number that is too large for a
/// float.
#[derive(Clone, Copy, Debug, PartialEq, Eq, Error)]
#[error("no JSON value")]
pub struct NotJson;

impl<'a> Tree<'a> {
    /// Reads a text as a JSON value (RFC 8259).
    ///
    /// Fails with `NotJson` if it isn't one, nests deeper than 127 levels, or has a number that is too large
    /// for a float.
    pub fn read(
        alloc: Global,
        text: &'a str,
        scratch: &'a mut Scratch,
    ) -> Result<Tree<'a>, Failed<NotJson>>
        ensures value { IfOk result (λ t. read text.now ≡ Some (view t)) }
        ensures none { OnFault result (read text.now ≡ None) }
    {
        let Ok(mut reader) = Reader::new(text, scratch) else {
            return Err(Failed::NoMemory);
        };
        let tree = read_value(alloc, &mut reader, MAX_DEPTH)?;
        if reader.next().is_some() {
            return Err(Failed::Because(NotJson));
        }
        Ok(tree)
    }
}

/// Reads the value that begins at the next token, with at most `depth` more levels of nesting.
///
/// Fails with `NotJson` if there is no valid value, or if the value nests deeper or has a number that is too
/// large for a float.
#[cycle(read_value)]
fn read_value<'a>(
    alloc: Global,
    reader: &mut Reader<'a>,
    depth: usize,
) -> Result<Tree<'a>, Failed<NotJson>>
    ensures value { IfOk result
        (λ t. converted of_json (value depth reader.old) ≡ Some (view t, reader.new)) }
    ensures shorter { OnOk result (length reader.new < length reader.old) }
    ensures none { OnFault result (converted of_json (value depth reader.old) ≡ None) }
{
    let Some(token) = reader.next() else {
        return Err(Failed::Because(NotJson));
    };
    match token {
        Token::String(text) => Ok(Tree::String(text)),
        Token::Number(text) => Ok(Tree::Number(read_number(alloc, text)?)),
        Token::Bool(truth) => Ok(Tree::Bool(truth)),
        Token::Null => Ok(Tree::Null),
        Token::EndObject | Token::EndArray | Token::Key(_) | Token::Bad => {
            Err(Failed::Because(NotJson))
        }
        Token::BeginArray => {
            if depth == 0 {
                return Err(Failed::Because(NotJson));
            }
            Ok(Tree::Array(read_items(alloc, reader, depth - 1)?))
        }
        Token::BeginObject => {
            if depth == 0 {
                return Err(Failed::Because(NotJson));
            }
            let members = read_members(alloc, reader, depth - 1)?;
            Ok(Tree::Object(in_order(alloc, members)?))
        }
    }
}

/// Reads the items of an array, after its opening bracket. Each may have at most `depth` levels of nesting.
///
/// Fails with `NotJson` if an item or the closing bracket is missing or invalid, an item nests deeper, or a
/// number is too large for a float.
#[cycle(read_value)]
fn read_items<'a>(
    alloc: Global,
    reader: &mut Reader<'a>,
    depth: usize,
) -> Result<Vec<Tree<'a>>, Failed<NotJson>>
    ensures items { IfOk result
        (λ v. converted of_items (items (value depth) (length reader.old) reader.old)
        ≡ Some (items_view v.items, reader.new)) }
    ensures shorter { OnOk result (length reader.new < length reader.old) }
    ensures none { OnFault result
        (converted of_items (items (value depth) (length reader.old) reader.old) ≡ None) }
{
    let mut found = Vec::new(alloc);
    'items: while !reader.take_end_array() {
        let item = read_value(alloc, reader, depth)?;
        push(&mut found, item)?;
    }
    Ok(found)
}

/// Reads the members of an object, after its opening brace, keyed by name. Each value may have at most
/// `depth` levels of nesting.
///
/// Fails with `NotJson` if a member or the closing brace is missing or invalid, a value nests deeper, or a
/// number is too large for a float.
#[cycle(read_value)]
fn read_members<'a>(
    alloc: Global,
    reader: &mut Reader<'a>,
    depth: usize,
) -> Result<BTreeMap<&'a str, Tree<'a>>, Failed<NotJson>>
    ensures members { IfOk result
        (λ m. converted (λ ms. of_members ms no_members)
        (members (value depth) (length reader.old) reader.old)
        ≡ Some (members_view m.entries, reader.new)) }
    ensures shorter { OnOk result (length reader.new < length reader.old) }
    ensures none { OnFault result
        (converted (λ ms. of_members ms no_members)
        (members (value depth) (length reader.old) reader.old) ≡ None) }
{
    let mut found = BTreeMap::new(alloc);
    'members: while let Some(key) = next_key(reader)? {
        let member = read_value(alloc, reader, depth)?;
        put(&mut found, key, member)?;
    }
    Ok(found)
}

/// Reads the next key of an object. `None` if the closing brace follows.
///
/// Fails with `NotJson` if neither a key nor the closing brace follows.
fn next_key<'a>(reader: &mut Reader<'a>) -> Result<Option<&'a str>, Failed<NotJson>>
    ensures key { IfOk result (λ k. read_key reader.old
        ≡ Some (option_map (λ s. s.now) k, reader.new)) }
    ensures none { OnFault result (read_key reader.old ≡ None) }
{
    match reader.next_key() {
        Ok(key) => Ok(key),
        Err(_) => Err(Failed::Because(NotJson)),
    }
}

/// Inserts a member, replacing any member with the same key.
fn put<'a>(
    members: &mut BTreeMap<&'a str, Tree<'a>>,
    key: &'a str,
    value: Tree<'a>,
) -> Result<(), NoMemory>
    ensures { OnOk result
        (members_view members.new.entries
        ≡ with_member key.now (view value.entry) (members_view members.old.entries)) }
{
    drop(members.insert(key, value)?);
    Ok(())
}

/// The members in byte order of their keys.
fn in_order<'a>(
    alloc: Global,
    members: BTreeMap<&'a str, Tree<'a>>,
) -> Result<Vec<Member<'a>>, NoMemory>
    ensures { IfOk result (λ v. v.items ≡ members.entry.entries) }
{
    Ok(members.into_iter().collect(alloc)?)
}
