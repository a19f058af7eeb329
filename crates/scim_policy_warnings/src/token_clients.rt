//! Finds clients of a policy without a token, and clients with a token that no rule is for.
ghost use Rattle.std.specs.Prelude.{◌≡◌, ◌++◌, List, Ok, IfOk, OnOk, codes, filter, filter_map, map, string_bytes, not};
ghost use Rattle.std.specs.List.{flat_map};
ghost use Rattle.scim_token.specs.TokenFile.{Entry, entries_in, says_nothing as is_skipped};
ghost use Rattle.scim_policy_warnings.specs.Clients.{distinct, is_listed as is_among};
ghost use Rattle.scim_policy_warnings.specs.Tokens as spec;
ghost use Rattle.scim_policy_warnings.specs.code.TokenLines as kept;
ghost use Rattle.std.specs.Option.{option_copied};

use crate::clients::{add_text, has_name, is_listed, named_clients};
use scim_cell::Text;
use scim_policy::{Policy, Rule};
use scim_text::NoMemory;
use std::alloc::Global;

/// Prints the clients that the policy names and that have no token, each as `client NAME: no token`, and then those
/// that have a token and that no rule is for, each as `client NAME: no rule`.
///
/// `tokens` is the text of a token file that [`scim_token::Tokens::read`] accepts; of any other text nothing is said.
pub fn token_warnings(alloc: Global, policy: &Policy, tokens: &str) -> Result<String, NoMemory>
    ensures { IfOk result (λ text. (entries : List Entry) → entries_in tokens.now ≡ Ok entries
        → string_bytes text ≡ spec.token_lines policy.now entries) }
{
    let rules = policy.listed();
    let named = named_clients(alloc, rules)?;
    let holders = token_clients(alloc, tokens)?;
    let mut text = String::new(alloc);
    push_without_token(&named, &holders, &mut text)?;
    push_without_rule(rules, &holders, &mut text)?;
    Ok(text)
}

/// Appends a line for each of the clients that isn't among the `holders` of tokens. On an error `text` may have some of
/// the lines.
fn push_without_token(named: &[Text], holders: &[Text], text: &mut String) -> Result<(), NoMemory>
    ensures { OnOk result (string_bytes text.new ≡ string_bytes text.old
        ++ flat_map (spec.client_line (codes "no token"))
        (filter (λ name. not (is_among holders.now name)) named.now)) }
{
    for name in named {
        if !is_listed(holders, name.as_str()) {
            push_line(name.as_str(), "no token", text)?;
        }
    }
    Ok(())
}

/// Appends a line for each of the `holders` of tokens that no rule is for. On an error `text` may have some of the
/// lines.
fn push_without_rule(rules: &[Rule], holders: &[Text], text: &mut String) -> Result<(), NoMemory>
    ensures { OnOk result (string_bytes text.new ≡ string_bytes text.old
        ++ flat_map (spec.client_line (codes "no rule"))
        (filter (λ name. not (spec.has_rule rules.now name)) holders.now)) }
{
    for name in holders {
        if !has_rule(rules, name.as_str()) {
            push_line(name.as_str(), "no rule", text)?;
        }
    }
    Ok(())
}

/// Whether a rule is for the client.
fn has_rule(rules: &[Rule], name: &str) -> bool
    ensures { result ≡ spec.has_rule rules.now name.now }
{
    rules.iter().any(|rule| has_name(rule, name))
}

/// Appends the line of a client, with words about it. On an error `text` may have a part of the line.
fn push_line(name: &str, words: &str, text: &mut String) -> Result<(), NoMemory>
    ensures { OnOk result (string_bytes text.new
        ≡ string_bytes text.old ++ spec.client_line words.now name.now) }
{
    text.push_str("client ")?;
    text.push_str(name)?;
    text.push_str(": ")?;
    text.push_str(words)?;
    text.push('\n')?;
    Ok(())
}

/// The clients in the lines of a token file, in order, each once.
fn token_clients(alloc: Global, tokens: &str) -> Result<Vec<Text>, NoMemory>
    ensures { IfOk result (λ found. (entries : List Entry) → entries_in tokens.now ≡ Ok entries
        → found.items ≡ spec.token_clients entries) }
{
    let lines = tokens.split('\n').collect::<Vec<&str>>(alloc)?;
    clients_in(alloc, lines.as_slice())
}

/// The clients in the lines, in order, each once.
fn clients_in(alloc: Global, lines: &[&str]) -> Result<Vec<Text>, NoMemory>
    ensures { IfOk result (λ found. found.items
        ≡ distinct (filter_map kept.client_in (map (λ l. l.now) lines.now))) }
{
    let mut found = Vec::new(alloc);
    for line in lines {
        if let Some(client) = client_in(line) {
            add_text(alloc, &mut found, client)?;
        }
    }
    Ok(found)
}

/// The client in a line of a token file. `None` if the line is empty, a comment or without a space.
fn client_in(line: &str) -> Option<&str>
    ensures { option_copied result ≡ kept.client_in line.now }
{
    if says_nothing(line) {
        return None;
    }
    let (client, _) = line.split_once(' ')?;
    Some(client)
}

/// Whether the line is empty or a comment, which begins with `#`.
fn says_nothing(line: &str) -> bool
    ensures { result ≡ is_skipped line.now }
{
    match line.as_bytes() {
        [] => true,
        [first, ..] => *first == b'#',
    }
}
