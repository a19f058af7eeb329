//! The clients that the rules of a policy are for.
ghost use Rattle.std.specs.Prelude.{◌≡◌, IfOk, OnOk};
ghost use Rattle.std.specs.List.{fold, list_any};
ghost use Rattle.scim_policy.specs.Fits.{names};
ghost use Rattle.scim_policy_warnings.specs.Clients as spec;

use scim_cell::Text;
use scim_policy::{ClientName, Rule};
use scim_text::{NoMemory, push};
use std::alloc::Global;

/// A client that a policy names, or any client that it doesn't name.
#[derive(Drop)]
pub enum Client {
    /// The client with this name.
    Named(Text),
    /// Any client that no rule names. Only rules for `*` are for it.
    Other,
}

impl Client {
    /// Copies the client.
    pub(crate) fn copy(&self, alloc: Global) -> Result<Client, NoMemory>
        ensures { IfOk result (λ client. client ≡ self.now) }
    {
        match self {
            Client::Named(name) => Ok(Client::Named(Text::copy_of(alloc, name.as_str())?)),
            Client::Other => Ok(Client::Other),
        }
    }
}

/// Whether the rule is for the client: it has the client's name, or `*`.
pub(crate) fn is_for(rule: &Rule, client: &Client) -> bool
    ensures { result ≡ spec.is_for client.now rule.now }
{
    match client {
        Client::Named(name) => has_name(rule, name.as_str()),
        Client::Other => is_for_all(rule),
    }
}

/// Whether the rule has `*`.
fn is_for_all(rule: &Rule) -> bool
    ensures { result ≡ list_any spec.is_everyone rule.now.clients }
{
    rule.clients().iter().any(|name| is_everyone(name))
}

/// Whether the rule has the name, or `*`.
pub(crate) fn has_name(rule: &Rule, client: &str) -> bool
    ensures { result ≡ list_any (names client.now) rule.now.clients }
{
    rule.clients().iter().any(|name| is_name_of(name, client))
}

/// Whether the name in a rule is the client's, or `*`.
fn is_name_of(name: &ClientName, client: &str) -> bool
    ensures { result ≡ names client.now name.now }
{
    match name {
        ClientName::Everyone => true,
        ClientName::Named(name) => name.as_str() == client,
    }
}

/// Whether the name in a rule is `*`.
fn is_everyone(name: &ClientName) -> bool
    ensures { result ≡ spec.is_everyone name.now }
{
    matches!(name, ClientName::Everyone)
}

/// Whether the text is in the list.
pub(crate) fn is_listed(texts: &[Text], text: &str) -> bool
    ensures { result ≡ spec.is_listed texts.now text.now }
{
    texts.iter().any(|own| own.as_str() == text)
}

/// Appends a copy of the text, unless the list has it.
pub(crate) fn add_text(alloc: Global, texts: &mut Vec<Text>, text: &str) -> Result<(), NoMemory>
    ensures { OnOk result (texts.new.items ≡ spec.with_text texts.old.items text.now) }
{
    if is_listed(texts, text) {
        return Ok(());
    }
    push(texts, Text::copy_of(alloc, text)?)
}

/// The clients that the rules name, in order of their first rules, each once.
///
/// Each name in a rule is compared with those found before it.
pub(crate) fn named_clients(alloc: Global, rules: &[Rule]) -> Result<Vec<Text>, NoMemory>
    ensures { IfOk result (λ texts. texts.items ≡ spec.named_clients rules.now) }
{
    let mut texts = Vec::new(alloc);
    for rule in rules {
        add_names(alloc, rule, &mut texts)?;
    }
    Ok(texts)
}

/// Appends the clients that the rule names and the list doesn't have. On an error `texts` may have some of them.
fn add_names(alloc: Global, rule: &Rule, texts: &mut Vec<Text>) -> Result<(), NoMemory>
    ensures { OnOk result (texts.new.items
        ≡ fold spec.with_text texts.old.items (spec.names_in rule.now)) }
{
    for client in rule.clients() {
        if let ClientName::Named(name) = client {
            add_text(alloc, texts, name.as_str())?;
        }
    }
    Ok(())
}

/// The clients that the rules name, and any other.
pub(crate) fn clients(alloc: Global, rules: &[Rule]) -> Result<Vec<Client>, NoMemory>
    ensures { IfOk result (λ found. found.items ≡ spec.clients rules.now) }
{
    let names = named_clients(alloc, rules)?;
    let mut found = Vec::new(alloc);
    for name in &names {
        push(
            &mut found,
            Client::Named(Text::copy_of(alloc, name.as_str())?),
        )?;
    }
    push(&mut found, Client::Other)?;
    Ok(found)
}
