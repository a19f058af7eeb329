//! Prints each rule of a policy as a sentence.
ghost use Rattle.std.specs.Prelude.{◌≡◌, ◌++◌, IfOk, OnOk, map, string_bytes};
ghost use Rattle.scim_schema.specs.Names.{op_name};
ghost use Rattle.scim_policy_sentences.specs.Lists.{listed as listed_words};
ghost use Rattle.scim_policy_sentences.specs.Sentences as spec;
ghost use Rattle.scim_policy_sentences.specs.Targets.{target_on as target_of};
ghost use Rattle.std.specs.Option.{option_copied};

use crate::lists::{joined, listed};
use crate::targets::filter_text;
use scim_audit::leaf_path;
use scim_explain::{effect_word, rule_line};
use scim_policy::{ClientName, FilteredPath, Policy, PolicyPath, Rule, Target};
use scim_schema::{Kind, Leaf, Op};
use scim_text::{NoMemory, push};
use std::alloc::Global;

/// Prints the rules of the policy, each on a line.
///
/// A line has `rule N: `, then `allow` or `deny`, the clients, the operations, and for each type the target
/// and the paths. Examples are `rule 3: allow mail to read User: id and emails` and `rule 2: deny mail to
/// read User where userType eq "Contractor": everything`.
pub fn rule_sentences(alloc: Global, policy: &Policy) -> Result<String, NoMemory>
    ensures { IfOk result (λ text. string_bytes text ≡ spec.rule_sentences policy.now) }
{
    let rules = policy.listed();
    let mut text = String::new(alloc);
    for (index, rule) in rules.iter().enumerate() {
        let line = sentence_line(alloc, index + 1, rule)?;
        text.push_str(line.as_str())?;
    }
    Ok(text)
}

/// Prints the line for a rule, with a line feed at its end.
fn sentence_line(alloc: Global, number: usize, rule: &Rule) -> Result<String, NoMemory>
    ensures { IfOk result (λ line. string_bytes line ≡ spec.sentence_line number rule.now) }
{
    let sentence = sentence(alloc, rule)?;
    rule_line(alloc, number, sentence.as_str())
}

/// The sentence of a rule, such as `allow mail to read User: id and emails`.
fn sentence(alloc: Global, rule: &Rule) -> Result<String, NoMemory>
    ensures { IfOk result (λ text. string_bytes text ≡ spec.sentence rule.now) }
{
    let effect = effect_word(rule.allows());
    let clients = clients_text(alloc, rule.clients())?;
    let ops = ops_text(alloc, rule.ops())?;
    let kinds = kinds_text(alloc, rule)?;
    Ok(format!(in alloc; "{effect} {clients} to {ops} {kinds}")?)
}

/// The clients of a rule, joined as in a sentence.
fn clients_text(alloc: Global, clients: &[ClientName]) -> Result<String, NoMemory>
    ensures { IfOk result (λ text. string_bytes text
        ≡ listed_words (map spec.client_word clients.now)) }
{
    let mut words = Vec::new(alloc);
    for client in clients {
        push(&mut words, String::from_str(alloc, client_word(client))?)?;
    }
    listed(alloc, words.as_slice())
}

/// The name of a client, or `any client` for all clients.
fn client_word(client: &ClientName) -> &str
    ensures { result.now ≡ spec.client_word client.now }
{
    match client {
        ClientName::Everyone => "any client",
        ClientName::Named(name) => name.as_str(),
    }
}

/// The operations of a rule, joined as in a sentence.
fn ops_text(alloc: Global, ops: &[Op]) -> Result<String, NoMemory>
    ensures { IfOk result (λ text. string_bytes text ≡ listed_words (map op_name ops.now)) }
{
    let mut words = Vec::new(alloc);
    for op in ops {
        push(&mut words, String::from_str(alloc, op.name())?)?;
    }
    listed(alloc, words.as_slice())
}

/// The clauses of a rule for each of its kinds, with semicolons between them.
fn kinds_text(alloc: Global, rule: &Rule) -> Result<String, NoMemory>
    ensures { IfOk result (λ text. string_bytes text ≡ spec.kind_clauses rule.now) }
{
    let kinds = rule.kinds();
    let mut clauses = Vec::new(alloc);
    for kind in kinds {
        push(&mut clauses, kind_clause(alloc, rule, *kind)?)?;
    }
    joined(alloc, clauses.as_slice(), "; ", "; ")
}

/// The clause of a rule for a kind: the kind, the target if there is one, and the paths.
fn kind_clause(alloc: Global, rule: &Rule, kind: Kind) -> Result<String, NoMemory>
    ensures { IfOk result (λ text. string_bytes text ≡ spec.kind_clause rule.now kind) }
{
    let target = target_words(alloc, rule, kind)?;
    let paths = paths_text(alloc, rule, kind)?;
    Ok([kind.name(), target.as_str(), ": ", paths.as_str()].concat(alloc)?)
}

/// The text ` where ` and the rule's target on resources of a kind. Empty if the rule has no target.
fn target_words(alloc: Global, rule: &Rule, kind: Kind) -> Result<String, NoMemory>
    ensures { IfOk result (λ text. string_bytes text ≡ spec.target_words rule.now kind) }
{
    match target_on(rule.targets(), kind) {
        Some(target) => {
            let filter = filter_text(alloc, target.filter())?;
            Ok([" where ", filter.as_str()].concat(alloc)?)
        }
        None => Ok(String::new(alloc)),
    }
}

/// The target on resources of a kind, if there is one.
fn target_on(targets: &[Target], kind: Kind) -> Option<&Target>
    ensures { option_copied result ≡ target_of kind targets.now }
{
    targets.iter().find(|target| kind == target.kind())
}

/// The paths of a rule on resources of a kind, joined as in a sentence. Those with a value filter are last.
fn paths_text(alloc: Global, rule: &Rule, kind: Kind) -> Result<String, NoMemory>
    ensures { IfOk result (λ text. string_bytes text ≡ spec.paths_text rule.now kind) }
{
    let mut words = path_words(alloc, rule.paths_on(kind))?;
    push_filtered(alloc, rule.filtered_on(kind), &mut words)?;
    listed(alloc, words.as_slice())
}

/// The text of each path.
fn path_words(alloc: Global, paths: &[PolicyPath]) -> Result<Vec<String>, NoMemory>
    ensures { IfOk result (λ words. map string_bytes words.items
        ≡ map spec.path_word paths.now) }
{
    let mut words = Vec::new(alloc);
    for path in paths {
        push(&mut words, path_word(alloc, *path)?)?;
    }
    Ok(words)
}

/// Appends the text of each path. On an error `words` may have some of the texts.
fn push_filtered(
    alloc: Global,
    paths: &[FilteredPath],
    words: &mut Vec<String>,
) -> Result<(), NoMemory>
    ensures { OnOk result (map string_bytes words.new.items
        ≡ map string_bytes words.old.items ++ map spec.filtered_word paths.now) }
{
    for path in paths {
        push(words, filtered_word(alloc, path)?)?;
    }
    Ok(())
}

/// The text of a path as in policy files, or `everything` for all paths.
fn path_word(alloc: Global, path: PolicyPath) -> Result<String, NoMemory>
    ensures { IfOk result (λ text. string_bytes text ≡ spec.path_word path) }
{
    match path {
        PolicyPath::Everything => Ok(String::from_str(alloc, "everything")?),
        PolicyPath::Attribute(attribute) => leaf_path(alloc, Leaf::simple(attribute)),
        PolicyPath::SubAttribute(attribute, sub_attribute) => {
            leaf_path(alloc, Leaf::of(attribute, sub_attribute))
        }
    }
}

/// The text of a path with a value filter, such as `emails[type eq "work"].value`: its value path, and the
/// sub-attribute after the brackets if there is one.
fn filtered_word(alloc: Global, path: &FilteredPath) -> Result<String, NoMemory>
    ensures { IfOk result (λ text. string_bytes text ≡ spec.filtered_word path.now) }
{
    let mut text = filter_text(alloc, path.filter())?;
    if let Some(sub_attribute) = path.sub_attribute() {
        text.push('.')?;
        text.push_str(sub_attribute.name())?;
    }
    Ok(text)
}
