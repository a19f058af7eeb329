//! The command `explain`: explains the policy's decisions on a stored resource.
ghost use Rattle.std.specs.Prelude.{◌≡◌, ◌≢◌, ℕ, List, None, Some, Err, IfOk, IfErr, OnOk, find, string_bytes};
ghost use Rattle.std.specs.Io.KnownBytes.{Appends};
ghost use Rattle.scim_cell.specs.Content.{Content};
ghost use Rattle.scim_shelf.specs.Shelves.{KeepsStore};
ghost use Rattle.scim_shelf.specs.Stores.{Store, is_at};
ghost use Rattle.scim_wire.specs.Streams.{AppendsFront};
ghost use Rattle.scim_command.specs.declared.faults.RunFault.{RunFault};
ghost use Rattle.scim_command_database.specs.Explaining as spec;

use scim_cell::Id;
use scim_command::{ExplainOptions, RunFault, write_or_fault};
use scim_explain::table;
use scim_explain_paths::explain_path;
use scim_filter_grammar::Meant;
use scim_policy::Policy;
use scim_schema::{Kind, Op};
use scim_shelf::Shelf;
use scim_text::NoMemory;
use scim_value::Resource;
use std::alloc::Global;
use std::io::Write;

/// The question of `explain`: a client's operation on a resource or on one of its attributes.
#[derive(Clone, Copy)]
pub struct Question<'a> {
    /// The name of the client.
    pub client: &'a str,
    /// The operation.
    pub op: Op,
    /// The kind of the resource.
    pub kind: Kind,
    /// The id of the resource.
    pub id: Id,
    /// The attribute or sub-attribute to explain; `None` for a table of the decisions on all leaves.
    pub path: Option<Meant>,
}

impl<'a> Question<'a> {
    ghost use Rattle.scim_command_database.specs.Explaining.{question_of};

    /// Returns the question that the options ask.
    pub fn of(options: &ExplainOptions<'a>) -> Question<'a>
        ensures { result ≡ question_of options.now }
    {
        Question {
            client: options.client,
            op: options.op,
            kind: options.kind,
            id: options.id,
            path: options.path,
        }
    }
}

/// Writes the explanation of the policy's decision on each leaf that the question's path covers: which rule decides,
/// and why each rule before it doesn't. Without a path, writes a table of the decisions on all leaves.
///
/// The policy decides on the resource as it is stored. Fails with `Absent` if no resource of the kind has the
/// id. Fails with `Database` if the store can't be read. Fails with `Output` if a write fails; then a prefix
/// of the text, which may be empty or all of it, has been written. After any other error nothing is written.
pub fn explain<H: Shelf, W: Write>(
    alloc: Global,
    policy: &Policy,
    shelf: &mut H,
    question: &Question<'_>,
    writer: &mut W,
) -> Result<(), RunFault>
    ensures told { OnOk result ((store : Store) → H.stands shelf.old store → H.is_honest shelf.new
        → (c : Content) × (find (is_at question.now.kind question.now.id) store.resources ≡ Some c)
        × Appends (W.contents writer.old) (W.contents writer.new)
        (spec.told policy.now question.now c)) }
    ensures output { result ≡ Err RunFault.Output → (store : Store) → H.stands shelf.old store
        → H.is_honest shelf.new
        → (c : Content) × (find (is_at question.now.kind question.now.id) store.resources ≡ Some c)
        × AppendsFront (W.contents writer.old) (W.contents writer.new)
        (spec.told policy.now question.now c) }
    ensures absent { result ≡ Err RunFault.Absent → (store : Store) → H.stands shelf.old store
        → H.is_honest shelf.new
        → find (is_at question.now.kind question.now.id) store.resources ≡ None }
    ensures silent { IfErr result (λ f. f ≢ RunFault.Output → writer.new ≡ writer.old) }
    ensures store { KeepsStore H.stands shelf.old shelf.new }
    ensures honest { H.is_honest shelf.new → H.is_honest shelf.old }
    ensures faults { IfErr result spec.IsExplainFault }
{
    let Some(resource) = shelf.by_id(alloc, question.kind, question.id)? else {
        return Err(RunFault::Absent);
    };
    let text = told(alloc, policy, question, &resource)?;
    write_or_fault(text.as_str(), writer)
}

/// Returns the text that answers the question for the resource.
pub fn told(
    alloc: Global,
    policy: &Policy,
    question: &Question<'_>,
    resource: &Resource,
) -> Result<String, NoMemory>
    ensures { IfOk result (λ text. string_bytes text
        ≡ spec.told policy.now question.now resource.now) }
{
    let (client, op) = (question.client, question.op);
    match question.path {
        Some(path) => explain_path(alloc, policy, client, op, resource, path),
        None => table(alloc, policy, client, op, resource),
    }
}
