//! What a message of the administrator asks.
ghost use Rattle.std.specs.Prelude.{◌≡◌, ◌≤◌, length, Ok, Err, Some, None, IfOk, IfErr, codes};
ghost use Rattle.std.specs.Option.{option_copied};
ghost use Rattle.std.specs.List.{position_or_len};
ghost use Rattle.scim_text.specs.Failures.{IfFault};
ghost use Rattle.scim_admin_text.specs.Parameters.{parameter_pairs};
ghost use Rattle.scim_admin_text.specs.ParameterNames.{name_of};
ghost use Rattle.scim_admin_text.specs.Requests as spec;
ghost use Rattle.scim_admin_text.specs.declared.refusals.AdminRefusal.{AdminRefusal};

use crate::audit_queries::AuditQuery;
use crate::endpoints::Endpoint;
use crate::parameters::Parameters;
use crate::refusals::{AdminRefusal, Parameter};
use scim_audit_listing::{LineFormat, Portion, refusal_named};
use scim_cell::{Id, Text};
use scim_policy_file::is_client_name;
use scim_schema::{Kind, Op};
use scim_text::{Failed, Moment, NoMemory, read_printed_moment};
use scim_wire::Message;
use std::alloc::Global;

/// Which decision is to be explained.
#[derive(Drop)]
pub struct ExplainQuery {
    /// The name of the client.
    pub client: Text,
    /// The operation.
    pub op: Op,
    /// The kind of the resource.
    pub kind: Kind,
    /// The id of the resource.
    pub id: Id,
    /// The path of the leaf; `None` for all leaves.
    pub path: Option<Text>,
}

/// What a message of the administrator asks.
#[derive(Drop)]
pub enum AdminRequest {
    /// Whether the server serves its clients.
    Health,
    /// The figures of the server.
    Metrics,
    /// Rows of the audit.
    Audit(AuditQuery),
    /// Why a decision falls.
    Explain(ExplainQuery),
    /// All resources.
    Export,
    /// To read the policy and the token files again.
    Reload,
    /// To end.
    Stop,
}

/// Returns the index of the first `?`, or the length of the target if there is none.
fn end_of_path(target: &[u8]) -> usize
    ensures place { result ≡ position_or_len spec.is_question_mark target.now }
    ensures within { result ≤ length target.now }
{
    target
        .iter()
        .position(|b| *b == b'?')
        .unwrap_or(target.len())
}

/// Returns the part of a target after the first `?`; empty if there is none.
fn query_in(target: &[u8]) -> &[u8]
    ensures { result.now ≡ spec.query_of target.now }
{
    let end = end_of_path(target);
    if end == target.len() {
        &[]
    } else {
        &target[end + 1..]
    }
}

/// Parses a number of at most 64 bits in decimal digits; `None` for any other text.
fn number_in(text: &str) -> Option<u64>
    ensures { spec.FindsNumber text.now result }
{
    if matches!(text.as_bytes(), [b'+', ..]) {
        return None;
    }
    match text.parse::<u64>() {
        Ok(number) => Some(number),
        Err(_) => None,
    }
}

/// Returns the number in the parameter; `None` if there is no such parameter. Fails with `BadValue` if the
/// value isn't a number of at most 64 bits in decimal digits.
fn number(parameters: &Parameters, parameter: Parameter) -> Result<Option<u64>, AdminRefusal>
    ensures ok { IfOk result
        (spec.MayHaveNumber (parameter_pairs parameters.now) (name_of parameter)) }
    ensures fault { IfErr result (λ f. f ≡ AdminRefusal.BadValue parameter) }
{
    let Some(text) = parameters.value(parameter.name()) else {
        return Ok(None);
    };
    match number_in(text) {
        Some(number) => Ok(Some(number)),
        None => Err(AdminRefusal::BadValue(parameter)),
    }
}

/// Returns the client's name in the parameter `client`; `None` if there is no such parameter. Fails with
/// `BadValue` if the value can't be the name of a client.
fn client(alloc: Global, parameters: &Parameters) -> Result<Option<Text>, Failed<AdminRefusal>>
    ensures ok { IfOk result (λ client. client
        ≡ spec.value_of (codes "client") (parameter_pairs parameters.now)) }
{
    match parameters.value("client") {
        Some(name) if is_client_name(name) => Ok(Some(Text::copy_of(alloc, name)?)),
        Some(_) => Err(Failed::Because(AdminRefusal::BadValue(Parameter::Client))),
        None => Ok(None),
    }
}

/// Returns the moment in the parameter `since`; `None` if there is no such parameter. Fails with `BadValue` if
/// the value isn't a moment in the form in which the server prints moments.
fn since(alloc: Global, parameters: &Parameters) -> Result<Option<Moment>, Failed<AdminRefusal>>
    ensures ok { IfOk result (spec.MayHaveMoment (parameter_pairs parameters.now)) }
{
    let Some(text) = parameters.value("since") else {
        return Ok(None);
    };
    match read_printed_moment(alloc, text)? {
        Some(moment) => Ok(Some(moment)),
        None => Err(Failed::Because(AdminRefusal::BadValue(Parameter::Since))),
    }
}

/// Returns the number of the refusal that the parameter `refusal` names; `None` if there is no such parameter.
/// Fails with `BadValue` if the value names no refusal.
fn refusal(parameters: &Parameters) -> Result<Option<u8>, AdminRefusal>
    ensures ok { IfOk result (spec.MayHaveRefusal (parameter_pairs parameters.now)) }
{
    let Some(text) = parameters.value("refusal") else {
        return Ok(None);
    };
    match refusal_named(text) {
        Some(number) => Ok(Some(number)),
        None => Err(AdminRefusal::BadValue(Parameter::Refusal)),
    }
}

/// Returns the form of rows in the parameter `format`; the form by words if there is no such parameter. Fails
/// with `BadValue` if the value isn't `words` or `json`.
fn format_of(parameters: &Parameters) -> Result<LineFormat, AdminRefusal>
    ensures ok { IfOk result (λ format. spec.format_in
        (spec.value_of (codes "format") (parameter_pairs parameters.now)) ≡ Some format) }
{
    match parameters.value("format") {
        None => Ok(LineFormat::Words),
        Some(text) => {
            if text == "words" {
                Ok(LineFormat::Words)
            } else if text == "json" {
                Ok(LineFormat::Json)
            } else {
                Err(AdminRefusal::BadValue(Parameter::Format))
            }
        }
    }
}

/// Returns how many rows the parameters `count` and `last` ask for: the first ones, the last ones, or all if
/// there is neither. Fails with `BadValue` if one of them isn't a number of at most 64 bits, or if there are
/// both.
fn portion_of(parameters: &Parameters) -> Result<Portion, AdminRefusal>
    ensures ok { IfOk result (spec.HasPortion (parameter_pairs parameters.now)) }
{
    let count = number(parameters, Parameter::Count)?;
    let last = number(parameters, Parameter::Last)?;
    match (count, last) {
        (None, None) => Ok(Portion::First(u64::MAX)),
        (Some(count), None) => Ok(Portion::First(count)),
        (None, Some(last)) => Ok(Portion::Last(last)),
        (Some(_), Some(_)) => Err(AdminRefusal::BadValue(Parameter::Last)),
    }
}

/// Fails with `UnknownParameter` if a parameter has none of these names.
fn allow_only(parameters: &Parameters, names: &[&str]) -> Result<(), AdminRefusal> {
    if parameters.are_among(names) {
        Ok(())
    } else {
        Err(AdminRefusal::UnknownParameter)
    }
}

/// Reads which rows of the audit are asked for.
///
/// Fails with `UnknownParameter`, and with `BadValue` for the first invalid parameter.
fn audit_query(alloc: Global, parameters: &Parameters) -> Result<AuditQuery, Failed<AdminRefusal>>
    ensures ok { IfOk result (spec.AsksAudit (parameter_pairs parameters.now)) }
{
    allow_only(
        parameters,
        &[
            "from", "count", "last", "client", "since", "refusal", "format",
        ],
    )?;
    let from = number(parameters, Parameter::From)?.unwrap_or(1);
    let portion = portion_of(parameters)?;
    let refusal = refusal(parameters)?;
    let format = format_of(parameters)?;
    let since = since(alloc, parameters)?;
    let client = client(alloc, parameters)?;
    Ok(AuditQuery {
        from,
        portion,
        client,
        since,
        refusal,
        format,
    })
}

/// Reads which decision is to be explained.
///
/// Fails with `UnknownParameter`, and with `BadValue` for the first parameter that is missing or invalid.
fn explain_query(
    alloc: Global,
    parameters: &Parameters,
) -> Result<ExplainQuery, Failed<AdminRefusal>>
    ensures ok { IfOk result (spec.AsksExplain (parameter_pairs parameters.now)) }
{
    allow_only(parameters, &["client", "op", "kind", "id", "path"])?;
    let Some(op) = parameters.value("op").and_then(Op::named) else {
        return Err(Failed::Because(AdminRefusal::BadValue(Parameter::Op)));
    };
    let Some(kind) = parameters.value("kind").and_then(Kind::named) else {
        return Err(Failed::Because(AdminRefusal::BadValue(Parameter::Kind)));
    };
    let Some(id) = parameters.value("id").and_then(Id::read) else {
        return Err(Failed::Because(AdminRefusal::BadValue(Parameter::Id)));
    };
    let Some(client) = client(alloc, parameters)? else {
        return Err(Failed::Because(AdminRefusal::BadValue(Parameter::Client)));
    };
    Ok(ExplainQuery {
        client,
        op,
        kind,
        id,
        path: path(alloc, parameters)?,
    })
}

/// Returns the value of the parameter `path`; `None` if there is no such parameter.
fn path(alloc: Global, parameters: &Parameters) -> Result<Option<Text>, NoMemory>
    ensures ok { IfOk result (λ path. path
        ≡ spec.value_of (codes "path") (parameter_pairs parameters.now)) }
{
    match parameters.value("path") {
        Some(path) => Ok(Some(Text::copy_of(alloc, path)?)),
        None => Ok(None),
    }
}

/// Returns the endpoint that the message names. Fails with `NoEndpoint` if there is none, and with
/// `BadMethod` if the endpoint doesn't allow the message's method.
fn endpoint_of(message: &Message) -> Result<Endpoint, AdminRefusal>
    ensures ok { IfOk result (spec.IsFor message.now) }
    ensures fault { IfErr result (spec.IsForNone message.now) }
{
    let target = message.target.as_slice();
    let Some(endpoint) = Endpoint::at(&target[..end_of_path(target)]) else {
        return Err(AdminRefusal::NoEndpoint);
    };
    if message.method.as_slice() == endpoint.method().as_bytes() {
        Ok(endpoint)
    } else {
        Err(AdminRefusal::BadMethod(endpoint))
    }
}

/// Returns what a message of the administrator asks. Whether it has a token isn't looked at.
///
/// Fails with `NoEndpoint`, `BadMethod`, `UnknownParameter` or `BadValue`, in this order.
pub fn request_of(alloc: Global, message: &Message) -> Result<AdminRequest, Failed<AdminRefusal>>
    ensures ok { IfOk result (spec.Asks message.now) }
{
    let endpoint = endpoint_of(message)?;
    let parameters = Parameters::read(alloc, query_in(message.target.as_slice()))?;
    match endpoint {
        Endpoint::Audit => Ok(AdminRequest::Audit(audit_query(alloc, &parameters)?)),
        Endpoint::Explain => Ok(AdminRequest::Explain(explain_query(alloc, &parameters)?)),
        _ => {
            allow_only(&parameters, &[])?;
            Ok(plain_request(endpoint))
        }
    }
}

/// Returns the request for an endpoint that has no parameters. `Audit` and `Explain` have parameters.
fn plain_request(endpoint: Endpoint) -> AdminRequest
    requires { spec.IsPlain endpoint }
    ensures { spec.endpoint_asked result ≡ endpoint }
{
    match endpoint {
        Endpoint::Health => AdminRequest::Health,
        Endpoint::Metrics => AdminRequest::Metrics,
        Endpoint::Export => AdminRequest::Export,
        Endpoint::Reload => AdminRequest::Reload,
        Endpoint::Stop => AdminRequest::Stop,
        Endpoint::Audit | Endpoint::Explain => unreachable!(),
    }
}
