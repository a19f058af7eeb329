//! The texts of the administrator's port: reads what a message asks, and prints replies and figures.
#![tactic(auto)]

mod audit_queries;
mod endpoints;
mod metric_texts;
mod parameters;
mod refusals;
mod replies;
mod requests;

pub use audit_queries::AuditQuery;
pub use endpoints::Endpoint;
pub use metric_texts::{MetricKind, MetricTexts};
pub use refusals::{AdminRefusal, Parameter};
pub use replies::{Body, Head, Status, add_chunk, head_text, last_chunk, whole_reply};
pub use requests::{AdminRequest, ExplainQuery, request_of};
