//! Runs cases of events as the command `replay` does.
use crate::audited::audit_lines;
use crate::command_calls::end_text;
use crate::event_lines::{events_text, piece_line};
use crate::pairs::told_of_pair;
use crate::recordings::Texts;
use case_runs::request_bytes;
use case_values::{Case, CaseFault, push_all, said, shown};
use scim_command::replay;
use std::alloc::Global;

/// Returns the output of `replay` for the events of a case. If the case has `audit`, appends the lines of the
/// audit. If the case has `beside`, runs the events on two hubs, and returns what the connections of one client get.
pub fn answered(case: &Case<'_>) -> Result<String, CaseFault> {
    if case.has("beside") {
        return told_of_pair(case);
    }
    let texts = Texts::of(case, events_text(case)?)?;
    told_of_events(case, &texts)
}

fn told_of_events(case: &Case<'_>, texts: &Texts) -> Result<String, CaseFault> {
    let mut lines = replayed(case.alloc, texts, "")?;
    if case.has("audit") {
        let audit = audit_lines(case.alloc, texts)?;
        lines.push_str(audit.as_str())?;
    }
    Ok(lines)
}

/// Runs `replay` for the text in the argument `events`. Returns the argument `before`, followed by the output
/// and, if the command failed, the text of its error.
pub(crate) fn replay_call(case: &Case<'_>) -> Result<String, CaseFault> {
    let texts = Texts::of(case, said(case.alloc, case.text("events")?)?)?;
    replayed(case.alloc, &texts, case.text_or("before", ""))
}

/// Returns the output of `replay` for the request of a case. Also sends the request in two pieces, once for
/// each position of the cut. If the output differs for a cut, appends the first such cut and its output.
pub(crate) fn cut_call(case: &Case<'_>) -> Result<String, CaseFault> {
    let request = request_bytes(case)?;
    told_of_cuts(case, request.as_slice())
}

fn told_of_cuts(case: &Case<'_>, request: &[u8]) -> Result<String, CaseFault> {
    let mut text = sent(case, request, 0)?;
    push_first_cut(case, request, &mut text)?;
    Ok(text)
}

/// Appends the first cut of the request for which the output differs from `whole`, the output for the whole
/// request, and the output for this cut. Appends nothing if there is no such cut.
fn push_first_cut(case: &Case<'_>, request: &[u8], whole: &mut String) -> Result<(), CaseFault> {
    for place in 1..request.len() {
        let cut = sent(case, request, place)?;
        if cut.as_str() != whole.as_str() {
            return push_cut(case.alloc, place, cut.as_str(), whole);
        }
    }
    Ok(())
}

/// Appends the position of a cut, and the output for this cut.
fn push_cut(alloc: Global, place: usize, cut: &str, text: &mut String) -> Result<(), CaseFault> {
    let place = shown(alloc, &place)?;
    push_all(text, &["cut at ", place.as_str(), ": ", cut])
}

/// Returns the output of `replay` for a request that is sent in two pieces, the first of `place` bytes. If
/// `place` is 0, the request is sent in one piece.
fn sent(case: &Case<'_>, request: &[u8], place: usize) -> Result<String, CaseFault> {
    let mut events = events_text(case)?;
    push_pieces(case, request, place, &mut events)?;
    let texts = Texts::of(case, events)?;
    replayed(case.alloc, &texts, "")
}

/// Appends the event lines of a request that is sent in two pieces, the first of `place` bytes. If `place` is
/// 0, appends one line.
fn push_pieces(
    case: &Case<'_>,
    request: &[u8],
    place: usize,
    events: &mut String,
) -> Result<(), CaseFault> {
    let (front, back) = request.split_at(place.min(request.len()));
    if !front.is_empty() {
        let line = piece_line(case, front)?;
        events.push_str(line.as_str())?;
    }
    let line = piece_line(case, back)?;
    Ok(events.push_str(line.as_str())?)
}

/// Returns `before`, followed by the output of `replay` and, if the command failed, the text of its error.
pub(crate) fn replayed(alloc: Global, texts: &Texts, before: &str) -> Result<String, CaseFault> {
    let mut written = before.as_bytes().to_vec(alloc)?;
    let done = replay(alloc, &texts.recording(), &mut written);
    end_text(alloc, written.as_slice(), done)
}
