//! Typed arguments of calls, and the texts of results.
use crate::case::Case;
use crate::faults::CaseFault;
use scim_samples::{ALICE, part, read_leaf, sample};
use scim_schema::{Kind, Leaf, Op};
use scim_value::{Part, Resource};
use std::alloc::Global;
use std::cmp::Ordering;
use std::fmt::{Debug, Display};

impl Case<'_> {
    /// Returns the argument `kind`, `User` or `Group`, by default `User`.
    pub fn kind(&self) -> Kind {
        kind_of(self.text_or("kind", "User"))
    }

    /// Returns the argument `op`, one of `read`, `create`, `modify` and `delete`, by default `read`.
    pub fn op(&self) -> Op {
        Op::named(self.text_or("op", "read")).unwrap_or(Op::Read)
    }

    /// Returns an argument as a leaf, such as `emails.value`.
    pub fn leaf(&self, name: &'static str) -> Result<Leaf, CaseFault> {
        Ok(read_leaf(self.text(name)?)?)
    }

    /// Returns the argument `part`: the name of a sample, or the cells of a part with the kind `kind` and the
    /// id `id`, by default the id of Alice.
    pub fn part(&self) -> Result<Part, CaseFault> {
        let text = self.text("part")?;
        match sample(self.alloc, text)? {
            Some(resource) => Ok(resource.into_part()),
            None => Ok(part(self.alloc, self.kind(), self.text_or("id", ALICE), text)?),
        }
    }

    /// Returns the argument `resource`: the name of a sample, or the cells of a resource with the kind `kind`
    /// and the id `id`, by default the id of Alice. The cells of `id` and `meta` are added.
    pub fn resource(&self) -> Result<Resource, CaseFault> {
        let text = self.text("resource")?;
        match sample(self.alloc, text)? {
            Some(resource) => Ok(resource),
            None => Ok(scim_samples::resource(
                self.alloc,
                self.kind(),
                self.text_or("id", ALICE),
                text,
            )?),
        }
    }
}

/// Returns the kind with this name, by default `User`.
pub fn kind_of(name: &str) -> Kind {
    Kind::named(name).unwrap_or(Kind::User)
}

/// Returns a copy of the text.
pub fn said(alloc: Global, text: &str) -> Result<String, CaseFault> {
    Ok(String::from_str(alloc, text)?)
}

/// Returns the texts joined without separators.
pub fn joined(alloc: Global, texts: &[&str]) -> Result<String, CaseFault> {
    let mut whole = String::new(alloc);
    push_all(&mut whole, texts)?;
    Ok(whole)
}

/// Appends the texts in order.
pub fn push_all(whole: &mut String, texts: &[&str]) -> Result<(), CaseFault> {
    for text in texts {
        whole.push_str(text)?;
    }
    Ok(())
}

/// Returns the two texts with a space between them.
pub fn beside(alloc: Global, first: &str, second: &str) -> Result<String, CaseFault> {
    joined(alloc, &[first, " ", second])
}

/// Returns the `Display` text of a value.
pub fn shown<T: Display>(alloc: Global, value: &T) -> Result<String, CaseFault> {
    Ok(value.to_string(alloc)?)
}

/// Returns the `Display` text of a value between two texts.
pub fn between<T: Display>(
    alloc: Global,
    before: &str,
    value: &T,
    behind: &str,
) -> Result<String, CaseFault> {
    let text = shown(alloc, value)?;
    joined(alloc, &[before, text.as_str(), behind])
}

/// Returns the output of a command, followed by the text of its error if it failed.
pub fn written_text<E: Display + Drop>(
    alloc: Global,
    written: &[u8],
    done: Result<(), E>,
) -> Result<String, CaseFault> {
    let text = str::from_utf8(written).unwrap_or("no UTF-8");
    match done {
        Ok(()) => said(alloc, text),
        Err(fault) => between(alloc, text, &fault, ""),
    }
}

/// Returns the `Debug` text of a value, such as `BadMethod(Search)`.
pub fn debugged<T: Debug>(alloc: Global, value: &T) -> Result<String, CaseFault> {
    Ok(format!(in alloc; "{value:?}")?)
}

/// Returns the name of an ordering.
pub fn order(alloc: Global, order: Ordering) -> Result<String, CaseFault> {
    let name = match order {
        Ordering::Less => "Less",
        Ordering::Equal => "Equal",
        Ordering::Greater => "Greater",
    };
    said(alloc, name)
}

/// Returns `true` or `false`.
pub fn truth(alloc: Global, truth: bool) -> Result<String, CaseFault> {
    said(alloc, if truth { "true" } else { "false" })
}

/// Returns the text of an argument, or its JSON without spaces if it isn't a string. Returns `other` if the
/// argument isn't given.
pub fn text_or_json(case: &Case<'_>, name: &'static str, other: &str) -> Result<String, CaseFault> {
    match case.get(name) {
        Some(value) => said(case.alloc, value.text.as_str()),
        None => said(case.alloc, other),
    }
}

/// Returns the text of a file, given as text in the argument `name` or in hex in the argument `hex_name`, or
/// `None` if it isn't UTF-8. Fails with `Missing` if the file isn't given, or not in hex.
pub fn file_text(
    case: &Case<'_>,
    name: &'static str,
    hex_name: &'static str,
) -> Result<Option<String>, CaseFault> {
    if let Ok(text) = case.text(name) {
        return Ok(Some(said(case.alloc, text)?));
    }
    match hex::decode(case.alloc, case.text(hex_name)?) {
        Ok(bytes) => Ok(String::from_utf8(bytes).ok()),
        Err(_) => Err(CaseFault::Missing(hex_name)),
    }
}
