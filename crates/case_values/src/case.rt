//! A case: a call and its arguments.
use crate::faults::CaseFault;
use crate::forms::{Argument, Form};
use std::alloc::Global;

/// A case: a JSON object with the name of a call, its arguments and the expected result. It may have a
/// comment.
#[derive(Clone, Copy)]
pub struct Case<'a> {
    pub alloc: Global,
    /// All JSON values of the line. The items of a list, or the members of an object, are adjacent.
    values: &'a [Argument],
    /// The value that is the case, or `None` if `values` is empty.
    value: Option<&'a Argument>,
}

impl Case<'_> {
    /// Returns the case whose JSON value is the first of `values`. They include all its items and members.
    pub fn of(alloc: Global, values: &[Argument]) -> Case<'_> {
        Case {
            alloc,
            values,
            value: values.first(),
        }
    }

    /// Returns a case whose arguments are the members of `value`.
    pub fn inner<'b>(&'b self, value: &'b Argument) -> Case<'b> {
        Case {
            alloc: self.alloc,
            values: self.values,
            value: Some(value),
        }
    }

    /// Returns the name of the call.
    ///
    /// This is `steps` if the case has `steps`. Otherwise, if the case has `said`, it is `users_file` or
    /// `policy_file`. Otherwise it is the argument `call`. Fails with `Missing` if `call` isn't a string.
    pub fn call(&self) -> Result<&str, CaseFault> {
        if self.has("steps") {
            return Ok("steps");
        }
        if !self.has("said") {
            return self.text("call");
        }
        if self.has("users") || self.has("users_hex") {
            Ok("users_file")
        } else {
            Ok("policy_file")
        }
    }

    /// Returns an argument, or `None` if it isn't given.
    pub(crate) fn get(&self, name: &'static str) -> Option<&Argument> {
        let value = self.value?;
        if !matches!(value.form, Form::Object) {
            return None;
        }
        for member in self.within(value) {
            if member.name.as_str() == name {
                return Some(member);
            }
        }
        None
    }

    /// Returns the items or members of a value.
    fn within(&self, value: &Argument) -> &[Argument] {
        let end = value.first.saturating_add(value.count);
        match self.values.get(value.first..end) {
            Some(within) => within,
            None => &[],
        }
    }

    /// Whether an argument is given.
    pub fn has(&self, name: &'static str) -> bool {
        self.get(name).is_some()
    }

    /// Returns the text of an argument. Fails with `Missing` if it isn't given as a string.
    pub fn text(&self, name: &'static str) -> Result<&str, CaseFault> {
        match self.text_of(name) {
            Some(text) => Ok(text),
            None => Err(CaseFault::Missing(name)),
        }
    }

    /// Returns the text of an argument, or `other` if it isn't given as a string.
    pub fn text_or<'b>(&'b self, name: &'static str, other: &'b str) -> &'b str {
        match self.text_of(name) {
            Some(text) => text,
            None => other,
        }
    }

    fn text_of(&self, name: &'static str) -> Option<&str> {
        let value = self.get(name)?;
        value.as_str()
    }

    /// Returns the number of an argument. Fails with `Missing` if it isn't given as an integer of 64 bits.
    pub fn number(&self, name: &'static str) -> Result<i64, CaseFault> {
        match self.form_of(name) {
            Form::Number(number) => Ok(number),
            _ => Err(CaseFault::Missing(name)),
        }
    }

    /// Returns the number of an argument as a count or position, or 0 if it is negative. Fails with `Missing`
    /// if it isn't given as an integer of 64 bits.
    pub fn count(&self, name: &'static str) -> Result<usize, CaseFault> {
        let number = self.number(name)?;
        Ok(usize::try_from(number).unwrap_or(0))
    }

    /// Whether an argument is given as `true`.
    pub fn is_true(&self, name: &'static str) -> bool {
        matches!(self.form_of(name), Form::Truth(true))
    }

    /// Returns the form of an argument, or `Form::Other` if it isn't given.
    fn form_of(&self, name: &'static str) -> Form {
        match self.get(name) {
            Some(value) => value.form,
            None => Form::Other,
        }
    }

    /// Returns the items of an argument, or no items if it isn't given as a list.
    pub fn list(&self, name: &'static str) -> &[Argument] {
        match self.get(name) {
            Some(value) => self.items(value),
            None => &[],
        }
    }

    /// Returns the items of a value of this case, or no items if it isn't a list.
    pub fn items(&self, value: &Argument) -> &[Argument] {
        match value.form {
            Form::List => self.within(value),
            _ => &[],
        }
    }
}
