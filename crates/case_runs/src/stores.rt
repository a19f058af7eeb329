//! The stores that receive the steps of a case. A case has one store or two.
use case_values::{Case, CaseFault};

/// A store of a case, and the keys for this store in the case and in its steps.
#[derive(Clone, Copy)]
pub struct Store {
    /// The text before each of its replies.
    pub title: &'static str,
    /// The key of its users file.
    pub users: &'static str,
    /// The key of the head of its reply in a step, and `gives` is the key of the body. If a step doesn't have
    /// this head, the reply of both stores is in the step's `reply` and `gives`.
    pub reply: &'static str,
    pub gives: &'static str,
    /// The value of `over` in a step that goes only to this store. The field `other` is the value of `over`
    /// in a step that goes only to the other store.
    own: &'static str,
    other: &'static str,
}

static ONE: [Store; 1] = [Store {
    title: "",
    users: "users",
    reply: "reply",
    gives: "gives",
    own: "",
    other: "",
}];

static TWO: [Store; 2] = [
    Store {
        title: "\nfirst store: ",
        users: "users",
        reply: "reply",
        gives: "gives",
        own: "first",
        other: "second",
    },
    Store {
        title: "\nsecond store: ",
        users: "beside",
        reply: "otherwise",
        gives: "otherwise_gives",
        own: "second",
        other: "first",
    },
];

/// Returns the stores of a case: a store with the users file `users` and, if `beside` is given, a store with
/// the users file `beside`.
pub fn stores_of(case: &Case<'_>) -> &'static [Store] {
    if case.has("beside") { &TWO } else { &ONE }
}

/// Whether a step goes to the store. It does unless its `over` names the other store. Fails with `Missing` if
/// `over` is invalid.
pub fn goes_to(step: &Case<'_>, store: &Store) -> Result<bool, CaseFault> {
    if !step.has("over") {
        return Ok(true);
    }
    let over = step.text("over")?;
    if over == store.own {
        Ok(true)
    } else if over == store.other {
        Ok(false)
    } else {
        Err(CaseFault::Missing("over"))
    }
}
