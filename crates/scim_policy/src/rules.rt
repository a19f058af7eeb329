//! Rules and policies.
ghost use Rattle.std.specs.Prelude.{◌≡◌, ◌≤◌, length};
ghost use Rattle.scim_schema.specs.declared.limits.TheConstants.{MOST_RULES};
ghost use Rattle.scim_filter_grammar.specs.Tree.{tree_of};
ghost use Rattle.scim_policy.specs.Fits.{attribute_before, filtered_on, paths_on};
ghost use Rattle.scim_policy.specs.Rules as spec;

use scim_cell::Text;
use scim_filter_grammar::{Filter, Node};
use scim_schema::{Attribute, Kind, Op, SubAttribute};
use std::fmt;
use std::marker::Model;

/// A client, or all clients, that a rule is for.
#[derive(Drop)]
pub enum ClientName {
    /// Any client: `*`.
    Everyone,
    /// The client with this name.
    Named(Text),
}

/// The leaves that a path of a rule covers.
#[derive(Clone, Copy, Debug, PartialEq, Eq)]
pub enum PolicyPath {
    /// All leaves: `*`.
    Everything,
    /// A whole attribute, with its sub-attributes.
    Attribute(Attribute),
    /// A sub-attribute of an attribute.
    SubAttribute(Attribute, SubAttribute),
}

/// The number of the rule that decided, from 1, and whether it allows. If no rule fits, the number is 0 and
/// the decision denies.
#[derive(Clone, Copy, PartialEq, Eq)]
pub struct Decision {
    pub rule: u32,
    pub allow: bool,
}

/// A rule's target for resources of one kind: the filter that they must match. In contracts it is represented
/// by the kind and the filter's tree.
#[derive(Drop)]
pub struct Target {
    kind: Kind,
    filter: Filter,
}

/// A path with a value filter: it covers an attribute, or one of its sub-attributes, only at the values that
/// match the filter. In contracts it is represented by the filter's tree and the sub-attribute.
#[derive(Drop)]
pub struct FilteredPath {
    filter: Filter,
    sub_attribute: Option<SubAttribute>,
}

/// The paths of a rule for resources of one kind. Paths that name nothing on that kind are omitted. In
/// contracts they are represented by the kind, the paths without a value filter, and those with one.
#[derive(Drop)]
pub struct KindPaths {
    kind: Kind,
    paths: Vec<PolicyPath>,
    filtered: Vec<FilteredPath>,
}

/// A rule: it allows or denies some clients some operations on some attributes of some kinds of resources. If
/// it has targets, it applies only to resources that match the target for their kind.
#[derive(Drop)]
pub struct Rule {
    allow: bool,
    clients: Vec<ClientName>,
    ops: Vec<Op>,
    kinds: Vec<Kind>,
    targets: Vec<Target>,
    paths: Vec<KindPaths>,
}

/// A list of at most 1,000 rules, numbered from 1. In contracts it is represented by the list of rules.
#[derive(Drop)]
pub struct Policy {
    rules: Vec<Rule>,
}

impl Model for Target {
    ghost use Rattle.std.specs.Coded.{codes};
    ghost use Rattle.scim_schema.specs.contracts.Kind as kind_type;
    ghost use Rattle.scim_filter_grammar.specs.Tree.{tree_of};
    ghost use Rattle.scim_policy.specs.Rules.{Target};
    ghost use Rattle.scim_policy.specs.code.Steps.{tree_code};

    ghost Value = { Target };

    ghost coded = { Prim.hlevel (codes, kind_type.the_row.coded, tree_code) };

    ghost view = { λ t. record { kind = t.kind; tree = tree_of t.filter } };
}

impl fmt::Debug for Target {
    fn fmt<W: fmt::Write>(&self, f: &mut fmt::Formatter<W>) -> fmt::Result {
        write!(f, "Target({:?})", self.kind)
    }
}

impl Model for FilteredPath {
    ghost use Rattle.std.specs.Coded.{codes};
    ghost use Rattle.scim_schema.specs.contracts.SubAttribute as sub_attribute_type;
    ghost use Rattle.scim_filter_grammar.specs.Tree.{tree_of};
    ghost use Rattle.scim_policy.specs.Rules.{FilteredPath};
    ghost use Rattle.scim_policy.specs.code.Steps.{tree_code};

    ghost Value = { FilteredPath };

    ghost coded = { Prim.hlevel (codes, tree_code, sub_attribute_type.the_row.coded) };

    ghost view = { λ p. record { tree = tree_of p.filter; sub_attribute = p.sub_attribute } };
}

impl fmt::Debug for FilteredPath {
    fn fmt<W: fmt::Write>(&self, f: &mut fmt::Formatter<W>) -> fmt::Result {
        write!(f, "FilteredPath({:?})", self.sub_attribute)
    }
}

impl Model for KindPaths {
    ghost use Rattle.std.specs.Coded.{codes};
    ghost use Rattle.scim_schema.specs.contracts.Kind as kind_type;
    ghost use Rattle.scim_policy.specs.contracts.rules.PolicyPath as path;
    ghost use Rattle.scim_policy.specs.contracts.rules.FilteredPath as filtered_path;
    ghost use Rattle.scim_policy.specs.Rules.{KindPaths};

    ghost Value = { KindPaths };

    ghost coded = { Prim.hlevel (codes, kind_type.the_row.coded, path.the_row.coded, filtered_path.the_row.coded) };

    ghost view = { λ p. record { kind = p.kind; paths = p.paths.items; filtered = p.filtered.items } };
}

impl Model for Rule {
    ghost use Rattle.std.specs.Coded.{codes};
    ghost use Rattle.scim_schema.specs.contracts.Kind as kind;
    ghost use Rattle.scim_schema.specs.contracts.Op as op;
    ghost use Rattle.scim_policy.specs.contracts.rules.ClientName as client;
    ghost use Rattle.scim_policy.specs.contracts.rules.Target as target;
    ghost use Rattle.scim_policy.specs.contracts.rules.KindPaths as kind_paths;
    ghost use Rattle.scim_policy.specs.Rules.{Rule};

    ghost Value = { Rule };

    ghost coded = { Prim.hlevel (codes, kind.the_row.coded, op.the_row.coded, client.the_row.coded, target.the_row.coded, kind_paths.the_row.coded) };

    ghost use Rattle.scim_policy.specs.code.Inside.{rule_of};

    ghost view = { rule_of };
}

impl Model for Policy {
    ghost use Rattle.std.specs.Prelude.{List};
    ghost use Rattle.std.specs.Coded.{codes};
    ghost use Rattle.scim_policy.specs.contracts.rules.Rule as rule;
    ghost use Rattle.scim_policy.specs.Rules.{Rule};

    ghost Value = { List Rule };

    ghost coded = { Prim.hlevel (codes, rule.the_row.coded) };

    ghost use Rattle.scim_policy.specs.code.Inside.{IsSmall};

    ghost view = { λ p. p.rules.items };

    ghost invariant = { IsSmall };
}

impl Target {
    /// Makes a target for resources of `kind`.
    pub fn new(kind: Kind, filter: Filter) -> Target
        ensures kind { result.kind ≡ kind }
        ensures tree { result.tree ≡ tree_of filter }
    {
        Target { kind, filter }
    }

    /// The kind of resources that the target is for.
    pub fn kind(&self) -> Kind
        ensures { result ≡ self.now.kind }
    {
        self.kind
    }

    /// The filter that a resource must match.
    pub fn filter(&self) -> &Filter
        ensures { tree_of result.now ≡ self.now.tree }
    {
        &self.filter
    }
}

impl FilteredPath {
    /// Makes a path from a value path and the sub-attribute after its brackets.
    pub fn new(filter: Filter, sub_attribute: Option<SubAttribute>) -> FilteredPath
        ensures tree { result.tree ≡ tree_of filter }
        ensures sub_attribute { result.sub_attribute ≡ sub_attribute }
    {
        FilteredPath {
            filter,
            sub_attribute,
        }
    }

    /// The value path: the attribute and, in brackets, the filter that its values must match.
    pub fn filter(&self) -> &Filter
        ensures { tree_of result.now ≡ self.now.tree }
    {
        &self.filter
    }

    /// The attribute before the brackets. `None` if the filter isn't a value path on an attribute.
    pub fn attribute(&self) -> Option<Attribute>
        ensures { result ≡ attribute_before self.now.tree }
    {
        match self.filter.tree() {
            Node::Values(path, _) => path.meant.attribute(),
            _ => None,
        }
    }

    /// The sub-attribute after the brackets, if there is one.
    pub fn sub_attribute(&self) -> Option<SubAttribute>
        ensures { result ≡ self.now.sub_attribute }
    {
        self.sub_attribute
    }
}

impl KindPaths {
    /// Makes the paths for resources of `kind`: those without a value filter, and those with one.
    pub fn new(kind: Kind, paths: Vec<PolicyPath>, filtered: Vec<FilteredPath>) -> KindPaths
        ensures kind { result.kind ≡ kind }
        ensures paths { result.paths ≡ paths.items }
        ensures filtered { result.filtered ≡ filtered.items }
    {
        KindPaths {
            kind,
            paths,
            filtered,
        }
    }

    /// The kind of resources that the paths are for.
    pub fn kind(&self) -> Kind
        ensures { result ≡ self.now.kind }
    {
        self.kind
    }

    /// The paths without a value filter. They cover leaves at all values.
    pub fn paths(&self) -> &[PolicyPath]
        ensures { result.now ≡ self.now.paths }
    {
        self.paths.as_slice()
    }

    /// The paths with a value filter.
    pub fn filtered(&self) -> &[FilteredPath]
        ensures { result.now ≡ self.now.filtered }
    {
        self.filtered.as_slice()
    }
}

impl Rule {
    /// Makes a rule.
    pub fn new(
        allow: bool,
        clients: Vec<ClientName>,
        ops: Vec<Op>,
        kinds: Vec<Kind>,
        targets: Vec<Target>,
        paths: Vec<KindPaths>,
    ) -> Rule
        ensures allow { result.allow ≡ allow }
        ensures clients { result.clients ≡ clients.items }
        ensures ops { result.ops ≡ ops.items }
        ensures kinds { result.kinds ≡ kinds.items }
        ensures targets { result.targets ≡ targets.items }
        ensures paths { result.paths ≡ paths.items }
    {
        Rule {
            allow,
            clients,
            ops,
            kinds,
            targets,
            paths,
        }
    }

    /// Whether the rule allows the operations that it is for. False if it denies them.
    pub fn allows(&self) -> bool
        ensures { result ≡ self.now.allow }
    {
        self.allow
    }

    /// The clients that the rule is for.
    pub fn clients(&self) -> &[ClientName]
        ensures { result.now ≡ self.now.clients }
    {
        self.clients.as_slice()
    }

    /// The operations that the rule is for.
    pub fn ops(&self) -> &[Op]
        ensures { result.now ≡ self.now.ops }
    {
        self.ops.as_slice()
    }

    /// The kinds of resources that the rule is for.
    pub fn kinds(&self) -> &[Kind]
        ensures { result.now ≡ self.now.kinds }
    {
        self.kinds.as_slice()
    }

    /// The rule's target for each of its kinds. Empty if the rule has no target.
    pub fn targets(&self) -> &[Target]
        ensures { result.now ≡ self.now.targets }
    {
        self.targets.as_slice()
    }

    /// The rule's paths for each of its kinds.
    pub fn paths(&self) -> &[KindPaths]
        ensures { result.now ≡ self.now.paths }
    {
        self.paths.as_slice()
    }

    /// The rule's paths without a value filter for resources of `kind`. Empty if the rule isn't for `kind`.
    pub fn paths_on(&self, kind: Kind) -> &[PolicyPath]
        ensures { result.now ≡ paths_on kind self.now.paths }
    {
        for paths in self.paths() {
            if kind == paths.kind() {
                return paths.paths();
            }
        }
        &[]
    }

    /// The rule's paths with a value filter for resources of `kind`. Empty if the rule isn't for `kind`.
    pub fn filtered_on(&self, kind: Kind) -> &[FilteredPath]
        ensures { result.now ≡ filtered_on kind self.now.paths }
    {
        for paths in self.paths() {
            if kind == paths.kind() {
                return paths.filtered();
            }
        }
        &[]
    }
}

impl Policy {
    /// Makes a policy of at most 1,000 rules.
    pub fn of(rules: Vec<Rule>) -> Policy
        requires { length rules.items ≤ MOST_RULES }
        ensures { result ≡ rules.items }
    {
        Policy { rules }
    }

    /// The number of rules.
    pub fn rules(&self) -> usize
        ensures { result ≡ length self.now }
    {
        self.rules.len()
    }

    /// The rules, in order of their numbers.
    pub fn listed(&self) -> &[Rule]
        ensures rules { result.now ≡ self.now }
        ensures few { length self.now ≤ MOST_RULES }
    {
        self.rules.as_slice()
    }
}
