//! The tree of a filter.
ghost use Rattle.std.specs.Prelude.{◌≡◌};
ghost use Rattle.scim_filter_grammar.specs.Tree.{tree_of, view, attribute_meant};

use crate::string_literals::StringLiteral;
use scim_cell::Text;
use scim_schema::{Attribute, Kind, SubAttribute};

/// A comparison operator (RFC 7644 section 3.4.2.2, table 3).
#[derive(Clone, Copy, Debug, PartialEq, Eq)]
pub enum Operator {
    Eq,
    Ne,
    /// Contains.
    Co,
    /// Starts with.
    Sw,
    /// Ends with.
    Ew,
    Gt,
    Ge,
    Lt,
    Le,
}

/// A value to compare with.
pub enum Literal {
    /// A JSON string.
    Text(StringLiteral),
    Number(i64),
    Truth(bool),
    Null,
}

impl Drop for Literal {
    fn drop(self) {
        match self {
            Literal::Text(_held) => (),
            Literal::Number(_held) => (),
            Literal::Truth(_held) => (),
            Literal::Null => (),
        }
    }
}

/// An attribute or sub-attribute that a path names in the attribute table of a kind.
#[derive(Clone, Copy, PartialEq, Eq)]
pub enum Meant {
    /// The kind doesn't have the attribute or sub-attribute.
    Nothing,
    Attribute(Attribute),
    SubAttribute(Attribute, SubAttribute),
}

impl Meant {
    /// The attribute whose sub-attributes may be named in brackets after the path. `None` for a sub-attribute
    /// or an unknown name.
    pub fn attribute(self) -> Option<Attribute>
        ensures { result ≡ attribute_meant self }
    {
        match self {
            Meant::Attribute(attribute) => Some(attribute),
            Meant::Nothing | Meant::SubAttribute(_, _) => None,
        }
    }
}

/// An attribute path, with its names as written.
pub struct AttributePath {
    /// The URN, before the last colon.
    pub urn: Option<Text>,
    /// The name of an attribute, or of a sub-attribute in the brackets of a value path.
    pub name: Text,
    /// The name of a sub-attribute, after a dot.
    pub sub_name: Option<Text>,
    pub meant: Meant,
}

impl Drop for AttributePath {
    fn drop(self) {
        let AttributePath {
            urn: _urn,
            name: _name,
            sub_name: _sub_name,
            meant: _meant,
        } = self;
    }
}

/// The names that may be used at a place of a filter.
#[derive(Clone, Copy)]
pub(crate) enum Scope {
    /// The names of a kind's attributes.
    Attributes(Kind),
    /// The names of the sub-attributes of the attribute before the bracket. `None` if that attribute is
    /// unknown.
    SubAttributes(Option<Attribute>),
}

/// A node of a filter's tree.
pub enum Node {
    Or(Box<Node>, Box<Node>),
    And(Box<Node>, Box<Node>),
    Not(Box<Node>),
    /// `pr`: the attribute has a value.
    Present(AttributePath),
    Compare(AttributePath, Operator, Literal),
    /// A value path, with the filter in its brackets.
    Values(AttributePath, Box<Node>),
}

impl Drop for Node {
    fn drop(self) {
        match self {
            Node::Or(_first, _second) | Node::And(_first, _second) => (),
            Node::Not(_inner) => (),
            Node::Present(_path) => (),
            Node::Compare(_path, _operator, _literal) => (),
            Node::Values(_path, _inner) => (),
        }
    }
}

/// A filter that was read from a text.
pub struct Filter {
    node: Node,
}

impl Drop for Filter {
    fn drop(self) {
        let Filter { node: _node } = self;
    }
}

impl Filter {
    /// The filter with this tree.
    pub(crate) fn of(node: Node) -> Filter
        ensures { tree_of result ≡ view node }
    {
        Filter { node }
    }

    /// The tree of the filter. Chains of `or` and chains of `and` nest to the right.
    pub fn tree(&self) -> &Node
        ensures { view result.now ≡ tree_of self.now }
    {
        &self.node
    }
}
