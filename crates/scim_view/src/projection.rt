//! Projects a visible part to what a reply shows (RFC 7643 section 7, RFC 7644 section 3.9).
ghost use Rattle.std.specs.Prelude.{◌≡◌, All, false, true, IfOk, List};
ghost use Rattle.std.specs.List.{list_all};
ghost use Rattle.scim_cell.specs.Content.{Content};
ghost use Rattle.scim_cell.specs.Rows.{by_leaf, has_fields, restricted, rows};
ghost use Rattle.scim_view.specs.View.{Viewer};
ghost use Rattle.scim_view.specs.Groups.{with_groups};
ghost use Rattle.scim_view.specs.Shown as spec;

use crate::attribute_lists::Names;
use scim_cell::{Row, RowTest};
use scim_schema::{Attribute, Kind, Leaf, Returned, characteristics_of, leaves};
use scim_text::{NoMemory, push};
use scim_value::{Part, Resource};
use std::alloc::Global;

/// The attributes that a client wants in a reply.
/// Attributes with `returned` "always" are always shown, and attributes with "never" are never shown (RFC
/// 7643 section 7).
pub enum Wanted {
    /// The attributes that are returned by default.
    Default,
    /// The named attributes, if they are returned by default or on request.
    /// This is the parameter `attributes` (RFC 7644 section 3.9).
    Only(Names),
    /// The attributes returned by default, except the named ones.
    /// This is the parameter `excludedAttributes` (RFC 7644 section 3.9).
    Without(Names),
}

impl Drop for Wanted {
    fn drop(self) {
        match self {
            Wanted::Default => (),
            Wanted::Only(_names) => (),
            Wanted::Without(_names) => (),
        }
    }
}

/// A test that keeps the cells that the reply shows, in resources of the kind.
#[derive(Clone, Copy)]
pub(crate) struct Shown<'w> {
    pub(crate) wanted: &'w Wanted,
    pub(crate) kind: Kind,
}

impl RowTest for Shown<'_> {
    ghost use Rattle.scim_view.specs.Shown.{shows};

    ghost keeps = { λ self _ leaf. shows self.wanted.now self.kind leaf };

    fn is_kept(&self, _row: &Row, leaf: Leaf) -> bool {
        self.wanted.shows(self.kind, leaf)
    }
}

impl Wanted {
    /// Whether some leaf of the attribute is shown, in resources of the kind.
    pub fn shows_attribute(&self, kind: Kind, attribute: Attribute) -> bool
        ensures { result ≡ spec.shows_attribute self.now kind attribute }
    {
        leaves(kind).iter().any(|leaf| leaf.attribute == attribute && self.shows(kind, *leaf))
    }

    /// Whether some leaf of the resource's computed `groups` is shown. If not, a reply shows the same whatever
    /// groups list the resource.
    pub fn shows_groups(&self, resource: &Resource) -> bool
        ensures { result ≡ false → (v : Viewer) (gs hs : List Content)
            → spec.shown self.now (with_groups v gs resource.now)
            ≡ spec.shown self.now (with_groups v hs resource.now) }
    {
        let part = resource.part();
        self.shows_attribute(part.kind(), Attribute::Groups)
    }

    /// Whether a leaf of the kind is shown.
    pub(crate) fn shows(&self, kind: Kind, leaf: Leaf) -> bool
        ensures { result ≡ spec.shows self.now kind leaf }
    {
        match characteristics_of(kind, leaf).returned {
            Returned::Always => true,
            Returned::Never => false,
            Returned::Default => self.shows_default(leaf),
            Returned::Request => self.shows_requested(leaf),
        }
    }

    /// Whether a leaf with `returned` "default" is shown.
    fn shows_default(&self, leaf: Leaf) -> bool
        ensures { result ≡ spec.shows_default self.now leaf }
    {
        match self {
            Wanted::Default => true,
            Wanted::Only(names) => names.includes(leaf),
            Wanted::Without(names) => !names.includes(leaf),
        }
    }

    /// Whether a leaf with `returned` "request" is shown.
    fn shows_requested(&self, leaf: Leaf) -> bool
        ensures { result ≡ spec.shows_requested self.now leaf }
    {
        match self {
            Wanted::Default => false,
            Wanted::Only(names) => names.includes(leaf),
            Wanted::Without(_) => false,
        }
    }
}

/// Returns the part of `visible` that the reply shows. Values without a shown cell are left out, and the
/// positions of later values move down. If all cells are shown, returns `visible` itself.
pub fn project(alloc: Global, visible: Part, wanted: &Wanted) -> Result<Part, NoMemory>
    ensures { IfOk result (λ p. p ≡ spec.shown wanted.now visible) }
{
    let shown = Shown {
        wanted,
        kind: visible.kind(),
    };
    if shows_all(visible.rows(), &shown) {
        Ok(visible)
    } else {
        visible.restrict(alloc, &shown)
    }
}

/// Returns the rows with only the fields that the test keeps. Rows without such a field are left out. If all
/// fields are kept, returns `rows` itself.
pub(crate) fn project_rows(
    alloc: Global,
    rows: Vec<Row>,
    shown: &Shown<'_>,
) -> Result<Vec<Row>, NoMemory>
    requires { All (λ r. has_fields r ≡ true) rows.items }
    ensures { IfOk result (λ v. v.items
        ≡ restricted (by_leaf (spec.shows shown.now.wanted.now shown.now.kind)) rows.items) }
{
    if shows_all(rows.as_slice(), shown) {
        return Ok(rows);
    }
    let mut left = Vec::new(alloc);
    for row in &rows {
        let row = row.restrict(alloc, shown)?;
        if !row.fields().is_empty() {
            push(&mut left, row)?;
        }
    }
    Ok(left)
}

/// Whether the test keeps every field of the rows.
fn shows_all(rows: &[Row], shown: &Shown) -> bool
    ensures { result ≡ list_all (λ r.
        list_all (λ f. spec.shows shown.now.wanted.now shown.now.kind f.leaf) r.fields) rows.now }
{
    rows.iter().all(|row| shows_row(row, shown))
}

/// Whether the test keeps every field of the row.
fn shows_row(row: &Row, shown: &Shown) -> bool
    ensures { result ≡ list_all (λ f.
        spec.shows shown.now.wanted.now shown.now.kind f.leaf) row.now.fields }
{
    row.fields()
        .iter()
        .all(|field| shown.wanted.shows(shown.kind, field.leaf))
}
