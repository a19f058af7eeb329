//! Whether a part is a resource: one test for each rule of RFC 7643 sections 2.2 to 2.5, 3.1, 4.1
//! and 4.2, and for each limit of this server.
ghost use Rattle.std.specs.Prelude.{◌≡◌, ◌↔◌, ◌≤◌, ◌++◌, List, ℕ, IsTrue, IsSome, Some, All, codes, length, count_by};
ghost use Rattle.std.specs.Option.{option_copied};
ghost use Rattle.scim_schema.specs.Names.{endpoint};
ghost use Rattle.scim_schema.specs.Units.{leaf_at, whole};
ghost use Rattle.scim_cell.specs.declared.atoms.Atom.TheVariants.{Text};
ghost use Rattle.scim_cell.specs.Rows.{values, rows, is_primary};
ghost use Rattle.scim_value.specs.Resource as spec;
ghost use Rattle.scim_value.specs.Resource.{first_at, IsResource, IsIdentified, HasMeta, HasBase, IsNamed, MembersHaveValues, HasAtMostOnePrimary, HasFewValues, IsShort, MayBeKept};

use crate::parts::Part;
use scim_cell::{Atom, Field, Id, Row};
use scim_schema::{
    Attribute, Kind, LONGEST_VALUE, Leaf, MOST_VALUES, SubAttribute, Unit, attributes, is_dropped,
};

/// Whether the part is a valid resource. `meta.location` may be below any base.
///
/// These are the rules: `id` is the id of the part and `meta` is complete (RFC 7643 section 3.1). A user
/// has a `userName` that isn't empty (section 4.1.1), and a group has a `displayName` (section 4.2). Each
/// member has a `value` (section 4.2). No attribute has two values whose `primary` is true (section 2.4).
/// There are no cells of `groups` and no `password` (sections 4.1.1 and 4.1.2). The part is within
/// the limits `MOST_VALUES` and `LONGEST_VALUE`.
pub fn is_resource(part: &Part) -> bool
    ensures { IsTrue result ↔ IsResource part.now }
{
    is_identified(part)
        && has_meta(part)
        && is_located(part)
        && is_named(part)
        && members_have_values(part)
        && has_at_most_one_primary(part)
        && has_few_values(part)
        && may_all_be_kept(part.kind(), part.rows())
}

/// Whether `meta.location` is the URL of the resource below the base.
pub(crate) fn has_base(part: &Part, base: &str) -> bool
    ensures { IsTrue result ↔ HasBase base.now part.now }
{
    location_base(part) == Some(base)
}

/// Whether the part has a cell at the first position of the leaf.
fn has(part: &Part, leaf: Leaf) -> bool
    ensures { IsTrue result ↔ IsSome (first_at leaf part.now) }
{
    part.get(leaf, 0).is_some()
}

/// The text at the first position of a leaf, or `None` if there is no text.
fn first_text(part: &Part, leaf: Leaf) -> Option<&str>
    ensures { (text : List ℕ) → (option_copied result ≡ Some text)
        ↔ (first_at leaf part.now ≡ Some (Text text)) }
{
    match part.get(leaf, 0) {
        Some(Atom::Text(text)) => Some(text.as_str()),
        _ => None,
    }
}

/// Whether this text is at the first position of the leaf.
fn has_text(part: &Part, leaf: Leaf, text: &str) -> bool
    ensures { IsTrue result ↔ (first_at leaf part.now ≡ Some (Text text.now)) }
{
    match part.get(leaf, 0) {
        Some(Atom::Text(found)) => found.as_str() == text,
        _ => false,
    }
}

/// Whether `id` is the text of the part's id.
fn is_identified(part: &Part) -> bool
    ensures { IsTrue result ↔ IsIdentified part.now }
{
    let mut buffer = [0; Id::TEXT_LENGTH];
    has_text(
        part,
        Leaf::simple(Attribute::Id),
        part.id().write(&mut buffer),
    )
}

/// Whether `meta.resourceType` names the kind, and `meta.created` and `meta.lastModified` exist.
fn has_meta(part: &Part) -> bool
    ensures { IsTrue result ↔ HasMeta part.now }
{
    has_text(
        part,
        Leaf::of(Attribute::Meta, SubAttribute::ResourceType),
        part.kind().name(),
    ) && has(part, Leaf::of(Attribute::Meta, SubAttribute::Created))
        && has(part, Leaf::of(Attribute::Meta, SubAttribute::LastModified))
}

/// The text without the suffix `end`, or `None` if the text doesn't end with `end`.
fn before<'a>(text: &'a str, end: &str) -> Option<&'a str>
    ensures { (front : List ℕ) → (option_copied result ≡ Some front)
        ↔ (text.now ≡ front ++ end.now) }
{
    text.strip_suffix(end)
}

/// The base of `location`, or `None` if `location` isn't the URL of a resource of this kind with this id.
fn base_of<'a>(location: &'a str, kind: Kind, id: &str) -> Option<&'a str>
    ensures { (base : List ℕ) → (option_copied result ≡ Some base)
        ↔ (location.now ≡ base ++ (endpoint kind ++ (codes "/" ++ id.now))) }
{
    before(before(before(location, id)?, "/")?, kind.endpoint())
}

/// The base of `meta.location`, or `None` if `meta.location` isn't the URL of a resource with the kind and
/// the id of the part.
fn location_base(part: &Part) -> Option<&str>
    ensures { (base : List ℕ) → (option_copied result ≡ Some base) ↔ HasBase base part.now }
{
    let mut buffer = [0; Id::TEXT_LENGTH];
    let location = first_text(part, Leaf::of(Attribute::Meta, SubAttribute::Location))?;
    base_of(location, part.kind(), part.id().write(&mut buffer))
}

/// Whether `meta.location` is the URL of the resource below some base.
fn is_located(part: &Part) -> bool
    ensures { IsTrue result ↔ ((base : List ℕ) × HasBase base part.now) }
{
    location_base(part).is_some()
}

/// Whether the part is a user with a `userName` that isn't empty, or a group with a `displayName`.
fn is_named(part: &Part) -> bool
    ensures { IsTrue result ↔ IsNamed part.now }
{
    match part.kind() {
        Kind::User => match part.get(Leaf::simple(Attribute::UserName), 0) {
            Some(Atom::Text(name)) => !name.as_str().is_empty(),
            _ => false,
        },
        Kind::Group => has(part, Leaf::simple(Attribute::DisplayName)),
    }
}

/// Whether each member has a `value`.
fn members_have_values(part: &Part) -> bool
    ensures { IsTrue result ↔ MembersHaveValues (rows part.now) }
{
    part.values(Unit::whole(Attribute::Members))
        .iter()
        .all(|member| {
            member
                .get(Leaf::of(Attribute::Members, SubAttribute::Value))
                .is_some()
        })
}

/// Whether at most one value of the attribute is primary.
fn has_at_most_one_primary_in(part: &Part, attribute: Attribute) -> bool
    ensures { IsTrue result ↔ (count_by is_primary (values (whole attribute) (rows part.now)) ≤ 1) }
{
    part.values(Unit::whole(attribute))
        .iter()
        .filter(|value| value.is_primary())
        .count()
        <= 1
}

/// Whether each attribute has at most one primary value.
fn has_at_most_one_primary(part: &Part) -> bool
    ensures { IsTrue result ↔ HasAtMostOnePrimary part.now.kind (rows part.now) }
{
    attributes(part.kind())
        .iter()
        .all(|attribute| has_at_most_one_primary_in(part, *attribute))
}

/// Whether the attribute has at most `MOST_VALUES` values.
fn has_few_values_in(part: &Part, attribute: Attribute) -> bool
    ensures { IsTrue result ↔ (length (values (whole attribute) (rows part.now)) ≤ MOST_VALUES) }
{
    part.values(Unit::whole(attribute)).len() <= MOST_VALUES
}

/// Whether each attribute has at most `MOST_VALUES` values.
fn has_few_values(part: &Part) -> bool
    ensures { IsTrue result ↔ HasFewValues part.now.kind (rows part.now) }
{
    attributes(part.kind())
        .iter()
        .all(|attribute| has_few_values_in(part, *attribute))
}

/// Whether the atom is a text of at most `LONGEST_VALUE` bytes, or not a text.
fn is_short(atom: &Atom) -> bool
    ensures { IsTrue result ↔ IsShort atom.now }
{
    match atom {
        Atom::Text(text) => text.as_str().len() <= LONGEST_VALUE,
        _ => true,
    }
}

/// Whether the leaf is `meta.location`.
fn is_location(leaf: Leaf) -> bool
    ensures { IsTrue result ↔ (leaf ≡ leaf_at Attribute.Meta SubAttribute.Location) }
{
    leaf == Leaf::of(Attribute::Meta, SubAttribute::Location)
}

/// Whether a resource may have the field: the field doesn't belong to `groups` and isn't dropped, and a text
/// has at most `LONGEST_VALUE` bytes unless the leaf is `meta.location`.
fn may_be_kept(kind: Kind, field: &Field) -> bool
    ensures { IsTrue result ↔ MayBeKept kind field.now }
{
    field.leaf.attribute != Attribute::Groups
        && !is_dropped(field.leaf)
        && (is_location(field.leaf) || is_short(&field.atom))
}

/// Whether a resource may have all fields of the row.
fn fields_may_be_kept(kind: Kind, value: &Row) -> bool
    ensures { IsTrue result ↔ All (MayBeKept kind) value.now.fields }
{
    value.fields().iter().all(|field| may_be_kept(kind, field))
}

/// Whether a resource may have all fields of the rows.
fn may_all_be_kept(kind: Kind, own: &[Row]) -> bool
    ensures { IsTrue result ↔ All (λ r. All (MayBeKept kind) r.fields) own.now }
{
    own.iter().all(|value| fields_may_be_kept(kind, value))
}
