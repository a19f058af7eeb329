//! Evaluates filters on the cells of a part of a resource (RFC 7644 section 3.4.2.2).
ghost use Rattle.std.specs.Prelude.{◌≡◌, ◌&&◌, ◌∷◌, [], IfOk, true, take, drop};
ghost use Rattle.std.specs.List.{list_any};
ghost use Rattle.scim_schema.specs.Units.{is_same_leaf};
ghost use Rattle.scim_cell.specs.Rows.{rows, attribute_rows, restricted};
ghost use Rattle.scim_filter_grammar.specs.declared.tree.Meant.TheVariants as meant;
ghost use Rattle.scim_filter_grammar.specs.Tree.{view, tree_of};
ghost use Rattle.scim_filter.specs.Relation.{stands};
ghost use Rattle.scim_filter.specs.Truth as spec;
ghost use Rattle.scim_filter.specs.code.Cells.{rows_in};
ghost use Rattle.scim_filter.specs.code.Looks.{admitted, looked};

use crate::comparisons::atom_stands;
use crate::visible_rows::{Look, NoTest};
use scim_cell::{Row, RowTest};
use scim_filter_grammar::{Filter, Literal, Meant, Node, Operator};
use scim_schema::{Attribute, Leaf, is_case_exact, is_multi_valued};
use scim_text::NoMemory;
use scim_value::Part;
use std::alloc::Global;
use std::slice;

/// The cells that a filter is evaluated on.
#[derive(Clone, Copy)]
enum Cells<'a> {
    /// All cells of a part.
    All(&'a Part),
    /// The cells of this attribute in these rows.
    Of(Attribute, &'a [Row]),
    /// No cells.
    None,
}

impl<'a> Cells<'a> {
    /// Returns all rows of `attribute` in these cells, and possibly rows of other attributes.
    #[tactic(auto, using(crate::proofs::RowLemmas::none_of_another))]
    fn around(self, attribute: Attribute) -> &'a [Row]
        ensures { attribute_rows attribute result.now
            ≡ attribute_rows attribute (rows_in self.entry) }
    {
        match self {
            Cells::All(part) => part.attribute_rows(attribute),
            Cells::Of(own, rows) if own == attribute => rows,
            Cells::Of(_, _) | Cells::None => &[],
        }
    }
}

/// Whether the filter sees a cell of the leaf in the row.
fn has_cell<T: RowTest>(look: &Look<'_, T>, leaf: Leaf, row: &Row) -> bool
    ensures { result ≡ list_any (λ f. admitted T.keeps look.now row.now f.leaf
        && (is_same_leaf f.leaf leaf && true)) row.now.fields }
{
    for field in look.fields(row) {
        if field.leaf == leaf && look.admits(row, field.leaf) {
            return true;
        }
    }
    false
}

/// Whether the filter sees a cell of `attribute` in the rows.
fn has_attribute<T: RowTest>(look: &Look<'_, T>, attribute: Attribute, rows: &[Row]) -> bool
    ensures { result ≡ spec.some_cell (λ f. true) attribute (looked T.keeps look.now rows.now) }
{
    for row in rows {
        if row.unit().attribute == attribute && look.has_field(row) {
            return true;
        }
    }
    false
}

/// Whether the filter sees a cell of `leaf` in the rows.
fn has_leaf<T: RowTest>(look: &Look<'_, T>, leaf: Leaf, rows: &[Row]) -> bool
    ensures { result ≡ spec.some_atom (λ a. true) leaf (looked T.keeps look.now rows.now) }
{
    for row in rows {
        if row.unit().attribute == leaf.attribute && has_cell(look, leaf, row) {
            return true;
        }
    }
    false
}

/// Evaluates `pr`: whether the filter sees a cell of the named attribute or sub-attribute.
fn is_present<T: RowTest>(look: &Look<'_, T>, meant: Meant, cells: Cells<'_>) -> bool
    ensures { result ≡ spec.is_present meant (looked T.keeps look.now (rows_in cells.entry)) }
{
    match meant {
        Meant::Nothing => false,
        Meant::Attribute(attribute) => has_attribute(look, attribute, cells.around(attribute)),
        Meant::SubAttribute(attribute, sub_attribute) => has_leaf(
            look,
            Leaf::of(attribute, sub_attribute),
            cells.around(attribute),
        ),
    }
}

/// Whether one of the leaf's cells that the filter sees in the row satisfies the comparison.
fn fields_stand<T: RowTest>(
    alloc: Global,
    look: &Look<'_, T>,
    leaf: Leaf,
    op: Operator,
    literal: &Literal,
    exact: bool,
    row: &Row,
) -> Result<bool, NoMemory>
    ensures { IfOk result (λ b. b
        ≡ list_any (λ f. admitted T.keeps look.now row.now f.leaf
        && (is_same_leaf f.leaf leaf && stands exact op f.atom literal.now)) row.now.fields) }
{
    for field in look.fields(row) {
        if field.leaf == leaf
            && look.admits(row, field.leaf)
            && atom_stands(alloc, exact, op, &field.atom, literal)?
        {
            return Ok(true);
        }
    }
    Ok(false)
}

/// Whether one of the leaf's cells that the filter sees in the rows satisfies the comparison.
fn leaf_stands<T: RowTest>(
    alloc: Global,
    look: &Look<'_, T>,
    leaf: Leaf,
    op: Operator,
    literal: &Literal,
    exact: bool,
    rows: &[Row],
) -> Result<bool, NoMemory>
    ensures { IfOk result (λ b. b
        ≡ spec.some_atom (λ a. stands exact op a literal.now) leaf
        (looked T.keeps look.now rows.now)) }
{
    for row in rows {
        if row.unit().attribute == leaf.attribute
            && fields_stand(alloc, look, leaf, op, literal, exact, row)?
        {
            return Ok(true);
        }
    }
    Ok(false)
}

/// Whether the operator is `ne` and the filter sees no cell of the leaf.
fn is_unlike<T: RowTest>(look: &Look<'_, T>, op: Operator, leaf: Leaf, rows: &[Row]) -> bool
    ensures { result ≡ spec.is_unlike op
        (spec.some_atom (λ a. true) leaf (looked T.keeps look.now rows.now)) }
{
    op == Operator::Ne && !has_leaf(look, leaf, rows)
}

/// Whether the filter sees a cell of the leaf that satisfies the comparison, or the operator is `ne` and
/// there is no leaf or no visible cell.
fn leaf_compares<T: RowTest>(
    alloc: Global,
    look: &Look<'_, T>,
    leaf: Option<Leaf>,
    op: Operator,
    literal: &Literal,
    cells: Cells<'_>,
) -> Result<bool, NoMemory>
    ensures { IfOk result (λ b. b
        ≡ spec.leaf_compares leaf op literal.now (looked T.keeps look.now (rows_in cells.entry))) }
{
    let Some(leaf) = leaf else {
        return Ok(op == Operator::Ne);
    };
    let rows = cells.around(leaf.attribute);
    if is_unlike(look, op, leaf, rows) {
        return Ok(true);
    }
    leaf_stands(alloc, look, leaf, op, literal, is_case_exact(leaf), rows)
}

/// Evaluates a comparison. `eq null` is true if the filter sees no cell, and `ne null` if it sees a cell.
fn compares<T: RowTest>(
    alloc: Global,
    look: &Look<'_, T>,
    meant: Meant,
    op: Operator,
    literal: &Literal,
    cells: Cells<'_>,
) -> Result<bool, NoMemory>
    ensures { IfOk result (λ b. b
        ≡ spec.compares meant op literal.now (looked T.keeps look.now (rows_in cells.entry))) }
{
    match (op, literal) {
        (Operator::Eq, Literal::Null) => Ok(!is_present(look, meant, cells)),
        (Operator::Ne, Literal::Null) => Ok(is_present(look, meant, cells)),
        _ => leaf_compares(alloc, look, meant.compared_leaf(), op, literal, cells),
    }
}

/// Whether the filter matches at least one value of the attribute, with each value evaluated on its own.
///
/// A value without a visible field is skipped, since a filter with `not` could match it.
#[cycle(truth)]
fn some_value_holds<T: RowTest>(
    alloc: Global,
    look: &Look<'_, T>,
    filter: &Node,
    attribute: Attribute,
    rows: &[Row],
) -> Result<bool, NoMemory>
    ensures { IfOk result (λ b. b
        ≡ list_any (λ r. spec.truth (view filter.now) (r ∷ []))
        (attribute_rows attribute (looked T.keeps look.now rows.now))) }
{
    for row in rows {
        if row.unit().attribute == attribute
            && look.stays(row)
            && node_holds(
                alloc,
                look,
                filter,
                Cells::Of(attribute, slice::from_ref(row)),
            )?
        {
            return Ok(true);
        }
    }
    Ok(false)
}

/// Whether the filter in the brackets of a value path matches a value of the attribute before the brackets.
#[cycle(truth)]
fn some_position_holds<T: RowTest>(
    alloc: Global,
    look: &Look<'_, T>,
    filter: &Node,
    meant: Meant,
    cells: Cells<'_>,
) -> Result<bool, NoMemory>
    ensures { IfOk result (λ b. b
        ≡ spec.some_position (spec.truth (view filter.now)) meant
        (looked T.keeps look.now (rows_in cells.entry))) }
{
    let Meant::Attribute(attribute) = meant else {
        return Ok(false);
    };
    let rows = cells.around(attribute);
    if is_multi_valued(attribute) {
        some_value_holds(alloc, look, filter, attribute, rows)
    } else {
        node_holds(alloc, look, filter, Cells::Of(attribute, rows))
    }
}

/// Whether a node of a filter matches the cells.
#[cycle(truth)]
fn node_holds<T: RowTest>(
    alloc: Global,
    look: &Look<'_, T>,
    node: &Node,
    cells: Cells<'_>,
) -> Result<bool, NoMemory>
    ensures { IfOk result (λ b. b
        ≡ spec.truth (view node.now) (looked T.keeps look.now (rows_in cells.entry))) }
{
    match node {
        Node::Or(a, b) => {
            Ok(node_holds(alloc, look, a, cells)? || node_holds(alloc, look, b, cells)?)
        }
        Node::And(a, b) => {
            Ok(node_holds(alloc, look, a, cells)? && node_holds(alloc, look, b, cells)?)
        }
        Node::Not(a) => Ok(!node_holds(alloc, look, a, cells)?),
        Node::Present(path) => Ok(is_present(look, path.meant, cells)),
        Node::Compare(path, op, literal) => {
            compares(alloc, look, path.meant, *op, literal, cells)
        }
        Node::Values(path, filter) => some_position_holds(alloc, look, filter, path.meant, cells),
    }
}

/// The row at `position`, counted from 0, or an empty slice if there is none.
#[tactic(auto, using(crate::proofs::RowLemmas::one_taken))]
fn row_at(rows: &[Row], position: usize) -> &[Row]
    ensures { result.now ≡ take 1 (drop position rows.now) }
{
    match rows.get(position) {
        Some(row) => slice::from_ref(row),
        None => &[],
    }
}

/// Rows that hold the value of `attribute` at a position, counted from 0. A single-valued attribute has only
/// position 0.
#[tactic(auto, using(crate::proofs::RowLemmas::own_again, crate::proofs::RowLemmas::one_again))]
fn rows_at(part: &Part, attribute: Attribute, position: usize) -> &[Row]
    ensures { attribute_rows attribute result.now
        ≡ spec.rows_at (meant.Attribute attribute) position (rows part.now) }
{
    let own = part.attribute_rows(attribute);
    if is_multi_valued(attribute) {
        row_at(own, position)
    } else if position == 0 {
        own
    } else {
        &[]
    }
}

/// Whether a filter matches the cells of a part (RFC 7644 section 3.4.2.2).
///
/// Each term reads only the rows of its attribute or, in a value path, the rows of one value.
#[tactic(auto, unfolding(crate::specs::code::Looks::looked))]
pub fn holds(alloc: Global, filter: &Filter, part: &Part) -> Result<bool, NoMemory>
    ensures { IfOk result (λ b. b ≡ spec.truth (tree_of filter.now) (rows part.now)) }
{
    node_holds(
        alloc,
        &Look::<NoTest>::Everything,
        filter.tree(),
        Cells::All(part),
    )
}

/// Whether a filter matches the fields of a part that the test admits. Other fields, and values without an
/// admitted field, count as absent.
///
/// Returns the same as [`holds`] on the part reduced by [`Part::restrict`], but copies nothing.
#[tactic(auto, unfolding(crate::specs::code::Looks::looked))]
pub fn holds_where<T: RowTest>(
    alloc: Global,
    filter: &Filter,
    part: &Part,
    test: &T,
) -> Result<bool, NoMemory>
    ensures { IfOk result (λ b. b
        ≡ spec.truth (tree_of filter.now) (restricted (T.keeps test.now) (rows part.now))) }
{
    node_holds(
        alloc,
        &Look::Admitted(test),
        filter.tree(),
        Cells::All(part),
    )
}

/// Whether the filter in the brackets of a value path matches one value of its attribute (RFC 7644 section
/// 3.5.2).
///
/// False if `filter` isn't a value path.
#[tactic(auto, unfolding(crate::specs::code::Looks::looked))]
pub fn holds_of(alloc: Global, filter: &Filter, value: &Row) -> Result<bool, NoMemory>
    ensures { IfOk result (λ b. b ≡ spec.truth_in_value (tree_of filter.now) value.now) }
{
    let Node::Values(_, inner) = filter.tree() else {
        return Ok(false);
    };
    let cells = Cells::Of(value.unit().attribute, slice::from_ref(value));
    node_holds(alloc, &Look::<NoTest>::Everything, inner, cells)
}

/// Whether the filter in the brackets of a value path matches the value at `position`, counted from 0, of the
/// attribute before the brackets (RFC 7644 sections 3.4.2.2 and 3.5.2).
///
/// The filter sees no cells at a position past the last value. False if `filter` isn't a value path.
#[tactic(auto, unfolding(crate::specs::code::Looks::looked))]
pub fn holds_at(
    alloc: Global,
    filter: &Filter,
    part: &Part,
    position: usize,
) -> Result<bool, NoMemory>
    ensures { IfOk result (λ b. b ≡ spec.truth_at (tree_of filter.now) position (rows part.now)) }
{
    let Node::Values(path, inner) = filter.tree() else {
        return Ok(false);
    };
    let cells = match path.meant {
        Meant::Attribute(attribute) => Cells::Of(attribute, rows_at(part, attribute, position)),
        Meant::Nothing | Meant::SubAttribute(_, _) => Cells::None,
    };
    node_holds(alloc, &Look::<NoTest>::Everything, inner, cells)
}
