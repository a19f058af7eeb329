//! Tests and a judge by which cases restrict rows and parts.
ghost use Rattle.std.specs.Option.{option_eq};
ghost use Rattle.std.specs.Prelude.{Some, ◌||◌};
ghost use denote.Enum.Bare.{sameb};
ghost use Rattle.scim_schema.specs.contracts.SubAttribute.{the_type as the_sub_attribute};
ghost use Rattle.scim_cell.specs.Atoms.{is_same_atom};
ghost use Rattle.scim_cell.specs.Rows.{atom_in};

use scim_cell::{Atom, Row, RowJudge, RowTest};
use scim_schema::{Leaf, SubAttribute};
use scim_text::{NoMemory, push};
use std::alloc::Global;

/// Keeps the fields of one sub-attribute.
#[derive(Clone, Copy)]
pub struct OfSubAttribute {
    pub sub_attribute: SubAttribute,
}

impl RowTest for OfSubAttribute {
    ghost keeps = { λ t r l. option_eq (sameb the_sub_attribute) l.sub_attribute (Some t.sub_attribute) };

    fn is_kept(&self, _row: &Row, leaf: Leaf) -> bool {
        leaf.sub_attribute == Some(self.sub_attribute)
    }
}

/// Keeps whole rows that have the given atom at the given leaf.
#[derive(Drop)]
pub struct WithAtom {
    pub leaf: Leaf,
    pub atom: Atom,
}

impl RowTest for WithAtom {
    ghost keeps = { λ t r l. option_eq is_same_atom (atom_in t.leaf r.fields) (Some t.atom) };

    fn is_kept(&self, row: &Row, _leaf: Leaf) -> bool {
        match row.get(self.leaf) {
            Some(atom) => atom == &self.atom,
            None => false,
        }
    }
}

/// Keeps whole rows that have the given atom at the given leaf, and the fields of one sub-attribute of other
/// rows.
#[derive(Drop)]
pub struct WithAtomOr {
    pub whole: WithAtom,
    pub other: OfSubAttribute,
}

impl RowJudge for WithAtomOr {
    ghost keeps = { λ j r l. option_eq is_same_atom (atom_in j.whole.leaf r.fields) (Some j.whole.atom)
        || option_eq (sameb the_sub_attribute) l.sub_attribute (Some j.other.sub_attribute) };

    fn kept(&self, alloc: Global, row: &Row) -> Result<Vec<bool>, NoMemory> {
        let mut kept = Vec::new(alloc);
        for field in row.fields() {
            let is_kept = self.whole.is_kept(row, field.leaf)
                || self.other.is_kept(row, field.leaf);
            push(&mut kept, is_kept)?;
        }
        Ok(kept)
    }
}
