//! The attributes named by the texts of an attribute list (RFC 7644 sections 3.9 and 3.10).
ghost use Rattle.std.specs.Prelude.{◌≡◌, ◌||◌, false, IfOk, OnOk};
ghost use Rattle.std.specs.List.{list_any};
ghost use Rattle.scim_schema.specs.declared.Leaf.{Leaf};
ghost use Rattle.scim_schema.specs.Units.{is_same_attribute, is_same_leaf};
ghost use Rattle.scim_view.specs.Names as spec;

use scim_filter_grammar::{Meant, attribute_path};
use scim_path::extension_named;
use scim_schema::{Attribute, Kind, Leaf, Schema, extension_of};
use scim_text::NoMemory;
use std::alloc::Global;
use std::collections::HashSet;

/// The extensions, attributes and sub-attributes that an attribute list names.
#[derive(Drop)]
pub struct Names {
    extensions: HashSet<Schema>,
    attributes: HashSet<Attribute>,
    sub_attributes: HashSet<Leaf>,
}

impl Names {
    /// Reads the texts of an attribute list, for a kind (RFC 7644 section 3.9). The URN of an extension of
    /// the kind, alone and in any ASCII case, names all attributes of the extension. The path of an attribute
    /// or sub-attribute, such as `name.familyName`, names that attribute or sub-attribute, with or without a
    /// URN prefix, in any ASCII case, and with spaces around it.
    ///
    /// Other texts are ignored: a text that isn't a path, has a value filter, is longer than 4,096 bytes, or
    /// names an attribute that the kind doesn't have.
    pub fn of(alloc: Global, kind: Kind, texts: &[&str]) -> Result<Names, NoMemory>
        ensures { IfOk result (λ names. (l : Leaf)
            → spec.includes names l ≡ list_any (λ t. spec.names_leaf kind t.now l) texts.now) }
    {
        let mut names = Names::none(alloc);
        for text in texts {
            names.add(kind, text)?;
        }
        Ok(names)
    }

    /// Whether the leaf is named: by itself, by its attribute, or by the extension of its attribute.
    /// The running time doesn't depend on the number of texts.
    pub fn includes(&self, leaf: Leaf) -> bool
        ensures { result ≡ spec.includes self.now leaf }
    {
        self.attributes.contains(&leaf.attribute)
            || self.sub_attributes.contains(&leaf)
            || self.has_extension_of(leaf.attribute)
    }

    /// Whether the attribute belongs to a named extension.
    fn has_extension_of(&self, attribute: Attribute) -> bool
        ensures { result ≡ spec.has_extension_of self.now attribute }
    {
        match extension_of(attribute) {
            Some(schema) => self.extensions.contains(&schema),
            None => false,
        }
    }

    /// Returns an empty set of names.
    fn none(alloc: Global) -> Names
        ensures { (l : Leaf) → spec.includes result l ≡ false }
    {
        Names {
            extensions: HashSet::new(alloc),
            attributes: HashSet::new(alloc),
            sub_attributes: HashSet::new(alloc),
        }
    }

    /// Adds the attributes that the text names.
    fn add(&mut self, kind: Kind, text: &str) -> Result<(), NoMemory>
        ensures { OnOk result ((l : Leaf)
            → spec.includes self.new l
            ≡ (spec.includes self.old l || spec.names_leaf kind text.now l)) }
    {
        self.add_extension(extension_named(kind, text))?;
        self.add_meant(meant(kind, text))
    }

    /// Adds all attributes of the extension, if there is one.
    fn add_extension(&mut self, extension: Option<Schema>) -> Result<(), NoMemory>
        ensures { OnOk result ((l : Leaf) → spec.includes self.new l
            ≡ (spec.includes self.old l || spec.is_there (λ s. spec.belongs_to s l) extension)) }
    {
        let Some(schema) = extension else {
            return Ok(());
        };
        self.extensions.insert(schema)?;
        Ok(())
    }

    /// Adds the attribute or sub-attribute that a path means, if any.
    fn add_meant(&mut self, meant: Meant) -> Result<(), NoMemory>
        ensures { OnOk result ((l : Leaf)
            → spec.includes self.new l ≡ (spec.includes self.old l || spec.is_meant meant l)) }
    {
        match meant {
            Meant::Nothing => Ok(()),
            Meant::Attribute(attribute) => self.add_attribute(attribute),
            Meant::SubAttribute(attribute, sub_attribute) => {
                self.add_sub_attribute(Leaf::of(attribute, sub_attribute))
            }
        }
    }

    /// Adds a whole attribute.
    fn add_attribute(&mut self, attribute: Attribute) -> Result<(), NoMemory>
        ensures { OnOk result ((l : Leaf)
            → spec.includes self.new l
            ≡ (spec.includes self.old l || is_same_attribute attribute l.attribute)) }
    {
        self.attributes.insert(attribute)?;
        Ok(())
    }

    /// Adds a single sub-attribute.
    fn add_sub_attribute(&mut self, leaf: Leaf) -> Result<(), NoMemory>
        ensures { OnOk result ((l : Leaf)
            → spec.includes self.new l ≡ (spec.includes self.old l || is_same_leaf leaf l)) }
    {
        self.sub_attributes.insert(leaf)?;
        Ok(())
    }
}

/// Returns the meaning of the text for the kind; `Nothing` if the text isn't a path.
fn meant(kind: Kind, text: &str) -> Meant
    ensures { result ≡ spec.meaning_of kind text.now }
{
    attribute_path(kind, text).unwrap_or(Meant::Nothing)
}
