//! Whole texts.

use crate::configuration::Configuration;
use crate::declaration::TypeDeclaration;
use crate::function::SourceFunction;
use crate::program::Program;
use std::marker::Model;

/// What stands one after another in a text: the declaration of a type, a function, or a program.
#[derive(Drop)]
pub enum Element {
    DerivedType(TypeDeclaration),
    Function(SourceFunction),
    Program(Program),
}

/// What a text spells: its types, functions and programs in order, its configuration, and the bytes
/// that its names stand in, which are no more than [`limits::MOST_BYTES`].
#[derive(Drop)]
pub struct Source {
    text: Vec<u8>,
    elements: Vec<Element>,
    configuration: Option<Configuration>,
}

impl Model for Source {
    ghost use Rattle.std.specs.Prelude.{◌≤◌, length};
    ghost use Rattle.std.specs.Coded.{codes};
    ghost use Rattle.limits.specs.Limits.{most_bytes};
    ghost use Rattle.ilsource.specs.contracts.source.Element as element;
    ghost use Rattle.ilsource.specs.SourceTrees.{Tree};

    ghost Value = { Tree };

    ghost coded = { Prim.hlevel (codes, element.the_row.coded) };

    ghost view = { λ s. record {
      text = s.text.items;
      elements = s.elements.items;
      configuration = s.configuration;
    } };

    ghost invariant = { λ s. length s.text.items ≤ most_bytes };
}

impl Source {
    ghost use Rattle.std.specs.Prelude.{◌≡◌, ◌≤◌, length, option_map, Some};
    ghost use Rattle.limits.specs.Limits.{most_bytes};
    ghost use Rattle.ilsource.specs.SourceTrees.{Tree};

    /// The source program of these types, functions and programs and this configuration, whose
    /// names stand in `text`.
    pub fn new(
        text: Vec<u8>,
        elements: Vec<Element>,
        configuration: Option<Configuration>,
    ) -> Source
        requires { length text.items ≤ most_bytes }
        ensures text { result.text ≡ text.items }
        ensures elements { result.elements ≡ elements.items }
        ensures configuration { result.configuration ≡ configuration }
    {
        Source {
            text,
            elements,
            configuration,
        }
    }

    /// The source program with this configuration in place of its own, as where variables begin
    /// with other values than the text gives them.
    pub fn with_configuration(self, configuration: Configuration) -> Source
        ensures { result ≡ record self { configuration = Some configuration } }
    {
        let mut source = self;
        source.configuration = Some(configuration);
        source
    }

    /// The bytes of the text.
    pub fn text(&self) -> &[u8]
        ensures value { result.now ≡ self.now.text }
        ensures short { length self.now.text ≤ most_bytes }
    {
        &self.text
    }

    /// The types, functions and programs, in the order in which they are written.
    pub fn elements(&self) -> &[Element]
        ensures { result.now ≡ self.now.elements }
    {
        &self.elements
    }

    /// The configuration, if the text has one.
    pub fn configuration(&self) -> Option<&Configuration>
        ensures { option_map (λ c. c.now) result ≡ self.now.configuration }
    {
        self.configuration.as_ref()
    }
}
