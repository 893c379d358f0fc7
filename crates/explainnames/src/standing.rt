//! What stands at a place of a text.

ghost use Rattle.std.specs.Prelude.{◌≡◌, IfOk};

use crate::tokens::what_at;
use explaincures::{AskedText, Spot, Surroundings};
use ilblocks::BlockKind;
use ilscope::{DeclaredGlobal, DeclaredVariable, FunctionScope, Scope, uses_of};
use ilsource::{
    Configuration, Constant, Declaration, Declared, DirectAddress, Element, InstanceDeclaration,
    Line, Name, Operand, Purpose, Source, Specification, Symbol, TaskDeclaration, Use,
};
use iltokens::{Keyword, What};
use std::alloc::{AllocError, Global};

/// The place of a text at which a fault of names stands.
#[derive(Clone, Copy)]
pub(crate) struct FaultPlace<'a, 's> {
    pub alloc: Global,
    pub asked: &'a AskedText<'a>,
    pub scope: &'a Scope<'s>,
    pub spot: Spot<'a>,
    pub around: Surroundings,
    /// What a line uses by the word at the place, if it does.
    pub used: Option<Use<Symbol>>,
}

impl<'a, 's> FaultPlace<'a, 's> {
    /// This place of a text.
    pub(crate) fn of(
        alloc: Global,
        asked: &'a AskedText<'a>,
        scope: &'a Scope<'s>,
        at: usize,
    ) -> Result<FaultPlace<'a, 's>, AllocError>
        ensures { IfOk result (λ place. place.asked.now ≡ asked.now) }
    {
        let used = used_at(alloc, lines_at(scope.source(), at), at)?;
        Ok(FaultPlace {
            alloc,
            asked,
            scope,
            spot: Spot::of(asked.text, at),
            around: Surroundings::of(asked.text, at),
            used,
        })
    }

    /// The name at the place.
    pub(crate) fn name(&self) -> Name {
        Name {
            from: self.spot.at,
            to: self.spot.found_to(),
        }
    }

    /// For what a line uses the word at the place, if it does.
    pub(crate) fn purpose(&self) -> Option<Purpose> {
        match &self.used {
            Some(used) => Some(used.purpose),
            None => None,
        }
    }

    /// What a line names by the word at the place.
    pub(crate) fn symbol(&self) -> Option<Symbol> {
        match &self.used {
            Some(
                Use {
                    operand: Operand::Name(symbol),
                    ..
                },
            ) => Some(*symbol),
            _ => None,
        }
    }

    /// Whether the place stands in a function.
    pub(crate) fn is_in_function(&self) -> bool {
        self.around.unit_word() == Some(Keyword::Function)
    }

    /// Whether this reserved word stands just before the place.
    pub(crate) fn is_behind(&self, word: Keyword) -> bool {
        let (from, _) = self.around.before;
        what_at(self.spot.text, from) == Some(What::Keyword(word))
    }

    /// The configuration, if the text has one.
    fn configuration(&self) -> Option<&'a Configuration> {
        self.scope.source().configuration()
    }

    /// The program instances of the configuration.
    pub(crate) fn instances(&self) -> &'a [InstanceDeclaration] {
        match self.configuration() {
            Some(configuration) => configuration.instances(),
            None => &[],
        }
    }

    /// The task of the configuration with a number, counted from 0.
    pub(crate) fn task(&self, number: usize) -> Option<TaskDeclaration> {
        self.configuration()?.tasks().get(number).copied()
    }

    /// What the name at the place is declared as there.
    pub(crate) fn declared(&self) -> Option<Declared> {
        let at = self.spot.at;
        if let (Some(Keyword::VarGlobal), Some(configuration)) = (
            self.around.block_word(),
            self.configuration(),
        ) {
            for one in configuration.globals() {
                if has_name_at(one.names(), at) {
                    return Some(variables_of(one.specification(), one.initial()));
                }
            }
        }
        match element_at(self.scope.source(), at)? {
            Element::DerivedType(one) => Some(variables_of(one.specification, one.initial)),
            Element::Function(one) if one.name().from == at => {
                Some(variables_of(one.result_type(), None))
            }
            Element::Function(one) => {
                declared_among(one.inputs(), at).or(declared_among(one.variables(), at))
            }
            Element::Program(one) => declared_among(one.declarations(), at),
        }
    }

    /// What a name is declared as in the program in which the place stands: as a block instance, if
    /// it is one.
    pub(crate) fn declared_as(&self, name: Name) -> Option<Declared> {
        let Some(Element::Program(program)) = element_at(self.scope.source(), self.spot.at) else {
            return None;
        };
        let mut found = None;
        for declaration in program.declarations() {
            for one in declaration.names() {
                let is_block = matches!(found, Some(Declared::Blocks(_)));
                if !is_block && one.is_same(name, self.spot.text) {
                    found = Some(declaration.declared_kind());
                }
            }
        }
        found
    }

    /// Whether the program in which the place stands declares a name with a type that there is not,
    /// so that a function block may be meant.
    pub(crate) fn has_unknown_type(&self, name: Name) -> bool {
        let Some(
            Declared::Variables {
                specification: Specification::Named(kind),
                ..
            },
        ) = self.declared_as(name)
        else {
            return false;
        };
        for element in self.scope.source().elements() {
            if let Element::DerivedType(one) = element {
                if one.name.is_same(kind, self.spot.text) {
                    return false;
                }
            }
        }
        true
    }

    /// The kind of the block instance of which a port is named at the place.
    pub(crate) fn block_of_port(&self) -> Option<BlockKind> {
        let Some(Symbol::Port { block, .. }) = self.symbol() else {
            return None;
        };
        match self.declared_as(block)? {
            Declared::Blocks(kind) => Some(kind),
            _ => None,
        }
    }

    /// The global variable that has the name at the place.
    pub(crate) fn global_named(&self) -> Option<DeclaredGlobal> {
        let number = self.scope.global_number(self.name())?;
        self.scope.globals().get(number).copied()
    }

    /// The address of that variable, if it has one.
    pub(crate) fn address_named(&self) -> Option<DirectAddress> {
        self.global_named()?.address
    }

    /// The first function that has the name at the place.
    pub(crate) fn function_named(&self) -> Option<&'a FunctionScope<'s>> {
        let number = self.scope.function_number(self.name())?;
        self.scope.functions().get(number)
    }

    /// The inputs of that function; none where there is none.
    pub(crate) fn inputs(&self) -> &'a [DeclaredVariable] {
        match self.function_named() {
            Some(function) => function.inputs(),
            None => &[],
        }
    }
}

/// The function, the program or the type that begins last before a place.
fn element_at(source: &Source, at: usize) -> Option<&Element> {
    let mut found = None;
    for element in source.elements() {
        let name = match element {
            Element::DerivedType(declared) => declared.name,
            Element::Function(function) => function.name(),
            Element::Program(program) => program.name(),
        };
        if name.from <= at {
            found = Some(element);
        }
    }
    found
}

/// The lines of the program or the function in which a place stands.
pub(crate) fn lines_at(source: &Source, at: usize) -> &[Line<Symbol, Name>] {
    match element_at(source, at) {
        Some(Element::Function(function)) => function.lines(),
        Some(Element::Program(program)) => program.lines(),
        _ => &[],
    }
}

/// What lines use by the word at a place.
fn used_at(
    alloc: Global,
    lines: &[Line<Symbol, Name>],
    at: usize,
) -> Result<Option<Use<Symbol>>, AllocError> {
    for used in &uses_of(alloc, lines)? {
        let is_there = match used.operand {
            Operand::Name(Symbol::Port { block, port }) => block.from == at || port.from == at,
            Operand::Name(Symbol::Variable(name) | Symbol::Block(name) | Symbol::Function(name)) =>
                name.from == at,
            Operand::Constant(_) => false,
        };
        if is_there {
            return Ok(Some(*used));
        }
    }
    Ok(None)
}

/// What is declared of these parts.
fn variables_of(specification: Specification, initial: Option<Constant>) -> Declared {
    Declared::Variables {
        specification,
        initial,
    }
}

/// What the name at a place is declared as among some.
fn declared_among(declarations: &[Declaration], at: usize) -> Option<Declared> {
    for declaration in declarations {
        if has_name_at(declaration.names(), at) {
            return Some(declaration.declared_kind());
        }
    }
    None
}

/// Whether one of some names stands at a place.
fn has_name_at(names: &[Name], at: usize) -> bool {
    for name in names {
        if name.from == at {
            return true;
        }
    }
    false
}
