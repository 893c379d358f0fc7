//! Lines with places in a store in place of names, and with numbers of lines in place of labels.

use ilblocks::MOST_PORTS;
use ilplan::{Place, Slot};
use ilscope::{BodyNumber, Names, Scope, port_of};
use ilsource::{
    Action, Argument, Arguments, Instruction, Line, Name, Nested, Operand, Operands, Piece, Symbol,
};
use std::alloc::{AllocError, Global};
use std::marker::Model;

/// The places of what an instance's lines name, or a function's, and the numbers of the lines with
/// its labels.
#[derive(Drop)]
pub(crate) struct Numbering<'a, 's, 't> {
    scope: &'a Scope<'s>,
    body: BodyNumber,
    slots: &'t [Slot],
    /// For each global variable the number of its slot.
    global_slots: &'t [usize],
    first_slot: usize,
    blocks: usize,
    first_block: usize,
    /// Under each label the number of the first line that has it.
    labels: Names<usize>,
    /// How many lines there are.
    lines: usize,
}

impl<'a, 's, 't> Model for Numbering<'a, 's, 't> {
    ghost use Rattle.std.specs.Prelude.{List};
    ghost use Rattle.std.specs.Coded.{codes, code_by};
    ghost use Rattle.ilsource.specs.declared.nested.Piece.{Piece};
    ghost use Rattle.ilsource.specs.Trees.{pieces_of};
    ghost use Rattle.ilsource.specs.TreeSteps.{tree_of, tree_again};
    ghost use Rattle.ilsource.specs.contracts.source.Element as element;
    ghost use Rattle.ilsource.specs.declared.symbol.Symbol.{Symbol};
    ghost use Rattle.ilsyms.specs.NumberingSteps.{IsNumbering, Numbering, program_at};

    ghost Value = { Numbering };

    ghost coded = { Prim.hlevel (
      codes,
      element.the_row.coded,
      code_by (List (Piece Symbol)) (Prim.hlevel codes) pieces_of tree_of tree_again,
    ) };

    ghost view = { λ n. record {
      tree = n.scope.now.tree;
      program = program_at n.scope.now.tree n.body;
      slots = n.slots.now;
      first_slot = n.first_slot;
      first_block = n.first_block;
      all_blocks = n.blocks;
      labels = n.labels;
    } };

    ghost invariant = { λ n. IsNumbering n.scope.now.tree n.body n.slots.now n.global_slots.now
        n.first_slot n.blocks n.first_block n.lines };
}

impl<'a, 's, 't> Numbering<'a, 's, 't> {
    ghost use Rattle.std.specs.Prelude.{◌≡◌, IfOk, map, option_map};
    ghost use Rattle.ilsource.specs.Renaming.{rename_action, rename_tree, rename, rename_line};
    ghost use Rattle.ilsource.specs.Renaming.{rename_argument};
    ghost use Rattle.ilscope.specs.Configured.{global_number};
    ghost use Rattle.ilsyms.specs.NumberingSteps.{IsNumbering, label_of, number_of_block};
    ghost use Rattle.ilsyms.specs.NumberingSteps.{number_of_function, number_of_global};
    ghost use Rattle.ilsyms.specs.NumberingSteps.{number_of_port, numbering_of, numbers};
    ghost use Rattle.ilsyms.specs.NumberingSteps.{place_by_number, program_at, slot_number};

    /// The numbering of an instance of the program with this number, or of the function, which has
    /// the given number of lines. `slots` are its task's or its own, `global_slots` their numbers
    /// by global variable, and `blocks` the number of its task's block instances.
    pub(crate) fn new(
        scope: &'a Scope<'s>,
        body: BodyNumber,
        slots: &'t [Slot],
        global_slots: &'t [usize],
        first_slot: usize,
        blocks: usize,
        first_block: usize,
        labels: Names<usize>,
        lines: usize,
    ) -> Numbering<'a, 's, 't>
        requires { IsNumbering scope.now.tree body slots.now global_slots.now first_slot blocks
            first_block lines }
        ensures { result ≡ numbering_of scope.now.tree (program_at scope.now.tree body) slots.now
            first_slot blocks first_block labels }
    {
        Numbering {
            scope,
            body,
            slots,
            global_slots,
            first_slot,
            blocks,
            first_block,
            labels,
            lines,
        }
    }

    /// The number of the slot of what a name means: a variable of the instance, else a global
    /// variable; past the last where there is neither.
    fn slot(&self, name: Name) -> usize
        ensures { result ≡ slot_number self.now name }
    {
        match self.scope.variable_number(self.body, name) {
            Some(own) => self.first_slot + own,
            None => self.global(name),
        }
    }

    /// The number of the slot of the global variable of this name; past the last where there is
    /// none.
    fn global(&self, name: Name) -> usize
        ensures { result ≡ number_of_global self.now.slots (global_number self.now.tree name) }
    {
        match self.scope.global_number(name) {
            Some(number) => self.global_slots[number],
            None => self.slots.len(),
        }
    }

    /// The number of a block instance; past the last where there is none.
    fn block(&self, name: Name) -> u16
        ensures { result ≡ number_of_block self.now name }
    {
        match self.scope.block(self.body, name) {
            Some((own, _)) => (self.first_block + own) as u16,
            None => self.blocks as u16,
        }
    }

    /// The number of a port; past the last where its block has none of this name.
    fn port(&self, block: Name, port: Name) -> u8
        ensures { result ≡ number_of_port self.now block port }
    {
        match port_of(self.scope, self.body, block, port) {
            Some((_, number)) => number as u8,
            None => MOST_PORTS as u8,
        }
    }

    /// The number of a function; past the last where there is none.
    fn function(&self, name: Name) -> u8
        ensures { result ≡ number_of_function self.now name }
    {
        match self.scope.function_number(name) {
            Some(number) => number as u8,
            None => self.scope.functions().len() as u8,
        }
    }

    /// The place of what a line names.
    fn place(&self, symbol: Symbol) -> Place
        ensures { result ≡ place_by_number self.now symbol }
    {
        match symbol {
            Symbol::Variable(name) => Place::Slot(self.slot(name)),
            Symbol::Port { block, port } => Place::Port {
                block: self.block(block),
                port: self.port(block, port),
            },
            Symbol::Block(name) => Place::Block(self.block(name)),
            Symbol::Function(name) => Place::Function(self.function(name)),
        }
    }

    /// The number of the first line with a label; past the last where there is none.
    fn label_of(&self, label: Name) -> usize
        ensures { result ≡ label_of self.now label }
    {
        self.labels
            .get(self.scope.spelling(label))
            .unwrap_or(self.lines)
    }

    /// The same of a line's label, where it has one.
    fn label(&self, label: Option<Name>) -> Option<usize>
        ensures { result ≡ option_map (label_of self.now) label }
    {
        Some(self.label_of(label?))
    }

    /// An operand.
    fn operand(&self, operand: Operand<Symbol>) -> Operand<Place>
        ensures { result ≡ (numbers self.now).operand operand }
    {
        match operand {
            Operand::Name(symbol) => Operand::Name(self.place(symbol)),
            Operand::Constant(value) => Operand::Constant(value),
        }
    }

    /// The arguments of a call.
    fn arguments(
        &self,
        alloc: Global,
        arguments: &[Argument<Symbol>],
    ) -> Result<Arguments<Place>, AllocError>
        ensures { IfOk result (λ a. a ≡ map (rename_argument (numbers self.now)) arguments.now) }
    {
        let mut renamed = Vec::new(alloc);
        for argument in arguments {
            renamed.push(Argument {
                port: self.place(argument.port),
                operand: self.operand(argument.operand),
            })?;
        }
        Ok(Arguments::new(renamed))
    }

    /// The operands of a call of a function.
    fn operands(
        &self,
        alloc: Global,
        operands: &[Operand<Symbol>],
    ) -> Result<Operands<Place>, AllocError>
        ensures { IfOk result (λ o. o ≡ map (numbers self.now).operand operands.now) }
    {
        let mut renamed = Vec::new(alloc);
        for operand in operands {
            renamed.push(self.operand(*operand))?;
        }
        Ok(Operands::new(renamed))
    }

    /// What a piece does.
    fn action(&self, action: Action<Symbol>) -> Action<Place>
        ensures { result ≡ rename_action (numbers self.now) action }
    {
        match action {
            Action::Load { negated, operand } => Action::Load {
                negated,
                operand: self.operand(operand),
            },
            Action::Apply(operator, operand) => Action::Apply(operator, self.operand(operand)),
            Action::Hand(function) => Action::Hand(self.place(function)),
            Action::Give {
                function,
                number,
                operand,
            } => Action::Give {
                function: self.place(function),
                number,
                operand: self.operand(operand),
            },
            Action::Invoke(function) => Action::Invoke(self.place(function)),
            Action::Transform(function) => Action::Transform(function),
            Action::Open(operator) => Action::Open(operator),
            Action::Close => Action::Close,
        }
    }

    /// What stands in parentheses.
    fn nested(&self, alloc: Global, nested: &Nested<Symbol>) -> Result<Nested<Place>, AllocError>
        ensures { IfOk result (λ tree. tree ≡ rename_tree (numbers self.now) nested.now) }
    {
        let mut pieces = Vec::new(alloc);
        for piece in nested.pieces() {
            pieces.push(Piece {
                at: piece.at,
                action: self.action(piece.action),
            })?;
        }
        Ok(Nested::new(pieces))
    }

    /// An instruction.
    fn instruction(
        &self,
        alloc: Global,
        instruction: &Instruction<Symbol, Name>,
    ) -> Result<Instruction<Place, usize>, AllocError>
        ensures { IfOk result (λ i.
            i ≡ rename (numbers self.now) (label_of self.now) instruction.now) }
    {
        Ok(match instruction {
            Instruction::Load { negated, operand } => Instruction::Load {
                negated: *negated,
                operand: self.operand(*operand),
            },
            Instruction::Apply(operator, operand) => {
                Instruction::Apply(*operator, self.operand(*operand))
            }
            Instruction::Deferred {
                operator,
                nested,
                close,
            } => Instruction::Deferred {
                operator: *operator,
                nested: self.nested(alloc, nested)?,
                close: *close,
            },
            Instruction::Transform(function) => Instruction::Transform(*function),
            Instruction::Limit { low, high } => Instruction::Limit {
                low: self.operand(*low),
                high: self.operand(*high),
            },
            Instruction::Store { negated, variable } => Instruction::Store {
                negated: *negated,
                variable: self.place(*variable),
            },
            Instruction::Set(variable) => Instruction::Set(self.place(*variable)),
            Instruction::Reset(variable) => Instruction::Reset(self.place(*variable)),
            Instruction::Jump(condition, label) => {
                Instruction::Jump(*condition, self.label_of(*label))
            }
            Instruction::Return(condition) => Instruction::Return(*condition),
            Instruction::Call {
                condition,
                instance,
                arguments,
            } => Instruction::Call {
                condition: *condition,
                instance: self.place(*instance),
                arguments: self.arguments(alloc, arguments.as_slice())?,
            },
            Instruction::Invoke { function, operands } => Instruction::Invoke {
                function: self.place(*function),
                operands: self.operands(alloc, operands.as_slice())?,
            },
        })
    }

    /// A line.
    fn line(
        &self,
        alloc: Global,
        line: &Line<Symbol, Name>,
    ) -> Result<Line<Place, usize>, AllocError>
        ensures { IfOk result (λ l.
            l ≡ rename_line (numbers self.now) (label_of self.now) line.now) }
    {
        let instruction = match &line.instruction {
            Some(instruction) => Some(self.instruction(alloc, instruction)?),
            None => None,
        };
        Ok(Line {
            at: line.at,
            label: self.label(line.label),
            instruction,
        })
    }

    /// The lines, in order.
    pub(crate) fn lines(
        &self,
        alloc: Global,
        lines: &[Line<Symbol, Name>],
    ) -> Result<Vec<Line<Place, usize>>, AllocError>
        ensures { IfOk result (λ v.
            v.items ≡ map (rename_line (numbers self.now) (label_of self.now)) lines.now) }
    {
        let mut renamed = Vec::new(alloc);
        for line in lines {
            renamed.push(self.line(alloc, line)?)?;
        }
        Ok(renamed)
    }
}
