//! What stands against a text behind the fault that is explained, a line each.

use crate::cured::CuredText;
use crate::refused::{answer_task, print_refused};
use crate::told::{Title, print_head};
use explaincures::{AskedText, Example, FaultAnswer, TriedLines, place_of};
use explainnames::{OtherFaults, answer_name};
use explaintexts::answer_text;
use ilcompile::compile;
use ildeclared::{NameCause, NameFault};
use ilplan::Plan;
use ilsource::Source;
use ilsyms::resolve;
use iltext::{TextCause, TextFault, parse};
use ilverify::{VerifyError, verify};
use printout::Printout;
use std::alloc::{AllocError, Global};

/// How many faults of a text are named at most behind the one that is explained.
const MOST_NAMED: usize = 20;

/// Faults, a line each, behind an empty one.
#[derive(Drop)]
pub(crate) struct Further<'a> {
    alloc: Global,
    asked: &'a AskedText<'a>,
    pub page: Printout,
    /// How many there are.
    count: usize,
}

impl<'a> Further<'a> {
    /// None of a text.
    pub(crate) fn of(alloc: Global, asked: &'a AskedText<'a>) -> Further<'a> {
        Further {
            alloc,
            asked,
            page: Printout::new(alloc),
            count: 0,
        }
    }

    /// The page with them.
    pub(crate) fn into_page(self) -> Printout {
        let Further { page, .. } = self;
        page
    }

    /// Begins the line of one more.
    fn begin(&mut self) {
        if self.count == 0 {
            self.page.text("\n");
        }
        self.count = self.count.saturating_add(1);
    }

    /// Adds a fault, up to the most, where its line stands in the asked text.
    pub(crate) fn add(&mut self, line: Option<usize>, col: usize, title: Title, what: &str) {
        if self.count >= MOST_NAMED {
            return;
        }
        if let Some(line) = line {
            self.begin();
            print_head(&mut self.page, self.asked.path, (line, col), title, what);
        }
    }

    /// Adds the faults of the text that are found where these lines stand in place of those at
    /// fault, and so on from cure to cure. Of a line that was changed none is named.
    pub(crate) fn add_behind(&mut self, first: &TriedLines) -> Result<(), AllocError> {
        let alloc = self.alloc;
        let mut cured = CuredText::of(alloc, self.asked.text)?.with(alloc, first)?;
        for _ in 0..MOST_NAMED {
            let Some(tried) = self.add_next(&cured)? else {
                return Ok(());
            };
            cured = cured.with(alloc, &tried)?;
        }
        Ok(())
    }

    /// Adds the first fault of a cured text, and gives the lines that cure it; of a text that reads
    /// whole its faults of names.
    fn add_next(&mut self, cured: &CuredText) -> Result<Option<TriedLines>, AllocError> {
        let text = cured.asked(self.asked);
        match parse(self.alloc, text.text) {
            Err(TextFault::Memory) => Err(AllocError),
            Err(TextFault::At { line, col, cause }) => {
                self.add_text(cured, &text, (line, col), cause)
            }
            Ok(source) => {
                self.add_names(cured, &text, &source)?;
                Ok(None)
            }
        }
    }

    /// Adds a fault of a cured text; the lines that cure it.
    fn add_text(
        &mut self,
        cured: &CuredText,
        text: &AskedText,
        (line, col): (usize, usize),
        cause: TextCause,
    ) -> Result<Option<TriedLines>, AllocError> {
        let at = place_of(text.text, line, col);
        let FaultAnswer { what, example, .. } = answer_text(self.alloc, text, line, col, cause)?;
        let tried = match example {
            Example::Changed(edit) => Some(edit.lines(self.alloc, text.text)?),
            _ => None,
        };
        // A text that ends too early is not worth a line more, unless it can be said what is
        // missing.
        if tried.is_some() || at < text.text.len() {
            let title = Title::Fault("text", cause.number());
            self.add(cured.number(line), col, title, &what);
        }
        Ok(tried)
    }

    /// Adds the faults of names of a cured text.
    fn add_names(
        &mut self,
        cured: &CuredText,
        text: &AskedText,
        source: &Source,
    ) -> Result<(), AllocError> {
        match resolve(self.alloc, source, text.binding) {
            Ok(_) => Ok(()),
            Err(NameFault::Memory) => Err(AllocError),
            Err(NameFault::At { line, col, cause }) => {
                self.add_from(cured, text, source, (line, col), cause)
            }
        }
    }

    /// Adds the faults of names of a cured text, of which this is the first.
    fn add_from(
        &mut self,
        cured: &CuredText,
        text: &AskedText,
        source: &Source,
        (line, col): (usize, usize),
        cause: NameCause,
    ) -> Result<(), AllocError> {
        let at = place_of(text.text, line, col);
        let FaultAnswer { what, .. } = answer_name(self.alloc, text, source, line, at, cause)?;
        let title = Title::Fault("name", cause.number());
        self.add(cured.number(line), col, title, &what);
        let others = OtherFaults::of(self.alloc, text, source, at, cause)?;
        for other in &others.named {
            let title = Title::Fault("name", other.cause.number());
            self.add(cured.number(other.line), other.col, title, &other.what);
        }
        Ok(())
    }

    /// Adds the first refused word of each task of a plan from one on.
    pub(crate) fn add_tasks(&mut self, plan: &Plan, from: usize) -> Result<(), AllocError> {
        let (alloc, asked) = (self.alloc, self.asked);
        for task in from..plan.tasks() {
            match verify(alloc, compile(alloc, plan, task)?) {
                Ok(_) => {}
                Err(VerifyError::Memory(refused)) => return Err(refused),
                Err(VerifyError::Refused(refusal)) => {
                    let page = &mut self.page;
                    let said = answer_task(alloc, asked, page, false, plan, task, refusal)?;
                    let (mark, FaultAnswer { what, .. }) = said;
                    self.begin();
                    let name = plan.task_name(task);
                    print_refused(&mut self.page, asked, name, refusal, mark, &what);
                }
            }
        }
        Ok(())
    }
}
