//! What is said of what stands against a file, and how it is printed.

ghost use Rattle.std.specs.Prelude.{◌≡◌, Some};

use explaincures::{FaultAnswer, write_answer, write_found, write_line};
use printout::Printout;
use std::alloc::Global;
use std::io;
use std::io::Write;

/// What is said of what stands against a file.
#[derive(Drop)]
pub struct Explanation {
    /// The first line: where it stands, and what it is.
    pub(crate) head: Printout,
    /// The line of the file, counted from 1.
    pub line: usize,
    /// The column that is marked, counted from 1, where there is one.
    pub mark: Option<usize>,
    /// Whether it is said what was found there.
    pub(crate) is_found: bool,
    pub answer: FaultAnswer,
    /// What else stands against the file, and what leads there.
    pub(crate) behind: Printout,
}

/// What stands against a file, with its number.
#[derive(Clone, Copy)]
pub(crate) enum Title<'a> {
    /// A fault of this kind.
    Fault(&'static str, u8),
    /// A bad line of this kind of file.
    Line(&'static str),
    /// A task of this name is refused, at this word.
    Refused(&'a str, u8, usize),
}

impl Explanation {
    /// What is said of a fault at a place, and behind it.
    pub(crate) fn of(
        alloc: Global,
        path: &str,
        place: (usize, usize),
        title: Title,
        answer: FaultAnswer,
        behind: Printout,
    ) -> Explanation
        ensures line { result.line ≡ place.0 }
        ensures mark { result.mark ≡ Some place.1 }
        ensures answer { result.answer ≡ answer }
    {
        let mut head = Printout::new(alloc);
        print_head(&mut head, path, place, title, &answer.what);
        Explanation {
            head,
            line: place.0,
            mark: Some(place.1),
            is_found: matches!(title, Title::Fault(..)),
            answer,
            behind,
        }
    }

    /// Writes it, of a file of these bytes.
    ///
    /// # Errors
    ///
    /// The writer's, or that the allocator is out of memory.
    pub fn write_to<W: Write>(self, alloc: Global, out: &mut W, bytes: &[u8]) -> io::Result<()> {
        let Explanation {
            head,
            line,
            mark,
            is_found,
            answer,
            behind,
        } = self;
        head.write_to(out)?;
        write_line(out, bytes, line, mark)?;
        if let (Some(col), true) = (mark, is_found) {
            write_found(out, bytes, line, col)?;
        }
        write_answer(alloc, out, bytes, &answer, line)?;
        behind.write_to(out)
    }
}

/// Prints where a fault stands, as editors read it, and what it is, in a line.
pub(crate) fn print_head(
    page: &mut Printout,
    path: &str,
    (line, col): (usize, usize),
    title: Title,
    what: &str,
) {
    page.text(path);
    page.text(":");
    page.count(line);
    page.text(":");
    page.count(col);
    page.text(": ");
    print_title(page, title);
    page.text(": ");
    page.text(what);
    page.text("\n");
}

/// Prints what stands against a file.
fn print_title(page: &mut Printout, title: Title) {
    let (front, between, number) = match title {
        Title::Fault(kind, number) => (kind, " fault ", usize::from(number)),
        Title::Line(kind) => {
            page.text(kind);
            return page.text(" fault");
        }
        Title::Refused(task, number, word) => {
            page.text("task ");
            page.text(task);
            page.text(" refused ");
            page.count(usize::from(number));
            ("", " at word ", word)
        }
    };
    page.text(front);
    page.text(between);
    page.count(number);
}
