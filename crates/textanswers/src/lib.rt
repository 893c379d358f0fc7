//! What a text is answered: the tasks of its setup, what scans of one task left, or the code file
//! of a task; and what bytes are answered that may be a code file.
//!
//! What crosses the boundary: [`respond`] takes an inquiry with the bytes of its files, and gives
//! an [`Answer`]; [`binding_of`] and [`check`] are its first steps, for who needs a setup alone. A
//! [`Stop`] is the first of what stands against a text. [`code_of`] gives the code file of a task
//! of a text, and [`judge`] the [`CodeAnswer`] to bytes: the code that they are the file of is
//! accepted or refused, or they are no file. The definition to read first is `IsStepped`
//! (specs/Answered.antt), what `step` answers; `IsAnswer` (specs/Responses.antt) is the outermost,
//! and specs/Coding.antt speaks of code files. The lines of an answer have their texts here
//! (specs/Printed.antt); who prints them is above.
//!
//! ```text
//! match respond(alloc, inquiry, binding_bytes, text_bytes) {
//!     Answer::Checked(setup) => ..
//! }
//! ```
#![tactic(auto)]

mod answers;
mod code_answer;
mod coding;
mod lines;
mod scans;
mod stepped;
mod stop;

pub use answers::{Answer, binding_of, check, respond, step};
pub use code_answer::CodeAnswer;
pub use coding::{code_of, judge};
pub use lines::{ScanLine, TaskLine, VariableLine};
pub use plantload::begin_kept;
pub use scans::{Scans, Taken, make};
pub use stepped::{Stepped, task_line};
pub use stop::{Stop, UnknownTask};
