//! Requests as they are printed.

ghost use Rattle.std.specs.Prelude.{◌++◌, codes};
ghost use Rattle.std.specs.Fmt.{WritesOnOk, decimal};
ghost use Rattle.gearcmd.specs.Printed.{printed_frames};

use crate::{Request, TaskKind};
use daliframe::Frame;
use std::fmt;

/// A request from a task of this kind as a line: `bus 0 class 4 FF05`, its frames in upper
/// hexadecimal digits with one blank between.
#[derive(Clone, Copy)]
pub struct RequestLine {
    pub request: Request,
    pub task: TaskKind,
}

impl fmt::Display for RequestLine {
    ghost use Rattle.std.specs.Prelude.{Some};
    ghost use Rattle.gearcmd.specs.Printed.{printed_request};

    ghost output = { λ line. Some (printed_request line.request line.task) };

    fn fmt<W: fmt::Write>(&self, f: &mut fmt::Formatter<W>) -> fmt::Result {
        let bus = self.request.bus.number();
        let class = self.request.class(self.task);
        write_line(f, bus, class, self.request.frames().as_slice())
    }
}

/// Writes the line of a request to a bus that has this class and these frames.
fn write_line<W: fmt::Write>(
    f: &mut fmt::Formatter<W>,
    bus: u8,
    class: u8,
    frames: &[Frame],
) -> fmt::Result
    ensures { WritesOnOk W.write_str_gives f.old result (codes "bus " ++ decimal bus
        ++ codes " class " ++ decimal class ++ printed_frames frames.now) f.new }
{
    let behind = BehindBlanks(frames);
    write!(f, "bus {bus} class {class}{behind}")
}

/// Frames, each behind a blank.
#[derive(Clone, Copy)]
struct BehindBlanks<'a>(&'a [Frame]);

impl fmt::Display for BehindBlanks<'_> {
    ghost use Rattle.std.specs.Prelude.{Some};

    ghost output = { λ frames. Some (printed_frames frames.0.now) };

    fn fmt<W: fmt::Write>(&self, f: &mut fmt::Formatter<W>) -> fmt::Result {
        for frame in self.0 {
            write!(f, " {frame}")?;
        }
        Ok(())
    }
}
