//! Forward frames of either width.
ghost use Rattle.std.specs.Prelude.{◌≡◌};

use crate::{Frame16, Frame24};
use std::fmt;

/// A forward frame.
#[derive(Clone, Copy, Debug, PartialEq, Eq)]
pub enum Frame {
    /// 16 bits, for control gear.
    Forward16(Frame16),
    /// 24 bits, for or from control devices.
    Forward24(Frame24),
}

/// The frame `0000`, which fills the unused places of a collection of fixed capacity.
impl Default for Frame {
    ghost use Rattle.daliframe.specs.declared.forward.Frame.TheVariants.{Forward16};

    ghost is_default = { λ f. f ≡ Forward16 0 };

    fn default() -> Self {
        Frame::Forward16(Frame16::new(0))
    }
}

/// Upper hexadecimal digits, four of a 16-bit frame and six of a 24-bit one.
impl fmt::Display for Frame {
    ghost use Rattle.std.specs.Prelude.{Some};
    ghost use Rattle.daliframe.specs.Printed.{printed};

    ghost output = { λ f. Some (printed f) };

    fn fmt<W: fmt::Write>(&self, f: &mut fmt::Formatter<W>) -> fmt::Result {
        match self {
            Frame::Forward16(frame) => write!(f, "{frame}"),
            Frame::Forward24(frame) => write!(f, "{frame}"),
        }
    }
}
