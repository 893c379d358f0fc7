//! A play, drawn while it goes on, and pictures of it.
//!
//! What crosses the boundary: a [`Drawing`] is made of a plan and a scenario, is told what happens
//! as an [`Observer`](plantdriving::Observer), and gives its [`Picture`]: time goes from left to
//! right in columns, and lamps, buttons, tasks, variables and buses are rows. [`write_svg`] and
//! [`write_text`] write it. What is drawn is fixed by worked rows (crates/rows); of the code it is
//! proved that it is safe and ends.
//!
//! ```text
//! let mut drawing = Drawing::new(alloc, &plant, &scenario, names)?;
//! let ending = play_on(alloc, &mut installation, &scenario, &mut drawing)?;
//! write_svg(alloc, &mut out, drawing.into_picture(&notes)?)?;
//! ```
#![tactic(auto)]

mod axis;
mod drawing;
mod elements;
mod kinds;
mod levels;
mod marks;
mod moment;
mod parts;
mod regrouping;
mod rows;
mod sheet;
mod signs;
mod svg;
mod svg_rows;
mod text;
mod timeline;

pub use drawing::Drawing;
pub use moment::Moment;
pub use parts::Picture;
pub use svg::write_svg;
pub use text::write_text;
