//! A page that is being printed, and that keeps its failure.
//!
//! What crosses the boundary: texts and numbers go onto a [`Printout`], which has no `?` at each of
//! them. Once the allocator is out of memory the page is cut, and takes nothing more;
//! [`Printout::write_to`] asks for that once, at the end, and writes the page or nothing of it. What
//! stands on a page is fixed by worked rows (crates/rows); of the code it is proved that it is safe
//! and ends.
//!
//! ```text
//! page.text("words: ");
//! page.count(words);
//! page.write_to(&mut out)?;
//! ```
#![tactic(auto)]

mod printing;

pub use printing::Printout;
