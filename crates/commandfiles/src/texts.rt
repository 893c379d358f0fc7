//! Texts on a page, one after another.

use printout::Printout;

/// Adds texts.
pub fn add_texts(page: &mut Printout, texts: &[&str]) {
    for text in texts {
        page.text(text);
    }
}
