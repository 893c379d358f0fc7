//! The elements of an SVG, each on a line of its own.

use printout::Printout;

/// Writes a form with these numbers, and then a text, in place of its `{}`, one after the other.
pub(crate) fn fill(page: &mut Printout, form: &str, numbers: &[usize], text: &str) {
    let mut next = numbers.iter();
    for (place, piece) in form.split("{}").enumerate() {
        if place > 0 {
            match next.next() {
                Some(number) => page.count(*number),
                None => write_plain(page, text),
            }
        }
        page.text(piece);
    }
}

/// Writes a text: marks of tags are written as what stands for them.
fn write_plain(page: &mut Printout, text: &str) {
    for letter in text.chars() {
        match letter {
            '&' => page.text("&amp;"),
            '<' => page.text("&lt;"),
            '>' => page.text("&gt;"),
            _ => page.letter(letter),
        }
    }
}

/// Begins a text with the looks of a class at a place.
pub(crate) fn begin_words(page: &mut Printout, class: &str, x: usize, y: usize) {
    page.text("<text class=\"");
    page.text(class);
    fill(page, "\" x=\"{}\" y=\"{}\">", &[x, y], "");
}

/// Writes a text with the looks of a class that begins at a place.
pub(crate) fn write_words(page: &mut Printout, class: &str, x: usize, y: usize, text: &str) {
    begin_words(page, class, x, y);
    fill(page, "{}</text>\n", &[], text);
}
