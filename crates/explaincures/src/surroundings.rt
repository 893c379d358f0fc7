//! What is open at a place of a text: a program, a block of variables, a parenthesis.

use crate::spots::part;
use crate::words::is_one_of;
use iltokens::{Delimiter, Keyword, Lexed, What, token};

/// Something that was begun and not ended.
#[derive(Clone, Copy)]
pub struct OpenConstruct {
    /// The word that begins it.
    pub word: Keyword,
    /// Where that stands.
    pub at: usize,
    /// Where its name stands, if it has one.
    pub name: Option<(usize, usize)>,
}

/// What is open at a place of a text, which is read up to there.
#[derive(Clone, Copy)]
pub struct Surroundings {
    /// Where what stands after the last program, function or block of types begins.
    pub from: usize,
    /// A type block, a function, a program or a configuration.
    pub unit: Option<OpenConstruct>,
    pub resource: Option<OpenConstruct>,
    /// A block of variables.
    pub block: Option<OpenConstruct>,
    /// The places of the first parenthesis that is open, and how many are.
    pub parenthesis: Option<usize>,
    pub open: usize,
    /// Whether a block of variables of the unit was ended.
    has_block: bool,
    /// The last token before the place.
    pub before: (usize, usize),
    /// Where the word stands that begins a block of variables as other languages have it.
    pub foreign: Option<(usize, usize)>,
    /// Whether a name may follow the word that was last, which begins something.
    is_named: bool,
}

/// Nothing is open.
const NOTHING: Surroundings = Surroundings {
    from: 0,
    unit: None,
    resource: None,
    block: None,
    parenthesis: None,
    open: 0,
    has_block: false,
    before: (0, 0),
    foreign: None,
    is_named: false,
};

impl Surroundings {
    /// What is open at a place.
    pub fn of(text: &[u8], place: usize) -> Surroundings {
        let front = part(text, 0, place);
        let mut all = NOTHING;
        let mut at: usize = 0;
        for _ in 0..front.len() {
            if at >= front.len() {
                return all;
            }
            match token(front, at) {
                Lexed::Token { what, from, to } => {
                    all.read(what, (from, to));
                    if what == What::Name && is_foreign(part(front, from, to)) {
                        all.foreign = Some((from, to));
                    }
                    at = to;
                }
                _ => return all,
            }
        }
        all
    }

    /// Reads one token more.
    fn read(&mut self, what: What, place: (usize, usize)) {
        let is_named = self.is_named;
        if what != What::Delimiter(Delimiter::LineEnd) {
            self.before = place;
            self.is_named = is_named && matches!(what, What::Keyword(_));
        }
        match what {
            What::Keyword(word) => self.read_word(word, place),
            What::Name if is_named => self.read_name(place),
            What::Delimiter(Delimiter::Open) => {
                self.open = self.open.saturating_add(1);
                self.parenthesis = self.parenthesis.or(Some(place.0));
            }
            What::Delimiter(Delimiter::Close) => {
                self.open = self.open.saturating_sub(1);
                self.parenthesis = if self.open == 0 {
                    None
                } else {
                    self.parenthesis
                };
            }
            _ => {}
        }
    }

    /// Reads the name of what was begun last.
    fn read_name(&mut self, place: (usize, usize)) {
        let name = Some(place);
        match (self.resource, self.unit) {
            (Some(resource), _) => self.resource = Some(OpenConstruct { name, ..resource }),
            (_, Some(unit)) => self.unit = Some(OpenConstruct { name, ..unit }),
            _ => {}
        }
    }

    /// Reads a reserved word.
    fn read_word(&mut self, word: Keyword, (at, to): (usize, usize)) {
        let opened = Some(OpenConstruct {
            word,
            at,
            name: None,
        });
        match word {
            Keyword::Type | Keyword::Function | Keyword::Configuration => {
                self.unit = opened;
                self.has_block = false;
            }
            Keyword::Program if self.unit.is_none() => self.unit = opened,
            Keyword::Resource => self.resource = opened,
            Keyword::Var | Keyword::VarInput | Keyword::VarExternal | Keyword::VarGlobal => {
                self.block = opened;
            }
            Keyword::EndVar => {
                self.block = None;
                self.foreign = None;
                self.has_block = true;
            }
            Keyword::EndResource => self.resource = None,
            Keyword::EndType | Keyword::EndFunction | Keyword::EndProgram => {
                self.unit = None;
                self.from = to;
            }
            Keyword::EndConfiguration => self.unit = None,
            _ => return,
        }
        self.is_named = matches!(
            word,
            Keyword::Program | Keyword::Function | Keyword::Configuration | Keyword::Resource
        );
    }

    /// What was begun last and is not ended, parentheses aside.
    pub fn innermost(&self) -> Option<OpenConstruct> {
        self.block.or(self.resource).or(self.unit)
    }

    /// Whether instructions stand there: in a program, or in a function behind its inputs.
    pub fn is_in_body(&self) -> bool {
        let is_unit = match self.unit_word() {
            Some(Keyword::Program) => true,
            Some(Keyword::Function) => self.has_block,
            _ => false,
        };
        is_unit && self.block.is_none()
    }

    /// The word that begins the type block, function, program or configuration that is open.
    pub fn unit_word(&self) -> Option<Keyword> {
        Some(self.unit?.word)
    }

    /// The word that begins the block of variables that is open.
    pub fn block_word(&self) -> Option<Keyword> {
        Some(self.block?.word)
    }

    /// Whether a configuration is open.
    pub fn is_in_configuration(&self) -> bool {
        self.unit_word() == Some(Keyword::Configuration)
    }
}

/// Whether a word begins a block of variables in other languages.
fn is_foreign(word: &[u8]) -> bool {
    is_one_of(word, &["VAR_OUTPUT", "VAR_IN_OUT", "VAR_TEMP"])
}

impl OpenConstruct {
    /// The word that begins it, and the one that ends it.
    pub fn words(&self) -> (&'static str, &'static str) {
        match self.word {
            Keyword::Type => ("TYPE", "END_TYPE"),
            Keyword::Function => ("FUNCTION", "END_FUNCTION"),
            Keyword::Program => ("PROGRAM", "END_PROGRAM"),
            Keyword::Configuration => ("CONFIGURATION", "END_CONFIGURATION"),
            Keyword::Resource => ("RESOURCE", "END_RESOURCE"),
            Keyword::VarInput => ("VAR_INPUT", "END_VAR"),
            Keyword::VarExternal => ("VAR_EXTERNAL", "END_VAR"),
            Keyword::VarGlobal => ("VAR_GLOBAL", "END_VAR"),
            _ => ("VAR", "END_VAR"),
        }
    }
}
