//! Requests by the names of blocks and of commands, as an installer writes them.

use commandfiles::add_texts;
use commandline::GivenRequest;
use daliframe::{Address, BusNumber, Frame, Number};
use daliwords::{AddressWords, Block, FrameWords, request_of};
use gearcmd::{Command, Request};
use ilblocks::{BlockKind, Port, PortName, PortValues};
use printout::Printout;
use std::alloc::{AllocError, Global};

/// The blocks that make requests, in the order of the language's table.
const BLOCKS: &[Block] = &[
    Block::GearLevel,
    Block::GearDo,
    Block::GearSet,
    Block::GearPair,
    Block::GearAsk,
    Block::GearRead,
    Block::DevDo,
    Block::DevScheme,
    Block::DevAsk,
];

/// What a word names that says what is to be asked.
#[derive(Clone, Copy)]
pub struct NamedRequest {
    block: Block,
    /// The number at the port CMD, where the word is a command's name.
    cmd: Option<u32>,
}

/// Why there is no such request.
#[derive(Clone, Copy)]
pub enum RequestRefusal<'a> {
    /// The word names no block and no command.
    Unknown(&'a str),
    /// What the word names has other ports.
    Numbers(&'a str, NamedRequest),
}

/// The request of the block or the command of this name, with these numbers at its ports.
///
/// # Errors
///
/// The allocator is out of memory.
pub fn request_in<'a>(
    alloc: Global,
    words: GivenRequest<'a>,
) -> Result<Result<Command, RequestRefusal<'a>>, AllocError> {
    let word = words.request;
    let Some(named) = named(alloc, word)? else {
        return Ok(Err(RequestRefusal::Unknown(word)));
    };
    match named.command(words.address, words.value, words.second_value) {
        Some(command) => Ok(Ok(command)),
        None => Ok(Err(RequestRefusal::Numbers(word, named))),
    }
}

/// What a word names: a block, or a command with `-` or a blank between its words, in any letter
/// case.
fn named(alloc: Global, word: &str) -> Result<Option<NamedRequest>, AllocError> {
    if let Some(block) = Block::of_name(word) {
        return Ok(Some(NamedRequest { block, cmd: None }));
    }
    let wanted = Wanted::of(alloc, word)?;
    for block in BLOCKS {
        if let Some(named) = named_of_block(alloc, *block, &wanted)? {
            return Ok(Some(named));
        }
    }
    Ok(None)
}

/// The command of a block that is wanted, where it has it.
fn named_of_block(
    alloc: Global,
    block: Block,
    wanted: &Wanted,
) -> Result<Option<NamedRequest>, AllocError> {
    for cmd in 0..256 {
        let Some(command) = sample(block, cmd) else {
            return Ok(None);
        };
        if wanted.is_name_of(alloc, command)? {
            let cmd = if has_cmd(block) { Some(cmd) } else { None };
            return Ok(Some(NamedRequest { block, cmd }));
        }
    }
    Ok(None)
}

/// What frames say whose command has the name that is wanted.
#[derive(Drop)]
struct Wanted {
    gear: String,
    device: String,
}

impl Wanted {
    /// What frames to gear 0, or to instance 0 of device 0, say with a command of this name.
    fn of(alloc: Global, word: &str) -> Result<Wanted, AllocError> {
        let name = with_blanks(alloc, word)?;
        let Some(first) = Number::new(0) else {
            unreachable!()
        };
        let to = AddressWords(Address::Short(first));
        Ok(Wanted {
            gear: format!(in alloc; "{to} {name}")?,
            device: format!(in alloc; "device 0 instance 0 {name}")?,
        })
    }

    /// Whether this is what the last frame of a command says.
    fn is_name_of(&self, alloc: Global, command: Command) -> Result<bool, AllocError> {
        let bus = BusNumber::default();
        let frames = Request { bus, command }.frames();
        match frames.as_slice().last() {
            Some(last) => self.is_said(alloc, *last),
            None => Ok(false),
        }
    }

    /// Whether a frame says this.
    fn is_said(&self, alloc: Global, frame: Frame) -> Result<bool, AllocError> {
        let said = format!(in alloc; "{}", FrameWords(frame))?;
        Ok(said.eq_ignore_ascii_case(&self.gear) || said.eq_ignore_ascii_case(&self.device))
    }
}

/// A word with blanks in place of `-`.
fn with_blanks(alloc: Global, word: &str) -> Result<String, AllocError> {
    let mut name = String::new(alloc);
    for letter in word.chars() {
        name.push(if letter == '-' { ' ' } else { letter })?;
    }
    Ok(name)
}

/// Whether a block has a port CMD.
fn has_cmd(block: Block) -> bool {
    !matches!(block, Block::GearLevel | Block::GearRead | Block::DevScheme)
}

/// The command of this number of a block, to gear 0 or to instance 0 of device 0; of a block that
/// has but one command that one, as number 0.
fn sample(block: Block, cmd: u32) -> Option<Command> {
    let name = block.name();
    match block {
        Block::GearLevel => None,
        Block::GearDo | Block::GearPair | Block::GearAsk => request_of(name, 0, Some(cmd), None),
        Block::GearSet => request_of(name, 0, Some(cmd), Some(0)),
        Block::DevDo | Block::DevAsk => request_of(name, 0, Some(0), Some(cmd)),
        Block::GearRead | Block::DevScheme if cmd == 0 => request_of(name, 0, Some(0), Some(0)),
        Block::GearRead | Block::DevScheme => None,
    }
}

impl NamedRequest {
    /// The request with these numbers at the ports, of which a command's name has taken CMD.
    fn command(self, address: u8, value: Option<u32>, second: Option<u32>) -> Option<Command> {
        let name = self.block.name();
        match (self.cmd, self.block) {
            (None, _) => request_of(name, address, value, second),
            (Some(_), _) if second.is_some() => None,
            (Some(cmd), Block::GearSet) => request_of(name, address, Some(cmd), value),
            (Some(cmd), Block::DevDo | Block::DevAsk) => {
                request_of(name, address, value, Some(cmd))
            }
            (Some(_), _) if value.is_some() => None,
            (Some(cmd), _) => request_of(name, address, Some(cmd), None),
        }
    }
}

impl NamedRequest {
    /// Adds the ports behind BUS whose numbers are to be given, each with its range: `ADR 0..63,
    /// CMD
    /// 0..42`.
    fn list_ports(self, page: &mut Printout) {
        let mut is_first = true;
        for port in kind_of(self.block).ports() {
            if let Some(range) = range_of(*port, self.cmd.is_some()) {
                page.text(if is_first { "" } else { ", " });
                is_first = false;
                page.text(str::from_utf8(range.name.spelling()).unwrap_or(""));
                page.text(" 0..");
                page.shown(&range.greatest);
            }
        }
    }
}

/// The range of a port whose number is to be given: of none but those behind BUS, and not of CMD
/// where the command is named.
fn range_of(port: Port, is_named: bool) -> Option<PortRange> {
    match (port.name, port.values) {
        (PortName::Cmd, _) if is_named => None,
        (name, PortValues::UpTo(greatest)) => Some(PortRange { name, greatest }),
        _ => None,
    }
}

/// A port with the numbers that it takes.
#[derive(Clone, Copy)]
struct PortRange {
    name: PortName,
    greatest: u32,
}

/// The kind of a block in a text.
fn kind_of(block: Block) -> BlockKind {
    match block {
        Block::GearLevel => BlockKind::GearLevel,
        Block::GearDo => BlockKind::GearDo,
        Block::GearSet => BlockKind::GearSet,
        Block::GearPair => BlockKind::GearPair,
        Block::GearAsk => BlockKind::GearAsk,
        Block::GearRead => BlockKind::GearRead,
        Block::DevDo => BlockKind::DevDo,
        Block::DevScheme => BlockKind::DevScheme,
        Block::DevAsk => BlockKind::DevAsk,
    }
}

impl RequestRefusal<'_> {
    /// The line that is printed.
    pub fn page(&self, alloc: Global) -> Printout {
        let mut page = Printout::new(alloc);
        match self {
            RequestRefusal::Unknown(word) => {
                let what = " is no block and no command; the blocks are";
                add_texts(&mut page, &["error: ", word, what]);
                list_blocks(&mut page);
                page.text("; a command is written as query-status\n");
            }
            RequestRefusal::Numbers(word, named) => {
                let what = " does not take these numbers: it has ";
                add_texts(&mut page, &["error: ", word, what]);
                named.list_ports(&mut page);
                page.text("\n");
            }
        }
        page
    }
}

/// Adds the names of the blocks.
fn list_blocks(page: &mut Printout) {
    let mut is_first = true;
    for block in BLOCKS {
        page.text(if is_first { " " } else { ", " });
        is_first = false;
        page.shown(block);
    }
}
