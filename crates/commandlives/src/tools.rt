//! What the commands at one line work with: the line, and the files that they read.

use commandfiles::{Disk, Stop, Unserved, binding_of, bytes_at, setup_of};
use commandoptions::{LineWord, LiveFiles};
use commissioning::Served;
use daliframe::BusNumber;
use ilcompile::Setup;
use livehouse::{LineupFault, LiveStop, Site, SiteFault};
use plant::StartFault;
use std::alloc::Global;
use std::{fmt, io};
use wordlines::Binding;

/// Why a tool does not work.
#[derive(Drop)]
pub enum ToolStop<'a> {
    /// A file is not read, or a writer failed.
    Unserved(Unserved<'a>),
    /// Of the binding or the text.
    Text(Stop),
    /// The line has no bus, or the allocator is out of memory.
    Line(LiveStop),
    /// The line is not opened.
    Unopened(UnopenedLine<'a>),
}

impl<'a> From<Unserved<'a>> for ToolStop<'a> {
    fn from(unserved: Unserved<'a>) -> Self {
        ToolStop::Unserved(unserved)
    }
}

impl From<io::Error> for ToolStop<'_> {
    fn from(error: io::Error) -> Self {
        ToolStop::Unserved(Unserved::NotPrinted(error))
    }
}

impl From<Stop> for ToolStop<'_> {
    fn from(stop: Stop) -> Self {
        ToolStop::Text(stop)
    }
}

impl From<LiveStop> for ToolStop<'_> {
    fn from(stop: LiveStop) -> Self {
        ToolStop::Line(stop)
    }
}

/// A line that is not opened, or whose interface does not greet, and why, where that is known.
#[derive(Drop)]
pub struct UnopenedLine<'a> {
    pub line: LineWord<'a>,
    pub why: Option<String>,
}

/// `cannot open /dev/ttyUSB0: no such file`
impl fmt::Display for UnopenedLine<'_> {
    fn fmt<W: fmt::Write>(&self, f: &mut fmt::Formatter<W>) -> fmt::Result {
        write!(f, "cannot open {}", self.line.from)?;
        if let Some(to) = self.line.to {
            write!(f, ",{to}")?;
        }
        match &self.why {
            Some(why) => write!(f, ": {why}"),
            None => Ok(()),
        }
    }
}

/// What a tool came to, or what stands against it.
pub type ToolEnd<'a> = Result<Served, ToolStop<'a>>;

/// A line that a tool works at.
#[derive(Clone, Copy)]
pub struct ToolLine<'a> {
    /// Its bus, and the paths of its interface.
    pub line: LineWord<'a>,
    /// The milliseconds that all answers of a transaction may take.
    pub patience: u32,
}

/// Opens a line and greets its interface.
///
/// # Errors
///
/// It cannot be opened, another program has it, its interface does not greet, there is no such bus,
/// or the allocator is out of memory. Nothing was sent.
pub fn opened<'a, S: Site>(
    alloc: Global,
    site: &S,
    at: ToolLine<'a>,
) -> Result<S::Line, ToolStop<'a>> {
    let ToolLine { line, patience } = at;
    let Some(number) = BusNumber::new(line.bus) else {
        return Err(ToolStop::Line(unknown_bus(line.bus)));
    };
    match site.open(alloc, line, number, patience) {
        Ok(bus) => Ok(bus),
        Err(SiteFault::Memory) => Err(ToolStop::Line(LiveStop::Start(StartFault::Memory))),
        Err(SiteFault::Failed | SiteFault::Ended) => Err(ToolStop::Unopened(UnopenedLine {
            line,
            why: site.why(alloc, line.bus),
        })),
    }
}

/// There is no bus of this number.
fn unknown_bus(bus: u8) -> LiveStop {
    LiveStop::Lineup(LineupFault::Unknown { bus })
}

/// The setup of the text under the binding, where they are named, which has the bus of this number.
///
/// # Errors
///
/// A file is not read, what stands against the files, or there is no such bus.
pub fn setup_at<'a, D: Disk>(
    alloc: Global,
    disk: &D,
    files: Option<LiveFiles<'a>>,
    bus: u8,
) -> Result<Option<Setup>, ToolStop<'a>> {
    let Some(files) = files else {
        return Ok(None);
    };
    let binding = bytes_at(alloc, disk, files.binding)?;
    let text = bytes_at(alloc, disk, files.text)?;
    let setup = setup_of(alloc, &binding, &text)?;
    if bus >= setup.plan().buses() {
        return Err(ToolStop::Line(unknown_bus(bus)));
    }
    Ok(Some(setup))
}

/// What a binding's file says, where one is named.
///
/// # Errors
///
/// It is not read, or its fault.
pub fn binding_at<'a, D: Disk>(
    alloc: Global,
    disk: &D,
    path: Option<&'a str>,
) -> Result<Option<Binding>, ToolStop<'a>> {
    let Some(path) = path else {
        return Ok(None);
    };
    let bytes = bytes_at(alloc, disk, path)?;
    Ok(Some(binding_of(alloc, Some(bytes.as_slice()))?))
}
