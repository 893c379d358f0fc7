//! A picture that is drawn while a scenario is played.

use crate::levels::{Lamp, level_of};
use crate::moment::Moment;
use crate::parts::{Column, Kind, Picture, Row, Sign};
use buslink::{Outcome, Reply, Report, Transaction};
use daliframe::{Frame, Frame24};
use daliwords::{FrameWords, FramesWords};
use iltypes::Value;
use plant::Plant;
use plantdriving::{Happened, Observer};
use plantplay::Watch;
use simbus::{Scenario, SimBus};
use std::alloc::{AllocError, Global};
use std::io;
use wordlines::BoundSource;

/// A picture that is drawn while a scenario is played. Its columns have the lines of the play.
#[derive(Drop)]
pub struct Drawing {
    pub(crate) alloc: Global,
    /// Its first rows are those of the lamps. Rows of a kind stand in the order of what they show.
    pub(crate) picture: Picture,
    pub(crate) lamps: Vec<Lamp>,
    /// The sources of the binding.
    pub(crate) sources: Vec<BoundSource>,
    /// The buses on which frames were heard of which nobody waits. Their rows stand behind those of
    /// the sources.
    strays: Vec<u8>,
    /// The values of the variables that are watched.
    pub(crate) watch: Watch,
}

impl Drawing {
    /// The picture of a plant on the buses of a scenario, before anything happened, with a row for
    /// each variable of these names.
    ///
    /// # Errors
    ///
    /// The allocator is out of memory.
    pub fn new(
        alloc: Global,
        plant: &Plant,
        scenario: &Scenario,
        watched: &[&str],
    ) -> Result<Drawing, AllocError> {
        let mut drawing = Drawing {
            alloc,
            picture: Picture::new(alloc),
            lamps: Vec::new(alloc),
            sources: Vec::new(alloc),
            strays: Vec::new(alloc),
            watch: Watch::of(alloc, plant, watched)?,
        };
        let plan = plant.setup().plan();
        drawing.add_lamps(plan, scenario)?;
        drawing.add_others(plan)?;
        drawing.add_variables()?;
        Ok(drawing)
    }

    /// The picture, with these lines below it.
    ///
    /// # Errors
    ///
    /// The allocator is out of memory.
    pub fn into_picture(self, notes: &[u8]) -> Result<Picture, AllocError> {
        let Drawing {
            alloc,
            mut picture,
            ..
        } = self;
        if let Ok(text) = str::from_utf8(notes) {
            for line in text.lines() {
                picture.notes.push(String::from_str(alloc, line)?)?;
            }
        }
        Ok(picture)
    }

    /// Adds a row.
    pub(crate) fn add(
        &mut self,
        kind: Kind,
        name: String,
        place: String,
        bus: Option<u8>,
        first: Option<Sign>,
    ) -> Result<(), AllocError> {
        self.picture.rows.push(Row {
            kind,
            name,
            place,
            bus,
            first,
            marks: Vec::new(self.alloc),
        })?;
        Ok(())
    }

    /// Begins a column with a line of what happened.
    fn begin(
        &mut self,
        moment: Option<Moment>,
        bus: Option<u8>,
        follows: bool,
        title: String,
    ) -> Result<(), AllocError> {
        self.picture.columns.push(Column {
            moment,
            bus,
            follows,
            title,
        })?;
        Ok(())
    }

    /// Adds a line to the last column.
    fn go_on(&mut self, line: &str) -> Result<(), AllocError> {
        if let Some(column) = self.picture.columns.last_mut() {
            column.title.push_str("\n")?;
            column.title.push_str(line)?;
        }
        Ok(())
    }

    /// The number of the last column.
    fn column(&self) -> usize {
        self.picture.columns.len().saturating_sub(1)
    }

    /// Marks the row of this number among those of a kind, in the last column.
    fn mark(&mut self, kind: Kind, number: usize, sign: Sign) -> Result<(), AllocError> {
        let column = self.column();
        let mut rows = self.picture.rows.iter_mut().filter(|row| row.kind == kind);
        match rows.nth(number) {
            Some(row) => row.set(column, sign),
            None => Ok(()),
        }
    }

    /// Marks an event at each source of which it is; where there is none, in the row of its bus for
    /// such, which is made where it is not there.
    fn mark_event(&mut self, bus: u8, frame: Frame24) -> Result<(), AllocError> {
        let column = self.column();
        let mut is_known = false;
        let rows = self.picture.rows.iter_mut();
        let rows = rows.filter(|row| row.kind == Kind::Source);
        for (row, bound) in rows.zip(self.sources.iter()) {
            match bound.source.information(frame) {
                Some(information) if bound.bus == bus => {
                    row.set(column, Sign::Event(information))?;
                    is_known = true;
                }
                _ => {}
            }
        }
        if is_known {
            return Ok(());
        }
        if !self.strays.contains(&bus) {
            let name = String::from_str(self.alloc, "no source")?;
            let place = format!(in self.alloc; "bus {bus}")?;
            self.add(Kind::Source, name, place, Some(bus), None)?;
            self.strays.push(bus)?;
        }
        let stray = self.strays.iter().position(|of| *of == bus);
        let number = self.sources.len().saturating_add(stray.unwrap_or(0));
        self.mark(Kind::Source, number, Sign::Stray)
    }

    /// What a task is called.
    fn task_name(&self, task: usize) -> &str {
        let mut tasks = self
            .picture
            .rows
            .iter()
            .filter(|row| row.kind == Kind::Task);
        match tasks.nth(task) {
            Some(row) => &row.name,
            None => "",
        }
    }
}

/// How each event is drawn.
impl Drawing {
    fn draw_tick(&mut self, milliseconds: u64) -> Result<(), AllocError> {
        let line = format!(in self.alloc; "tick {milliseconds}")?;
        self.begin(Some(Moment { milliseconds }), None, false, line)
    }

    fn draw_frame(&mut self, bus: u8, frame: Frame24) -> Result<(), AllocError> {
        let words = FrameWords(Frame::Forward24(frame));
        let line = format!(in self.alloc; "heard {bus} {frame}  {words}")?;
        self.begin(None, Some(bus), false, line)?;
        self.mark_event(bus, frame)
    }

    fn draw_take(&mut self, task: usize) -> Result<(), AllocError> {
        let line = format!(in self.alloc; "take {}", self.task_name(task))?;
        self.go_on(&line)?;
        self.mark(Kind::Task, task, Sign::Scan)
    }

    fn draw_commit(&mut self, task: usize, steps: u32) -> Result<(), AllocError> {
        let line = format!(in self.alloc; "commit {} steps {steps}", self.task_name(task))?;
        self.go_on(&line)
    }

    /// The transaction with its class and its frames, and behind two blanks these in words.
    fn draw_handout(&mut self, bus: u8, transaction: &Transaction) -> Result<(), AllocError> {
        let alloc = self.alloc;
        let mut line = format!(in alloc; "hand {bus} {}", transaction.first_priority())?;
        for frame in transaction.frames() {
            line.push_str(&format!(in alloc; " {frame}")?)?;
        }
        line.push_str(&format!(in alloc; "  {}", FramesWords(transaction.frames()))?)?;
        self.begin(None, Some(bus), true, line)
    }

    /// What a report comes to.
    fn draw_outcome(&mut self, bus: u8, outcome: Outcome) -> Result<(), AllocError> {
        let line = format!(in self.alloc; "done {bus} {outcome}")?;
        self.go_on(&line)?;
        self.mark(Kind::Bus, usize::from(bus), sign_of_outcome(outcome))
    }

    fn draw_down(&mut self, bus: u8) -> Result<(), AllocError> {
        let line = format!(in self.alloc; "down {bus}")?;
        self.begin(None, Some(bus), true, line)?;
        self.mark(Kind::Bus, usize::from(bus), Sign::Down)
    }
}

impl Observer<SimBus> for Drawing {
    fn note(&mut self, _place: u64, happened: Happened) -> io::Result<()> {
        match happened {
            Happened::Ticked { moment } => self.draw_tick(moment)?,
            Happened::Heard { bus, frame } => self.draw_frame(bus, frame)?,
            Happened::Took { task, .. } => self.draw_take(task)?,
            Happened::Committed { task, steps, .. } => self.draw_commit(task, steps)?,
            Happened::Handed {
                bus,
                transaction,
                ..
            } => self.draw_handout(bus, &transaction)?,
            Happened::Reported { bus, report } => self.draw_outcome(bus, report.outcome())?,
            Happened::WentDown { bus } => self.draw_down(bus)?,
            Happened::CameUp { .. } => {}
        }
        Ok(())
    }

    /// Marks the values that are new.
    fn note_values(&mut self, plant: &Plant, task: usize) -> io::Result<()> {
        self.watch.note_values(plant, task)?;
        let column = self.column();
        let rows = self.picture.rows.iter_mut();
        let rows = rows.filter(|row| row.kind == Kind::Variable);
        for (row, watched) in rows.zip(self.watch.variables()) {
            row.set(column, sign_of_value(watched.value()))?;
        }
        Ok(())
    }

    /// Marks the levels that are new after a report.
    fn note_line(&mut self, bus: u8, report: &Report, line: &SimBus) -> io::Result<()> {
        let column = self.column();
        for (lamp, row) in self.lamps.iter().zip(&mut self.picture.rows) {
            match level_of(line, report, lamp.address) {
                Some(level) if lamp.bus == bus => row.set(column, Sign::Level(level))?,
                _ => {}
            }
        }
        Ok(())
    }
}

/// The mark of a value.
pub(crate) fn sign_of_value(value: Value) -> Sign {
    match value {
        Value::Bool(truth) => Sign::Truth(truth),
        Value::Int(number) => Sign::Number(number),
    }
}

/// The mark of a transaction that ended so.
fn sign_of_outcome(outcome: Outcome) -> Sign {
    match outcome {
        Outcome::Done(Reply::Quiet) => Sign::Sent,
        Outcome::Done(Reply::Answer(value)) => Sign::Answered(value),
        Outcome::Done(Reply::Damaged) => Sign::Damaged,
        Outcome::Done(Reply::Lost) | Outcome::GaveUp => Sign::GaveUp,
        Outcome::Failed => Sign::Failed,
    }
}
