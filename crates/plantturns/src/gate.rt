//! What is asked before a scan and before a transaction, and told after each event.

use plantdriving::{Happened, Observer};
use std::io;

/// A gate that each scan and each transaction passes before it begins, outside the lock. It is told
/// of each event after it came, outside the lock too. Each worker observes its own turns for it, as
/// a [`Passing`].
pub trait Gate: Sync {
    /// A scan worker took this task.
    fn before_scan(&self, worker: usize, task: usize);

    /// This bus was handed a transaction.
    fn before_transaction(&self, bus: u8);

    /// This happened, at this place of the history, from 0. The places order what is told: two
    /// workers may tell of a later event first.
    fn after(&self, place: u64, happened: Happened);
}

/// A gate that holds nothing back.
#[derive(Clone, Copy)]
pub struct OpenGate;

impl Gate for OpenGate {
    fn before_scan(&self, _worker: usize, _task: usize) {}

    fn before_transaction(&self, _bus: u8) {}

    fn after(&self, _place: u64, _happened: Happened) {}
}

/// Whoever lets each scan and each transaction that it is told of pass a gate, and tells the gate
/// of each event.
#[derive(Drop)]
pub struct Passing<'g, G: Gate> {
    pub gate: &'g G,
}

impl<'g, B, G: Gate> Observer<B> for Passing<'g, G> {
    fn note(&mut self, place: u64, happened: Happened) -> io::Result<()> {
        let passes = passes_of(&happened);
        self.gate.after(place, happened);
        match passes {
            Passes::Scan { worker, task } => self.gate.before_scan(worker, task),
            Passes::Transaction { bus } => self.gate.before_transaction(bus),
            Passes::Nothing => {}
        }
        Ok(())
    }
}

/// What passes a gate once an event came.
#[derive(Clone, Copy)]
enum Passes {
    Scan { worker: usize, task: usize },
    Transaction { bus: u8 },
    Nothing,
}

/// A scan is to be made once its task was taken, and a transaction is to be sent once it was handed
/// out.
fn passes_of(happened: &Happened) -> Passes {
    match *happened {
        Happened::Took { worker, task } => Passes::Scan { worker, task },
        Happened::Handed { bus, .. } => Passes::Transaction { bus },
        _ => Passes::Nothing,
    }
}
