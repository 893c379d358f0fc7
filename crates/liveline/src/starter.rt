//! Who starts the threads of lines.

use crate::reasons::Reason;
use crate::thread::{Job, Opener, Outcome, PAUSE, Tries};
use crossbeam_channel::{Receiver, RecvTimeoutError, Sender, bounded};
use std::alloc::{AllocError, Global};
use std::io::{ErrorKind, Write};
use std::sync::Wait;
use std::thread;
use std::thread::Threads;
use std::time::{Clock, Duration};

/// The most lines that wait for their threads. Whoever asks for one more waits.
const MOST_ORDERS: usize = 64;

/// A line that is to have a thread: who tries to open it, what is to be tried, and where it is told
/// what became of that.
#[derive(Drop)]
pub(crate) struct Order<R: Wait + Clock + Drop, W: Write + Drop, O: Drop> {
    tries: Tries<R, W, O>,
    /// The handle of the thread.
    rt: R,
    jobs: Receiver<Job<R, W>>,
    to: Sender<Outcome<R, W>>,
    stand_in: StandIn<R, W>,
}

impl<R: Wait + Clock + Drop, W: Write + Drop, O: Drop> Order<R, W, O> {
    /// # Errors
    ///
    /// The allocator is out of memory.
    pub(crate) fn new(
        rt: &R,
        tries: Tries<R, W, O>,
        jobs: Receiver<Job<R, W>>,
        to: Sender<Outcome<R, W>>,
    ) -> Result<Order<R, W, O>, AllocError>
    where
        R: Clone,
    {
        let stand_in = StandIn {
            jobs: jobs.clone()?,
            to: to.clone()?,
        };
        Ok(Order {
            tries,
            rt: rt.clone()?,
            jobs,
            to,
            stand_in,
        })
    }
}

/// Who answers for a line while no thread can be made for it.
#[derive(Drop)]
struct StandIn<R: Wait + Clock + Drop, W: Write + Drop> {
    jobs: Receiver<Job<R, W>>,
    to: Sender<Outcome<R, W>>,
}

impl<R: Wait + Clock + Drop, W: Write + Drop> StandIn<R, W> {
    /// Tells whoever asks that no thread can be made, and waits until the next try. It gives
    /// whether the line is still wanted.
    fn refuse(&self, rt: &R) -> bool {
        let pause = Duration::from_millis(PAUSE);
        match self.jobs.recv_timeout(rt, pause) {
            Ok(_) => {
                let why = Reason::Unopened(ErrorKind::OutOfMemory);
                let is_wanted = self.to.send(rt, Err(why)).is_ok();
                thread::sleep(rt, pause);
                is_wanted
            }
            Err(RecvTimeoutError::Timeout) => true,
            Err(RecvTimeoutError::Disconnected) => false,
        }
    }
}

/// A thread that starts the threads of lines. It is started where all is known of the machine's
/// types: a method of a trait cannot send to a thread what rests on the bounds of its block.
#[derive(Drop)]
pub struct LineStarter<R: Wait + Clock + Drop, W: Write + Drop, O: Drop> {
    orders: Sender<Order<R, W, O>>,
}

impl<R: Wait + Clock + Drop, W: Write + Drop, O: Drop> LineStarter<R, W, O> {
    /// Starts the thread.
    ///
    /// # Errors
    ///
    /// The allocator is out of memory, or no thread can be made.
    pub fn start(alloc: Global, rt: R) -> Result<LineStarter<R, W, O>, AllocError>
    where
        R: Threads + Clone + Send + 'static,
        W: Send + 'static,
        O: Opener<W> + Send + 'static,
        O::From: Send + 'static,
    {
        let (orders, theirs) = bounded::<Order<R, W, O>, Global>(alloc, MOST_ORDERS)?;
        let handle = rt.clone()?;
        thread::spawn(&rt, move || serve(&handle, &theirs))?;
        Ok(LineStarter { orders })
    }

    /// Asks for the thread of a line.
    ///
    /// # Errors
    ///
    /// The thread that starts it has ended.
    pub(crate) fn order(&self, rt: &R, order: Order<R, W, O>) -> Result<(), AllocError> {
        match self.orders.send(rt, order) {
            Ok(()) => Ok(()),
            Err(_) => Err(AllocError),
        }
    }
}

/// Starts the thread of each line that is asked for, until nobody asks any more.
fn serve<
    R: Threads + Wait + Clock + Clone + Send + Drop + 'static,
    W: Write + Send + Drop + 'static,
    O: Opener<W> + Send + 'static,
>(rt: &R, orders: &Receiver<Order<R, W, O>>)
where
    O::From: Send + 'static,
{
    for _ in rt.forever() {
        let Ok(order) = orders.recv(rt) else { return };
        begin(rt, order);
    }
}

/// Starts the thread of a line, as soon as one can be made. Until then the other lines wait too,
/// which need threads as well.
fn begin<
    R: Threads + Wait + Clock + Clone + Send + Drop + 'static,
    W: Write + Send + Drop + 'static,
    O: Opener<W> + Send + 'static,
>(rt: &R, order: Order<R, W, O>)
where
    O::From: Send + 'static,
{
    let Order {
        mut tries,
        rt: handle,
        jobs,
        to,
        stand_in,
    } = order;
    let mut serve = move || tries.serve(&handle, &jobs, &to);
    for _ in rt.forever() {
        match thread::spawn(rt, serve) {
            Ok(_) => return,
            Err(refused) => serve = refused.value,
        }
        if !stand_in.refuse(rt) {
            return;
        }
    }
}
