//! Why the lines of the machine are down.

use liveline::Reason;
use std::alloc::Global;
use std::sync::{Mutex, Wait};

/// Why the lines of buses are down, by the numbers of the buses, as it was found last. Who has a
/// line notes it, and who writes a status reads it, in another thread.
#[derive(Drop)]
pub struct DownReasons {
    alloc: Global,
    texts: Mutex<Vec<Option<String>>>,
}

impl DownReasons {
    /// Nothing was found yet.
    pub fn new(alloc: Global) -> DownReasons {
        DownReasons {
            alloc,
            texts: Mutex::new(Vec::new(alloc)),
        }
    }

    /// Notes why the line of a bus is down. Where memory is refused nothing is known of it.
    pub(crate) fn note(&self, rt: &impl Wait, bus: u8, reason: &Reason) {
        let text = format!(in self.alloc; "{reason}").ok();
        let mut texts = self.texts.lock(rt);
        for _ in texts.len()..=usize::from(bus) {
            if texts.push(None).is_err() {
                return;
            }
        }
        if let Some(place) = texts.get_mut(usize::from(bus)) {
            *place = text;
        }
    }

    /// Why the line of a bus is down, where that is known.
    pub(crate) fn of(&self, rt: &impl Wait, alloc: Global, bus: u8) -> Option<String> {
        let texts = self.texts.lock(rt);
        let text = texts.get(usize::from(bus))?.as_deref()?;
        String::from_str(alloc, text).ok()
    }
}
