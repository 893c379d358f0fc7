//! Who is told by the workers of a building.

use crate::pages::Pages;
use crate::storage::Storage;
use crate::unsorted::{Told, Unsorted};
use commandoptions::Beside;
use ilcompile::Setup;
use plantturns::{Gate, Happened};
use std::alloc::{AllocError, Global};
use std::sync::{Mutex, Wait};

/// Who is told by the workers of a building what happened, and writes it beside.
#[derive(Drop)]
pub struct BuildingObserver<'o, 'a, S: Storage, R: Wait> {
    rt: &'o R,
    storage: &'o S,
    alloc: Global,
    told: Mutex<Unsorted>,
    pages: Mutex<Pages<'a>>,
}

impl<'o, 'a, S: Storage, R: Wait> BuildingObserver<'o, 'a, S, R> {
    /// Who writes the files that are wanted beside a building of this setup, whose clock begins at
    /// this moment, and which begins with the values of a file of these bytes, where there is one.
    /// None is written before the first tick, so that the lights come first.
    ///
    /// # Errors
    ///
    /// The allocator is out of memory.
    pub fn open(
        rt: &'o R,
        alloc: Global,
        storage: &'o S,
        beside: &Beside<'a>,
        setup: Setup,
        kept: Option<&[u8]>,
        begins: u64,
        workers: usize,
    ) -> Result<BuildingObserver<'o, 'a, S, R>, AllocError> {
        let pages = Pages::open(alloc, beside, setup, kept, begins, workers)?;
        Ok(BuildingObserver {
            rt,
            storage,
            alloc,
            told: Mutex::new(Unsorted::new(alloc)),
            pages: Mutex::new(pages),
        })
    }

    /// Writes what is left, once the building has ended.
    pub fn finish(&self) {
        self.write();
        self.pages.lock(self.rt).finish(self.storage);
    }

    /// Writes what was told and is in order.
    fn write(&self) {
        let mut pages = self.pages.lock(self.rt);
        let mut told = Vec::new(self.alloc);
        let is_whole = self.told.lock(self.rt).take_into(&mut told);
        pages.take(self.storage, told, is_whole);
    }
}

/// No scan and no transaction is held back. The clock's worker writes, at each tick.
impl<S: Storage + Sync, R: Wait + Sync> Gate for BuildingObserver<'_, '_, S, R> {
    fn before_scan(&self, _worker: usize, _task: usize) {}

    fn before_transaction(&self, _bus: u8) {}

    fn after(&self, place: u64, happened: Happened) {
        let is_tick = matches!(happened, Happened::Ticked { .. });
        self.told.lock(self.rt).push(Told { place, happened });
        if is_tick {
            self.write();
        }
    }
}
