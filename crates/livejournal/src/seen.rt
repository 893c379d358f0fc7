//! Which values of global variables were seen last.

use ilplan::Plan;
use iltypes::Value;
use plant::Plant;
use std::alloc::{AllocError, Global};

/// The values of a plant's global variables, as they were seen last.
#[derive(Drop)]
pub(crate) struct SeenValues {
    values: Vec<Value>,
}

impl SeenValues {
    /// Those with which a plan begins.
    ///
    /// # Errors
    ///
    /// The allocator is out of memory.
    pub(crate) fn new(alloc: Global, plan: &Plan) -> Result<SeenValues, AllocError> {
        let mut values = Vec::new(alloc);
        for global in 0..plan.globals() {
            values.push(plan.global(global).initial)?;
        }
        Ok(SeenValues { values })
    }

    /// Notes the values that a plant has. Answers whether one is another than was noted.
    pub(crate) fn note(&mut self, plant: &Plant) -> bool {
        let mut has_changed = false;
        for global in 0..plant.setup().plan().globals() {
            let now = plant.value(global);
            match self.values.get_mut(global) {
                Some(value) if *value != now => {
                    *value = now;
                    has_changed = true;
                }
                _ => {}
            }
        }
        has_changed
    }
}
