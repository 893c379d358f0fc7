//! Levels that are owed.

ghost use Rattle.std.specs.Prelude.{◌≡◌, ◌<◌, ◌≤◌, slice_get, map, IfSome};
ghost use Rattle.std.specs.Prelude.{Some, option_map};
ghost use Rattle.busqueue.specs.Queues.{class_number};
ghost use Rattle.ilmachine.specs.Images.{Global as GlobalVariable};
ghost use Rattle.plantevents.specs.Variables.{value, whole};
ghost use Rattle.plantevents.specs.Waiting.{owed, level_handout};
ghost use Rattle.plantbuses.specs.OutputSteps.{level_output};
ghost use Rattle.plantbuses.specs.OwedSteps.{IsLeastOwed};
ghost use Rattle.plantbuses.specs.HandingSteps.{IsOutput, IsOfClass, handout_of};

use super::Plant;
use busqueue::Class;
use plantbuses::{LevelOutput, Next, level_in};
use plantevents::Origin;

impl Plant {
    /// What is located at the level of an address.
    fn output_at(&self, bus: u8, address: u8) -> Option<LevelOutput>
        requires bus { bus < self.now.plant.plan.buses }
        requires address { address ≤ 80 }
        ensures value { result ≡ level_output self.now.plant bus address }
    {
        self.outputs[usize::from(bus)].at(address)
    }

    /// The value of a global variable that is located at a level.
    fn level_of(&self, global: usize) -> u8
        requires { IsOutput self.now.plant global }
        ensures { value self.now.plant (GlobalVariable global) self.now.history
            ≡ Some (whole result) }
    {
        let _lawful = self.setup.plan().buses();
        let _values = self.image.values();
        level_in(self.image.value(global))
    }

    /// The least address at which a level of a class is owed.
    fn least_owed(&self, bus: u8, class: Class) -> Option<u8>
        requires { bus < self.now.plant.plan.buses }
        ensures { IsLeastOwed self.now.plant bus class self.now.history result }
    {
        self.owed[usize::from(bus)].least(class)
    }

    /// The owed level of a class that has the least address.
    pub(super) fn first_owed(&self, bus: u8, class: Class) -> Option<Next>
        requires { bus < self.now.plant.plan.buses }
        ensures first { slice_get (map (level_handout (class_number class))
            (owed self.now.plant bus (class_number class) self.now.history)) 0
            ≡ option_map handout_of result }
        ensures class { IfSome result (λ next. IsOfClass next.class next.origin) }
    {
        let address = self.least_owed(bus, class)?;
        let output = self.output_at(bus, address).unwrap();
        let level = self.level_of(output.global);
        let origin = Origin::Output { address, level };
        Some(Next { class, origin })
    }
}
