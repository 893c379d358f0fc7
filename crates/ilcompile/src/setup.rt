//! A plan with its verified codes.

use ilplan::{Plan, TaskState};
use iltypes::Value;
use ilverify::Verified;
use std::marker::Model;
use std::sync::Arc;

/// A plan with the verified code of each of its tasks.
pub struct Setup {
    plan: Plan,
    /// One for each task, in the plan's order.
    verified: Vec<Arc<Verified>>,
}

/// Written out, so that it is proved here alone.
impl Drop for Setup {
    fn drop(self) {
        let Self {
            plan: _,
            verified: _,
        } = self;
    }
}

impl Model for Setup {
    ghost use Rattle.std.specs.Coded.{codes};
    ghost use Rattle.ilplan.specs.contracts.plan.Plan as inner;
    ghost use Rattle.ilcompile.specs.Loaded.{AreCodes, Loaded, accepted_of};

    ghost Value = { Loaded };

    ghost coded = { Prim.hlevel (codes, inner.the_row.coded) };

    ghost view = { λ s. record { plan = s.plan; codes = accepted_of s.verified.items } };

    ghost invariant = { λ s. AreCodes s.plan (accepted_of s.verified.items) };
}

impl Setup {
    ghost use Rattle.std.specs.Prelude.{◌≡◌, ◌<◌, length, slice_get, IfSome, Some};
    ghost use Rattle.std.specs.Arc.{arc_value};
    ghost use Rattle.ilplan.specs.Beginnings.{MayBegin, plan_with};
    ghost use Rattle.ilcompile.specs.Loaded.{AreCodes, IsCodeOf, Loaded, accepted_of, loaded_of};

    /// The setup of a plan and its tasks' codes.
    pub fn new(plan: Plan, verified: Vec<Arc<Verified>>) -> Setup
        requires { AreCodes plan (accepted_of verified.items) }
        ensures { result ≡ loaded_of plan (accepted_of verified.items) }
    {
        Setup { plan, verified }
    }

    /// Lets the plan's variables and block instances begin so, as [`Plan::begin_with`] does. The
    /// codes stay as they are: none has what a variable or an instance begins with.
    pub fn begin_with(&mut self, globals: &[Value], tasks: &[TaskState])
        requires { MayBegin self.old.plan globals.now tasks.now }
        ensures { self.new ≡ loaded_of (plan_with self.old.plan globals.now tasks.now)
            self.old.codes }
    {
        self.plan.begin_with(globals, tasks);
    }

    /// The plan.
    pub fn plan(&self) -> &Plan
        ensures value { result.now ≡ self.now.plan }
        ensures codes { AreCodes self.now.plan self.now.codes }
    {
        &self.plan
    }

    /// The verified code of the task of this number.
    pub fn code(&self, task: usize) -> &Arc<Verified>
        requires { task < length self.now.plan.tasks }
        ensures value { slice_get self.now.codes task ≡ Some (arc_value result.now) }
        ensures of_task { IfSome (slice_get self.now.plan.tasks task)
            (λ t. IsCodeOf self.now.plan t (arc_value result.now)) }
    {
        &self.verified[task]
    }
}
