//! Classes of requests.
ghost use Rattle.std.specs.Prelude.{◌≡◌};
ghost use Rattle.gearcmd.specs.declared.requests.Command.{Command as AnyCommand};
ghost use Rattle.gearcmd.specs.declared.requests.TaskKind.{TaskKind as Kind};
ghost use Rattle.gearcmd.specs.Requests.{class_of, task_class};
ghost use Rattle.busqueue.specs.Queues.{class_number};

use gearcmd::{Request, TaskKind};

/// The class of what waits for a bus, by the priority of its first frame: the least number is sent
/// first (IEC 62386-101, clause 9; which request has which is the profile's).
#[derive(Clone, Copy)]
pub enum Class {
    /// 2: what an event task sends once.
    UserAction,
    /// 3: what is sent twice.
    Configuration,
    /// 4: what a cyclic task sends once.
    AutomaticAction,
    /// 5: queries and memory reads.
    Query,
}

impl Class {
    /// The class of a request from a task of this kind.
    pub fn of(request: &Request, task: TaskKind) -> Class
        ensures { class_number result ≡ class_of request.now.command task }
    {
        match request.class(task) {
            2 => Class::UserAction,
            3 => Class::Configuration,
            4 => Class::AutomaticAction,
            _ => Class::Query,
        }
    }

    /// The class of a level output that a task of this kind stores.
    pub fn of_level(task: TaskKind) -> Class
        ensures { class_number result ≡ task_class task }
    {
        match task {
            TaskKind::Event => Class::UserAction,
            TaskKind::Cyclic => Class::AutomaticAction,
        }
    }

    /// The priority of the first frame, 2 to 5.
    pub fn number(self) -> u8
        ensures value { result ≡ class_number self }
    {
        match self {
            Class::UserAction => 2,
            Class::Configuration => 3,
            Class::AutomaticAction => 4,
            Class::Query => 5,
        }
    }

    /// A kind of task whose requests may be of this class: what is of it from a task of any kind is
    /// so from one of this kind.
    pub fn task(self) -> TaskKind
        ensures request { (command : AnyCommand) (kind : Kind)
            → class_of command kind ≡ class_number self
            → class_of command result ≡ class_number self }
        ensures level { (kind : Kind) → task_class kind ≡ class_number self
            → task_class result ≡ class_number self }
    {
        match self {
            Class::UserAction => TaskKind::Event,
            Class::Configuration | Class::AutomaticAction | Class::Query => TaskKind::Cyclic,
        }
    }
}
