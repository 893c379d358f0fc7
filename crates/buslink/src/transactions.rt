//! Transactions: the frames that a request spells, or a level.
ghost use Rattle.std.specs.Prelude.{◌≡◌, ◌↔◌, ◌∷◌, [], IsTrue};
ghost use Rattle.daliframe.specs.declared.forward.Frame.TheVariants as frame;
ghost use Rattle.daliframe.specs.Frames.{level_frame};
ghost use Rattle.gearcmd.specs.Requests.{frames_of, class_of, task_class, IsRequest};
ghost use Rattle.gearcmd.specs.FrameLists.{IsLegal};

use arrayvec::ArrayVec;
use daliframe::{Address, Frame, Frame16};
use gearcmd::{MOST_FRAMES, Request, TaskKind};
use std::alloc::AllocError;
use std::marker::Model;

/// One to three frames that are sent one after another, with no other frame of this controller
/// between.
#[derive(Drop, PartialEq, Eq)]
pub struct Transaction {
    frames: ArrayVec<Frame, MOST_FRAMES>,
    first_priority: u8,
}

impl Model for Transaction {
    ghost use Rattle.gearcmd.specs.FrameLists.{FrameList, IsLegal};

    ghost Value = { FrameList };

    ghost view = { λ t. record { frames = t.frames.items; first_priority = t.first_priority } };

    ghost invariant = { λ t. IsLegal t.frames.items t.first_priority };

    ghost inverse = { λ t. record {
      frames = record { items = t.frames };
      first_priority = t.first_priority;
    } };
}

/// It takes no memory, and never fails.
impl Clone for Transaction {
    ghost use Rattle.std.specs.Prelude.{⊤, ◌≡◌};

    ghost is_clone = { λ transaction copy. copy ≡ transaction };

    ghost is_infallible = { λ _. ⊤ };

    fn clone(&self) -> Result<Self, AllocError> {
        Ok(self.copied())
    }
}

impl Transaction {
    /// The frames that a request from a task of this kind spells.
    pub fn of(request: &Request, task: TaskKind) -> Self
        ensures frames { result.frames ≡ frames_of request.now.command }
        ensures first_priority { result.first_priority ≡ class_of request.now.command task }
        ensures legal { IsLegal result.frames result.first_priority }

        // The request is within the ranges of its ports, since its type keeps it there.
        ensures in_range { IsRequest request.now }
    {
        Transaction {
            frames: request.frames(),
            first_priority: request.class(task),
        }
    }

    /// The level of an output that a task of this kind stored: 0 off, 1 to 254, 255 no new level.
    pub fn of_level(address: Address, level: u8, task: TaskKind) -> Self
        ensures frames { result.frames ≡ frame.Forward16 (level_frame address level) ∷ [] }
        ensures first_priority { result.first_priority ≡ task_class task }
        ensures legal { IsLegal result.frames result.first_priority }
    {
        let mut frames = ArrayVec::new();
        frames.push(Frame::Forward16(Frame16::level(address, level)));
        Transaction {
            frames,
            first_priority: task.class(),
        }
    }

    /// The frames, first to last.
    pub fn frames(&self) -> &[Frame]
        ensures value { result.now ≡ self.now.frames }
        ensures legal { IsLegal self.now.frames self.now.first_priority }
    {
        self.frames.as_slice()
    }

    /// A transaction of the same frames and priority.
    pub(crate) fn copied(&self) -> Self
        ensures { result ≡ self.now }
    {
        let mut frames = ArrayVec::new();
        frames
            .try_extend_from_slice(self.frames.as_slice())
            .unwrap();
        Transaction {
            frames,
            first_priority: self.first_priority,
        }
    }

    /// Whether this is the same transaction, as that which was handed out.
    pub fn is_same(&self, other: &Self) -> bool
        ensures { IsTrue result ↔ (self.now ≡ other.now) }
    {
        self == other
    }

    /// The priority of the first frame, 2 to 5. Each later one has priority 1, the highest (IEC
    /// 62386-101, clause 9; profile).
    pub fn first_priority(&self) -> u8
        ensures { result ≡ self.now.first_priority }
    {
        self.first_priority
    }
}
