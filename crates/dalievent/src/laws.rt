//! What the frames of a source are, by the equations of the event schemes.

ghost use Rattle.std.specs.Prelude.{◌≡◌, ◌<◌, ℕ, true};
ghost use Rattle.dalievent.specs.declared.messages.EventSource.{EventSource};
ghost use Rattle.dalievent.specs.declared.heard.EventMessage.{EventMessage};
ghost use Rattle.dalievent.specs.EventSchemes.{a_limit, Solves, IsFrom};
ghost use Rattle.dalievent.specs.Messages.{is_message, information};

/// The frames of a source are those that solve the equation of its scheme with its parts, and their
/// information is the equation's.
pub fn messages_solve_their_equation()
    ensures some { (s : EventSource) (f : ℕ) → s.a < a_limit s.scheme → s.b < 32
        → is_message s f ≡ true → (e : EventMessage) × Solves e f × IsFrom s e }
    ensures all { (s : EventSource) (e : EventMessage) (f : ℕ)
        → Solves e f → IsFrom s e → is_message s f ≡ true }
    ensures information { (s : EventSource) (e : EventMessage) (f : ℕ)
        → Solves e f → IsFrom s e → information s f ≡ e.information }
{}
