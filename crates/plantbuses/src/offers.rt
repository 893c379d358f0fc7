//! The requests of a scan, which are offered to their buses.

ghost use Rattle.std.specs.Prelude.{◌≡◌, ◌+◌, ◌<◌, ◌^◌, ℕ, All, length};
ghost use Rattle.busqueue.specs.declared.class.Class.{Class as RequestClass};
ghost use Rattle.plantevents.specs.Waiting.{after_offer, after_offers, refused_count};
ghost use Rattle.busqueue.specs.Queues.{class_number};
ghost use Rattle.plantbuses.specs.KeptSteps.{bus_at};
ghost use Rattle.plantbuses.specs.OfferSteps.{waiting_in, dropped_in, with_queues, refused_one};

use crate::bus::BusState;
use busqueue::Class;
use gearcmd::{Request, TaskKind};

/// Offers a request of a task of this kind to its bus. It takes no memory.
fn offer(bus: &mut BusState, kind: TaskKind, request: Request)
    requires countable { (c : RequestClass) → dropped_in bus.old c + 1 < 2 ^ 64 }
    ensures waits { (c : RequestClass) → waiting_in bus.new c
        ≡ after_offer request.bus (class_number c) kind (waiting_in bus.old c) request }
    ensures drops { (c : RequestClass) → dropped_in bus.new c
        ≡ dropped_in bus.old c + refused_one (class_number c) kind (waiting_in bus.old c) request }
    ensures same { bus.new ≡ with_queues bus.old bus.new.queues }
{
    let class = Class::of(&request, kind);
    let _ = bus.queues.offer(class, request);
}

/// Offers the requests of a scan of a task of this kind, in order. It takes no memory.
pub fn offer_all(buses: &mut Vec<BusState>, kind: TaskKind, requests: &[Request])
    requires known { All (λ r. r.bus < length buses.old.items) requests.now }
    requires countable { (b : ℕ) (c : RequestClass) → b < length buses.old.items
        → dropped_in (bus_at buses.old.items b) c + length requests.now < 2 ^ 64 }
    ensures count { length buses.new.items ≡ length buses.old.items }
    ensures waits { (b : ℕ) (c : RequestClass) → b < length buses.old.items
        → waiting_in (bus_at buses.new.items b) c
        ≡ after_offers b (class_number c) kind (waiting_in (bus_at buses.old.items b) c)
        requests.now }
    ensures drops { (b : ℕ) (c : RequestClass) → b < length buses.old.items
        → dropped_in (bus_at buses.new.items b) c
        ≡ dropped_in (bus_at buses.old.items b) c + refused_count b (class_number c) kind
        (waiting_in (bus_at buses.old.items b) c) requests.now }
    ensures same { (b : ℕ) → b < length buses.old.items
        → bus_at buses.new.items b
        ≡ with_queues (bus_at buses.old.items b) (bus_at buses.new.items b).queues }
{
    for request in requests {
        offer(
            &mut buses[usize::from(request.bus.number())],
            kind,
            *request,
        );
    }
}
