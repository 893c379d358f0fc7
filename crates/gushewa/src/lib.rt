//! The front door for a program that has a controller in it: a text is loaded, and its plant runs
//! on buses of the program's own, on one thread, without a command line and without simulated
//! buses.
//!
//! What crosses the boundary: [`load`] makes a [`Setup`] of a text and its [`Binding`]. An
//! [`Interface`] is what the program has in place of a bus: three functions, and nothing of it is
//! proved. An [`InterfaceBus`] is a bus over one, and keeps what contracts say of it: what was sent
//! and heard. A [`Controller`] is a plant on such buses, or on buses of another kind: it takes
//! moments ([`Controller::tick`]), and hears, scans and sends until nothing is left to do
//! ([`Controller::settle`]). The definition to read first is `IsOpened` (specs/Controllers.antt).
//!
//! Many threads and real time are for `plantlive::live`, and lines to real interfaces for
//! `livehouse`.
//!
//! ```text
//! let setup = load(alloc, text, &Binding::one_bus(alloc))?;
//! let mut controller = Controller::open(alloc, setup, buses, 1000)?;
//! controller.tick(1000, &mut Unobserved)?;
//! controller.settle(alloc, &mut Unobserved)?;
//! ```
#![tactic(auto)]

mod bus;
mod controller;
mod interface;
mod not_opened;
mod unobserved;

pub use bus::InterfaceBus;
pub use buslink::{Bus, Fault, Reply};
pub use controller::Controller;
pub use daliframe::{Address, BusNumber, Fields16, Frame, Frame16, Frame24};
pub use ilcompile::Setup;
pub use interface::Interface;
pub use not_opened::NotOpened;
pub use plant::{OpenFault, Plant};
pub use plantdriving::{Halt, Happened, Observer};
pub use plantload::{LoadFault, load};
pub use unobserved::Unobserved;
pub use wordlines::Binding;
