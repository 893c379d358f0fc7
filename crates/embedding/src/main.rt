//! The program `embedding`: a panel with a lamp and a push button, which has a controller in it.
//!
//! It is an example for whoever takes the crate `gushewa` into a program of their own: the panel is
//! the bus interface, and nothing is proved of it. The text and its binding are those of
//! examples/house.il and examples/house.bind. The button is pressed twice, and what the lamp shows
//! is printed.
#![tactic(auto)]

mod panel;

use gushewa::{
    Binding, BusNumber, Controller, InterfaceBus, NotOpened, OpenFault, Unobserved, load,
};
use panel::{Panel, Wires};
use std::alloc::Global;
use std::process::ExitCode;
use std::{fmt, io};

/// Each press of the push button switches the lamp on or off.
const TEXT: &str = "\
PROGRAM sw
VAR_EXTERNAL
  event : UINT (0..1023);
  lamp : USINT (0..254);
END_VAR
  LD event
  NE 2
  RETC
  LD lamp
  EQ 0
  JMPC lit
  LD 0
  ST lamp
  RET
lit:
  LD 200
  ST lamp
END_PROGRAM

CONFIGURATION house
VAR_GLOBAL
  pressed AT %IX0.3 : BOOL;
  event AT %IW0.131 : UINT (0..1023);
  lamp AT %QB0.5 : USINT (0..254);
END_VAR
TASK push (SINGLE := pressed, PRIORITY := 1);
PROGRAM s1 WITH push : sw;
END_CONFIGURATION
";

/// The push button is instance 2 of the device with short address 5.
const BINDING: &str = "buses 1\nsource 0.3 device-instance 5 2\n";

/// The most events of a history.
const EVENTS: u64 = 1000;

fn main(rt: HostRuntime) -> io::Result<ExitCode> {
    match shown_levels(rt.alloc()) {
        Ok(levels) => {
            println!(rt; "{levels}")?;
            Ok(ExitCode::SUCCESS)
        }
        Err(stop) => {
            println!(rt; "{stop}")?;
            Ok(ExitCode::FAILURE)
        }
    }
}

/// What the lamp shows at the start, and after each of two presses.
#[derive(Clone, Copy)]
struct Levels {
    first: u8,
    pressed: u8,
    again: u8,
}

impl fmt::Display for Levels {
    fn fmt<W: fmt::Write>(&self, f: &mut fmt::Formatter<W>) -> fmt::Result {
        write!(f, "lamp {}, {}, {}", self.first, self.pressed, self.again)
    }
}

/// Why the panel does not run.
#[derive(Clone, Copy)]
enum Stop {
    /// The binding has a fault, or memory ran out.
    Binding,
    /// So has the text.
    Text,
    /// The controller does not start.
    NotOpened(NotOpened),
    /// The controller cannot go on: its history is full, or memory ran out.
    Halted,
}

impl fmt::Display for Stop {
    fn fmt<W: fmt::Write>(&self, f: &mut fmt::Formatter<W>) -> fmt::Result {
        match self {
            Stop::Binding => write!(f, "the binding was refused"),
            Stop::Text => write!(f, "the text was refused"),
            Stop::NotOpened(_) => write!(f, "the controller did not start"),
            Stop::Halted => write!(f, "halted"),
        }
    }
}

/// The controller of the panel.
type PanelController<'w> = Controller<InterfaceBus<Panel<'w>>>;

/// The controller of the panel over these wires.
fn controller_over(alloc: Global, wires: &Wires) -> Result<PanelController<'_>, Stop> {
    let binding = Binding::parse(alloc, BINDING.as_bytes()).map_err(|_| Stop::Binding)?;
    let setup = load(alloc, TEXT.as_bytes(), &binding).map_err(|_| Stop::Text)?;
    let mut buses = Vec::new(alloc);
    if let Some(number) = BusNumber::new(0) {
        let bus = InterfaceBus::new(number, Panel::new(wires));
        let pushed = buses.push(bus);
        pushed.map_err(|_| Stop::NotOpened(NotOpened::Plant(OpenFault::Memory)))?;
    }
    Controller::open(alloc, setup, buses, EVENTS).map_err(Stop::NotOpened)
}

/// It is this moment, and all that is to be done is done.
fn go_on(alloc: Global, controller: &mut PanelController, moment: u64) -> Result<(), Stop> {
    let ticked = controller.tick(moment, &mut Unobserved);
    ticked.map_err(|_| Stop::Halted)?;
    let settled = controller.settle(alloc, &mut Unobserved);
    settled.map_err(|_| Stop::Halted)
}

/// Runs the panel: the button is pressed after one second, and after two.
fn shown_levels(alloc: Global) -> Result<Levels, Stop> {
    let wires = Wires::new();
    let mut controller = controller_over(alloc, &wires)?;
    go_on(alloc, &mut controller, 0)?;
    let first = wires.lamp();
    wires.press();
    go_on(alloc, &mut controller, 1000)?;
    let pressed = wires.lamp();
    wires.press();
    go_on(alloc, &mut controller, 2000)?;
    Ok(Levels {
        first,
        pressed,
        again: wires.lamp(),
    })
}
