//! What is said of an address of something that does not exist. In the texts `{0}` is the word of
//! the address, `{1}` the bus and `{2}` a number.

use crate::answers::MOST_TOLD;
use crate::said::{Change, Row, Said, Slot, advice};
use crate::standing::FaultPlace;
use crate::tokens::what_at;
use explaincures::AskedText;
use ilsource::DirectAddress;
use iltokens::{AddressKind, What};

/// What is said of an address of something that does not exist.
pub(crate) fn said_of_address(fault: &FaultPlace) -> Said {
    let FaultPlace { asked, spot, .. } = fault;
    let Some(What::Address { kind, bus, place }) = what_at(spot.text, spot.at) else {
        return Said::of(advice!("a variable that is not a trigger";
            "SINGLE names a variable of VAR_GLOBAL that has an address %IX; for a task\n\
                that runs again and again write INTERVAL";
            "VAR_GLOBAL pressed AT %IX0.0 : BOOL; END_VAR\n\
                TASK push (SINGLE := pressed, PRIORITY := 1);"));
    };
    let (word, most, above) = of_kind(kind);
    // The information of a source stands at 128 and on, and its count at 192 and on.
    let added = match kind {
        AddressKind::InputBit => 0,
        _ if place >= 192 => 192,
        _ => 128,
    };
    let (said, number) = if bus >= u64::from(asked.binding.buses()) {
        (no_bus(asked), place)
    } else if place > most {
        (Said::of(above), most)
    } else {
        let said = no_source(asked).with_change(Change::Source(added));
        (said, place.saturating_sub(added))
    };
    said.with_slots([Slot::Word(word), Slot::Number(bus), Slot::Number(number)])
}

/// What is said of a bus that is not there.
fn no_bus(asked: &AskedText) -> Said {
    if !asked.is_bound {
        let row = advice!("there is no bus {1}";
            "give the binding with --bind FILE, or write bus 0";
            "{0}0.{2}");
        return Said::of(row).with_facts("without --bind there is one bus, which is bus 0\n", 0);
    }
    let row = advice!("there is no bus {1}";
        "write a bus of the binding, or let its line `buses` have one more";
        "{0}0.{2}");
    let facts = match asked.binding.buses() {
        1 => "the binding has one bus, which is bus 0\n",
        _ => "the binding has {b} buses, 0 to {z}\n",
    };
    Said::of(row).with_facts(facts, 0)
}

/// What is said of a source that is not there.
fn no_source(asked: &AskedText) -> Said {
    if !asked.is_bound {
        let row = advice!("there is no source {1}.{2}";
            "give the binding with --bind FILE; it needs a line for this source";
            "source {1}.{2} device-instance 5 2");
        return Said::of(row).with_facts("without --bind there is no source of events\n", 0);
    }
    let row = advice!("there is no source {1}.{2}";
        "write the place of a source of the binding, or give it a line for this one";
        "source {1}.{2} device-instance 5 2");
    let facts = match asked.binding.sources().len() {
        0 => "the binding has no source of events\n",
        count if count > MOST_TOLD => "the binding has the sources {e} and more\n",
        _ => "the binding has the sources {e}\n",
    };
    Said::of(row).with_facts(facts, 0)
}

/// The word with which an address of a kind begins, the greatest number behind its dot, and what is
/// said of a greater one.
fn of_kind(kind: AddressKind) -> (&'static str, u64, Row) {
    match kind {
        AddressKind::OutputByte => (
            "%QB",
            80,
            advice!("the number behind the dot of {0} is at most {2}";
                "levels are 0 to 63 of short addresses, 64 to 79 of the groups 0 to 15, and\n\
                    80 of all gear";
                "%QB{1}.9"),
        ),
        AddressKind::InputWord => (
            "%IW",
            255,
            advice!("the number behind the dot of {0} is at most {2}";
                "answers are 0 to 63 of gear and 64 to 127 of devices, information 128 to\n\
                    191 and counts 192 to 255 of the sources 0 to 63";
                "%IW{1}.128"),
        ),
        AddressKind::InputBit => (
            "%IX",
            63,
            advice!("the number behind the dot of {0} is at most {2}";
                "triggers are 0 to 63, as the sources of the binding";
                "%IX{1}.63"),
        ),
    }
}

/// What is said of a store to an input of the buses with a name and an address.
pub(crate) fn said_of_input(name: Slot, address: DirectAddress) -> Said {
    let (facts, least) = match (address.kind, address.place) {
        (AddressKind::InputBit, _) => ("{0} is the trigger of the source {1}\n", 0),
        (_, 0..=63) => ("{0} is the answer of the control gear {1}\n", 0),
        (_, 64..=127) => ("{0} is the answer of the control device {1}\n", 64),
        (_, 128..=191) => ("{0} is the information of the source {1}\n", 128),
        _ => ("{0} is the count of the source {1}\n", 192),
    };
    let source = Slot::Source(address.bus, address.place.saturating_sub(least));
    Said::of(advice!("a store to an input of the buses";
        "the buses alone write an input: store to another variable";
        "ST lamp"))
    .with_facts(facts, 0)
    .with_slots([name, source, Slot::Nothing])
}
