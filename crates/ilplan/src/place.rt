//! Places in a store.

/// What an instruction names, by numbers of variables, block instances, ports and functions.
#[derive(Clone, Copy)]
pub enum Place {
    /// The variable in the slot of this number.
    Slot(usize),
    /// A port of the block instance of this number.
    Port { block: u16, port: u8 },
    /// The block instance of this number, which is called.
    Block(u16),
    /// The function of this number in the plan, which is called.
    Function(u8),
}
