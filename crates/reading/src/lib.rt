// How a line may be read. What it is then answered with is said in specs/; the code is in crates scanning and line.
#![tactic(auto)]

// What a reading takes in the ACK slot. [12.18]
#[derive(Clone, Copy, PartialEq, Eq, Debug)]
pub enum AckSlot {
    // 0: somebody heard the frame.
    Acknowledged,
    // 0 or 1: our own maker leaves a 1.
    Either,
}

// What a reading asks of a line beside the rules that hold for every line. [12.18]
#[derive(Clone, Copy, PartialEq, Eq, Debug)]
pub struct Reading {
    pub slot: AckSlot,
}

// How a line from a live bus is read.
pub const ACKNOWLEDGED: Reading = Reading {
    slot: AckSlot::Acknowledged,
};

// How one of our own maker is.
pub const OWN: Reading = Reading {
    slot: AckSlot::Either,
};
