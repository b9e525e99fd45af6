// The frame of an identifier and a payload on the wire. What it is, and what is answered about it, is said in specs/; the code is in
// crate frame.
#![tactic(auto)]

// An identifier: the form of the frames that it goes into, and its number. [4.1]
#[derive(Clone, Copy, PartialEq, Eq, Debug)]
pub enum Identifier {
    // Up to 2047, in 11 bits.
    Base(u32),
    // Up to 536,870,911, in 29 bits.
    Long(u32),
}

// The two bounds of a frame's length. [7.4]
#[derive(Clone, Copy, PartialEq, Eq, Debug)]
pub struct Bounds {
    pub least: usize,
    pub most: usize,
}
