//! The blocks that rows compress.

/// The input of a row's compression: the chaining value, the message, the two halves of the counter, the length of the
/// block and the flags.
#[derive(Clone, Copy, Drop)]
pub struct InputBlock {
    pub chaining: [u32; 8],
    pub message: [u32; 16],
    pub counter_low: u32,
    pub counter_high: u32,
    pub length: u32,
    pub flags: u32,
}

/// The block whose words are all zero.
pub const ZERO_BLOCK: InputBlock = InputBlock {
    chaining: [0; 8],
    message: [0; 16],
    counter_low: 0,
    counter_high: 0,
    length: 0,
    flags: 0,
};
