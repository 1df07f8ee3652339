// Matrix Market texts (document 02, wish 2), `array integer`, `general` or `symmetric`: the format as definitions, and the laws of its reader and its writer
// together. The code stands in `market_reader` and `market_writer`.

#![tactic(auto)]

// The bytes that the writer is lent.
pub const PAGE: usize = 20480;
