// The letters by which a pack names its operands; `c` is read as `e`. They are numbers, since they stand in a
// pack's columns, where any number can stand.
pub const N: u32 = 110;

pub const I: u32 = 105;

pub const F: u32 = 102;

pub const T: u32 = 116;

pub const V: u32 = 118;

pub const W: u32 = 119;
