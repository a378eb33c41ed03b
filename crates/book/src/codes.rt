// The codes of the parts of a body.

// What ends a run, and the commands.
pub const STOP: u8 = 0x00;

pub const ASSIGN: u8 = 0x01;

pub const BRANCH: u8 = 0x02;

pub const LOOP: u8 = 0x03;

// The closing commands: a return, and an if whose parts close too.
pub const GIVE: u8 = 0x04;

pub const PICK: u8 = 0x05;

// The expressions.
pub const CONSTANT: u8 = 0x10;

pub const VARIABLE: u8 = 0x11;

pub const OPERATION: u8 = 0x12;

pub const CALL: u8 = 0x13;
