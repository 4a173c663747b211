// The kinds of states, in AExpr's order.
pub const SPP: u32 = 1;

pub const UNION: u32 = 2;

pub const INTERSECT: u32 = 3;

pub const XOR: u32 = 4;

pub const DIFFERENCE: u32 = 5;

pub const COMPLEMENT: u32 = 6;

pub const SEQUENCE: u32 = 7;

pub const STAR: u32 = 8;

pub const DUP: u32 = 9;

pub const NEXT: u32 = 10;

pub const UNTIL: u32 = 11;

pub const TOP: u32 = 12;
