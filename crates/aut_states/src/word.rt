// 01, "Lent tables": the words of a state.
pub const KIND: usize = 0;

pub const FIRST: usize = 1;

pub const SECOND: usize = 2;

pub const NESTING: usize = 3;

pub const EPSILON: usize = 4;

pub const START: usize = 5;

pub const COUNT: usize = 6;

pub const LIVE: usize = 7;

// zero between queries: the packets seen at the state while a search runs
pub const SEEN: usize = 8;

// .. and its live set while live sets are worked out
pub const WORK: usize = 9;
