// Words of a state while `why` runs, zero between queries: sets (+ 1) of the round before, of the round under work, of a round that is kept; and 1 where the last round changed the
// set. The first two are the words in which other searches work.
pub const BEFORE: usize = aut_states::word::SEEN;

pub const UNDER: usize = aut_states::word::WORK;

pub const KEPT: usize = 10;

pub const MOVED: usize = 11;
