// What the queries share: the capacity of the pending table, and a packet set in a word of a state, as its handle + 1; and, with no code, the calls that a query makes, as calls of its layer
// (specs/, proofs/).
#![tactic(auto)]

ghost use Rattle.std.specs.Prelude.{◌≡◌, ◌+◌, ◌*◌, ◌-◌, ◌/◌, ◌<◌, length, get_or, set};
ghost use Rattle.aut_query_steps.specs.Search as M;
ghost use Rattle.aut_sets.specs.Lent.{OnlyMarks};
ghost use Rattle.aut_query_calls.specs.Working.{FoundSet};

use aut_relations::Aut;
use aut_states::STATE;
use sp::SP;

// 01, "Lent tables": at most 2^24 records
const ENTRIES: usize = 16777216;

// the entries of a pending table of so many words
pub fn capacity(words: usize) -> usize
    ensures { result ≡ M.capacity (words / 2) }
{
    (words / 2).min(ENTRIES)
}

// the set that word w of state x holds
pub fn set_at(aut: &Aut, x: u32, w: usize) -> SP
    requires { (12 * x + w < length aut.now.states.words.now) ×
        (0 < get_or aut.now.states.words.now (12 * x + w) 0) }
    ensures { result.0 ≡ get_or aut.now.states.words.now (12 * x + w) 0 - 1 }
{
    SP(aut.states.word(x, w) - 1)
}

// the set that word w of state x holds, if it holds one
pub fn find_set(aut: &Aut, x: u32, w: usize) -> Option<SP>
    requires { 12 * x + w < length aut.now.states.words.now }
    ensures { FoundSet (get_or aut.now.states.words.now (12 * x + w) 0) result }
{
    aut.states.word(x, w).checked_sub(1).map(SP)
}

// word w of state x gets the set s
pub fn put_set(aut: &mut Aut, x: u32, w: usize, s: SP)
    requires { (12 * x + w < length aut.old.states.words.now) × (s.0 + 1 < 4294967296) }
    ensures keeps { OnlyMarks aut.old aut.new }
    ensures pending { aut.new.pending ≡ aut.old.pending }
    ensures gives { aut.new.states.words.now ≡
        set aut.old.states.words.now (12 * x + w) (s.0 + 1) }
{
    aut.states.words[STATE * x as usize + w] = s.0 + 1;
}
