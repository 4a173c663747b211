// How a search stands in words, as aut.rs keeps it in a stack and a map: entry i of the pending table is words 2i and 2i + 1, a state and a packet set; the set seen at a state stands in its
// word SEEN, as handle + 1.
#![tactic(auto)]

ghost use Rattle.std.specs.Prelude.{◌≡◌, ◌+◌, ◌*◌, ◌≤◌, ◌<◌, length};
ghost use Rattle.aut_sets.specs.Lent.{OnlyMarks};
ghost use Rattle.aut_empty_words.specs.Words.{seen_in, Puts, Rested, Emptied};

use aut_relations::Aut;
use aut_states::{Config, STATE, word};
use sp::SP;

// packets at a state
#[derive(Clone, Copy)]
pub struct Entry {
    pub state: u32,
    pub packets: SP,
}

// the packets seen at a state
pub fn seen_at(aut: &Aut, config: Config, x: u32) -> SP
    requires { (12 * x + 11 < length aut.now.states.words.now) × (config.fields ≤ 31) }
    ensures { result.0 ≡ seen_in config.fields aut.now.states.words.now x }
{
    let zero = sp::zero_at_depth(config.fields);
    aut_query_calls::find_set(aut, x, word::SEEN).unwrap_or(zero)
}

// one more pending entry: n + 1, or None if no entry is left
pub fn put(aut: &mut Aut, n: usize, e: Entry) -> Option<usize>
    ensures keeps { OnlyMarks aut.old aut.new }
    ensures states { aut.new.states ≡ aut.old.states }
    ensures gives { Puts result aut.old.pending.now n e.state e.packets.0 aut.new.pending.now }
{
    if n >= aut_query_calls::capacity(aut.pending.len()) {
        return None;
    }
    aut.pending[2 * n] = e.state;
    aut.pending[2 * n + 1] = e.packets.0;
    Some(n + 1)
}

// no state has seen packets
pub fn clear_seen(aut: &mut Aut)
    requires { 12 * aut.old.states.count ≤ length aut.old.states.words.now }
    ensures keeps { OnlyMarks aut.old aut.new }
    ensures pending { aut.new.pending ≡ aut.old.pending }
    ensures gives { Rested aut.old.states.words.now aut.old.states.count aut.new.states.words.now }
{
    for i in 0..aut.states.count {
        aut.states.words[STATE * i + word::SEEN] = 0;
    }
}

// the first n pending entries go
pub fn clear_pending(aut: &mut Aut, n: usize)
    requires { 2 * n ≤ length aut.old.pending.now }
    ensures keeps { OnlyMarks aut.old aut.new }
    ensures states { aut.new.states ≡ aut.old.states }
    ensures gives { Emptied aut.old.pending.now n aut.new.pending.now }
{
    aut.pending[0..2 * n].fill(0);
}
