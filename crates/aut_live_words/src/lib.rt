// How live_packets of aut.rs stands in words while sets are worked out: word WORK of a state is its set + 1, or 0 if it is not reached. Entry i of the pending table: its second word is the
// i-th state reached, its first word the i-th of the states to be looked at, the last on top.
#![tactic(auto)]

ghost use Rattle.std.specs.Prelude.{◌≡◌, ◌+◌, ◌*◌, ◌/◌, ◌<◌, length, get_or};
ghost use Rattle.aut_query_steps.specs.Search as M;
ghost use Rattle.aut_sets.specs.Lent.{OnlyMarks};
ghost use Rattle.aut_live_words.specs.Work.{seconds, copy_words, Reaches, Enlarges};
ghost use Rattle.aut_live_words.specs.Clauses.{PreReach, PreEnqueue, PostEnqueue, PreLabel, PostLabel, PreEnlarge, PreKeep, PreCopy, PostClear};

pub use aut_query_calls::{find_set, put_set, set_at};
use aut_relations::Aut;
use aut_states::{Config, STATE, States, word};
use sp::SP;
use spp::SPP;

// the state reached of this entry
pub fn state_at(aut: &Aut, entry: usize) -> u32
    requires { 2 * entry + 1 < length aut.now.pending.now }
    ensures { result ≡ get_or aut.now.pending.now (2 * entry + 1) 0 }
{
    aut.pending[2 * entry + 1]
}

// y goes behind the n states, unless it is there; how many there are then, or None if no entry is left
pub fn reach(aut: &mut Aut, config: Config, n: usize, y: u32) -> Option<usize>
    requires { PreReach config.fields aut.old.states.words.now aut.old.pending.now n y }
    ensures keeps { OnlyMarks aut.old aut.new }
    ensures gives { Reaches config.fields (M.capacity (length aut.old.pending.now / 2)) n y
        aut.old.states.words.now aut.old.pending.now result aut.new.states.words.now
        aut.new.pending.now }
{
    if find_set(aut, y, word::WORK).is_some() {
        return Some(n);
    }
    if n < aut_query_calls::capacity(aut.pending.len()) {
        let zero = sp::zero_at_depth(config.fields);
        put_set(aut, y, word::WORK, zero);
        aut.pending[2 * n] = y;
        aut.pending[2 * n + 1] = y;
        return Some(n + 1);
    }
    None
}

// each target of x's stored list goes behind the n states
pub fn enqueue(aut: &mut Aut, config: Config, n: usize, x: u32) -> Option<usize>
    requires { PreEnqueue config.fields aut.old.states.words.now
        aut.old.transitions.words.now aut.old.pending.now n x }
    ensures keeps { OnlyMarks aut.old aut.new }
    ensures gives { PostEnqueue config.fields n x result aut.old.states.words.now
        aut.old.transitions.words.now aut.old.pending.now aut.new.states.words.now
        aut.new.pending.now }
{
    let list = aut_st_source::stored_list(aut, x);
    let mut n = n;
    for i in 0..list.count {
        let t = list.get(aut, i);
        n = reach(aut, config, n, t.target)?;
    }
    Some(n)
}

// the label of s's transition to t, if there is one
pub fn label_to(aut: &Aut, t: u32, s: u32) -> Option<SPP>
    requires { PreLabel aut.now.states.words.now aut.now.transitions.words.now s }
    ensures { PostLabel aut.now.states.words.now aut.now.transitions.words.now t s result }
{
    let list = aut_st_source::stored_list(aut, s);
    let i = aut_st_edges::seek_target(list.words(&aut.transitions), t)?;
    Some(list.get(aut, i).label)
}

// where the set of s grew, s is looked at again; how many wait then, or None if no entry is left
#[tactic(auto, unfolding(crate::specs::Work::work_of))]
pub fn enlarge(aut: &mut Aut, m: usize, s: u32, combined: SP) -> Option<usize>
    requires { PreEnlarge aut.old.states.words.now aut.old.pending.now m s combined.0 }
    ensures keeps { OnlyMarks aut.old aut.new }
    ensures gives { Enlarges (M.capacity (length aut.old.pending.now / 2)) m s combined.0
        aut.old.states.words.now aut.old.pending.now result aut.new.states.words.now
        aut.new.pending.now }
{
    if combined == set_at(aut, s, word::WORK) {
        return Some(m);
    }
    if m < aut_query_calls::capacity(aut.pending.len()) {
        put_set(aut, s, word::WORK, combined);
        aut.pending[2 * m] = s;
        return Some(m + 1);
    }
    None
}

// copy_sets on the two tables. `words` is lent before the loop, which would else load the field again for every state.
fn copy_in(states: &mut States, pending: &mut [u32], n: usize, from: usize, to: usize)
    requires { PreCopy states.old.words.now pending.old n from to }
    ensures count { states.new.count ≡ states.old.count }
    ensures lent { states.new.words.ghost_name ≡ states.old.words.ghost_name }
    ensures length { length states.new.words.now ≡ length states.old.words.now }
    ensures pending { pending.new ≡ pending.old }
    ensures gives { states.new.words.now ≡
        copy_words from to (seconds pending.old 0 n) states.old.words.now }
{
    let words = &mut states.words[..];
    for i in 0..n {
        let at = STATE * (pending[2 * i + 1] as usize);
        words[at + to] = words[at + from];
    }
}

// word `to` of the n states gets their word `from`
pub fn copy_sets(aut: &mut Aut, n: usize, from: usize, to: usize)
    requires { PreCopy aut.old.states.words.now aut.old.pending.now n from to }
    ensures keeps { OnlyMarks aut.old aut.new }
    ensures pending { aut.new.pending ≡ aut.old.pending }
    ensures gives { aut.new.states.words.now ≡
        copy_words from to (seconds aut.old.pending.now 0 n) aut.old.states.words.now }
{
    copy_in(&mut aut.states, aut.pending, n, from, to);
}

// the sets of the n states are kept
pub fn keep(aut: &mut Aut, n: usize)
    requires { PreKeep aut.old.states.words.now aut.old.pending.now n }
    ensures keeps { OnlyMarks aut.old aut.new }
    ensures pending { aut.new.pending ≡ aut.old.pending }
    ensures gives { aut.new.states.words.now ≡
        copy_words 9 7 (seconds aut.old.pending.now 0 n) aut.old.states.words.now }
{
    copy_sets(aut, n, word::WORK, word::LIVE);
}

// words WORK and the n entries are zero again
pub fn clear(aut: &mut Aut, n: usize)
    requires { PreKeep aut.old.states.words.now aut.old.pending.now n }
    ensures keeps { OnlyMarks aut.old aut.new }
    ensures gives { PostClear n aut.old.states.words.now aut.old.pending.now
        aut.new.states.words.now aut.new.pending.now }
{
    for i in 0..n {
        let at = STATE * state_at(aut, i) as usize + word::WORK;
        aut.states.words[at] = 0;
        aut.pending[2 * i + 1] = 0;
    }
}
