// Words BEFORE to MOVED of the states that `why` works on. The states are the second words of n pending entries.
#![tactic(auto)]

ghost use Rattle.std.specs.Prelude.{◌≡◌};
ghost use Rattle.aut_sets.specs.Lent.{OnlyMarks};
ghost use Rattle.aut_live_words.specs.Work.{seconds};
ghost use Rattle.aut_live_words.specs.Clauses.{PreKeep};
ghost use Rattle.aut_why_words.specs.Words.{moved_at};
ghost use Rattle.aut_why_marks.specs.Columns.{Fills};
ghost use Rattle.aut_why_marks.specs.Clauses.{PreFill, Renews, PreRestore, Restores, PreChanged, PostChanged};

use aut_relations::Aut;
use aut_states::{STATE, States};
use aut_why_words::word;

// words w of the n states are v
fn fill(aut: &mut Aut, n: usize, w: usize, v: u32)
    requires { PreFill aut.old.states.words.now aut.old.pending.now n w }
    ensures keeps { OnlyMarks aut.old aut.new }
    ensures pending { aut.new.pending ≡ aut.old.pending }
    ensures gives { Fills w (λ x. v) (seconds aut.old.pending.now 0 n) aut.old.states.words.now
        aut.new.states.words.now }
{
    for i in 0..n {
        let x = aut_live_words::state_at(aut, i);
        aut.states.words[STATE * (x as usize) + w] = v;
    }
}

// Words MOVED of the n states are 1 where words BEFORE and UNDER differ. `words` is lent before the loop, which would else load the field again for every state.
fn differ(states: &mut States, pending: &mut [u32], n: usize)
    requires { PreKeep states.old.words.now pending.old n }
    ensures count { states.new.count ≡ states.old.count }
    ensures lent { states.new.words.ghost_name ≡ states.old.words.ghost_name }
    ensures pending { pending.new ≡ pending.old }
    ensures gives { Fills 11 (λ x. moved_at states.old.words.now x) (seconds pending.old 0 n)
        states.old.words.now states.new.words.now }
{
    let words = &mut states.words[..];
    for i in 0..n {
        let at = STATE * (pending[2 * i + 1] as usize);
        words[at + word::MOVED] = u32::from(words[at + word::BEFORE] != words[at + word::UNDER]);
    }
}

// the round under work is done: all states are compared before any is written, so that a state may stand twice
pub fn renew(aut: &mut Aut, n: usize)
    requires { PreKeep aut.old.states.words.now aut.old.pending.now n }
    ensures keeps { OnlyMarks aut.old aut.new }
    ensures pending { aut.new.pending ≡ aut.old.pending }
    ensures gives { Renews (seconds aut.old.pending.now 0 n) aut.old.states.words.now
        aut.new.states.words.now }
{
    differ(&mut aut.states, aut.pending, n);
    aut_why_words::copy_sets(aut, n, word::UNDER, word::BEFORE);
}

// the round in words `from` is gone on from
pub fn restore(aut: &mut Aut, n: usize, from: usize)
    requires { PreRestore aut.old.states.words.now aut.old.pending.now n from }
    ensures keeps { OnlyMarks aut.old aut.new }
    ensures pending { aut.new.pending ≡ aut.old.pending }
    ensures gives { Restores from (seconds aut.old.pending.now 0 n) aut.old.states.words.now
        aut.new.states.words.now }
{
    aut_why_words::copy_sets(aut, n, from, word::BEFORE);
    fill(aut, n, word::MOVED, 1);
}

// whether the set of a target of x changed in the last round
pub fn changed(aut: &Aut, x: u32) -> bool
    requires { PreChanged aut.now.states.words.now aut.now.transitions.words.now x }
    ensures { PostChanged aut.now.states.words.now aut.now.transitions.words.now x result }
{
    let list = aut_st_source::stored_list(aut, x);
    let words = &aut.transitions.words[..];
    (list.start..list.start + list.count).any(|i| aut
        .states
        .word(aut_st_edges::entry(words, i).target, word::MOVED)
        > 0)
}
