// How the rounds of `why` stand in words of the states reached (`word`); these are the second words of the pending entries.
#![tactic(auto)]

pub mod word;

ghost use Rattle.std.specs.Prelude.{◌≡◌, ◌+◌, ◌*◌, ◌<◌, length};
ghost use Rattle.std.specs.Int.{from_bool};
ghost use Rattle.aut_delta_steps.specs.Epsilon.{value_of};
ghost use Rattle.aut_delta_steps.specs.EpsilonDown.{Known};
ghost use Rattle.aut_sets.specs.Lent.{OnlyMarks};
ghost use Rattle.aut_live_words.specs.Work.{seconds};
ghost use Rattle.aut_live_words.specs.Clauses.{PreKeep};
ghost use Rattle.aut_why_words.specs.Words.{same_words, moved_at, PostClear};

pub use aut_live_words::copy_sets;
use aut_relations::Aut;
use aut_states::STATE;
use spp::SPP;

// the epsilon of x, which is worked out
pub fn epsilon_at(aut: &Aut, x: u32) -> SPP
    requires { (12 * x + 11 < length aut.now.states.words.now) × Known aut.now.states.words.now x }
    ensures { value_of aut.now.states.words.now x ≡ result.0 }
{
    aut_epsilon::value(&aut.states, x)
}

// whether the set of x differs in the round under work
pub fn moved(aut: &Aut, x: u32) -> bool
    requires { 12 * x + 11 < length aut.now.states.words.now }
    ensures { from_bool result ≡ moved_at aut.now.states.words.now x }
{
    aut.states.word(x, word::BEFORE) != aut.states.word(x, word::UNDER)
}

// whether the sets in words BEFORE and UNDER of the n states are equal
pub fn same_sets(aut: &Aut, n: usize) -> bool
    requires { PreKeep aut.now.states.words.now aut.now.pending.now n }
    ensures { same_words (seconds aut.now.pending.now 0 n) aut.now.states.words.now ≡ result }
{
    (0..n).all(|i| !moved(aut, aut_live_words::state_at(aut, i)))
}

// words BEFORE to MOVED of the n states and the n entries are zero again
pub fn clear(aut: &mut Aut, n: usize)
    requires { PreKeep aut.old.states.words.now aut.old.pending.now n }
    ensures keeps { OnlyMarks aut.old aut.new }
    ensures gives { PostClear n aut.old.states.words.now aut.old.pending.now
        aut.new.states.words.now aut.new.pending.now }
{
    for i in 0..n {
        let at = STATE * (aut_live_words::state_at(aut, i) as usize);
        aut.states.words[at + word::BEFORE] = 0;
        aut.states.words[at + word::UNDER] = 0;
        aut.states.words[at + word::KEPT] = 0;
        aut.states.words[at + word::MOVED] = 0;
        aut.pending[2 * i + 1] = 0;
    }
}
