// An earlier round of `why` is worked out again, which makes no node: the sets that a hop is picked from. The words of the states are those of aut_why_words.
#![tactic(auto)]

ghost use Rattle.std.specs.Prelude.{◌≡◌, ◌<◌};
ghost use Rattle.aut_sets.specs.Lent.{OnlySearch};
ghost use Rattle.aut_why_again.specs.Clauses.{PreTurnAgain, PostTurnAgain, PreStart, PostStart, PreTurns, PostTurns, PreForward, PostForward, PreRemake, PostRemake, PreSetsFor, PostFromMark, PostSetsFor};

use aut_relations::Aut;
use aut_states::Config;
use aut_why_words::word;

// the rounds over n states: words KEPT have round `mark`, to go on from; an earlier one is made again up to a number that `step` divides
#[derive(Clone, Copy)]
pub struct Rounds {
    pub n: usize,
    pub step: usize,
    pub mark: usize,
    pub ghost some: { 0 < step },
}

// round 0; its sets stand, so it is not refused
fn start(aut: &mut Aut, config: Config, n: usize)
    requires { PreStart config aut.old n }
    ensures keeps { OnlySearch aut.old aut.new }
    ensures pending { aut.new.pending ≡ aut.old.pending }
    ensures gives { PostStart config n aut.old aut.new }
{
    aut_why_rounds::round(aut, config, true, n).unwrap();
    aut_why_marks::restore(aut, n, word::UNDER);
}

// the set of s in the next round, which stands, so it is not refused; where no target's set changed it stays
fn turn_again(aut: &mut Aut, config: Config, s: u32)
    requires { PreTurnAgain config aut.old s }
    ensures keeps { OnlySearch aut.old aut.new }
    ensures pending { aut.new.pending ≡ aut.old.pending }
    ensures gives { PostTurnAgain config s aut.old aut.new }
{
    let h = if aut_why_marks::changed(aut, s) {
        aut_why_rounds::turn(aut, config, s).unwrap()
    } else {
        aut_live_words::set_at(aut, s, word::BEFORE)
    };
    aut_live_words::put_set(aut, s, word::UNDER, h);
}

// the next round, in words UNDER
fn turns(aut: &mut Aut, config: Config, n: usize)
    requires { PreTurns config aut.old n }
    ensures keeps { OnlySearch aut.old aut.new }
    ensures pending { aut.new.pending ≡ aut.old.pending }
    ensures gives { PostTurns config n aut.old aut.new }
{
    for i in 0..n {
        let s = aut_live_words::state_at(aut, i);
        turn_again(aut, config, s);
    }
}

// from round `from` to round `to`
fn forward(aut: &mut Aut, config: Config, n: usize, from: usize, to: usize)
    requires { PreForward config aut.old n from to }
    ensures keeps { OnlySearch aut.old aut.new }
    ensures pending { aut.new.pending ≡ aut.old.pending }
    ensures gives { PostForward config n from to aut.old aut.new }
{
    for _ in from..to {
        turns(aut, config, n);
        aut_why_marks::renew(aut, n);
    }
}

// round k is kept
fn remake(aut: &mut Aut, config: Config, n: usize, k: usize)
    requires { PreRemake config aut.old n k }
    ensures keeps { OnlySearch aut.old aut.new }
    ensures pending { aut.new.pending ≡ aut.old.pending }
    ensures gives { PostRemake config n k aut.old aut.new }
{
    start(aut, config, n);
    forward(aut, config, n, 0, k);
    aut_why_words::copy_sets(aut, n, word::BEFORE, word::KEPT);
}

// a round up to j that is kept: the one that was, or the last one whose number `step` divides
fn from_mark(aut: &mut Aut, config: Config, rounds: Rounds, j: usize) -> usize
    requires { PreSetsFor config aut.old rounds.n j rounds.mark }
    ensures keeps { OnlySearch aut.old aut.new }
    ensures pending { aut.new.pending ≡ aut.old.pending }
    ensures gives { PostFromMark config rounds.n j rounds.mark aut.old result aut.new }
{
    if j < rounds.mark {
        let k = j - j % rounds.step;
        remake(aut, config, rounds.n, k);
        return k;
    }
    aut_why_marks::restore(aut, rounds.n, word::KEPT);
    rounds.mark
}

// Words BEFORE of the states get round j. The rounds are given back with the one that words KEPT have now.
pub fn sets_for(aut: &mut Aut, config: Config, rounds: Rounds, j: usize) -> Rounds
    requires { PreSetsFor config aut.old rounds.n j rounds.mark }
    ensures keeps { OnlySearch aut.old aut.new }
    ensures pending { aut.new.pending ≡ aut.old.pending }
    ensures same { result.n ≡ rounds.n }
    ensures gives { PostSetsFor config rounds.n j rounds.mark aut.old result.mark aut.new }
{
    let k = from_mark(aut, config, rounds, j);
    forward(aut, config, rounds.n, k, j);
    Rounds {
        n: rounds.n,
        step: rounds.step,
        mark: k,
    }
}
