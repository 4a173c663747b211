// live_packets of aut.rs: the sets of the states reached are pulled back along transitions until none grows.
#![tactic(auto)]

ghost use Rattle.aut_sets.specs.Lent.{OnlySearch};
ghost use Rattle.aut_live_pull.specs.Clauses.{PullAsked, PullsFrom, TargetAsked, PullsAll, SettleAsked, Settles};

use aut_live_words::{enlarge, label_to, set_at, state_at};
use aut_relations::Aut;
use aut_states::{Config, word};
use refusal::Refusal;

// s as a predecessor of t, if its list leads there; how many wait in the list then
fn pull_from(aut: &mut Aut, config: Config, t: u32, s: u32, m: usize) -> Result<usize, Refusal>
    requires { PullAsked config aut.old t s m }
    ensures keeps { OnlySearch aut.old aut.new }
    ensures gives { PullsFrom config t s m aut.old result aut.new }
{
    let Some(label) = label_to(aut, t, s) else {
        return Ok(m);
    };
    let ahead = set_at(aut, t, word::WORK);
    let accepted = aut_sets::pull(aut, config, label, ahead)?;
    let here = set_at(aut, s, word::WORK);
    let combined = aut_sets::union(aut, config, here, accepted)?;
    enlarge(aut, m, s, combined).ok_or(Refusal::Pending)
}

// the predecessors of t among the n states, in the order of their visits
fn pull_all(aut: &mut Aut, config: Config, t: u32, n: usize, m: usize) -> Result<usize, Refusal>
    requires { TargetAsked config aut.old n m t }
    ensures keeps { OnlySearch aut.old aut.new }
    ensures gives { PullsAll config t n m aut.old result aut.new }
{
    let mut m = m;
    for i in 0..n {
        let s = state_at(aut, i);
        m = pull_from(aut, config, t, s, m)?;
    }
    Ok(m)
}

// until no state is left to be looked at
pub fn settle(aut: &mut Aut, config: Config, n: usize) -> Result<(), Refusal>
    requires { SettleAsked config aut.old n }
    ensures keeps { OnlySearch aut.old aut.new }
    ensures gives { Settles config n aut.old result aut.new }
{
    let mut m = n;
    while m > 0 {
        let at = 2 * (m - 1);
        let t = aut.pending[at];
        aut.pending[at] = 0;
        m = pull_all(aut, config, t, n, m - 1)?;
    }
    Ok(())
}
