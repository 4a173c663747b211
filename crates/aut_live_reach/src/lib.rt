// live_packets of aut.rs: the states reached from one, each with the packets that end a string there.
#![tactic(auto)]

ghost use Rattle.aut_sets.specs.Lent.{SameLent};
ghost use Rattle.aut_live_reach.specs.Clauses.{VisitAsked, Visits, ExploreAsked, Explores};

use aut_relations::Aut;
use aut_states::{Config, word};
use refusal::Refusal;

// the state of entry `head`: its set, its list, and the targets of that
fn visit(aut: &mut Aut, config: Config, head: usize, n: usize) -> Result<usize, Refusal>
    requires { VisitAsked config aut.old head n }
    ensures keeps { SameLent aut.old aut.new }
    ensures gives { Visits config head n aut.old result aut.new }
{
    let x = aut_live_words::state_at(aut, head);
    let e = aut_epsilon::epsilon(aut, config, x)?;
    let ends = aut_sets::bwd(aut, config, e)?;
    aut_live_words::put_set(aut, x, word::WORK, ends);
    aut_delta::delta(aut, config, x)?;
    aut_live_words::enqueue(aut, config, n, x).ok_or(Refusal::Pending)
}

// all states reached from the one there is
pub fn explore(aut: &mut Aut, config: Config) -> Result<usize, Refusal>
    requires { ExploreAsked config aut.old }
    ensures keeps { SameLent aut.old aut.new }
    ensures gives { Explores config aut.old result aut.new }
{
    let mut n = 1;
    let mut head = 0;
    while head < n {
        n = visit(aut, config, head, n)?;
        head += 1;
    }
    Ok(n)
}
