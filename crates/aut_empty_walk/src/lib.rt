// A pair of is_empty of aut.rs: its fresh packets along the transitions of its state, onto the pending table.
#![tactic(auto)]

ghost use Rattle.std.specs.Prelude.{◌≡◌};
ghost use Rattle.aut_sets.specs.Lent.{OnlySearch, SameLent};
ghost use Rattle.aut_empty_walk.specs.Clauses.{FollowAsked, Follows, WalkAsked, WalksAll, SpreadAsked, Spreads};

use aut_empty_words::Entry;
use aut_relations::Aut;
use aut_st_edges::Transition;
use aut_states::Config;
use refusal::Refusal;
use sp::SP;

// the fresh packets along a transition
fn follow(
    aut: &mut Aut,
    config: Config,
    n: usize,
    fresh: SP,
    t: Transition,
) -> Result<usize, Refusal>
    requires { FollowAsked config aut.old n fresh.0 t.target t.label.0 }
    ensures keeps { OnlySearch aut.old aut.new }
    ensures states { aut.new.states ≡ aut.old.states }
    ensures gives { Follows config n fresh.0 t.target t.label.0 aut.old result aut.new }
{
    let next = aut_sets::push(aut, config, fresh, t.label)?;
    if sp::is_zero(config.fields, next) {
        return Ok(n);
    }
    let e = Entry {
        state: t.target,
        packets: next,
    };
    aut_empty_words::put(aut, n, e).ok_or(Refusal::Pending)
}

// the fresh packets along the stored list of their state
fn walk(aut: &mut Aut, config: Config, n: usize, fresh: Entry) -> Result<usize, Refusal>
    requires { WalkAsked config aut.old n fresh.state fresh.packets.0 }
    ensures keeps { OnlySearch aut.old aut.new }
    ensures states { aut.new.states ≡ aut.old.states }
    ensures gives { WalksAll config n fresh.state fresh.packets.0 aut.old result aut.new }
{
    let list = aut_st_source::stored_list(aut, fresh.state);
    let mut m = n;
    for j in 0..list.count {
        let t = list.get(aut, j);
        m = follow(aut, config, m, fresh.packets, t)?;
    }
    Ok(m)
}

// the list of their state is worked out and walked
pub fn spread(aut: &mut Aut, config: Config, n: usize, fresh: Entry) -> Result<usize, Refusal>
    requires { SpreadAsked config aut.old n fresh.state fresh.packets.0 }
    ensures keeps { SameLent aut.old aut.new }
    ensures gives { Spreads config n fresh.state fresh.packets.0 aut.old result aut.new }
{
    aut_delta::delta(aut, config, fresh.state)?;
    walk(aut, config, n, fresh)
}
