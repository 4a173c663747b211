// live_packets of aut.rs: the start packets of a state's strings.
#![tactic(auto)]

ghost use Rattle.std.specs.Prelude.{◌*◌, ◌/◌, length, OnOk};
ghost use Rattle.aut_query_steps.specs.Live as M;
ghost use Rattle.aut_query_stage.specs.Layer.{Zeroed};
ghost use Rattle.aut_query_stage.specs.Lent.{tables_in, QueryAsked, GoesQuery};
ghost use Rattle.aut_states.specs.Clauses.{limits_of};
ghost use Rattle.aut_sets.specs.Lent.{SameLent};
ghost use Rattle.aut_query_calls.specs.Working.{SetIn};
ghost use Rattle.aut_live.specs.Clauses.{END, SetsAt};

use aut_live_words::{find_set, set_at};
use aut_relations::Aut;
use aut_states::{Config, word};
use refusal::Refusal;
use sp::SP;

// worked out as with none stored: how many states are reached; they stand in the pending table, their sets in words WORK
pub fn live_sets(aut: &mut Aut, config: Config, x: u32) -> Result<usize, Refusal>
    requires { QueryAsked config aut.old x }
    ensures keeps { SameLent aut.old aut.new }
    ensures gives { SetsAt config x aut.old result aut.new }
{
    aut_live_words::reach(aut, config, 0, x).ok_or(Refusal::Pending)?;
    let n = aut_live_reach::explore(aut, config)?;
    aut_live_pull::settle(aut, config, n)?;
    Ok(n)
}

pub fn live_packets(aut: &mut Aut, config: Config, x: u32) -> Result<SP, Refusal>
    requires { QueryAsked config aut.old x }
    ensures keeps { SameLent aut.old aut.new }
    ensures pending { OnOk result (Zeroed aut.new.pending.now) }
    ensures gives { GoesQuery config 0 (2 * END) tables_in (SetIn config.fields) (λ h. h.0)
        (M.live_packets config.fields (limits_of config.limits)
        (length aut.old.pending.now / 2) x) aut.old result aut.new }
{
    if let Some(live) = find_set(aut, x, word::LIVE) {
        return Ok(live);
    }
    let n = live_sets(aut, config, x)?;
    let live = set_at(aut, x, word::WORK);
    aut_live_words::keep(aut, n);
    aut_live_words::clear(aut, n);
    Ok(live)
}
