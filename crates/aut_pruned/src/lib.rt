// delta_pruned of aut.rs: a state's transitions, each cut to packets that lead somewhere. The list stands in scratch, at record RESULT of st.
#![tactic(auto)]

ghost use Rattle.std.specs.Prelude.{OnOk};
ghost use Rattle.aut_query_steps.specs.Pruned as M;
ghost use Rattle.aut_query_stage.specs.Layer.{Zeroed};
ghost use Rattle.aut_query_stage.specs.Lent.{tables_in, QueryAsked, GoesQuery};
ghost use Rattle.aut_relations.specs.Lent.{KeepsExprs};
ghost use Rattle.aut_st_edges.specs.Clauses.{edge_of};
ghost use Rattle.aut_sets.specs.Lent.{OnlyScratch, SameLent};
ghost use Rattle.aut_query_calls.specs.Working.{RelIn};
ghost use Rattle.aut_pruned.specs.Clauses.{Prunes, PrunesAll, ViableAsked, PreKeep, PostKeep, PruneAsked};

pub use aut_live::live_packets;
use aut_relations::Aut;
use aut_st_edges::Transition;
use aut_states::{Config, word};
use refusal::Refusal;
use spp::{Op, SPP};

// the label cut, by the live set of its target
fn viable(aut: &mut Aut, config: Config, t: Transition) -> Result<SPP, Refusal>
    requires { ViableAsked config aut.old t.target t.label.0 }
    ensures keeps { KeepsExprs aut.old aut.new }
    ensures gives { GoesQuery config 0 0 tables_in (RelIn config.fields) (λ h. h.0)
        (M.viable config.fields (edge_of t)) aut.old result aut.new }
{
    let live = aut_live_words::set_at(aut, t.target, word::LIVE);
    let allowed = aut_sets::ifwd(aut, config, live)?;
    aut.apply(config, Op::Intersect, t.label, allowed)
}

// a transition behind the m at RESULT, unless its label is empty
fn keep(aut: &mut Aut, config: Config, m: usize, t: Transition) -> usize
    requires { PreKeep config.fields aut.old.scratch.now m }
    ensures keeps { OnlyScratch aut.old aut.new }
    ensures kept { PostKeep config.fields m t.target t.label.0 result aut.old.scratch.now
        aut.new.scratch.now }
{
    if spp::is_zero(config.fields, t.label) {
        return m;
    }
    aut_st_edges::put(aut.scratch, aut_st_insert::RESULT + m, t);
    m + 1
}

// the stored list of x, cut
fn prune(aut: &mut Aut, config: Config, x: u32) -> Result<usize, Refusal>
    requires { PruneAsked config aut.old x }
    ensures keeps { KeepsExprs aut.old aut.new }
    ensures gives { PrunesAll config x aut.old result aut.new }
{
    let list = aut_st_source::stored_list(aut, x);
    let mut m = 0;
    for i in 0..list.count {
        let t = list.get(aut, i);
        let label = viable(aut, config, t)?;
        m = keep(aut, config, m, Transition { label, ..t });
    }
    Ok(m)
}

pub fn delta_pruned(aut: &mut Aut, config: Config, x: u32) -> Result<usize, Refusal>
    requires { QueryAsked config aut.old x }
    ensures keeps { SameLent aut.old aut.new }
    ensures pending { OnOk result (Zeroed aut.new.pending.now) }
    ensures gives { Prunes config x aut.old result aut.new }
{
    aut_live::live_packets(aut, config, x)?;
    aut_delta::delta(aut, config, x)?;
    prune(aut, config, x)
}
