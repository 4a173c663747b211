// st_difference of aut.rs: where the labels of two lists meet, the difference of the targets; and the union of these labels.
#![tactic(auto)]

ghost use Rattle.netkat_steps.specs.ListSteps as St;
ghost use Rattle.aut_st_steps.specs.Operations.{ops};
ghost use Rattle.aut_st_steps.specs.EachSteps as M;
ghost use Rattle.aut_states.specs.Clauses.{limits_of};
ghost use Rattle.aut_relations.specs.Lent.{Keeps};
ghost use Rattle.aut_st_edges.specs.Clauses.{edge_of};
ghost use Rattle.aut_st_source.specs.Clauses.{source_of};
ghost use Rattle.aut_st_minus.specs.Clauses.{OneAsked, RowAsked, RowsAsked, sum_in, GoesSum};

use aut_relations::Aut;
use aut_st_edges::Transition;
use aut_st_insert::Met;
use aut_st_source::Source;
use aut_states::Config;
use refusal::Refusal;
use spp::Op;

// st_difference: the difference of t and u, where their labels meet
fn subtract_one(
    aut: &mut Aut,
    config: Config,
    t: Transition,
    u: Transition,
    met: Met,
) -> Result<Met, Refusal>
    requires { OneAsked config aut.old (edge_of t) (edge_of u) met.sum.0 met.count }
    ensures keeps { Keeps aut.old aut.new }
    ensures gives { GoesSum config (M.subtract_one config.fields (limits_of config.limits) (edge_of t) (edge_of u) (sum_in aut.old met))
        aut.old result aut.new }
{
    let target = aut_sequence::mk_difference(aut, config, t.target, u.target)?;
    let label = aut.apply(config, Op::Intersect, t.label, u.label)?;
    let sum = aut.apply(config, Op::Union, met.sum, label)?;
    let count = aut_st_insert::st_insert(aut, config, Transition { target, label }, met.count)?;
    Ok(Met { sum, count })
}

fn subtract_row(
    aut: &mut Aut,
    config: Config,
    t: Transition,
    second: Source,
    met: Met,
) -> Result<Met, Refusal>
    requires { RowAsked config aut.old (edge_of t) second met.sum.0 met.count }
    ensures keeps { Keeps aut.old aut.new }
    ensures gives { GoesSum config (St.subtract_row (ops config.fields (limits_of config.limits)) (edge_of t)
        (source_of second aut.old.transitions.words.now aut.old.scratch.now) (sum_in aut.old met))
        aut.old result aut.new }
{
    let mut met = met;
    for i in 0..second.length {
        let u = second.get(aut, i);
        met = subtract_one(aut, config, t, u, met)?;
    }
    Ok(met)
}

pub fn subtract_rows(
    aut: &mut Aut,
    config: Config,
    first: Source,
    second: Source,
    met: Met,
) -> Result<Met, Refusal>
    requires { RowsAsked config aut.old first second met.sum.0 met.count }
    ensures keeps { Keeps aut.old aut.new }
    ensures gives { GoesSum config (St.subtract_rows (ops config.fields (limits_of config.limits))
        (source_of first aut.old.transitions.words.now aut.old.scratch.now)
        (source_of second aut.old.transitions.words.now aut.old.scratch.now) (sum_in aut.old met))
        aut.old result aut.new }
{
    let mut met = met;
    for i in 0..first.length {
        let t = first.get(aut, i);
        met = subtract_row(aut, config, t, second, met)?;
    }
    Ok(met)
}
