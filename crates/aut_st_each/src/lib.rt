// Loops over transition lists of aut.rs: something is made of each transition, and inserted into the list at RESULT.
#![tactic(auto)]

ghost use Rattle.std.specs.Prelude.{◌*◌};
ghost use Rattle.netkat_steps.specs.ListSteps as St;
ghost use Rattle.aut_st_steps.specs.Operations.{ops};
ghost use Rattle.aut_st_steps.specs.Edges.{EdgeAt};
ghost use Rattle.aut_st_steps.specs.EachSteps as M;
ghost use Rattle.aut_states.specs.Clauses.{limits_of};
ghost use Rattle.aut_relations.specs.Lent.{Keeps};
ghost use Rattle.aut_stage.specs.OnLent.{Goes};
ghost use Rattle.aut_st_insert.specs.Clauses.{RESULT, list_in, GoesInsert};
ghost use Rattle.aut_st_insert.specs.Asked.{ListAsked};
ghost use Rattle.aut_st_edges.specs.Clauses.{edge_of};
ghost use Rattle.aut_st_source.specs.Clauses.{source_of};
ghost use Rattle.aut_st_each.specs.Clauses.{each_of};
ghost use Rattle.aut_st_each.specs.Asked.{MakeAsked, EachAsked, PairsAsked};

use aut_relations::Aut;
use aut_sequence::Task;
use aut_st_edges::Transition;
use aut_st_source::Source;
use aut_states::Config;
use refusal::Refusal;
use spp::{Op, SPP};

// what is made of a transition
#[derive(Clone, Copy)]
pub enum Each {
    Same,
    Sequence(u32),
    After(SPP),
    Intersect(u32),
    Complement,
    Rest(SPP),
    Meet(Transition),
}

// met with u: the target is made before the label
fn meet_of(
    aut: &mut Aut,
    config: Config,
    u: Transition,
    t: Transition,
) -> Result<Transition, Refusal>
    requires { MakeAsked config aut.old (M.meet (edge_of u)) (edge_of t) }
    ensures keeps { Keeps aut.old aut.new }
    ensures gives { Goes config 0 (2 * RESULT) (EdgeAt config.fields) edge_of
        (M.made config.fields (limits_of config.limits) (M.meet (edge_of u)) (edge_of t))
        aut.old result aut.new }
{
    let target = aut_intersect::mk_intersect(aut, config, u.target, t.target)?;
    let label = aut.apply(config, Op::Intersect, u.label, t.label)?;
    Ok(Transition { target, label })
}

fn make_edge(
    aut: &mut Aut,
    config: Config,
    each: Each,
    t: Transition,
) -> Result<Transition, Refusal>
    requires { MakeAsked config aut.old (each_of each) (edge_of t) }
    ensures keeps { Keeps aut.old aut.new }
    ensures gives { Goes config 0 (2 * RESULT) (EdgeAt config.fields) edge_of
        (M.made config.fields (limits_of config.limits) (each_of each) (edge_of t)) aut.old result
        aut.new }
{
    match each {
        Each::Same => Ok(t),
        Each::Sequence(x) => {
            let target = aut_sequence::mk_sequence(aut, config, t.target, x)?;
            Ok(Transition { target, ..t })
        }
        Each::After(l) => {
            let label = aut_sequence::relate(aut, config, Task::Sequence, l, t.label)?;
            Ok(Transition { label, ..t })
        }
        Each::Intersect(x) => {
            let target = aut_intersect::mk_intersect(aut, config, t.target, x)?;
            Ok(Transition { target, ..t })
        }
        Each::Complement => {
            let target = aut.states.mk_complement(config, t.target)?;
            Ok(Transition { target, ..t })
        }
        Each::Rest(l) => {
            let label = aut.apply(config, Op::Difference, t.label, l)?;
            Ok(Transition { label, ..t })
        }
        Each::Meet(u) => meet_of(aut, config, u, t),
    }
}

// made and inserted
fn insert_made(
    aut: &mut Aut,
    config: Config,
    each: Each,
    t: Transition,
    m: usize,
) -> Result<usize, Refusal>
    requires { ListAsked config aut.old m × MakeAsked config aut.old (each_of each) (edge_of t) }
    ensures keeps { Keeps aut.old aut.new }
    ensures gives { GoesInsert config (M.insert_made config.fields (limits_of config.limits) (each_of each) (edge_of t)
        (list_in aut.old m)) aut.old result aut.new }
{
    let new = make_edge(aut, config, each, t)?;
    aut_st_insert::st_insert(aut, config, new, m)
}

// for each transition of the source, into the m at RESULT
pub fn insert_each(
    aut: &mut Aut,
    config: Config,
    each: Each,
    source: Source,
    m: usize,
) -> Result<usize, Refusal>
    requires { EachAsked config aut.old (each_of each) source m }
    ensures keeps { Keeps aut.old aut.new }
    ensures gives { GoesInsert config (St.insert_each (ops config.fields (limits_of config.limits))
        (M.made config.fields (limits_of config.limits) (each_of each))
        (source_of source aut.old.transitions.words.now aut.old.scratch.now)
        (list_in aut.old m)) aut.old result aut.new }
{
    let mut n = m;
    for i in 0..source.length {
        let t = source.get(aut, i);
        n = insert_made(aut, config, each, t, n)?;
    }
    Ok(n)
}

// st_intersect: each of the first source met with each of the second
pub fn insert_pairs(
    aut: &mut Aut,
    config: Config,
    first: Source,
    second: Source,
    m: usize,
) -> Result<usize, Refusal>
    requires { PairsAsked config aut.old first second m }
    ensures keeps { Keeps aut.old aut.new }
    ensures gives { GoesInsert config (St.insert_pairs (ops config.fields (limits_of config.limits))
        (St.meet_of (ops config.fields (limits_of config.limits)))
        (source_of first aut.old.transitions.words.now aut.old.scratch.now)
        (source_of second aut.old.transitions.words.now aut.old.scratch.now)
        (list_in aut.old m)) aut.old result aut.new }
{
    let mut n = m;
    for i in 0..first.length {
        let t = first.get(aut, i);
        n = insert_each(aut, config, Each::Meet(t), second, n)?;
    }
    Ok(n)
}
