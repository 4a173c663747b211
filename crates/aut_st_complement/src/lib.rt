// st_complement of aut.rs. The result stands at RESULT.
#![tactic(auto)]

ghost use Rattle.netkat_steps.specs.ListSteps as St;
ghost use Rattle.aut_steps.specs.Relations.{zero_at};
ghost use Rattle.aut_st_steps.specs.Operations.{ops};
ghost use Rattle.aut_st_steps.specs.ListSpec.{Label};
ghost use Rattle.aut_states.specs.Clauses.{limits_of};
ghost use Rattle.aut_relations.specs.Lent.{Keeps, KeepsExprs};
ghost use Rattle.aut_stage.specs.OnLent.{Goes};
ghost use Rattle.aut_st_insert.specs.Clauses.{GoesInsert};
ghost use Rattle.aut_st_source.specs.Clauses.{source_of};
ghost use Rattle.aut_st_each.specs.Asked.{OneAsked};

use aut_relations::Aut;
use aut_st_each::Each;
use aut_st_edges::Transition;
use aut_st_source::Source;
use aut_states::Config;
use refusal::Refusal;
use spp::{Op, SPP};

// the union of the labels
fn cover_all(aut: &mut Aut, config: Config, source: Source) -> Result<SPP, Refusal>
    requires { OneAsked config aut.old source }
    ensures keeps { KeepsExprs aut.old aut.new }
    ensures gives { Goes config 0 0 (Label config.fields) (λ h. h.0)
        (St.cover_all (ops config.fields (limits_of config.limits))
        (source_of source aut.old.transitions.words.now aut.old.scratch.now)
        (zero_at config.fields)) aut.old result aut.new }
{
    let mut sum = config.zero();
    for i in 0..source.length {
        let t = source.get(aut, i);
        sum = aut.apply(config, Op::Union, sum, t.label)?;
    }
    Ok(sum)
}

// what no label has goes to Top
pub fn st_complement(aut: &mut Aut, config: Config, source: Source) -> Result<usize, Refusal>
    requires { OneAsked config aut.old source }
    ensures keeps { Keeps aut.old aut.new }
    ensures gives { GoesInsert config (St.st_complement (ops config.fields (limits_of config.limits))
        (source_of source aut.old.transitions.words.now aut.old.scratch.now)) aut.old result aut.new }
{
    let n = aut_st_each::insert_each(aut, config, Each::Complement, source, 0)?;
    let sum = cover_all(aut, config, source)?;
    let label = aut.apply(config, Op::Not, sum, sum)?;
    let target = aut.states.mk_top()?;
    aut_st_insert::st_insert(aut, config, Transition { target, label }, n)
}
