// st_union, st_intersect and st_difference of aut.rs. The result stands at RESULT.
#![tactic(auto)]

ghost use Rattle.netkat_steps.specs.ListSteps as St;
ghost use Rattle.aut_st_steps.specs.Operations.{ops};
ghost use Rattle.aut_states.specs.Clauses.{limits_of};
ghost use Rattle.aut_relations.specs.Lent.{Keeps};
ghost use Rattle.aut_st_insert.specs.Clauses.{GoesInsert};
ghost use Rattle.aut_st_source.specs.Clauses.{source_of};
ghost use Rattle.aut_st_ops.specs.Asked.{TwoAsked};

use aut_relations::Aut;
use aut_st_each::Each;
use aut_st_insert::Met;
use aut_st_source::Source;
use aut_states::Config;
use refusal::Refusal;

pub fn st_union(
    aut: &mut Aut,
    config: Config,
    first: Source,
    second: Source,
) -> Result<usize, Refusal>
    requires { TwoAsked config aut.old first second }
    ensures keeps { Keeps aut.old aut.new }
    ensures gives { GoesInsert config (St.st_union (ops config.fields (limits_of config.limits))
        (source_of first aut.old.transitions.words.now aut.old.scratch.now)
        (source_of second aut.old.transitions.words.now aut.old.scratch.now)) aut.old result aut.new }
{
    let n = aut_st_each::insert_each(aut, config, Each::Same, first, 0)?;
    aut_st_each::insert_each(aut, config, Each::Same, second, n)
}

#[tactic(auto, unfolding(netkat_steps::specs::ListSteps::st_intersect, aut_st_steps::specs::Edges::edges))]
pub fn st_intersect(
    aut: &mut Aut,
    config: Config,
    first: Source,
    second: Source,
) -> Result<usize, Refusal>
    requires { TwoAsked config aut.old first second }
    ensures keeps { Keeps aut.old aut.new }
    ensures gives { GoesInsert config (St.st_intersect (ops config.fields (limits_of config.limits))
        (source_of first aut.old.transitions.words.now aut.old.scratch.now)
        (source_of second aut.old.transitions.words.now aut.old.scratch.now)) aut.old result aut.new }
{
    aut_st_each::insert_pairs(aut, config, first, second, 0)
}

pub fn st_difference(
    aut: &mut Aut,
    config: Config,
    first: Source,
    second: Source,
) -> Result<usize, Refusal>
    requires { TwoAsked config aut.old first second }
    ensures keeps { Keeps aut.old aut.new }
    ensures gives { GoesInsert config (St.st_difference (ops config.fields (limits_of config.limits))
        (source_of first aut.old.transitions.words.now aut.old.scratch.now)
        (source_of second aut.old.transitions.words.now aut.old.scratch.now)) aut.old result aut.new }
{
    let sum = config.zero();
    let met = aut_st_minus::subtract_rows(aut, config, first, second, Met { sum, count: 0 })?;
    aut_st_each::insert_each(aut, config, Each::Rest(met.sum), first, met.count)
}
