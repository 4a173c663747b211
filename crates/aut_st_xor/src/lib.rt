// st_xor of aut.rs, of stored lists. The result stands at RESULT; the two differences wait at FIRST and SECOND.
#![tactic(auto)]

ghost use Rattle.netkat_steps.specs.ListSteps as St;
ghost use Rattle.aut_st_steps.specs.Operations.{ops};
ghost use Rattle.aut_st_steps.specs.Edges.{edges};
ghost use Rattle.aut_states.specs.Clauses.{limits_of};
ghost use Rattle.aut_relations.specs.Lent.{Keeps};
ghost use Rattle.aut_st_insert.specs.Clauses.{GoesList};
ghost use Rattle.aut_st_xor.specs.Asked.{StoredAsked};

use aut_relations::Aut;
use aut_st_insert::{FIRST, SECOND};
use aut_st_source::Span;
use aut_states::Config;
use refusal::Refusal;

pub fn st_xor(aut: &mut Aut, config: Config, first: Span, second: Span) -> Result<usize, Refusal>
    requires { StoredAsked config aut.old first.start first.count second.start second.count }
    ensures keeps { Keeps aut.old aut.new }
    ensures gives { GoesList config (St.st_xor (ops config.fields (limits_of config.limits))
        (edges aut.old.transitions.words.now first.start first.count)
        (edges aut.old.transitions.words.now second.start second.count)) aut.old result aut.new }
{
    let x = first.source();
    let y = second.source();
    let n = aut_st_ops::st_difference(aut, config, x, y)?;
    let left = aut_st_source::set_aside(aut.scratch, n, FIRST);
    let m = aut_st_ops::st_difference(aut, config, y, x)?;
    let right = aut_st_source::set_aside(aut.scratch, m, SECOND);
    aut_st_ops::st_union(aut, config, left, right)
}
