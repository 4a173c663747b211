// The lists of delta (aut.rs) by kind, from stored lists of its operands, and the list operations that only they call. The result stands at RESULT.
#![tactic(auto)]

ghost use Rattle.std.specs.Prelude.{◌≡◌};
ghost use Rattle.netkat_steps.specs.ListSteps as St;
ghost use Rattle.aut_steps.specs.Relations.{top_at};
ghost use Rattle.aut_st_steps.specs.Operations.{ops};
ghost use Rattle.aut_st_steps.specs.Edges.{edges, EdgeAt};
ghost use Rattle.aut_st_steps.specs.ListSpec.{State, Label};
ghost use Rattle.aut_delta_steps.specs.Delta as Delta;
ghost use Rattle.aut_states.specs.Clauses.{limits_of};
ghost use Rattle.aut_relations.specs.Lent.{aut_in, Keeps};
ghost use Rattle.aut_st_edges.specs.Clauses.{edge_of};
ghost use Rattle.aut_st_insert.specs.Clauses.{GoesInsert, GoesList};
ghost use Rattle.aut_st_source.specs.Clauses.{source_of};
ghost use Rattle.aut_st_each.specs.Asked.{OneAsked};
ghost use Rattle.aut_delta_lists.specs.Asked.{SequenceAsked, StarAsked, UntilAsked, AloneAsked, GoesAlone, Anything};

use aut_relations::Aut;
use aut_st_each::Each;
use aut_st_edges::Transition;
use aut_st_insert::{FIRST, RESULT, SECOND};
pub use aut_st_ops::st_difference;
use aut_st_source::{Source, Span};
pub use aut_st_xor::st_xor;
use aut_states::Config;
use refusal::Refusal;
use spp::SPP;

// ---- list operations

// each target followed by the state e
#[tactic(auto, unfolding(netkat_steps::specs::ListSteps::st_postcompose, aut_st_steps::specs::Edges::edges))]
pub fn st_postcompose(
    aut: &mut Aut,
    config: Config,
    source: Source,
    e: u32,
) -> Result<usize, Refusal>
    requires { OneAsked config aut.old source × State (aut_in aut.old) e }
    ensures keeps { Keeps aut.old aut.new }
    ensures gives { GoesInsert config (St.st_postcompose (ops config.fields (limits_of config.limits))
        (source_of source aut.old.transitions.words.now aut.old.scratch.now) e)
        aut.old result aut.new }
{
    aut_st_each::insert_each(aut, config, Each::Sequence(e), source, 0)
}

// each label behind the relation l
#[tactic(auto, unfolding(netkat_steps::specs::ListSteps::st_precompose, aut_st_steps::specs::Edges::edges))]
pub fn st_precompose(
    aut: &mut Aut,
    config: Config,
    l: SPP,
    source: Source,
) -> Result<usize, Refusal>
    requires { OneAsked config aut.old source × Label config.fields (aut_in aut.old) l.0 }
    ensures keeps { Keeps aut.old aut.new }
    ensures gives { GoesInsert config (St.st_precompose (ops config.fields (limits_of config.limits)) l.0
        (source_of source aut.old.transitions.words.now aut.old.scratch.now))
        aut.old result aut.new }
{
    aut_st_each::insert_each(aut, config, Each::After(l), source, 0)
}

// each target met with the state e
#[tactic(auto, unfolding(netkat_steps::specs::ListSteps::st_intersect_expr, aut_st_steps::specs::Edges::edges))]
pub fn st_intersect_expr(
    aut: &mut Aut,
    config: Config,
    source: Source,
    e: u32,
) -> Result<usize, Refusal>
    requires { OneAsked config aut.old source × State (aut_in aut.old) e }
    ensures keeps { Keeps aut.old aut.new }
    ensures gives { GoesInsert config (St.st_intersect_expr (ops config.fields (limits_of config.limits))
        (source_of source aut.old.transitions.words.now aut.old.scratch.now) e)
        aut.old result aut.new }
{
    aut_st_each::insert_each(aut, config, Each::Intersect(e), source, 0)
}

// the transition t alone; none where its label is zero, or its target the zero state, which is interned for that
pub fn st_singleton(aut: &mut Aut, config: Config, t: Transition) -> Result<usize, Refusal>
    requires { AloneAsked config aut.old }
    ensures keeps { Keeps aut.old aut.new }
    ensures spp { aut.new.spp ≡ aut.old.spp }
    ensures members { aut.new.members ≡ aut.old.members }
    ensures gives { GoesAlone config (λ σ. EdgeAt config.fields σ (edge_of t))
        (St.st_singleton (ops config.fields (limits_of config.limits)) t.label.0 t.target)
        aut.old result aut.new }
{
    let zero = config.zero();
    if t.label == zero {
        return Ok(0);
    }
    let z = aut.states.mk_spp(zero)?;
    if t.target == z {
        return Ok(0);
    }
    aut_st_edges::put(aut.scratch, RESULT, t);
    Ok(1)
}

// ---- lists by kind

// of a Sequence, whose second operand is y and whose first has the epsilon eps
pub fn sequence_list(
    aut: &mut Aut,
    config: Config,
    y: u32,
    eps: SPP,
    first: Span,
    second: Span,
) -> Result<usize, Refusal>
    requires { SequenceAsked config aut.old y eps.0 first second }
    ensures keeps { Keeps aut.old aut.new }
    ensures gives { GoesList config (Delta.sequence_list config.fields (limits_of config.limits) y eps.0
        (edges aut.old.transitions.words.now first.start first.count)
        (edges aut.old.transitions.words.now second.start second.count)) aut.old result aut.new }
{
    let n = st_postcompose(aut, config, first.source(), y)?;
    let late = aut_st_source::set_aside(aut.scratch, n, FIRST);
    let m = st_precompose(aut, config, eps, second.source())?;
    let early = aut_st_source::set_aside(aut.scratch, m, SECOND);
    aut_st_ops::st_union(aut, config, late, early)
}

// of the Star x; eps is the star of its operand's epsilon
pub fn star_list(
    aut: &mut Aut,
    config: Config,
    x: u32,
    eps: SPP,
    list: Span,
) -> Result<usize, Refusal>
    requires { StarAsked config aut.old x eps.0 list }
    ensures keeps { Keeps aut.old aut.new }
    ensures gives { GoesList config (Delta.star_list config.fields (limits_of config.limits) x eps.0
        (edges aut.old.transitions.words.now list.start list.count)) aut.old result aut.new }
{
    let n = st_postcompose(aut, config, list.source(), x)?;
    let late = aut_st_source::set_aside(aut.scratch, n, FIRST);
    st_precompose(aut, config, eps, late)
}

// of the LtlUntil of a and b
pub fn until_list(
    aut: &mut Aut,
    config: Config,
    a: u32,
    b: u32,
    first: Span,
    second: Span,
) -> Result<usize, Refusal>
    requires { UntilAsked config aut.old a b first second }
    ensures keeps { Keeps aut.old aut.new }
    ensures gives { GoesList config (Delta.until_list config.fields (limits_of config.limits) a b
        (edges aut.old.transitions.words.now first.start first.count)
        (edges aut.old.transitions.words.now second.start second.count)) aut.old result aut.new }
{
    let u = aut.states.mk_until(config.limits, a, b)?;
    let n = st_intersect_expr(aut, config, first.source(), u)?;
    let met = aut_st_source::set_aside(aut.scratch, n, FIRST);
    aut_st_ops::st_union(aut, config, second.source(), met)
}

pub fn dup_list(aut: &mut Aut, config: Config) -> Result<usize, Refusal>
    requires { AloneAsked config aut.old }
    ensures keeps { Keeps aut.old aut.new }
    ensures spp { aut.new.spp ≡ aut.old.spp }
    ensures members { aut.new.members ≡ aut.old.members }
    ensures gives { GoesAlone config Anything (Delta.dup_list config.fields (limits_of config.limits)) aut.old result aut.new }
{
    let label = config.one();
    let target = aut.states.mk_spp(label)?;
    st_singleton(aut, config, Transition { target, label })
}

// of the LtlNext of a
pub fn next_list(aut: &mut Aut, config: Config, a: u32) -> Result<usize, Refusal>
    requires { AloneAsked config aut.old }
    ensures keeps { Keeps aut.old aut.new }
    ensures spp { aut.new.spp ≡ aut.old.spp }
    ensures members { aut.new.members ≡ aut.old.members }
    ensures gives { GoesAlone config (λ σ. State σ a)
        (St.st_singleton (ops config.fields (limits_of config.limits)) (top_at config.fields) a)
        aut.old result aut.new }
{
    let label = config.top();
    st_singleton(aut, config, Transition { target: a, label })
}

pub fn top_list(aut: &mut Aut, config: Config) -> Result<usize, Refusal>
    requires { AloneAsked config aut.old }
    ensures keeps { Keeps aut.old aut.new }
    ensures spp { aut.new.spp ≡ aut.old.spp }
    ensures members { aut.new.members ≡ aut.old.members }
    ensures gives { GoesAlone config Anything (Delta.top_list config.fields (limits_of config.limits)) aut.old result aut.new }
{
    let target = aut.states.mk_top()?;
    let label = config.top();
    st_singleton(aut, config, Transition { target, label })
}
