// st_insert of aut.rs: a transition goes into a list so that labels to distinct targets stay disjoint.
//
// The map of scratch behind the constructors' lists, by number of the record (two words), each with room for 64 transitions:
//     RESULT    the list in hand
//     TAKEN     the list that it was, while an insertion makes the new one
//     FIRST, SECOND   lists that an insertion leaves
#![tactic(auto)]

ghost use Rattle.std.specs.Prelude.{◌≡◌, [], ◌+◌, ◌*◌, ◌≤◌, ◌<◌, length, get_or};
ghost use Rattle.netkat_steps.specs.ListSteps as St;
ghost use Rattle.netkat_steps.specs.ListSteps.{edge};
ghost use Rattle.aut_steps.specs.Relations.{zero_at};
ghost use Rattle.aut_st_steps.specs.Operations.{ops};
ghost use Rattle.aut_st_steps.specs.Edges.{edges, EdgeAt};
ghost use Rattle.aut_st_steps.specs.ListSpec.{ListAt, Label};
ghost use Rattle.aut_st_steps.specs.InsertSteps as M;
ghost use Rattle.aut_st_steps.specs.InsertSteps.{part, PartAt};
ghost use Rattle.aut_states.specs.Clauses.{limits_of};
ghost use Rattle.aut_relations.specs.Lent.{aut_in, Keeps, KeepsExprs};
ghost use Rattle.aut_stage.specs.OnLent.{Goes};
ghost use Rattle.aut_st_edges.specs.Clauses.{edge_of, Finds};
ghost use Rattle.aut_st_insert.specs.Clauses as Seen;
ghost use Rattle.aut_st_insert.specs.Clauses.{list_in, part_in, GoesInsert};
ghost use Rattle.aut_st_insert.specs.Asked.{ListAsked, PlaceAsked, RestAsked, MeetAsked, WalkAsked};

use aut_relations::Aut;
use aut_st_edges::Transition;
use aut_states::Config;
use refusal::Refusal;
use spp::{Op, SPP};

pub const RESULT: usize = 288;

const TAKEN: usize = 352;

pub const FIRST: usize = 416;

pub const SECOND: usize = 480;

// labels met, united, and how many transitions stand at RESULT
#[derive(Clone, Copy)]
pub struct Met {
    pub sum: SPP,
    pub count: usize,
}

// where the first of the m at RESULT to s is
fn place_of(aut: &Aut, s: u32, m: usize) -> Option<usize>
    requires { 2 * (Seen.RESULT + m) ≤ length aut.now.scratch.now }
    ensures { Finds s (list_in aut.now m) result }
{
    aut_st_edges::seek_target(&aut.scratch[2 * RESULT..2 * (RESULT + m)], s)
}

// t's label is united with that of the transition to its target, or t goes in as a new one
#[tactic(auto, using(crate::proofs::Placing::lt, crate::proofs::Placing::few, crate::proofs::Placing::room))]
fn place_in(aut: &mut Aut, config: Config, t: Transition, m: usize) -> Result<usize, Refusal>
    requires { PlaceAsked config aut.old m (edge_of t) }
    ensures keeps { KeepsExprs aut.old aut.new }
    ensures gives { Goes config (2 * Seen.RESULT) 128 (ListAt config.fields (limits_of config.limits))
        (list_in aut.new)
        (M.place_in config.fields (limits_of config.limits) t.target t.label.0 (list_in aut.old m)) aut.old result
        aut.new }
{
    if let Some(i) = place_of(aut, t.target, m) {
        let j = 2 * (RESULT + i) + 1;
        let g = SPP(aut.scratch[j]);
        let u = aut.apply(config, Op::Union, g, t.label)?;
        aut.scratch[j] = u.0;
        return Ok(m);
    }
    if m >= config.limits.transitions {
        return Err(Refusal::TransitionList);
    }
    aut_st_edges::enter(aut.scratch, RESULT, m, t);
    Ok(m + 1)
}

// t goes in, unless its label is zero or its target the zero state
fn st_insert_helper(
    aut: &mut Aut,
    config: Config,
    t: Transition,
    m: usize,
) -> Result<usize, Refusal>
    requires { PlaceAsked config aut.old m (edge_of t) }
    ensures keeps { Keeps aut.old aut.new }
    ensures members { aut.new.members ≡ aut.old.members }
    ensures gives { Goes config (2 * Seen.RESULT) 128 (ListAt config.fields (limits_of config.limits))
        (list_in aut.new)
        (St.place (ops config.fields (limits_of config.limits)) t.target t.label.0 (list_in aut.old m)) aut.old
        result aut.new }
{
    let zero = config.zero();
    if t.label == zero {
        return Ok(m);
    }
    let z = aut.states.mk_spp(zero)?;
    if t.target == z {
        return Ok(m);
    }
    place_in(aut, config, t, m)
}

// what u meets t in goes to the union of the targets
fn meet_in(
    aut: &mut Aut,
    config: Config,
    t: Transition,
    u: Transition,
    m: usize,
) -> Result<Met, Refusal>
    requires { MeetAsked config aut.old m (edge_of t) (edge_of u) }
    ensures keeps { Keeps aut.old aut.new }
    ensures gives { Goes config 192 512 (PartAt config.fields (limits_of config.limits))
        (part_in aut.new)
        (M.meet_in config.fields (limits_of config.limits) t.target t.label.0 (edge_of u)
        (list_in aut.old m)) aut.old result aut.new }
{
    let label = aut.apply(config, Op::Intersect, t.label, u.label)?;
    let target = aut_union::mk_union(aut, config, t.target, u.target)?;
    let count = st_insert_helper(aut, config, Transition { target, label }, m)?;
    Ok(Met { sum: label, count })
}

// its rest stays with u's target
fn rest_in(
    aut: &mut Aut,
    config: Config,
    total: SPP,
    met: Met,
    u: Transition,
) -> Result<Met, Refusal>
    requires { RestAsked config aut.old met.count total.0 met.sum.0 (edge_of u) }
    ensures keeps { Keeps aut.old aut.new }
    ensures members { aut.new.members ≡ aut.old.members }
    ensures gives { Goes config (2 * Seen.RESULT) 128 (PartAt config.fields (limits_of config.limits))
        (part_in aut.new)
        (M.rest_in config.fields (limits_of config.limits) total.0 met.sum.0 (edge_of u)
        (list_in aut.old met.count)) aut.old result aut.new }
{
    let sum = aut.apply(config, Op::Union, total, met.sum)?;
    let label = aut.apply(config, Op::Difference, u.label, met.sum)?;
    let count = st_insert_helper(aut, config, Transition { label, ..u }, met.count)?;
    Ok(Met { sum, count })
}

// one transition of the list
fn split_one(
    aut: &mut Aut,
    config: Config,
    t: Transition,
    u: Transition,
    met: Met,
) -> Result<Met, Refusal>
    requires { MeetAsked config aut.old met.count (edge_of t) (edge_of u) ×
        Label config.fields (aut_in aut.old) met.sum.0 }
    ensures keeps { Keeps aut.old aut.new }
    ensures gives { Goes config 192 512 (PartAt config.fields (limits_of config.limits))
        (part_in aut.new)
        (M.split_one config.fields (limits_of config.limits) t.target t.label.0 (edge_of u)
        (part_in aut.old met)) aut.old result aut.new }
{
    let one = meet_in(aut, config, t, u, met.count)?;
    rest_in(aut, config, met.sum, one, u)
}

// transition i at TAKEN
fn taken(aut: &Aut, i: usize) -> Transition
    requires { 2 * (Seen.TAKEN + i) + 1 < length aut.now.scratch.now }
    ensures { edge_of result ≡ edge (get_or aut.now.scratch.now (2 * (Seen.TAKEN + i)) 0)
        (get_or aut.now.scratch.now (2 * (Seen.TAKEN + i) + 1) 0) }
{
    aut_st_edges::entry(aut.scratch, TAKEN + i)
}

// the m transitions at TAKEN, one after the other; the new list begins empty
fn walk(aut: &mut Aut, config: Config, t: Transition, m: usize) -> Result<Met, Refusal>
    requires { WalkAsked config aut.old m (edge_of t) }
    ensures keeps { Keeps aut.old aut.new }
    ensures gives { Goes config 192 512 (PartAt config.fields (limits_of config.limits))
        (part_in aut.new)
        (M.walk config.fields (limits_of config.limits) t.target t.label.0 (edges aut.old.scratch.now Seen.TAKEN m)
        (part (zero_at config.fields) [])) aut.old result aut.new }
{
    let sum = config.zero();
    let mut met = Met { sum, count: 0 };
    for i in 0..m {
        let u = taken(aut, i);
        met = split_one(aut, config, t, u, met)?;
    }
    Ok(met)
}

// t goes into the m at RESULT
pub fn st_insert(aut: &mut Aut, config: Config, t: Transition, m: usize) -> Result<usize, Refusal>
    requires { ListAsked config aut.old m × EdgeAt config.fields (aut_in aut.old) (edge_of t) }
    ensures keeps { Keeps aut.old aut.new }
    ensures gives { GoesInsert config (St.insert (ops config.fields (limits_of config.limits)) t.target t.label.0 (list_in aut.old m)) aut.old
        result aut.new }
{
    aut_st_edges::copy(aut.scratch, RESULT, m, TAKEN);
    let met = walk(aut, config, t, m)?;
    let label = aut.apply(config, Op::Difference, t.label, met.sum)?;
    st_insert_helper(aut, config, Transition { label, ..t }, met.count)
}
