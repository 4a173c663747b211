// mk_intersect_n_base of aut.rs. A list is k words of scratch (the map of scratch is aut_scratch's).
#![tactic(auto)]

ghost use Rattle.std.specs.Prelude.{◌≡◌, false, List, [], ℕ, ◌+◌, ◌-◌, ◌≤◌};
ghost use Rattle.slices.specs.Same.{SameSlice};
ghost use Rattle.aut_steps.specs.Tables.{words};
ghost use Rattle.aut_steps.specs.Relations.{top_at};
ghost use Rattle.aut_steps.specs.Constructors as C;
ghost use Rattle.aut_steps.specs.Constructors.{each, met};
ghost use Rattle.aut_states.specs.Clauses.{limits_of, states_of, seen, Fits};
ghost use Rattle.aut_relations.specs.Lent.{nodes_in, aut_in, Keeps, KeepsExprs, Does, Asked};
ghost use Rattle.aut_union.specs.Clauses.{Most, UniteReady, UnitesReady, ListAt, some_of, handle_of, met_of};
ghost use Rattle.aut_intersect_base.specs.Clauses.{met_at, nothing_of, alone_of, list_of, FinishReady, Finishes};

use aut_relations::Aut;
use aut_scratch::{BASE, FREE, OTHERS, SORTED};
use aut_states::{Config, States};
use refusal::Refusal;
use spp::{Op, SPP};

// the relation, if there is one, and how many other members there are
#[derive(Clone, Copy)]
pub struct Met {
    pub relation: Option<SPP>,
    pub others: usize,
}

// with no relation so far it is the top
fn relation_of(config: Config, relation: Option<SPP>) -> SPP
    requires { config.fields ≤ 31 }
    ensures { handle_of config.fields relation ≡ result.0 }
{
    relation.unwrap_or(config.top())
}

// Top goes; x is intersected with the relation if it is one, or goes behind the others, which stand at `to`
fn meet_one(aut: &mut Aut, config: Config, p: Met, x: u32, to: usize) -> Result<Met, Refusal>
    requires { UniteReady config.fields aut.old (handle_of config.fields p.relation) x to p.others }
    ensures keeps { KeepsExprs aut.old aut.new }
    ensures gives { Does config.fields (to + p.others) 1 nodes_in
        (met_at config.fields aut.new.scratch.now to)
        (C.meet_one config.fields aut.old.states.words.now x
        (met_at config.fields aut.old.scratch.now to p)) aut.old result aut.new }
    ensures few { Most (λ q. q.others) result (p.others + 1) }
{
    match aut.states.kind(x) {
        aut_states::kind::TOP => Ok(p),
        aut_states::kind::SPP => {
            let g = aut.states.relation(x);
            let h = relation_of(config, p.relation);
            let u = aut.apply(config, Op::Intersect, h, g)?;
            Ok(Met {
                relation: Some(u),
                ..p
            })
        }
        _ => {
            aut.scratch[to + p.others] = x;
            Ok(Met {
                others: p.others + 1,
                ..p
            })
        }
    }
}

// the relations of the k states at `from`, intersected; the others go to `to`
fn meet_each(
    aut: &mut Aut,
    config: Config,
    from: usize,
    k: usize,
    to: usize,
) -> Result<Met, Refusal>
    requires { UnitesReady config.fields aut.old from k to }
    ensures keeps { KeepsExprs aut.old aut.new }
    ensures gives { Does config.fields to k nodes_in (met_at config.fields aut.new.scratch.now to)
        (each (C.meet_one config.fields aut.old.states.words.now)
        (words aut.old.scratch.now from k) (met false (top_at config.fields) [])) aut.old result
        aut.new }
    ensures few { Most (λ q. q.others) result k }
{
    let mut p = Met {
        relation: None,
        others: 0,
    };
    for i in 0..k {
        let x = aut.scratch[from + i];
        p = meet_one(aut, config, p, x, to)?;
    }
    Ok(p)
}

// whether there is a relation, and it is zero
fn nothing(config: Config, relation: Option<SPP>) -> bool
    requires { config.fields ≤ 31 }
    ensures { nothing_of config.fields (some_of relation) (handle_of config.fields relation) ≡ result }
{
    relation == Some(config.zero())
}

// no other members: the relation's state, or Top
fn alone(states: &mut States, relation: Option<SPP>) -> Result<u32, Refusal>
    requires { Fits states.old.words.now states.old.count }
    ensures same { SameSlice states.old.words states.new.words }
    ensures gives { (N : ℕ) → alone_of (some_of relation) (handle_of N relation)
        (states_of states.old) ≡ seen result (states_of states.new) }
{
    match relation {
        Some(h) => states.mk_spp(h),
        None => states.mk_top(),
    }
}

// the state of the k states at SORTED, with the relation behind them, if there is one
fn meet_list(aut: &mut Aut, config: Config, relation: Option<SPP>, k: usize) -> Result<u32, Refusal>
    requires { FinishReady config aut.old relation k }
    ensures keeps { Keeps aut.old aut.new }
    ensures nodes { aut.new.spp ≡ aut.old.spp }
    ensures gives { (others : List ℕ) → Finishes
        (list_of (limits_of config.limits) (some_of relation) (handle_of config.fields relation)
        others (words aut.old.scratch.now SORTED k)) aut.old result aut.new k }
{
    let at = SORTED;
    let m = aut_union::add_last(&mut aut.states, aut.scratch, relation, at, k)?;
    // only read, but `&aut.scratch[..]` beside `&mut aut.members` is not covered by the borrow checker
    let list = &mut aut.scratch[at..at + m];
    aut.states.intern_list(
        &mut aut.members,
        config.limits,
        aut_states::kind::INTERSECT,
        list,
    )
}

// the state of the k states at SORTED and of the relation
fn meet_finish(
    aut: &mut Aut,
    config: Config,
    relation: Option<SPP>,
    k: usize,
) -> Result<u32, Refusal>
    requires { FinishReady config aut.old relation k }
    ensures keeps { Keeps aut.old aut.new }
    ensures nodes { aut.new.spp ≡ aut.old.spp }
    ensures gives { (others : List ℕ) → Finishes
        (C.meet_finish config.fields (limits_of config.limits)
        (met_of config.fields relation others) (words aut.old.scratch.now SORTED k)) aut.old result
        aut.new k }
{
    if nothing(config, relation) {
        return aut.states.mk_spp(config.zero());
    }
    if k == 0 {
        return alone(&mut aut.states, relation);
    }
    meet_list(aut, config, relation, k)
}

// the intersection of the k states at BASE, none of which is an Intersect
fn meet(aut: &mut Aut, config: Config, k: usize) -> Result<u32, Refusal>
    requires { Asked config aut.old × ListAt aut.old.scratch.now aut.old.states.count BASE k OTHERS ×
        (k ≤ 64) }
    ensures keeps { Keeps aut.old aut.new }
    ensures gives { Does config.fields OTHERS (FREE - OTHERS) aut_in (λ i. i)
        (C.meet config.fields (limits_of config.limits) (words aut.old.scratch.now BASE k)) aut.old
        result aut.new }
{
    let p = meet_each(aut, config, BASE, k, OTHERS)?;
    let at = SORTED;
    let r = aut_scratch::sorted(aut.scratch, OTHERS, p.others, at);
    meet_finish(aut, config, p.relation, r)
}

// the intersection of the k states at `from`, Unions not opened
pub fn mk_intersect_n_base(
    aut: &mut Aut,
    config: Config,
    from: usize,
    k: usize,
) -> Result<u32, Refusal>
    requires { Asked config aut.old × ListAt aut.old.scratch.now aut.old.states.count from k BASE }
    ensures keeps { Keeps aut.old aut.new }
    ensures gives { Does config.fields BASE (FREE - BASE) aut_in (λ i. i)
        (C.mk_intersect_n_base config.fields (limits_of config.limits)
        (words aut.old.scratch.now from k)) aut.old result aut.new }
{
    let m = aut_scratch::open(
        &aut.states,
        &aut.members,
        aut.scratch,
        config.limits.list,
        from,
        k,
        BASE,
    )
    .ok_or(Refusal::List)?;
    meet(aut, config, m)
}
