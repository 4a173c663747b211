// mk_union_n and mk_union of aut.rs. A list is k words of scratch (the map of scratch is aut_scratch's).
#![tactic(auto)]

ghost use Rattle.std.specs.Prelude.{◌≡◌, List, [], ℕ, ◌+◌, ◌-◌, ◌≤◌};
ghost use Rattle.slices.specs.Same.{SameSlice};
ghost use Rattle.aut_steps.specs.Tables.{words, UNION};
ghost use Rattle.aut_steps.specs.Relations.{zero_at};
ghost use Rattle.aut_steps.specs.Constructors as C;
ghost use Rattle.aut_steps.specs.Constructors.{each, parts};
ghost use Rattle.aut_states.specs.Clauses.{limits_of, exprs_of, seen, ListAsked};
ghost use Rattle.aut_relations.specs.Lent.{nodes_in, aut_in, Keeps, KeepsExprs, Does, Asked};
ghost use Rattle.aut_union.specs.Clauses.{Most, parts_at, UniteReady, met_of, UnitesReady, AddReady, Adds, ListAt, PairAt};

use aut_relations::Aut;
use aut_scratch::{BASE, FREE, OTHERS, Opened, PRODUCT, SORTED};
use aut_states::{Config, Members, States};
use refusal::Refusal;
use spp::{Op, SPP};

// the united relation, and how many other members there are
#[derive(Clone, Copy)]
pub struct Parts {
    pub relation: SPP,
    pub others: usize,
}

// x is united with the relation if it is one, or goes behind the others, which stand at `to`
fn unite_one(aut: &mut Aut, config: Config, p: Parts, x: u32, to: usize) -> Result<Parts, Refusal>
    requires { UniteReady config.fields aut.old p.relation.0 x to p.others }
    ensures keeps { KeepsExprs aut.old aut.new }
    ensures gives { Does config.fields (to + p.others) 1 nodes_in (parts_at aut.new.scratch.now to)
        (C.unite_one config.fields aut.old.states.words.now x (parts_at aut.old.scratch.now to p))
        aut.old result aut.new }
    ensures few { Most (λ q. q.others) result (p.others + 1) }
{
    if aut.states.kind(x) == aut_states::kind::SPP {
        let h = aut.states.relation(x);
        let relation = aut.apply(config, Op::Union, p.relation, h)?;
        return Ok(Parts { relation, ..p });
    }
    aut.scratch[to + p.others] = x;
    Ok(Parts {
        others: p.others + 1,
        ..p
    })
}

// the relations of the k states at `from`, united; the others go to `to`
fn unite_each(
    aut: &mut Aut,
    config: Config,
    from: usize,
    k: usize,
    to: usize,
) -> Result<Parts, Refusal>
    requires { UnitesReady config.fields aut.old from k to }
    ensures keeps { KeepsExprs aut.old aut.new }
    ensures gives { Does config.fields to k nodes_in (parts_at aut.new.scratch.now to)
        (each (C.unite_one config.fields aut.old.states.words.now)
        (words aut.old.scratch.now from k) (parts (zero_at config.fields) [])) aut.old result
        aut.new }
    ensures few { Most (λ q. q.others) result k }
{
    let mut p = Parts {
        relation: config.zero(),
        others: 0,
    };
    for i in 0..k {
        let x = aut.scratch[from + i];
        p = unite_one(aut, config, p, x, to)?;
    }
    Ok(p)
}

// the relation goes behind the k words at `at` as a state, if there is one
pub fn add_last(
    states: &mut States,
    scratch: &mut [u32],
    relation: Option<SPP>,
    at: usize,
    k: usize,
) -> Result<usize, Refusal>
    requires { AddReady states.old.words.now scratch.old states.old.count at k }
    ensures same { SameSlice states.old.words states.new.words }
    ensures gives { (N : ℕ) (others : List ℕ) → Adds
        (C.add_last (met_of N relation others) (words scratch.old at k)) states.old result
        states.new scratch.old scratch.new at k }
    ensures few { Most (λ m. m) result (k + 1) }
{
    let Some(h) = relation else {
        return Ok(k);
    };
    scratch[at + k] = states.mk_spp(h)?;
    Ok(k + 1)
}

// the state of a sorted list
#[tactic(auto, unfolding(aut_steps::specs::Constructors::finish))]
fn finish(
    states: &mut States,
    members: &mut Members,
    config: Config,
    list: &[u32],
) -> Result<u32, Refusal>
    requires { ListAsked (exprs_of states.old members.old) UNION list.now × (config.fields ≤ 31) }
    ensures same { SameSlice states.old.words states.new.words }
    ensures same_members { SameSlice members.old.words members.new.words }
    ensures gives { C.finish config.fields (limits_of config.limits) list.now
        (exprs_of states.old members.old) ≡ seen result (exprs_of states.new members.new) }
{
    match list {
        [] => states.mk_spp(config.zero()),
        [x] => Ok(*x),
        _ => states.intern_list(members, config.limits, aut_states::kind::UNION, list),
    }
}

// the union of the k states at BASE, none of which is a Union or Top
fn unite(aut: &mut Aut, config: Config, k: usize) -> Result<u32, Refusal>
    requires { Asked config aut.old × ListAt aut.old.scratch.now aut.old.states.count BASE k OTHERS ×
        (k ≤ 64) }
    ensures keeps { Keeps aut.old aut.new }
    ensures gives { Does config.fields OTHERS (FREE - OTHERS) aut_in (λ i. i)
        (C.unite config.fields (limits_of config.limits) (words aut.old.scratch.now BASE k))
        aut.old result aut.new }
{
    let p = unite_each(aut, config, BASE, k, OTHERS)?;
    let relation = (!spp::is_zero(config.fields, p.relation)).then_some(p.relation);
    let l = add_last(&mut aut.states, aut.scratch, relation, OTHERS, p.others)?;
    let at = SORTED;
    let r = aut_scratch::sorted(aut.scratch, OTHERS, l, at);
    // only read, but `&aut.scratch[..]` beside `&mut aut.states` is not covered by the borrow checker
    let list = &mut aut.scratch[at..at + r];
    finish(&mut aut.states, &mut aut.members, config, list)
}

// the union of the k states at `from`
pub fn mk_union_n(aut: &mut Aut, config: Config, from: usize, k: usize) -> Result<u32, Refusal>
    requires { Asked config aut.old × ListAt aut.old.scratch.now aut.old.states.count from k BASE }
    ensures keeps { Keeps aut.old aut.new }
    ensures gives { Does config.fields BASE (FREE - BASE) aut_in (λ i. i)
        (C.mk_union_n config.fields (limits_of config.limits) (words aut.old.scratch.now from k))
        aut.old result aut.new }
{
    if k > config.limits.list {
        return Err(Refusal::List);
    }
    if k == 1 {
        return Ok(aut.scratch[from]);
    }
    let opened = aut_scratch::open_union(
        &aut.states,
        &aut.members,
        aut.scratch,
        config.limits.list,
        from,
        k,
        BASE,
    )
    .ok_or(Refusal::List)?;
    match opened {
        Opened::Top => aut.states.mk_top(),
        Opened::List(m) => unite(aut, config, m),
    }
}

pub fn mk_union(aut: &mut Aut, config: Config, x: u32, y: u32) -> Result<u32, Refusal>
    requires { Asked config aut.old × PairAt aut.old.states.count x y }
    ensures keeps { Keeps aut.old aut.new }
    ensures gives { Does config.fields PRODUCT (FREE - PRODUCT) aut_in (λ i. i)
        (C.mk_union config.fields (limits_of config.limits) x y) aut.old result aut.new }
{
    if x == y {
        return Ok(x);
    }
    if aut.states.both_relations(x, y) {
        return aut.spp_of(config, Op::Union, x, y);
    }
    let at = PRODUCT;
    aut.scratch[at] = x;
    aut.scratch[at + 1] = y;
    mk_union_n(aut, config, at, 2)
}
