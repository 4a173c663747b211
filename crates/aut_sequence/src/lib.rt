// mk_xor, mk_difference, mk_star and mk_sequence of aut.rs. They read and write no members, so those that are lent need not be in order; and they write no lists: scratch lends its cache.
#![tactic(auto)]

ghost use Rattle.std.specs.Prelude.{◌≡◌, [], ◌∷◌, ◌+◌, ◌*◌, ◌≤◌, ◌<◌, length};
ghost use Rattle.refusal.specs.declared.Refusal.TheVariants.{Spp};
ghost use Rattle.aut_steps.specs.Tables.{op1};
ghost use Rattle.aut_steps.specs.Constructors as C;
ghost use Rattle.aut_states.specs.Clauses.{limits_of};
ghost use Rattle.aut_relations.specs.Lent.{nodes_in, aut_in, Keeps, KeepsExprs, Does, Only, Handles, Relations};
ghost use Rattle.aut_sequence.specs.Clauses.{SomeAsked, Makes, task_of, regroups, joined_of, Enough, Walks, Chain, Ends, Links};

use aut_relations::Aut;
use aut_states::{Config, States, kind};
use refusal::Refusal;
use spp::{Op, SPP};

// ---- exclusive or, and difference

#[tactic(auto, unfolding(aut_steps::specs::Constructors::mk_xor), using(crate::proofs::Tables::entered, crate::proofs::Tables::told))]
pub fn mk_xor(aut: &mut Aut, config: Config, x: u32, y: u32) -> Result<u32, Refusal>
    requires { SomeAsked config aut.old (x ∷ y ∷ []) }
    ensures keeps { Keeps aut.old aut.new }
    ensures members { aut.new.members ≡ aut.old.members }
    ensures gives { Makes config.fields (C.mk_xor config.fields (limits_of config.limits) x y) aut.old result aut.new }
{
    if x == y {
        return aut.states.mk_spp(config.zero());
    }
    if aut.states.both_relations(x, y) {
        return aut.spp_of(config, Op::Xor, x, y);
    }
    aut.states
        .intern2(config.limits, kind::XOR, x.min(y), x.max(y))
}

#[tactic(auto, unfolding(aut_steps::specs::Constructors::mk_difference), using(crate::proofs::Tables::entered, crate::proofs::Tables::told))]
pub fn mk_difference(aut: &mut Aut, config: Config, x: u32, y: u32) -> Result<u32, Refusal>
    requires { SomeAsked config aut.old (x ∷ y ∷ []) }
    ensures keeps { Keeps aut.old aut.new }
    ensures members { aut.new.members ≡ aut.old.members }
    ensures gives { Makes config.fields (C.mk_difference config.fields (limits_of config.limits) x y) aut.old result aut.new }
{
    if x == y {
        return aut.states.mk_spp(config.zero());
    }
    if aut.states.both_relations(x, y) {
        return aut.spp_of(config, Op::Difference, x, y);
    }
    aut.states.intern2(config.limits, kind::DIFFERENCE, x, y)
}

// ---- star

// the operations on relations that are no pointwise ones; star has its operand twice
#[derive(Clone, Copy)]
pub enum Task {
    Sequence,
    Star,
}

pub fn relate(aut: &mut Aut, config: Config, task: Task, a: SPP, b: SPP) -> Result<SPP, Refusal>
    requires { Handles config.fields aut.old a.0 b.0 }
    ensures keeps { KeepsExprs aut.old aut.new }
    ensures only { Only Spp result }
    ensures gives { Does config.fields 0 0 nodes_in (λ h. h.0)
        (task_of config.fields task a.0 b.0) aut.old result aut.new }
{
    let n = config.fields;
    let cache = &mut aut.scratch[aut_scratch::LISTS..];
    match task {
        Task::Sequence => Ok(spp_sequence::sequence(&mut aut.spp, cache, n, a, b)?),
        Task::Star => Ok(spp_sequence::star(&mut aut.spp, cache, n, a)?),
    }
}

// the state of what the task makes of x and y, which are relations
fn spp_by(aut: &mut Aut, config: Config, task: Task, x: u32, y: u32) -> Result<u32, Refusal>
    requires { Relations config.fields aut.old x y }
    ensures keeps { Keeps aut.old aut.new }
    ensures members { aut.new.members ≡ aut.old.members }
    ensures gives { Does config.fields 0 0 aut_in (λ i. i)
        (C.spp_of
        (task_of config.fields task (op1 aut.old.states.words.now x)
        (op1 aut.old.states.words.now y))) aut.old result aut.new }
{
    let a = aut.states.relation(x);
    let b = aut.states.relation(y);
    let h = relate(aut, config, task, a, b)?;
    aut.states.mk_spp(h)
}

#[tactic(auto, unfolding(aut_steps::specs::Constructors::mk_star), using(crate::proofs::Tables::entered, crate::proofs::Tables::told, crate::proofs::Tables::stays))]
pub fn mk_star(aut: &mut Aut, config: Config, x: u32) -> Result<u32, Refusal>
    requires { SomeAsked config aut.old (x ∷ []) }
    ensures keeps { Keeps aut.old aut.new }
    ensures members { aut.new.members ≡ aut.old.members }
    ensures gives { Makes config.fields (C.mk_star config.fields (limits_of config.limits) x) aut.old result aut.new }
{
    match aut.states.kind(x) {
        kind::STAR => Ok(x),
        kind::SPP => spp_by(aut, config, Task::Star, x, x),
        kind::TOP => aut.states.mk_top(),
        _ => aut.states.intern1(config.limits, kind::STAR, x),
    }
}

// ---- sequence

fn regroups(states: &States, config: Config, x: u32, y: u32) -> bool
    requires { (12 * x + 11 < length states.now.words.now) ×
        (12 * y + 11 < length states.now.words.now) × (config.fields ≤ 31) }
    ensures { result ≡ regroups config.fields states.now.words.now x y }
{
    states.kind(x) == kind::SEQUENCE
        && !states.is_relation(y, config.one())
        && !states.is_relation(y, config.zero())
}

// x; y where it is not regrouped
#[tactic(auto, unfolding(crate::specs::Clauses::joined_of), using(crate::proofs::Tables::entered, crate::proofs::Tables::told, crate::proofs::Tables::stays))]
fn joined(aut: &mut Aut, config: Config, x: u32, y: u32) -> Result<u32, Refusal>
    requires { SomeAsked config aut.old (x ∷ y ∷ []) }
    ensures keeps { Keeps aut.old aut.new }
    ensures members { aut.new.members ≡ aut.old.members }
    ensures gives { Makes config.fields (joined_of config.fields (limits_of config.limits) x y) aut.old result aut.new }
{
    if aut.states.both_relations(x, y) {
        return spp_by(aut, config, Task::Sequence, x, y);
    }
    let one = config.one();
    let zero = config.zero();
    if aut.states.is_relation(x, one) {
        return Ok(y);
    }
    if aut.states.is_relation(x, zero) {
        return aut.states.mk_spp(zero);
    }
    if aut.states.is_relation(y, one) {
        return Ok(x);
    }
    if aut.states.is_relation(y, zero) {
        return aut.states.mk_spp(zero);
    }
    if aut.states.kind(x) == kind::TOP && aut.states.kind(y) == kind::TOP {
        return aut.states.mk_top();
    }
    aut.states.intern2(config.limits, kind::SEQUENCE, x, y)
}

// ---- the chain of a Sequence: x, its second operand, and so on, to what is no Sequence

fn chain_end(states: &States, x: u32) -> u32
    requires { Walks states.now.words.now x }
    ensures { Ends states.now.words.now x result }
{
    let mut e = x;
    while states.kind(e) == kind::SEQUENCE {
        e = states.second(e);
    }
    e
}

// the state of x's chain whose second operand is u
#[tactic(auto, using(crate::proofs::Chain::link_found))]
fn link_to(states: &States, x: u32, u: u32) -> u32
    requires { Walks states.now.words.now x × Chain states.now.words.now x u × (x ≡ u → ⊥) }
    ensures { Links states.now.words.now x u result }
{
    let mut w = x;
    while states.second(w) != u {
        w = states.second(w);
    }
    w
}

// (a; b); y is a; (b; y). So y is joined to the end of x's chain, and then each first operand to what there is, from the last to the first. The end is no Sequence, and first operands are none where
// this function made x: so none of these is regrouped, however x is nested
pub fn mk_sequence(aut: &mut Aut, config: Config, x: u32, y: u32) -> Result<u32, Refusal>
    requires { SomeAsked config aut.old (x ∷ y ∷ []) }
    ensures keeps { Keeps aut.old aut.new }
    ensures members { aut.new.members ≡ aut.old.members }
    ensures gives { Makes config.fields (C.mk_sequence config.fields (limits_of config.limits) x y) aut.old result aut.new }
    ensures by { Enough config x y aut.old result aut.new }
{
    if !regroups(&aut.states, config, x, y) {
        return joined(aut, config, x, y);
    }
    let mut u = chain_end(&aut.states, x);
    let mut e = u;
    let mut z = y;
    loop {
        z = joined(aut, config, e, z)?;
        if u == x {
            return Ok(z);
        }
        u = link_to(&aut.states, x, u);
        e = aut.states.first(u);
    }
}
