// mk_intersect_n and mk_intersect of aut.rs: products of a list with Union members are made one by one, never stored.
#![tactic(auto)]

ghost use Rattle.std.specs.Prelude.{[], ◌+◌, ◌-◌, ◌≤◌, length};
ghost use Rattle.aut_steps.specs.Tables.{words};
ghost use Rattle.aut_steps.specs.Constructors as C;
ghost use Rattle.aut_states.specs.Clauses.{limits_of};
ghost use Rattle.aut_scratch.specs.Clauses.{CountReady, Counts};
ghost use Rattle.aut_relations.specs.Lent.{aut_in, Keeps, Does, Asked};
ghost use Rattle.aut_stage.specs.OnLent.{Goes};
ghost use Rattle.aut_union.specs.Clauses.{ListAt, PairAt};
ghost use Rattle.aut_intersect.specs.Clauses.{BaseReady, BasesReady, AllStates};

use aut_relations::Aut;
use aut_scratch::{FREE, GIVEN, OPENED, PRODUCT, RESULTS};
use aut_states::Config;
use refusal::Refusal;
use spp::Op;

// the intersection of product i of the k states at OPENED
fn base(aut: &mut Aut, config: Config, k: usize, i: usize) -> Result<u32, Refusal>
    requires { BaseReady config aut.old k i }
    ensures keeps { Keeps aut.old aut.new }
    ensures gives { Does config.fields PRODUCT (FREE - PRODUCT) aut_in (λ i. i)
        (C.base config.fields (limits_of config.limits) (words aut.old.scratch.now OPENED k) i) aut.old
        result aut.new }
{
    aut_scratch::product(
        &aut.states,
        &aut.members,
        aut.scratch,
        OPENED,
        k,
        i,
        PRODUCT,
    );
    aut_intersect_base::mk_intersect_n_base(aut, config, PRODUCT, k)
}

// of n products of the k states at OPENED; the states go to RESULTS
fn bases(aut: &mut Aut, config: Config, k: usize, n: usize) -> Result<(), Refusal>
    requires { BasesReady config aut.old k n }
    ensures keeps { Keeps aut.old aut.new }
    ensures gives { Goes config RESULTS (FREE - RESULTS) AllStates (λ u. words aut.new.scratch.now RESULTS n)
        (C.bases config.fields (limits_of config.limits) (words aut.old.scratch.now OPENED k) 0 n [])
        aut.old result aut.new }
{
    for i in 0..n {
        let z = base(aut, config, k, i)?;
        aut.scratch[RESULTS + i] = z;
    }
    Ok(())
}

// how many products the k states at OPENED have; None: too many
fn count_all(aut: &Aut, most: usize, k: usize) -> Option<usize>
    requires { CountReady aut.now.states.words.now (words aut.now.scratch.now OPENED k) most ×
        (OPENED + k ≤ length aut.now.scratch.now) }
    ensures { Counts (C.count_all most aut.now.states.words.now (words aut.now.scratch.now OPENED k) 1)
        result }
{
    let from = OPENED;
    aut_scratch::count_all(&aut.states, &aut.scratch[from..from + k], most)
}

// the union of the products of the k states at OPENED
fn distribute(aut: &mut Aut, config: Config, k: usize) -> Result<u32, Refusal>
    requires { Asked config aut.old × ListAt aut.old.scratch.now aut.old.states.count OPENED k RESULTS }
    ensures keeps { Keeps aut.old aut.new }
    ensures gives { Does config.fields RESULTS (FREE - RESULTS) aut_in (λ i. i)
        (C.intersect_opened config.fields (limits_of config.limits)
        (C.within (words aut.old.scratch.now OPENED k))) aut.old result aut.new }
{
    let n = count_all(aut, config.limits.products, k).ok_or(Refusal::Products)?;
    bases(aut, config, k, n)?;
    aut_union::mk_union_n(aut, config, RESULTS, n)
}

// the intersection of the k states at `from`
pub fn mk_intersect_n(aut: &mut Aut, config: Config, from: usize, k: usize) -> Result<u32, Refusal>
    requires { Asked config aut.old × ListAt aut.old.scratch.now aut.old.states.count from k OPENED }
    ensures keeps { Keeps aut.old aut.new }
    ensures gives { Does config.fields OPENED (FREE - OPENED) aut_in (λ i. i)
        (C.mk_intersect_n config.fields (limits_of config.limits) (words aut.old.scratch.now from k))
        aut.old result aut.new }
{
    if k > config.limits.list {
        return Err(Refusal::List);
    }
    if k == 1 {
        return Ok(aut.scratch[from]);
    }
    let m = aut_scratch::open(
        &aut.states,
        &aut.members,
        aut.scratch,
        config.limits.list,
        from,
        k,
        OPENED,
    )
    .ok_or(Refusal::List)?;
    distribute(aut, config, m)
}

pub fn mk_intersect(aut: &mut Aut, config: Config, x: u32, y: u32) -> Result<u32, Refusal>
    requires { Asked config aut.old × PairAt aut.old.states.count x y }
    ensures keeps { Keeps aut.old aut.new }
    ensures gives { Does config.fields GIVEN (FREE - GIVEN) aut_in (λ i. i)
        (C.mk_intersect config.fields (limits_of config.limits) x y) aut.old result aut.new }
{
    if x == y {
        return Ok(x);
    }
    if aut.states.both_relations(x, y) {
        return aut.spp_of(config, Op::Intersect, x, y);
    }
    let at = GIVEN;
    aut.scratch[at] = x;
    aut.scratch[at + 1] = y;
    mk_intersect_n(aut, config, at, 2)
}
