// Sequence and star of relations (spp.rs), as products and stars of matrices of two by two.
#![tactic(auto)]

ghost use Rattle.std.specs.Prelude.{◌≡◌, [], ◌∷◌, ◌≤◌};
ghost use Rattle.spp_steps.specs.Model as M;
ghost use Rattle.spp.specs.Clauses.{SameStore, store_of, seen, quad_of, Asked, Answer};
ghost use Rattle.spp_sequence.specs.Parts.{row, sums, through, around};
ghost use Rattle.spp_sequence.specs.Clauses.{early_of, seen_row, seen_two, NodeAsked};

use spp::{Full, SPP, SPPnode, SPPstore};

// codes in the cache
const SEQUENCE: u32 = 8;

const STAR: u32 = 9;

// what is found with no look at the nodes
#[tactic(auto, unfolding(spp_steps::specs::Model::seq_exit))]
fn seq_exit(fields: u32, depth: u32, a: SPP, b: SPP) -> Option<SPP>
    requires { (fields ≤ 31) × (depth ≤ 31) }
    ensures { M.seq_exit fields depth a.0 b.0 ≡ early_of result }
{
    let zero = spp::zero_at_depth(depth);
    let one = spp::one_at_depth(fields, depth);
    if a == zero || b == one {
        return Some(a);
    }
    if b == zero || a == one {
        return Some(b);
    }
    None
}

// a row of the product: the row p0, p1 with the columns of q
#[cycle(row_sequence)]
fn row(
    store: &mut SPPstore,
    cache: &mut [u32],
    depth: u32,
    p0: SPP,
    p1: SPP,
    q: SPPnode,
) -> Result<SPPnode, Full>
    requires { Asked store.old.fields depth (store_of store.old) cache.old
        (p0.0 ∷ p1.0 ∷ q.x00.0 ∷ q.x01.0 ∷ q.x10.0 ∷ q.x11.0 ∷ []) }
    ensures same_store { SameStore store.old store.new }
    ensures answer { Answer store.old.fields seen_row (row (M.sequence store.old.fields depth) p0.0 p1.0 (quad_of q))
        (store_of store.old) cache.old result (store_of store.new) cache.new }
{
    let x00 = sequence(store, cache, depth, p0, q.x00)?;
    let x01 = sequence(store, cache, depth, p1, q.x10)?;
    let x10 = sequence(store, cache, depth, p0, q.x01)?;
    let x11 = sequence(store, cache, depth, p1, q.x11)?;
    Ok(SPPnode { x00, x01, x10, x11 })
}

// the sums of the products, and the node
fn sums(
    store: &mut SPPstore,
    cache: &mut [u32],
    depth: u32,
    r: SPPnode,
    s: SPPnode,
) -> Result<SPP, Full>
    requires { NodeAsked store.old.fields depth (store_of store.old) cache.old
        (r.x00.0 ∷ r.x01.0 ∷ r.x10.0 ∷ r.x11.0 ∷ s.x00.0 ∷ s.x01.0 ∷ s.x10.0 ∷ s.x11.0 ∷ []) }
    ensures same_store { SameStore store.old store.new }
    ensures answer { Answer store.old.fields seen
        (sums (M.apply store.old.fields M.union depth) (quad_of r) (quad_of s))
        (store_of store.old) cache.old result (store_of store.new) cache.new }
{
    let x00 = store.union(cache, depth, r.x00, r.x01)?;
    let x01 = store.union(cache, depth, r.x10, r.x11)?;
    let x10 = store.union(cache, depth, s.x00, s.x01)?;
    let x11 = store.union(cache, depth, s.x10, s.x11)?;
    store.mk(SPPnode { x00, x01, x10, x11 })
}

#[cycle(row_sequence)]
pub fn sequence(
    store: &mut SPPstore,
    cache: &mut [u32],
    depth: u32,
    a: SPP,
    b: SPP,
) -> Result<SPP, Full>
    requires { Asked store.old.fields depth (store_of store.old) cache.old (a.0 ∷ b.0 ∷ []) }
    ensures same_store { SameStore store.old store.new }
    ensures answer { Answer store.old.fields seen (M.sequence store.old.fields depth a.0 b.0)
        (store_of store.old) cache.old result (store_of store.new) cache.new }
{
    if let Some(h) = seq_exit(store.fields, depth, a, b) {
        return Ok(h);
    }
    if let Some(h) = cache::look(cache, SEQUENCE, a.0, b.0) {
        return Ok(SPP(h));
    }
    let below = depth - 1;
    let p = store.get(a);
    let q = store.get(b);
    let r = row(store, cache, below, p.x00, p.x01, q)?;
    let s = row(store, cache, below, p.x10, p.x11, q)?;
    let h = sums(store, cache, below, r, s)?;
    cache::note(cache, SEQUENCE, a.0, b.0, h.0);
    Ok(h)
}

#[tactic(auto, unfolding(spp_steps::specs::Model::star_exit))]
fn star_exit(fields: u32, depth: u32, x: SPP) -> Option<SPP>
    requires { (fields ≤ 31) × (depth ≤ 31) }
    ensures { M.star_exit fields depth x.0 ≡ early_of result }
{
    let zero = spp::zero_at_depth(depth);
    let one = spp::one_at_depth(fields, depth);
    let top = spp::top_at_depth(fields, depth);
    if x == zero {
        return Some(one);
    }
    if x == one || x == top {
        return Some(x);
    }
    None
}

// of the matrix a b c d, with e the star of d: b e, and a with b e c
fn through(
    store: &mut SPPstore,
    cache: &mut [u32],
    depth: u32,
    x: SPPnode,
    e: SPP,
) -> Result<(SPP, SPP), Full>
    requires { Asked store.old.fields depth (store_of store.old) cache.old
        (x.x00.0 ∷ x.x01.0 ∷ x.x10.0 ∷ e.0 ∷ []) }
    ensures same_store { SameStore store.old store.new }
    ensures answer { Answer store.old.fields seen_two
        (through (M.sequence store.old.fields depth) (M.apply store.old.fields M.union depth) (quad_of x) e.0)
        (store_of store.old) cache.old result (store_of store.new) cache.new }
{
    let be = sequence(store, cache, depth, x.x01, e)?;
    let bec = sequence(store, cache, depth, be, x.x10)?;
    let sum = store.union(cache, depth, x.x00, bec)?;
    Ok((be, sum))
}

// the other entries of the star, from x00, and the node
fn around(
    store: &mut SPPstore,
    cache: &mut [u32],
    depth: u32,
    c: SPP,
    e: SPP,
    be: SPP,
    x00: SPP,
) -> Result<SPP, Full>
    requires { NodeAsked store.old.fields depth (store_of store.old) cache.old (c.0 ∷ e.0 ∷ be.0 ∷ x00.0 ∷ []) }
    ensures same_store { SameStore store.old store.new }
    ensures answer { Answer store.old.fields seen
        (around (M.sequence store.old.fields depth) (M.apply store.old.fields M.union depth) c.0 e.0 be.0 x00.0)
        (store_of store.old) cache.old result (store_of store.new) cache.new }
{
    let x01 = sequence(store, cache, depth, x00, be)?;
    let cx = sequence(store, cache, depth, c, x00)?;
    let x10 = sequence(store, cache, depth, e, cx)?;
    let xbe = sequence(store, cache, depth, x10, be)?;
    let x11 = store.union(cache, depth, e, xbe)?;
    store.mk(SPPnode { x00, x01, x10, x11 })
}

pub fn star(store: &mut SPPstore, cache: &mut [u32], depth: u32, x: SPP) -> Result<SPP, Full>
    requires { Asked store.old.fields depth (store_of store.old) cache.old (x.0 ∷ []) }
    ensures same_store { SameStore store.old store.new }
    ensures answer { Answer store.old.fields seen (M.star store.old.fields depth x.0)
        (store_of store.old) cache.old result (store_of store.new) cache.new }
{
    if let Some(h) = star_exit(store.fields, depth, x) {
        return Ok(h);
    }
    if let Some(h) = cache::look(cache, STAR, x.0, x.0) {
        return Ok(SPP(h));
    }
    let below = depth - 1;
    let p = store.get(x);
    let e = star(store, cache, below, p.x11)?;
    let (be, sum) = through(store, cache, below, p, e)?;
    let x00 = star(store, cache, below, sum)?;
    let h = around(store, cache, below, p.x10, e, be, x00)?;
    cache::note(cache, STAR, x.0, x.0, h.0);
    Ok(h)
}
