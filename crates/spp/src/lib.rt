// Relations on packets (spp.rs): nodes of four words on a lent table, the handles x00, x01, x10, x11.
// The contracts cite the steps of spp_steps.
#![tactic(auto)]

ghost use Rattle.std.specs.Prelude.{◌≡◌, [], ◌∷◌, ℕ, ◌+◌, ◌*◌, ◌≤◌, ◌<◌, MatchOption, length};
ghost use Rattle.common.specs.Runs.{table};
ghost use Rattle.spp_steps.specs.Model as M;
ghost use Rattle.spp.specs.Clauses.{store_of, seen, op_of, exit_of, quad_of, entry_of, columns, seen_start, SameStore, Fits, First, ColumnAsked, FieldAsked, Asked, Answer};

use refusal::Refusal;

#[derive(Clone, Copy, Debug, PartialEq, Eq)]
pub struct SPP(pub u32);

impl SPP {
    // the constants of depth 0; those of a depth: zero_at_depth, one_at_depth, top_at_depth
    pub const EMPTY: SPP = SPP(0);

    pub const IDENTITY: SPP = SPP(1);

    pub const UNIVERSAL: SPP = SPP(1);

    pub fn new(value: u32) -> SPP
        ensures { result.0 ≡ value }
    {
        SPP(value)
    }
}

#[derive(Clone, Copy, PartialEq, Eq)]
pub struct SPPnode {
    pub x00: SPP,
    pub x01: SPP,
    pub x10: SPP,
    pub x11: SPP,
}

// no record is left for a relation node: 01's refusal 21
#[derive(Clone, Copy, Debug, PartialEq, Eq)]
pub struct Full;

impl From<Full> for Refusal {
    ghost use Rattle.refusal.specs.declared.Refusal.TheVariants.{Spp};

    ghost from_gives = { λ _ e. e ≡ Spp };

    fn from(_full: Full) -> Refusal {
        Refusal::Spp
    }
}

// the lent table, how many of its records are nodes, and how many fields a packet has
#[derive(Drop)]
pub struct SPPstore<'a> {
    pub nodes: &'a mut [u32],
    pub count: usize,
    pub fields: u32,
}

// the same, to be read
#[derive(Clone, Copy)]
pub struct SPPview<'a> {
    pub nodes: &'a [u32],
    pub count: usize,
    pub fields: u32,
}

// the constants of a store, at its whole depth
#[derive(Clone, Copy)]
pub struct Constants {
    pub zero: SPP,
    pub one: SPP,
    pub top: SPP,
}

// the pointwise operations, by their codes in the cache
#[derive(Clone, Copy)]
pub enum Op {
    Union = 3,
    Intersect,
    Xor,
    Difference,
    Not,
}

// A finished handle, or: go down with this operation on these two.
#[derive(Clone, Copy)]
pub enum Quick {
    Out(SPP),
    On(Op, SPP, SPP),
}

// the most nodes of a table
pub const MOST: usize = 16777216;

// ---- handles

#[tactic(auto, using(crate::proofs::Levels::zero_low, crate::proofs::Levels::zero_up))]
pub fn zero_at_depth(depth: u32) -> SPP
    requires { depth ≤ 31 }
    ensures { (N : ℕ) → M.zero_at N depth ≡ result.0 }
{
    if depth == 0 {
        return SPP::EMPTY;
    }
    SPP(depth + 1)
}

#[tactic(auto, using(crate::proofs::Levels::one_low, crate::proofs::Levels::one_up))]
pub fn one_at_depth(fields: u32, depth: u32) -> SPP
    requires { (fields ≤ 31) × (depth ≤ 31) }
    ensures { M.one_at fields depth ≡ result.0 }
{
    if depth == 0 {
        return SPP::IDENTITY;
    }
    SPP(fields + depth + 1)
}

#[tactic(auto, using(crate::proofs::Levels::top_low, crate::proofs::Levels::top_up))]
pub fn top_at_depth(fields: u32, depth: u32) -> SPP
    requires { (fields ≤ 31) × (depth ≤ 31) }
    ensures { M.top_at fields depth ≡ result.0 }
{
    if depth == 0 {
        return SPP::UNIVERSAL;
    }
    SPP(2 * fields + depth + 1)
}

#[tactic(auto, unfolding(spp_steps::specs::Model::is_zero))]
pub fn is_zero(depth: u32, spp: SPP) -> bool
    requires { depth ≤ 31 }
    ensures { (N : ℕ) → M.is_zero N depth spp.0 ≡ result }
{
    spp == zero_at_depth(depth)
}

// node i
#[tactic(auto, using(crate::proofs::Scan::kid_is))]
fn node(nodes: &[u32], i: usize) -> SPPnode
    requires { 4 * i + 3 < length nodes.now }
    ensures { quad_of result ≡ M.kid nodes.now i }
{
    SPPnode {
        x00: SPP(nodes[4 * i]),
        x01: SPP(nodes[4 * i + 1]),
        x10: SPP(nodes[4 * i + 2]),
        x11: SPP(nodes[4 * i + 3]),
    }
}

// the first node that can have the children x: it comes after theirs
#[tactic(auto, using(crate::proofs::Scan::first_is))]
fn first(x: SPPnode) -> usize
    ensures { First (quad_of x) result }
{
    let a = x.x00.0.max(x.x01.0);
    let b = x.x10.0.max(x.x11.0);
    a.max(b).saturating_sub(1) as usize
}

// ---- quick exits

// the smaller handle first
fn sorted(op: Op, a: SPP, b: SPP) -> Quick
    ensures { M.sorted (op_of op) a.0 b.0 ≡ exit_of result }
{
    Quick::On(op, SPP(a.0.min(b.0)), SPP(a.0.max(b.0)))
}

#[tactic(auto, unfolding(spp_steps::specs::Model::exit))]
fn union_exit(fields: u32, depth: u32, a: SPP, b: SPP) -> Quick
    requires { (fields ≤ 31) × (depth ≤ 31) }
    ensures { M.exit fields M.union depth a.0 b.0 ≡ exit_of result }
{
    let zero = zero_at_depth(depth);
    let top = top_at_depth(fields, depth);
    if a == b || a == zero || b == top {
        return Quick::Out(b);
    }
    if b == zero || a == top {
        return Quick::Out(a);
    }
    sorted(Op::Union, a, b)
}

#[tactic(auto, unfolding(spp_steps::specs::Model::exit))]
fn intersect_exit(fields: u32, depth: u32, a: SPP, b: SPP) -> Quick
    requires { (fields ≤ 31) × (depth ≤ 31) }
    ensures { M.exit fields M.intersect depth a.0 b.0 ≡ exit_of result }
{
    let zero = zero_at_depth(depth);
    let top = top_at_depth(fields, depth);
    if a == b || a == zero || b == top {
        return Quick::Out(a);
    }
    if b == zero || a == top {
        return Quick::Out(b);
    }
    sorted(Op::Intersect, a, b)
}

#[tactic(auto, unfolding(spp_steps::specs::Model::exit))]
fn xor_exit(fields: u32, depth: u32, a: SPP, b: SPP) -> Quick
    requires { (fields ≤ 31) × (depth ≤ 31) }
    ensures { M.exit fields M.xor depth a.0 b.0 ≡ exit_of result }
{
    let zero = zero_at_depth(depth);
    let top = top_at_depth(fields, depth);
    if a == b {
        return Quick::Out(zero);
    }
    if a == zero {
        return Quick::Out(b);
    }
    if b == zero {
        return Quick::Out(a);
    }
    if a == top {
        return Quick::On(Op::Not, b, b);
    }
    if b == top {
        return Quick::On(Op::Not, a, a);
    }
    sorted(Op::Xor, a, b)
}

#[tactic(auto, unfolding(spp_steps::specs::Model::exit))]
fn difference_exit(fields: u32, depth: u32, a: SPP, b: SPP) -> Quick
    requires { (fields ≤ 31) × (depth ≤ 31) }
    ensures { M.exit fields M.difference depth a.0 b.0 ≡ exit_of result }
{
    let zero = zero_at_depth(depth);
    let top = top_at_depth(fields, depth);
    if a == b {
        return Quick::Out(zero);
    }
    if a == zero || b == zero {
        return Quick::Out(a);
    }
    if a == top {
        return Quick::On(Op::Not, b, b);
    }
    Quick::On(Op::Difference, a, b)
}

#[tactic(auto, unfolding(spp_steps::specs::Model::exit))]
fn not_exit(a: SPP) -> Quick
    ensures { (N d y : ℕ) → M.exit N M.not d a.0 y ≡ exit_of result }
{
    if a.0 < 2 {
        return Quick::Out(SPP(1 - a.0));
    }
    Quick::On(Op::Not, a, a)
}

// what is known with no look at the nodes
fn exit(fields: u32, op: Op, depth: u32, a: SPP, b: SPP) -> Quick
    requires { (fields ≤ 31) × (depth ≤ 31) }
    ensures { M.exit fields (op_of op) depth a.0 b.0 ≡ exit_of result }
{
    match op {
        Op::Union => union_exit(fields, depth, a, b),
        Op::Intersect => intersect_exit(fields, depth, a, b),
        Op::Xor => xor_exit(fields, depth, a, b),
        Op::Difference => difference_exit(fields, depth, a, b),
        Op::Not => not_exit(a),
    }
}

// the entry at the field: of `assign` or of `test`
fn entry(assigned: bool, value: bool, one: SPP, zero: SPP) -> SPPnode
    ensures { quad_of result ≡ entry_of assigned value one.0 zero.0 }
{
    let (x00, x01, x10, x11) = match (assigned, value) {
        (true, true) => (zero, one, zero, one),
        (true, false) => (one, zero, one, zero),
        (false, true) => (zero, zero, zero, one),
        (false, false) => (one, zero, zero, zero),
    };
    SPPnode { x00, x01, x10, x11 }
}

// ---- the store

impl SPPstore<'_> {
    // a store with no node but the constants of depth 1 to fields
    pub fn start(&mut self) -> Result<Constants, Full>
        requires { self.old.fields ≤ 31 }
        ensures same_store { SameStore self.old self.new }
        ensures gives { M.constants self.old.fields (table self.old.nodes.now 0)
            ≡ seen_start result (store_of self.new) }
    {
        self.count = 0;
        let zero = self.column(false, SPP::EMPTY)?;
        let one = self.column(true, SPP::IDENTITY)?;
        let top = self.column(false, SPP::UNIVERSAL)?;
        Ok(Constants { zero, one, top })
    }

    // the constants of depth 1 to fields: x in all four places, or on the diagonal with zeros beside it
    fn column(&mut self, diagonal: bool, base: SPP) -> Result<SPP, Full>
        requires { ColumnAsked (store_of self.old) diagonal base.0 self.old.fields }
        ensures same_store { SameStore self.old self.new }
        ensures gives { columns self.old.fields diagonal base.0 self.old.fields (store_of self.old)
            ≡ seen result (store_of self.new) }
    {
        let mut x = base;
        for below in 0..self.fields {
            let side = if diagonal { zero_at_depth(below) } else { x };
            x = self.mk(SPPnode {
                x00: x,
                x01: side,
                x10: side,
                x11: x,
            })?;
        }
        Ok(x)
    }

    // the number of node x
    fn find(&self, x: SPPnode) -> Option<usize>
        requires { Fits self.now.nodes.now self.now.count }
        ensures { MatchOption result (M.seek self.now.nodes.now (quad_of x) 0 self.now.count ≡ self.now.count)
            (λ i. (i < self.now.count) × (M.seek self.now.nodes.now (quad_of x) 0 self.now.count ≡ i)) }
    {
        let from = first(x);
        let nodes = self.nodes.get(4 * from..4 * self.count)?;
        let i = nodes.chunks_exact(4).position(|n| {
            n[0] == x.x00.0 && n[1] == x.x01.0 && n[2] == x.x10.0 && n[3] == x.x11.0
        })?;
        Some(from + i)
    }

    // the node with the children x, found or put in
    #[tactic(auto, unfolding(spp_steps::specs::Model::mk, spp_steps::specs::Model::room, spp_steps::specs::Model::put))]
    pub fn mk(&mut self, x: SPPnode) -> Result<SPP, Full>
        requires { Fits self.old.nodes.now self.old.count }
        ensures same_store { SameStore self.old self.new }
        ensures gives { M.mk (quad_of x) (store_of self.old) ≡ seen result (store_of self.new) }
    {
        let count = self.count;
        if let Some(i) = self.find(x) {
            return Ok(SPP((i + 2) as u32));
        }
        if count >= self.nodes.len() / 4 || count >= MOST {
            return Err(Full);
        }
        self.nodes[4 * count] = x.x00.0;
        self.nodes[4 * count + 1] = x.x01.0;
        self.nodes[4 * count + 2] = x.x10.0;
        self.nodes[4 * count + 3] = x.x11.0;
        self.count = count + 1;
        Ok(SPP((count + 2) as u32))
    }

    // the store, to be read
    pub fn view(&self) -> SPPview<'_>
        ensures nodes { result.nodes.now ≡ self.now.nodes.now }
        ensures count { result.count ≡ self.now.count }
        ensures fields { result.fields ≡ self.now.fields }
    {
        SPPview {
            nodes: self.nodes,
            count: self.count,
            fields: self.fields,
        }
    }

    // the children of a handle
    pub fn get(&self, spp: SPP) -> SPPnode
        requires { (2 ≤ spp.0) × (4 * spp.0 ≤ length self.now.nodes.now + 4) }
        ensures { quad_of result ≡ M.kids self.now.nodes.now spp.0 }
    {
        self.view().get(spp)
    }

    // the pointwise operations
    pub fn apply(
        &mut self,
        cache: &mut [u32],
        depth: u32,
        op: Op,
        a: SPP,
        b: SPP,
    ) -> Result<SPP, Full>
        requires { Asked self.old.fields depth (store_of self.old) cache.old (a.0 ∷ b.0 ∷ []) }
        ensures same_store { SameStore self.old self.new }
        ensures answer { Answer self.old.fields seen (M.apply self.old.fields (op_of op) depth a.0 b.0)
            (store_of self.old) cache.old result (store_of self.new) cache.new }
    {
        let quick = exit(self.fields, op, depth, a, b);
        match quick {
            Quick::Out(h) => Ok(h),
            Quick::On(o, x, y) => {
                let code = o as u32;
                if let Some(h) = cache::look(cache, code, x.0, y.0) {
                    return Ok(SPP(h));
                }
                let below = depth - 1;
                let p = self.get(x);
                let q = self.get(y);
                let x00 = self.apply(cache, below, o, p.x00, q.x00)?;
                let x01 = self.apply(cache, below, o, p.x01, q.x01)?;
                let x10 = self.apply(cache, below, o, p.x10, q.x10)?;
                let x11 = self.apply(cache, below, o, p.x11, q.x11)?;
                let h = self.mk(SPPnode { x00, x01, x10, x11 })?;
                cache::note(cache, code, x.0, y.0, h.0);
                Ok(h)
            }
        }
    }

    pub fn union(&mut self, cache: &mut [u32], depth: u32, a: SPP, b: SPP) -> Result<SPP, Full>
        requires { Asked self.old.fields depth (store_of self.old) cache.old (a.0 ∷ b.0 ∷ []) }
        ensures same_store { SameStore self.old self.new }
        ensures answer { Answer self.old.fields seen (M.apply self.old.fields M.union depth a.0 b.0)
            (store_of self.old) cache.old result (store_of self.new) cache.new }
    {
        self.apply(cache, depth, Op::Union, a, b)
    }

    pub fn intersect(&mut self, cache: &mut [u32], depth: u32, a: SPP, b: SPP) -> Result<SPP, Full>
        requires { Asked self.old.fields depth (store_of self.old) cache.old (a.0 ∷ b.0 ∷ []) }
        ensures same_store { SameStore self.old self.new }
        ensures answer { Answer self.old.fields seen (M.apply self.old.fields M.intersect depth a.0 b.0)
            (store_of self.old) cache.old result (store_of self.new) cache.new }
    {
        self.apply(cache, depth, Op::Intersect, a, b)
    }

    pub fn xor(&mut self, cache: &mut [u32], depth: u32, a: SPP, b: SPP) -> Result<SPP, Full>
        requires { Asked self.old.fields depth (store_of self.old) cache.old (a.0 ∷ b.0 ∷ []) }
        ensures same_store { SameStore self.old self.new }
        ensures answer { Answer self.old.fields seen (M.apply self.old.fields M.xor depth a.0 b.0)
            (store_of self.old) cache.old result (store_of self.new) cache.new }
    {
        self.apply(cache, depth, Op::Xor, a, b)
    }

    pub fn difference(&mut self, cache: &mut [u32], depth: u32, a: SPP, b: SPP) -> Result<SPP, Full>
        requires { Asked self.old.fields depth (store_of self.old) cache.old (a.0 ∷ b.0 ∷ []) }
        ensures same_store { SameStore self.old self.new }
        ensures answer { Answer self.old.fields seen (M.apply self.old.fields M.difference depth a.0 b.0)
            (store_of self.old) cache.old result (store_of self.new) cache.new }
    {
        self.apply(cache, depth, Op::Difference, a, b)
    }

    #[tactic(auto, unfolding(spp_steps::specs::Model::complement))]
    pub fn complement(&mut self, cache: &mut [u32], depth: u32, a: SPP) -> Result<SPP, Full>
        requires { Asked self.old.fields depth (store_of self.old) cache.old (a.0 ∷ a.0 ∷ []) }
        ensures same_store { SameStore self.old self.new }
        ensures answer { Answer self.old.fields seen (M.complement self.old.fields depth a.0)
            (store_of self.old) cache.old result (store_of self.new) cache.new }
    {
        self.apply(cache, depth, Op::Not, a, a)
    }

    // ---- one field

    // a diagram with an entry at one field: of `assign` or of `test`
    fn field(&mut self, depth: u32, var: u32, assigned: bool, value: bool) -> Result<SPP, Full>
        requires { FieldAsked self.old.fields (store_of self.old) depth var }
        ensures same_store { SameStore self.old self.new }
        ensures gives { M.field self.old.fields (entry_of assigned value) depth var (store_of self.old)
            ≡ seen result (store_of self.new) }
    {
        let below = depth - 1;
        let zero = zero_at_depth(below);
        if var == 0 {
            let one = one_at_depth(self.fields, below);
            return self.mk(entry(assigned, value, one, zero));
        }
        let x = self.field(below, var - 1, assigned, value)?;
        self.mk(SPPnode {
            x00: x,
            x01: zero,
            x10: zero,
            x11: x,
        })
    }

    pub fn test(&mut self, var: u32, value: bool) -> Result<SPP, Full>
        requires { FieldAsked self.old.fields (store_of self.old) self.old.fields var }
        ensures same_store { SameStore self.old self.new }
        ensures gives { M.field self.old.fields (M.test_entry value) self.old.fields var (store_of self.old)
            ≡ seen result (store_of self.new) }
    {
        self.field(self.fields, var, false, value)
    }

    pub fn assign(&mut self, var: u32, value: bool) -> Result<SPP, Full>
        requires { FieldAsked self.old.fields (store_of self.old) self.old.fields var }
        ensures same_store { SameStore self.old self.new }
        ensures gives { M.field self.old.fields (M.assign_entry value) self.old.fields var (store_of self.old)
            ≡ seen result (store_of self.new) }
    {
        self.field(self.fields, var, true, value)
    }
}

impl SPPview<'_> {
    // the children of a handle
    #[tactic(auto, unfolding(spp_steps::specs::Model::kids))]
    pub fn get(self, spp: SPP) -> SPPnode
        requires { (2 ≤ spp.0) × (4 * spp.0 ≤ length self.nodes.now + 4) }
        ensures { quad_of result ≡ M.kids self.entry.nodes.now spp.0 }
    {
        node(self.nodes, (spp.0 - 2) as usize)
    }
}
