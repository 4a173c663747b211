// States and members of aut.rs on lent tables, twelve words a state, one a member: interning by comparison, and the constructors
// that need no relation operation.
#![tactic(auto)]

pub mod kind;
pub mod word;

ghost use Rattle.std.specs.Prelude.{◌≡◌, ℕ, ◌+◌, ◌*◌, ◌≤◌, ◌<◌, MatchResult, length, get_or};
ghost use Rattle.refusal.specs.declared.Refusal.TheVariants.{Nesting};
ghost use Rattle.slices.specs.Same.{SameSlice};
ghost use Rattle.aut_steps.specs.Tables.{COMPLEMENT, NEXT, UNTIL, kind_of, op1, op2, nest, list_of};
ghost use Rattle.aut_steps.specs.Relations.{zero_at, one_at, top_at};
ghost use Rattle.aut_steps.specs.Intern as M;
ghost use Rattle.aut_steps.specs.Constructors as C;
ghost use Rattle.aut_steps.specs.Ascending.{All};
ghost use Rattle.aut_states.specs.Clauses.{limits_of, states_of, members_of, exprs_of, seen, Found, Fits, From, Ready1, Ready2, ListIn, PushReady, ListAsked, above_l, append};

use refusal::Refusal;
use spp::SPP;

// 01's limits 8, 6, 7, 9
#[derive(Clone, Copy)]
pub struct Limits {
    pub nesting: u32,
    pub list: usize,
    pub products: usize,
    pub transitions: usize,
}

impl Limits {
    // the nesting of a state above one of nesting n
    pub fn nested(self, n: u32) -> Result<u32, Refusal>
        ensures { MatchResult result (λ e. (n < self.nesting) × (e ≡ n + 1)) (λ e. (self.nesting ≤ n) × (e ≡ Nesting)) }
    {
        if n >= self.nesting {
            return Err(Refusal::Nesting);
        }
        Ok(n + 1)
    }
}

// what holds for the whole book
#[derive(Clone, Copy)]
pub struct Config {
    pub fields: u32,
    pub limits: Limits,
}

// the constants of all fields
impl Config {
    pub fn zero(self) -> SPP
        requires { self.fields ≤ 31 }
        ensures { zero_at self.fields ≡ result.0 }
    {
        spp::zero_at_depth(self.fields)
    }

    pub fn one(self) -> SPP
        requires { self.fields ≤ 31 }
        ensures { one_at self.fields ≡ result.0 }
    {
        spp::one_at_depth(self.fields, self.fields)
    }

    pub fn top(self) -> SPP
        requires { self.fields ≤ 31 }
        ensures { top_at self.fields ≡ result.0 }
    {
        spp::top_at_depth(self.fields, self.fields)
    }
}

// words of a state
pub const STATE: usize = 12;

// the most states, and the most members
pub const MOST_STATES: usize = 32768;

pub const MOST_MEMBERS: usize = 16777216;

// the lent table of states, and how many of its records are states
#[derive(Drop)]
pub struct States<'a> {
    pub words: &'a mut [u32],
    pub count: usize,
}

// the lent table of members, and how many of them are in use
#[derive(Drop)]
pub struct Members<'a> {
    pub words: &'a mut [u32],
    pub count: usize,
}

// one above the highest of the list. Operands are earlier states, so a search for a state begins above its operands
fn above_list(list: &[u32]) -> usize
    ensures { result ≡ above_l 0 list.now }
{
    list.iter().max().map_or(0, |x| *x as usize + 1)
}

impl States<'_> {
    // a word of a state
    pub fn word(&self, x: u32, w: usize) -> u32
        requires { 12 * x + w < length self.now.words.now }
        ensures { result ≡ get_or self.now.words.now (12 * x + w) 0 }
    {
        self.words[STATE * x as usize + w]
    }

    #[tactic(auto, unfolding(aut_steps::specs::Tables::kind_of))]
    pub fn kind(&self, x: u32) -> u32
        requires { 12 * x + 11 < length self.now.words.now }
        ensures { result ≡ kind_of self.now.words.now x }
    {
        self.word(x, word::KIND)
    }

    // the operands
    #[tactic(auto, unfolding(aut_steps::specs::Tables::op1))]
    pub fn first(&self, x: u32) -> u32
        requires { 12 * x + 11 < length self.now.words.now }
        ensures { result ≡ op1 self.now.words.now x }
    {
        self.word(x, word::FIRST)
    }

    #[tactic(auto, unfolding(aut_steps::specs::Tables::op2))]
    pub fn second(&self, x: u32) -> u32
        requires { 12 * x + 11 < length self.now.words.now }
        ensures { result ≡ op2 self.now.words.now x }
    {
        self.word(x, word::SECOND)
    }

    #[tactic(auto, unfolding(aut_steps::specs::Tables::nest))]
    pub fn nest_of(&self, x: u32) -> u32
        requires { 12 * x + 11 < length self.now.words.now }
        ensures { result ≡ nest self.now.words.now x }
    {
        self.word(x, word::NESTING)
    }

    // the relation that a state is
    pub fn relation(&self, x: u32) -> SPP
        requires { 12 * x + 11 < length self.now.words.now }
        ensures { result.0 ≡ op1 self.now.words.now x }
    {
        SPP(self.first(x))
    }

    // whether x is the relation h
    pub fn is_relation(&self, x: u32, h: SPP) -> bool
        requires { 12 * x + 11 < length self.now.words.now }
        ensures { result ≡ C.is_relation self.now.words.now x h.0 }
    {
        self.kind(x) == kind::SPP && self.relation(x) == h
    }

    // whether both states are relations
    pub fn both_relations(&self, x: u32, y: u32) -> bool
        requires { (12 * x + 11 < length self.now.words.now) ×
            (12 * y + 11 < length self.now.words.now) }
        ensures { C.relations self.now.words.now x y ≡ result }
    {
        self.kind(x) == kind::SPP && self.kind(y) == kind::SPP
    }

    // the first of this kind and with these operands; it is no state before `from`
    fn find(&self, from: usize, kind: u32, x: u32, y: u32) -> Option<u32>
        requires { Fits self.now.words.now self.now.count ×
            From (M.same2 self.now.words.now kind x y) from self.now.count }
        ensures { Found (M.same2 self.now.words.now kind x y) self.now.count result }
    {
        let states = &self.words[STATE * from..STATE * self.count];
        let i = states.chunks_exact(STATE).position(|s| {
            s[word::KIND] == kind && s[word::FIRST] == x && s[word::SECOND] == y
        })?;
        Some((from + i) as u32)
    }

    // a state at the end of the table
    #[tactic(auto, unfolding(aut_steps::specs::Intern::put, aut_steps::specs::Tables::room_s, aut_steps::specs::Tables::put4))]
    fn put(&mut self, kind: u32, x: u32, y: u32, nest: u32) -> Result<u32, Refusal>
        requires { Fits self.old.words.now self.old.count }
        ensures same_table { SameSlice self.old.words self.new.words }
        ensures gives { M.put kind x y nest (states_of self.old) ≡ seen result (states_of self.new) }
    {
        let n = self.count;
        if n >= self.words.len() / STATE || n >= MOST_STATES {
            return Err(Refusal::States);
        }
        self.words[STATE * n + word::KIND] = kind;
        self.words[STATE * n + word::FIRST] = x;
        self.words[STATE * n + word::SECOND] = y;
        self.words[STATE * n + word::NESTING] = nest;
        self.count = n + 1;
        Ok(n as u32)
    }

    // SPP, Dup, Top: no operand that is a state
    pub fn intern0(&mut self, kind: u32, x: u32) -> Result<u32, Refusal>
        requires { Fits self.old.words.now self.old.count }
        ensures same_table { SameSlice self.old.words self.new.words }
        ensures gives { M.intern0 kind x (states_of self.old) ≡ seen result (states_of self.new) }
    {
        if let Some(i) = self.find(0, kind, x, 0) {
            return Ok(i);
        }
        self.put(kind, x, 0, 0)
    }

    pub fn intern1(&mut self, limits: Limits, kind: u32, x: u32) -> Result<u32, Refusal>
        requires { Ready1 self.old.words.now self.old.count kind x }
        ensures same_table { SameSlice self.old.words self.new.words }
        ensures gives { M.intern1 (limits_of limits) kind x (states_of self.old) ≡ seen result
            (states_of self.new) }
    {
        if let Some(i) = self.find(x as usize + 1, kind, x, 0) {
            return Ok(i);
        }
        let e = limits.nested(self.nest_of(x))?;
        self.put(kind, x, 0, e)
    }

    pub fn intern2(&mut self, limits: Limits, kind: u32, x: u32, y: u32) -> Result<u32, Refusal>
        requires { Ready2 self.old.words.now self.old.count kind x y }
        ensures same_table { SameSlice self.old.words self.new.words }
        ensures gives { M.intern2 (limits_of limits) kind x y (states_of self.old) ≡ seen result
            (states_of self.new) }
    {
        if let Some(i) = self.find(x.max(y) as usize + 1, kind, x, y) {
            return Ok(i);
        }
        let e = limits.nested(self.nest_of(x).max(self.nest_of(y)))?;
        self.put(kind, x, y, e)
    }

    #[tactic(auto, unfolding(aut_steps::specs::Constructors::mk_spp))]
    pub fn mk_spp(&mut self, spp: SPP) -> Result<u32, Refusal>
        requires { Fits self.old.words.now self.old.count }
        ensures same_table { SameSlice self.old.words self.new.words }
        ensures gives { C.mk_spp spp.0 (states_of self.old) ≡ seen result (states_of self.new) }
    {
        self.intern0(kind::SPP, spp.0)
    }

    #[tactic(auto, unfolding(aut_steps::specs::Constructors::mk_dup))]
    pub fn mk_dup(&mut self) -> Result<u32, Refusal>
        requires { Fits self.old.words.now self.old.count }
        ensures same_table { SameSlice self.old.words self.new.words }
        ensures gives { C.mk_dup (states_of self.old) ≡ seen result (states_of self.new) }
    {
        self.intern0(kind::DUP, 0)
    }

    #[tactic(auto, unfolding(aut_steps::specs::Constructors::mk_top))]
    pub fn mk_top(&mut self) -> Result<u32, Refusal>
        requires { Fits self.old.words.now self.old.count }
        ensures same_table { SameSlice self.old.words self.new.words }
        ensures gives { C.mk_top (states_of self.old) ≡ seen result (states_of self.new) }
    {
        self.intern0(kind::TOP, 0)
    }

    #[tactic(auto, unfolding(aut_steps::specs::Constructors::mk_next))]
    pub fn mk_next(&mut self, limits: Limits, x: u32) -> Result<u32, Refusal>
        requires { Ready1 self.old.words.now self.old.count NEXT x }
        ensures same_table { SameSlice self.old.words self.new.words }
        ensures gives { C.mk_next (limits_of limits) x (states_of self.old) ≡ seen result
            (states_of self.new) }
    {
        self.intern1(limits, kind::NEXT, x)
    }

    #[tactic(auto, unfolding(aut_steps::specs::Constructors::mk_until))]
    pub fn mk_until(&mut self, limits: Limits, x: u32, y: u32) -> Result<u32, Refusal>
        requires { Ready2 self.old.words.now self.old.count UNTIL x y }
        ensures same_table { SameSlice self.old.words self.new.words }
        ensures gives { C.mk_until (limits_of limits) x y (states_of self.old) ≡ seen result
            (states_of self.new) }
    {
        self.intern2(limits, kind::UNTIL, x, y)
    }

    #[tactic(auto, unfolding(aut_steps::specs::Constructors::mk_complement))]
    pub fn mk_complement(&mut self, config: Config, x: u32) -> Result<u32, Refusal>
        requires { Ready1 self.old.words.now self.old.count COMPLEMENT x × (config.fields ≤ 31) }
        ensures same_table { SameSlice self.old.words self.new.words }
        ensures gives { C.mk_complement config.fields (limits_of config.limits) x
            (states_of self.old) ≡ seen result (states_of self.new) }
    {
        match self.kind(x) {
            kind::COMPLEMENT => Ok(self.first(x)),
            kind::TOP => self.mk_spp(config.zero()),
            _ => self.intern1(config.limits, kind::COMPLEMENT, x),
        }
    }
}

impl Members<'_> {
    // a list at the end of the table; where it begins
    #[tactic(auto, unfolding(crate::specs::Clauses::append, aut_steps::specs::Tables::room_m, aut_steps::specs::Intern::store))]
    fn append(&mut self, list: &[u32]) -> Result<u32, Refusal>
        requires { self.old.count ≤ 16777216 }
        ensures same_table { SameSlice self.old.words self.new.words }
        ensures gives { append list.now (members_of self.old) ≡ seen result (members_of self.new) }
    {
        let m = self.count;
        let end = m + list.len();
        if end > self.words.len() || end > MOST_MEMBERS {
            return Err(Refusal::Members);
        }
        slices::copy(&mut self.words[m..end], list);
        self.count = end;
        Ok(m as u32)
    }
}

// ---- lists: a state of the list kinds has its members in the other table. stays: the members are a parameter, since the check gives
// a lent slice back from a struct, but not from a struct within a struct.

impl States<'_> {
    // the members of a state of a list kind
    #[tactic(auto, using(crate::proofs::Slices::part))]
    pub fn list<'a>(&self, members: &'a Members, x: u32) -> &'a [u32]
        requires { (12 * x + 11 < length self.now.words.now) ×
            (op1 self.now.words.now x + op2 self.now.words.now x ≤ length members.now.words.now) }
        ensures { result.now ≡ list_of self.now.words.now members.now.words.now x }
    {
        let a = self.first(x) as usize;
        let n = self.second(x) as usize;
        &members.words[a..a + n]
    }

    // whether state i is the list of this kind
    fn is_at_list(&self, members: &Members, i: u32, kind: u32, list: &[u32]) -> bool
        requires { ListIn self.now.words.now members.now.words.now i kind ×
            (12 * i + 11 < length self.now.words.now) }
        ensures { result ≡ M.same_l self.now.words.now members.now.words.now kind list.now i }
    {
        self.kind(i) == kind && self.list(members, i) == list
    }

    // the first that is; it is no state before `from`
    fn find_list(&self, members: &Members, from: usize, kind: u32, list: &[u32]) -> Option<u32>
        requires { Fits self.now.words.now self.now.count ×
            ((i : ℕ) → i < self.now.count → ListIn self.now.words.now members.now.words.now i kind) ×
            From (M.same_l self.now.words.now members.now.words.now kind list.now) from self.now.count }
        ensures { Found (M.same_l self.now.words.now members.now.words.now kind list.now)
            self.now.count result }
    {
        (from as u32..self.count as u32).find(|i| self.is_at_list(members, *i, kind, list))
    }

    // the highest nesting of the list
    pub fn nest_list(&self, list: &[u32]) -> u32
        requires { All (λ x. 12 * x + 11 < length self.now.words.now) list.now }
        ensures { result ≡ M.nest_l self.now.words.now 0 list.now }
    {
        list.iter().map(|x| self.nest_of(*x)).max().unwrap_or(0)
    }

    // a list's state at the end of the table, its members at the end of theirs
    fn push_list(
        &mut self,
        members: &mut Members,
        kind: u32,
        list: &[u32],
        nest: u32,
    ) -> Result<u32, Refusal>
        requires { PushReady (exprs_of self.old members.old) }
        ensures same_table { SameSlice self.old.words self.new.words }
        ensures same_members { SameSlice members.old.words members.new.words }
        ensures gives { M.put_l kind list.now nest (exprs_of self.old members.old) ≡ seen result (exprs_of self.new members.new) }
    {
        let m = members.append(list)?;
        self.put(kind, m, list.len() as u32, nest)
    }

    pub fn intern_list(
        &mut self,
        members: &mut Members,
        limits: Limits,
        kind: u32,
        list: &[u32],
    ) -> Result<u32, Refusal>
        requires { ListAsked (exprs_of self.old members.old) kind list.now }
        ensures same_table { SameSlice self.old.words self.new.words }
        ensures same_members { SameSlice members.old.words members.new.words }
        ensures gives { M.intern_l (limits_of limits) kind list.now (exprs_of self.old members.old) ≡ seen result
            (exprs_of self.new members.new) }
    {
        if let Some(i) = self.find_list(members, above_list(list), kind, list) {
            return Ok(i);
        }
        let e = limits.nested(self.nest_list(list))?;
        self.push_list(members, kind, list, e)
    }
}
