// The tables that are lent, and the operations on relations for the constructors, whose cache lies in scratch behind the lists.
#![tactic(auto)]

ghost use Rattle.std.specs.Prelude.{◌≡◌};
ghost use Rattle.refusal.specs.declared.Refusal.TheVariants.{Spp};
ghost use Rattle.spp_steps.specs.Model as M;
ghost use Rattle.spp.specs.Clauses.{op_of};
ghost use Rattle.aut_steps.specs.Tables.{op1};
ghost use Rattle.aut_steps.specs.Constructors as C;
ghost use Rattle.aut_relations.specs.Lent.{nodes_in, aut_in, Keeps, KeepsExprs, Does, Only, Handles, Relations};

use aut_scratch::LISTS;
use aut_states::{Config, Members, States};
use refusal::Refusal;
use sp::SPstore;
use spp::{Op, SPP, SPPstore};

// the lent table of transitions (a target and a label each), and how many of its records are transitions
#[derive(Drop)]
pub struct Transitions<'a> {
    pub words: &'a mut [u32],
    pub count: usize,
}

// Aut of aut.rs. What holds for the whole book goes beside it, as a Config
#[derive(Drop)]
pub struct Aut<'a> {
    pub sp: SPstore<'a>,
    pub spp: SPPstore<'a>,
    pub states: States<'a>,
    pub members: Members<'a>,
    pub transitions: Transitions<'a>,
    pub pending: &'a mut [u32],
    pub scratch: &'a mut [u32],
}

impl Aut<'_> {
    pub fn apply(&mut self, config: Config, op: Op, a: SPP, b: SPP) -> Result<SPP, Refusal>
        requires { Handles config.fields self.old a.0 b.0 }
        ensures keeps { KeepsExprs self.old self.new }
        ensures only { Only Spp result }
        ensures gives { Does config.fields 0 0 nodes_in (λ h. h.0)
            (M.apply config.fields (op_of op) config.fields a.0 b.0) self.old result self.new }
    {
        Ok(
            self.spp
                .apply(&mut self.scratch[LISTS..], config.fields, op, a, b)?,
        )
    }

    // the state of what an operation makes of x and y, which are relations
    pub fn spp_of(&mut self, config: Config, op: Op, x: u32, y: u32) -> Result<u32, Refusal>
        requires { Relations config.fields self.old x y }
        ensures keeps { Keeps self.old self.new }
        ensures members { self.new.members ≡ self.old.members }
        ensures gives { Does config.fields 0 0 aut_in (λ i. i)
            (C.spp_of
            (M.apply config.fields (op_of op) config.fields (op1 self.old.states.words.now x)
            (op1 self.old.states.words.now y))) self.old result self.new }
    {
        let a = self.states.relation(x);
        let b = self.states.relation(y);
        let h = self.apply(config, op, a, b)?;
        self.states.mk_spp(h)
    }
}
