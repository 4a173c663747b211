// The rounds of `why`: the starts of strings with at most k hops, k rising from 0 until none changes.
#![tactic(auto)]

ghost use Rattle.std.specs.Prelude.{◌≡◌, IfErr};
ghost use Rattle.refusal.specs.declared.Refusal.TheVariants.{Sp};
ghost use Rattle.aut_sets.specs.Lent.{OnlySets, OnlySearch};
ghost use Rattle.aut_why_rounds.specs.Clauses.{EndsAsked, EndsGive, JoinAsked, JoinGives, TurnAsked, Turns, JoinsAsked, Joins, StepAsked, Stepped, RoundAsked, RoundGives};

use aut_relations::Aut;
use aut_st_edges::Transition;
use aut_states::Config;
use aut_why_words::word;
use refusal::Refusal;
use sp::SP;

// the starts of s's strings without hops
fn ends_at(aut: &mut Aut, config: Config, s: u32) -> Result<SP, Refusal>
    requires { EndsAsked config aut.old s }
    ensures keeps { OnlySets aut.old aut.new }
    ensures only { IfErr result (λ e. e ≡ Sp) }
    ensures gives { EndsGive config s aut.old result aut.new }
{
    let e = aut_why_words::epsilon_at(aut, s);
    aut_sets::bwd(aut, config, e)
}

// u joined with what the transition t leads back from the set of the round before
fn join_one(aut: &mut Aut, config: Config, t: Transition, u: SP) -> Result<SP, Refusal>
    requires { JoinAsked config aut.old t.target t.label.0 u.0 }
    ensures keeps { OnlySets aut.old aut.new }
    ensures only { IfErr result (λ e. e ≡ Sp) }
    ensures gives { JoinGives config t.target t.label.0 u.0 aut.old result aut.new }
{
    let ahead = aut_live_words::set_at(aut, t.target, word::BEFORE);
    let back = aut_sets::pull(aut, config, t.label, ahead)?;
    aut_sets::union(aut, config, u, back)
}

// u joined with what each transition of s leads back
fn join_all(aut: &mut Aut, config: Config, s: u32, u: SP) -> Result<SP, Refusal>
    requires { JoinsAsked config aut.old s u.0 }
    ensures keeps { OnlySets aut.old aut.new }
    ensures only { IfErr result (λ e. e ≡ Sp) }
    ensures gives { Joins config s u.0 aut.old result aut.new }
{
    let list = aut_st_source::stored_list(aut, s);
    let mut u = u;
    for i in 0..list.count {
        let t = list.get(aut, i);
        u = join_one(aut, config, t, u)?;
    }
    Ok(u)
}

// the set of s, from the sets of the round before in words BEFORE
pub fn turn(aut: &mut Aut, config: Config, s: u32) -> Result<SP, Refusal>
    requires { TurnAsked config aut.old s }
    ensures keeps { OnlySets aut.old aut.new }
    ensures only { IfErr result (λ e. e ≡ Sp) }
    ensures gives { Turns config s aut.old result aut.new }
{
    let u = ends_at(aut, config, s)?;
    join_all(aut, config, s, u)
}

// the set of s in a round: in the first without hops, later from the round before
fn set_of(aut: &mut Aut, config: Config, first: bool, s: u32) -> Result<SP, Refusal>
    requires { StepAsked config first aut.old s }
    ensures keeps { OnlySets aut.old aut.new }
    ensures only { IfErr result (λ e. e ≡ Sp) }
    ensures gives { Stepped config first s aut.old result aut.new }
{
    if first {
        return ends_at(aut, config, s);
    }
    turn(aut, config, s)
}

// the sets of the n states go into words UNDER
pub fn round(aut: &mut Aut, config: Config, first: bool, n: usize) -> Result<(), Refusal>
    requires { RoundAsked config first aut.old n }
    ensures keeps { OnlySearch aut.old aut.new }
    ensures pending { aut.new.pending ≡ aut.old.pending }
    ensures only { IfErr result (λ e. e ≡ Sp) }
    ensures gives { RoundGives config first n aut.old result aut.new }
{
    for i in 0..n {
        let s = aut_live_words::state_at(aut, i);
        let h = set_of(aut, config, first, s)?;
        aut_live_words::put_set(aut, s, word::UNDER, h);
    }
    Ok(())
}
