// The rounds of `why a`: the live sets are worked out and kept first.
#![tactic(auto)]

ghost use Rattle.std.specs.Prelude.{◌≡◌, ◌+◌, ◌*◌, ◌-◌, false, get_or, IfErr};
ghost use Rattle.refusal.specs.declared.Refusal.TheVariants.{Sp};
ghost use Rattle.aut_sets.specs.Lent.{OnlySearch, SameLent};
ghost use Rattle.aut_query_stage.specs.Lent.{QueryAsked};
ghost use Rattle.aut_why_rounds.specs.Clauses.{RoundAsked};
ghost use Rattle.aut_why.specs.Loop.{NextGives, PreHops, hops_after, RoundsAsked, RoundsGive, AllAsked, AllAt};
ghost use Rattle.aut_why.specs.Clauses.{WhyAt};

use aut_relations::Aut;
use aut_states::Config;
use aut_why_words::word;
use refusal::Refusal;

// one round more; if it changed a set, it goes into words BEFORE. Whether it did
fn next_round(aut: &mut Aut, config: Config, n: usize) -> Result<bool, Refusal>
    requires { RoundAsked config false aut.old n }
    ensures keeps { OnlySearch aut.old aut.new }
    ensures pending { aut.new.pending ≡ aut.old.pending }
    ensures only { IfErr result (λ e. e ≡ Sp) }
    ensures gives { NextGives config n aut.old result aut.new }
{
    aut_why_rounds::round(aut, config, false, n)?;
    if aut_why_words::same_sets(aut, n) {
        return Ok(false);
    }
    aut_why_words::copy_sets(aut, n, word::UNDER, word::BEFORE);
    Ok(true)
}

// the fewest hops of a string of x: f, or k if round k, in words BEFORE, is the first with a set that is not empty
fn hops_after(aut: &Aut, config: Config, x: u32, k: usize, f: Option<usize>) -> Option<usize>
    requires { PreHops config.fields aut.now.states.words.now x }
    ensures { result ≡ hops_after config.fields (get_or aut.now.states.words.now (12 * x + 8) 0 - 1)
        k f }
{
    let set = aut_live_words::set_at(aut, x, word::BEFORE);
    f.or((!sp::is_zero(config.fields, set)).then_some(k))
}

// until no set changes: the fewest hops of a string of x
fn rounds(aut: &mut Aut, config: Config, n: usize, x: u32) -> Result<Option<usize>, Refusal>
    requires { RoundsAsked config aut.old n x }
    ensures keeps { OnlySearch aut.old aut.new }
    ensures pending { aut.new.pending ≡ aut.old.pending }
    ensures gives { RoundsGive config n x aut.old result aut.new }
{
    let mut f = None;
    let mut k = 0;
    loop {
        f = hops_after(aut, config, x, k, f);
        if !next_round(aut, config, n)? {
            return Ok(f);
        }
        k += 1;
    }
}

// round 0, and the others
fn all_rounds(aut: &mut Aut, config: Config, n: usize, x: u32) -> Result<Option<usize>, Refusal>
    requires { AllAsked config aut.old n x }
    ensures keeps { OnlySearch aut.old aut.new }
    ensures pending { aut.new.pending ≡ aut.old.pending }
    ensures gives { AllAt config n x aut.old result aut.new }
{
    aut_why_rounds::round(aut, config, true, n)?;
    aut_why_words::copy_sets(aut, n, word::UNDER, word::BEFORE);
    rounds(aut, config, n, x)
}

// the states reached, in the pending table, have been worked out until no set changed: how many there are, and the fewest hops of a string of x
pub fn why_sets(aut: &mut Aut, config: Config, x: u32) -> Result<(usize, Option<usize>), Refusal>
    requires { QueryAsked config aut.old x }
    ensures keeps { SameLent aut.old aut.new }
    ensures gives { WhyAt config x aut.old result aut.new }
{
    let n = aut_live::live_sets(aut, config, x)?;
    aut_live_words::keep(aut, n);
    let hops = all_rounds(aut, config, n, x)?;
    Ok((n, hops))
}
