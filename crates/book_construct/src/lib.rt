// A constructor line of a book: the constructor of its word, on the states of the lines that it names.
#![tactic(auto)]

ghost use Rattle.std.specs.Prelude.{[], ◌∷◌, ◌<◌};
ghost use Rattle.aut_steps.specs.Tables.{words, on_states};
ghost use Rattle.aut_steps.specs.Ascending.{All};
ghost use Rattle.aut_steps.specs.Constructors as C;
ghost use Rattle.book_construct_steps.specs.Lines as M;
ghost use Rattle.aut_states.specs.Clauses.{limits_of};
ghost use Rattle.aut_relations.specs.Behind.{LISTS};
ghost use Rattle.aut_relations.specs.Lent.{nodes_in, aut_in, Keeps, KeepsExprs, Does, Asked};
ghost use Rattle.aut_union.specs.Clauses.{ListAt, PairAt};
ghost use Rattle.book_words.specs.Clauses.{constant_of, bit_of, single_of, pair_of, listed_of};
ghost use Rattle.book_construct.specs.Clauses.{line_of, LineReady, FieldReady, ReadyBy};

use aut_relations::Aut;
use aut_scratch::{GIVEN, OPENED};
use aut_states::Config;
use book_words::{Bit, Constant, Listed, Pair, Single};
use refusal::Refusal;
use spp::SPP;

// operands are states; the members of a list, at most 64, are the first words of scratch
#[derive(Clone, Copy)]
pub enum Line {
    Constant(Constant),
    Bit(Bit, u32, bool),
    Single(Single, u32),
    Pair(Pair, u32, u32),
    Listed(Listed, usize),
}

fn make_constant(aut: &mut Aut, config: Config, word: Constant) -> Result<u32, Refusal>
    requires { Asked config aut.old }
    ensures keeps { Keeps aut.old aut.new }
    ensures gives { Does config.fields 0 0 aut_in (λ i. i)
        (on_states (M.constant_of config.fields (constant_of word))) aut.old result aut.new }
{
    match word {
        Constant::Zero => aut.states.mk_spp(config.zero()),
        Constant::One => aut.states.mk_spp(config.one()),
        Constant::All => aut.states.mk_spp(config.top()),
        Constant::Dup => aut.states.mk_dup(),
        Constant::Top => aut.states.mk_top(),
    }
}

fn field(aut: &mut Aut, config: Config, word: Bit, f: u32, v: bool) -> Result<SPP, Refusal>
    requires { FieldReady config aut.old f }
    ensures keeps { KeepsExprs aut.old aut.new }
    ensures gives { Does config.fields 0 0 nodes_in (λ h. h.0) (M.bit_of config.fields (bit_of word) f v)
        aut.old result aut.new }
{
    match word {
        Bit::Test => Ok(aut.spp.test(f, v)?),
        Bit::Set => Ok(aut.spp.assign(f, v)?),
    }
}

fn make_bit(aut: &mut Aut, config: Config, word: Bit, f: u32, v: bool) -> Result<u32, Refusal>
    requires { FieldReady config aut.old f }
    ensures keeps { Keeps aut.old aut.new }
    ensures gives { Does config.fields 0 0 aut_in (λ i. i)
        (C.spp_of (M.bit_of config.fields (bit_of word) f v)) aut.old result aut.new }
{
    let h = field(aut, config, word, f, v)?;
    aut.states.mk_spp(h)
}

fn make_single(aut: &mut Aut, config: Config, word: Single, x: u32) -> Result<u32, Refusal>
    requires { Asked config aut.old × All (λ i. i < aut.old.states.count) (x ∷ []) }
    ensures keeps { Keeps aut.old aut.new }
    ensures gives { Does config.fields 0 0 aut_in (λ i. i)
        (M.single_of config.fields (limits_of config.limits) (single_of word) x) aut.old result aut.new }
{
    match word {
        Single::Not => aut.states.mk_complement(config, x),
        Single::Star => aut_sequence::mk_star(aut, config, x),
        Single::Next => aut.states.mk_next(config.limits, x),
    }
}

fn make_pair(aut: &mut Aut, config: Config, word: Pair, x: u32, y: u32) -> Result<u32, Refusal>
    requires { Asked config aut.old × PairAt aut.old.states.count x y }
    ensures keeps { Keeps aut.old aut.new }
    ensures gives { Does config.fields 0 LISTS aut_in (λ i. i)
        (M.pair_of config.fields (limits_of config.limits) (pair_of word) x y) aut.old result aut.new }
{
    match word {
        Pair::Or => aut_union::mk_union(aut, config, x, y),
        Pair::And => aut_intersect::mk_intersect(aut, config, x, y),
        Pair::Xor => aut_sequence::mk_xor(aut, config, x, y),
        Pair::Minus => aut_sequence::mk_difference(aut, config, x, y),
        Pair::Seq => aut_sequence::mk_sequence(aut, config, x, y),
        Pair::Until => aut.states.mk_until(config.limits, x, y),
    }
}

fn make_listed(aut: &mut Aut, config: Config, word: Listed, k: usize) -> Result<u32, Refusal>
    requires { Asked config aut.old × ListAt aut.old.scratch.now aut.old.states.count GIVEN k OPENED }
    ensures keeps { Keeps aut.old aut.new }
    ensures gives { Does config.fields 0 LISTS aut_in (λ i. i)
        (M.listed_of config.fields (limits_of config.limits) (listed_of word)
        (words aut.old.scratch.now GIVEN k)) aut.old result aut.new }
{
    match word {
        Listed::Union => aut_union::mk_union_n(aut, config, GIVEN, k),
        Listed::Inter => aut_intersect::mk_intersect_n(aut, config, GIVEN, k),
    }
}

// the line's state
pub fn make(aut: &mut Aut, config: Config, line: Line) -> Result<u32, Refusal>
    requires { Asked config aut.old ×
        LineReady config.fields aut.old.states.count aut.old.scratch.now line }
    ensures keeps { Keeps aut.old aut.new }
    ensures gives { Does config.fields 0 LISTS aut_in (λ i. i)
        (M.make config.fields (limits_of config.limits) (line_of aut.old.scratch.now line)) aut.old
        result aut.new }
    ensures ready { ReadyBy config result aut.new }
{
    match line {
        Line::Constant(word) => make_constant(aut, config, word),
        Line::Bit(word, f, v) => make_bit(aut, config, word, f, v),
        Line::Single(word, x) => make_single(aut, config, word, x),
        Line::Pair(word, x, y) => make_pair(aut, config, word, x, y),
        Line::Listed(word, k) => make_listed(aut, config, word, k),
    }
}
