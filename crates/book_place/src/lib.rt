// A line in a book that runs, and what it is told to do: the lines that it names are looked up, its constructor is done, and the state is kept in the table of lines.
#![tactic(auto)]

ghost use Rattle.std.specs.Prelude.{◌≤◌, length};
ghost use Rattle.book_memory.specs.Place.{lines_at};
ghost use Rattle.book_place.specs.Clauses as Its;
ghost use Rattle.book_place.specs.Clauses.{OnlyWork, PreOperand, PostOperand, PreOperands, PostOperands, PostTold, OnlyMade, PreMake, PostMake};

use aut_states::Config;
use book_construct::Line;
use book_memory::{Lines, Place};
use book_reader::{Cursor, Query, Said};
use book_words::{Bit, Listed, Pair};
use refusal::Refusal;

// a constructor line; or a query, of the line named, with its state
#[derive(Clone, Copy)]
pub enum Told {
    Makes(Line),
    Asks(Query, usize, u32),
}

// ---- names

// the state that the line of this number stands for
fn named(lines: &Lines, a: u64) -> Result<u32, Refusal>
    requires { lines.now.count ≤ length lines.now.words.now }
    ensures { Its.Named (lines_at lines.now) a result }
{
    lines.get(a as usize).ok_or(Refusal::Name)
}

// behind operand i of a list: its state is word i of scratch, as far as a list may be long; none if it is no earlier constructor line
fn read_operand<'a>(place: &mut Place, most: usize, c: Cursor<'a>, i: usize) -> Option<Cursor<'a>>
    requires { PreOperand most place.old }
    ensures keeps { OnlyWork place.old place.new }
    ensures gives { PostOperand most c.entry i result place.old place.new }
{
    let (a, next) = c.number()?;
    let x = place.lines.get(a as usize)?;
    if i < most {
        place.aut.scratch[i] = x;
    }
    Some(next)
}

// all of a list's n operands are earlier constructor lines
fn operands(place: &mut Place, most: usize, from: Cursor, n: usize) -> Result<(), Refusal>
    requires { PreOperands most from n place.old }
    ensures keeps { OnlyWork place.old place.new }
    ensures gives { PostOperands most from.entry n result place.old place.new }
{
    let mut c = from;
    for i in 0..n {
        c = read_operand(place, most, c, i).ok_or(Refusal::Name)?;
    }
    Ok(())
}

// ---- what a line is told to do

fn told_bit(fields: u32, w: Bit, f: u64, v: u64) -> Result<Told, Refusal>
    ensures { Its.TellsBit fields w f v result }
{
    if f >= fields as u64 || v > 1 {
        return Err(Refusal::Range);
    }
    Ok(Told::Makes(Line::Bit(w, f as u32, v == 1)))
}

fn told_pair(lines: &Lines, w: Pair, a: u64, b: u64) -> Result<Told, Refusal>
    requires { lines.now.count ≤ length lines.now.words.now }
    ensures { Its.TellsPair lines.now w a b result }
{
    let x = named(lines, a)?;
    let y = named(lines, b)?;
    Ok(Told::Makes(Line::Pair(w, x, y)))
}

// every name of a list is looked at before its length
fn told_list(
    place: &mut Place,
    most: usize,
    w: Listed,
    c: Cursor,
    n: usize,
) -> Result<Told, Refusal>
    requires { PreOperands most c n place.old }
    ensures keeps { OnlyWork place.old place.new }
    ensures tells { Its.TellsList most w c.entry result place.old place.new }
{
    operands(place, most, c, n)?;
    if n > most {
        return Err(Refusal::List);
    }
    Ok(Told::Makes(Line::Listed(w, n)))
}

pub fn tell(place: &mut Place, config: Config, said: Option<Said>) -> Result<Told, Refusal>
    requires { Its.PreTold config said place.old }
    ensures keeps { OnlyWork place.old place.new }
    ensures tells { PostTold config said.entry result place.old place.new }
{
    let said = said.ok_or(Refusal::Form)?;
    match said {
        Said::Constant(w) => Ok(Told::Makes(Line::Constant(w))),
        Said::Bit(w, f, v) => told_bit(config.fields, w, f, v),
        Said::Single(w, a) => {
            let x = named(&place.lines, a)?;
            Ok(Told::Makes(Line::Single(w, x)))
        }
        Said::Pair(w, a, b) => told_pair(&place.lines, w, a, b),
        Said::Listed(w, c, n) => told_list(place, config.limits.list, w, c, n),
        Said::Query(q, a) => {
            let x = named(&place.lines, a)?;
            Ok(Told::Asks(q, a as usize, x))
        }
    }
}

// ---- a constructor line

// a constructor, and its state in the table of lines
pub fn make_line(place: &mut Place, config: Config, line: Line) -> Result<(), Refusal>
    requires { PreMake config line place.old }
    ensures keeps { OnlyMade place.old place.new }
    ensures gives { PostMake config line result place.old place.new }
{
    let z = book_construct::make(&mut place.aut, config, line)?;
    place.lines.add(Some(z));
    Ok(())
}
