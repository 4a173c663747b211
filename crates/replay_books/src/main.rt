// Runs books from standard input with the lengths that stand before each, and prints each whole outcome. A case is a line
// `SP SPP STATES MEMBERS TRANSITIONS PENDING SCRATCH OUTPUT BYTES` (words lent of each table, bytes of output and book), then the book's bytes.
// Printed for it: a line `NUMBER LINE LENGTH`; the output; and for each table a line with its name and its words up to the last that is not 0.
// The tables are those that the case before left.
#![tactic(auto)]

ghost use Rattle.std.specs.Prelude.{◌-◌, ◌≤◌, IfOk, length};

use netcheck_entry::{Outcome, Tables};
use std::io;

// the most cases of a text
const CASES: usize = 100000;

#[derive(Clone, Copy)]
struct Lent {
    sp: usize,
    spp: usize,
    states: usize,
    members: usize,
    transitions: usize,
    pending: usize,
    scratch: usize,
    output: usize,
    bytes: usize,
}

// the number at the text's start, and the text behind the byte that ends it
fn number(text: &[u8]) -> (usize, &[u8])
    ensures { length result.1.now ≤ length text.now - 1 }
{
    let mut value: usize = 0;
    for (i, b) in text.iter().enumerate() {
        if !b.is_ascii_digit() {
            return (value, &text[i + 1..]);
        }
        if value < 10000000 {
            value = 10 * value + (b - b'0') as usize;
        }
    }
    (value, &text[text.len()..])
}

fn lengths(text: &[u8]) -> (Lent, &[u8])
    ensures { length result.1.now ≤ length text.now - 1 }
{
    let (sp, text) = number(text);
    let (spp, text) = number(text);
    let (states, text) = number(text);
    let (members, text) = number(text);
    let (transitions, text) = number(text);
    let (pending, text) = number(text);
    let (scratch, text) = number(text);
    let (output, text) = number(text);
    let (bytes, text) = number(text);
    let lent = Lent {
        sp,
        spp,
        states,
        members,
        transitions,
        pending,
        scratch,
        output,
        bytes,
    };
    (lent, text)
}

// words up to the last that is not 0
fn used(table: &[u32]) -> usize
    ensures { result ≤ length table.now }
{
    table
        .iter()
        .rposition(|word| *word != 0)
        .map_or(0, |i| i + 1)
}

fn print_table(rt: &impl Print, name: &[u8], table: &[u32]) -> io::Result<()> {
    rt.write_all(name)?;
    for word in &table[..used(table)] {
        print!(rt; " {word}")?;
    }
    rt.write_all(b"\n")
}

fn print_start(rt: &impl Print, output: &[u8], length: usize) -> io::Result<()> {
    if length <= output.len() {
        rt.write_all(&output[..length])?;
    }
    Ok(())
}

fn print_told(rt: &impl Print, told: Outcome, output: &[u8]) -> io::Result<()> {
    println!(rt; "{} {} {}", told.number, told.line, told.length)?;
    print_start(rt, output, told.length)
}

// the case at the text's start; what is given is the text behind it
fn replay_case<'a>(rt: &impl Print, text: &'a [u8], tables: &mut Tables) -> io::Result<&'a [u8]>
    ensures { IfOk result (λ rest. length rest.now ≤ length text.now - 1) }
{
    let (l, text) = lengths(text);
    let end = l.bytes.min(text.len());
    let sp = l.sp.min(tables.sp.len());
    let spp = l.spp.min(tables.spp.len());
    let states = l.states.min(tables.states.len());
    let members = l.members.min(tables.members.len());
    let transitions = l.transitions.min(tables.transitions.len());
    let pending = l.pending.min(tables.pending.len());
    let scratch = l.scratch.min(tables.scratch.len());
    let output = l.output.min(tables.output.len());
    let told = netcheck_entry::netcheck_run(
        &text[..end],
        &mut tables.sp[..sp],
        &mut tables.spp[..spp],
        &mut tables.states[..states],
        &mut tables.members[..members],
        &mut tables.transitions[..transitions],
        &mut tables.pending[..pending],
        &mut tables.scratch[..scratch],
        &mut tables.output[..output],
    );
    print_told(rt, told, &tables.output[..output])?;
    print_table(rt, b"sp", &tables.sp[..sp])?;
    print_table(rt, b"spp", &tables.spp[..spp])?;
    print_table(rt, b"states", &tables.states[..states])?;
    print_table(rt, b"members", &tables.members[..members])?;
    print_table(rt, b"transitions", &tables.transitions[..transitions])?;
    print_table(rt, b"pending", &tables.pending[..pending])?;
    print_table(rt, b"scratch", &tables.scratch[..scratch])?;
    Ok(&text[end..])
}

// case by case, to the text's end or to the most cases
fn replay_all(rt: &impl Print, text: &[u8], tables: &mut Tables) -> io::Result<()> {
    let mut rest = text;
    for _ in 0..CASES {
        if rest.is_empty() {
            break;
        }
        rest = replay_case(rt, rest, tables)?;
    }
    Ok(())
}

fn main(rt: HostRuntime) -> io::Result<()> {
    let mut text = [0u8; 1048576];
    let mut sp = [0u32; 32768];
    let mut spp = [0u32; 65536];
    let mut states = [0u32; 49152];
    let mut members = [0u32; 32768];
    let mut transitions = [0u32; 65536];
    let mut pending = [0u32; 8192];
    let mut scratch = [0u32; 6144];
    let mut output = [0u8; 65536];
    let got = reading::read_full(&mut rt.stdin(), &mut text)?;
    let mut tables = Tables {
        sp: &mut sp,
        spp: &mut spp,
        states: &mut states,
        members: &mut members,
        transitions: &mut transitions,
        pending: &mut pending,
        scratch: &mut scratch,
        output: &mut output,
    };
    replay_all(&rt, &text[..got], &mut tables)
}
