// Reads a book on standard input, runs it, and writes the output, and after a refusal a line `refused`, number, text line. For a book over 4,096
// bytes it writes only `too long`.
#![tactic(auto)]

ghost use Rattle.std.specs.Prelude.{◌≡◌, ◌≤◌, length};
ghost use Rattle.slices.specs.Same.{SameSlice};
ghost use Rattle.book_steps.specs.Claim.{Lends, netcheck_lent};
ghost use Rattle.book_finish.specs.Clauses.{number_of, text_line_of, length_of};
ghost use Rattle.book_writer.specs.Clauses.{Room, Put};
ghost use Rattle.refusal.specs.Numbers as refusal;
ghost use Rattle.netcheck.specs.Output.{slices_of, refused_line, closing as Output·closing, too_long, Stands, Prepared};

use book_finish::Stop;
use book_writer::{Output, Part};
use netcheck_entry::Tables;
use std::io;
use std::io::Read;

// how many bytes of the output and of the closing line are written
#[derive(Clone, Copy)]
pub struct Written {
    pub output: usize,
    pub closing: usize,
}

// ---- the closing line

fn refused_line(line: &mut Output, stop: Stop)
    requires { Room 64 line.old }
    ensures keeps { SameSlice line.old.bytes line.new.bytes }
    ensures puts { Put (refused_line (refusal.number_of stop.refusal) stop.line) line.old line.new }
{
    let number = Part::Number(stop.refusal.number() as u64);
    let parts = [number, Part::Number(stop.line as u64)];
    // 64 bytes hold it
    line.line(b"refused", &parts).unwrap();
}

// what it came to: a line of a refusal, and the output's length
fn closing_line(line: &mut Output, ran: Result<usize, Stop>) -> usize
    requires { Room 64 line.old × (line.old.at ≡ 0) }
    ensures keeps { SameSlice line.old.bytes line.new.bytes }
    ensures stands { Stands (Output·closing (number_of ran) (text_line_of ran)) line.new.at
        line.new.bytes.now }
    ensures length { result ≡ length_of ran }
{
    match ran {
        Ok(length) => length,
        Err(stop) => {
            refused_line(line, stop);
            stop.length
        }
    }
}

fn too_long(line: &mut Output)
    requires { Room 64 line.old × (line.old.at ≡ 0) }
    ensures keeps { SameSlice line.old.bytes line.new.bytes }
    ensures stands { Stands too_long line.new.at line.new.bytes.now }
{
    line.put(b"too long\n");
}

// ---- a book

// what is to be written, in the output and the closing line
fn answer(over: bool, book: &[u8], tables: &mut Tables, closing: &mut [u8]) -> Written
    requires { Lends netcheck_lent (slices_of tables.old) × (64 ≤ length closing.old) }
    ensures { Prepared over book.now result tables.new.output.now closing.new }
{
    let mut line = Output {
        bytes: closing,
        at: 0,
    };
    if over {
        too_long(&mut line);
        return Written {
            output: 0,
            closing: line.at,
        };
    }
    let ran = book_run::run(
        book,
        tables.sp,
        tables.spp,
        tables.states,
        tables.members,
        tables.transitions,
        tables.pending,
        tables.scratch,
        tables.output,
    );
    let length = closing_line(&mut line, ran);
    Written {
        output: length,
        closing: line.at,
    }
}

// whether a byte stands behind those that were read
fn is_over<R: Read>(input: &mut R, got: usize) -> io::Result<bool> {
    if got < 4096 {
        return Ok(false);
    }
    let mut more = [0u8; 1];
    let n = reading::read_full(input, &mut more)?;
    Ok(n > 0)
}

fn main(rt: HostRuntime) -> io::Result<()> {
    let mut input = rt.stdin();
    let mut book = [0u8; 4096];
    let mut sp = [0u32; 1024];
    let mut spp = [0u32; 2048];
    let mut states = [0u32; 3072];
    let mut members = [0u32; 512];
    let mut transitions = [0u32; 1024];
    let mut pending = [0u32; 512];
    let mut scratch = [0u32; 6144];
    let mut output = [0u8; 4096];
    let mut closing = [0u8; 64];
    let got = reading::read_full(&mut input, &mut book)?;
    let over = is_over(&mut input, got)?;
    let mut tables = Tables {
        sp: &mut sp,
        spp: &mut spp,
        states: &mut states,
        members: &mut members,
        transitions: &mut transitions,
        pending: &mut pending,
        scratch: &mut scratch,
        output: &mut output,
    };
    let w = answer(over, &book[..got], &mut tables, &mut closing);
    rt.write_all(&tables.output[..w.output])?;
    rt.write_all(&closing[..w.closing])
}
