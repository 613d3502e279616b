// Reads a module and then one request from standard input, and prints the lines of its report and of its check, or the line of its refusal.
#![tactic(auto)]

mod outcome;
mod text;

ghost use Rattle.std.specs.Prelude.{◌≡◌, ◌≤◌, ◌<◌, length, take, IfSome};
ghost use Rattle.report_text.specs.Split.{request_in};
ghost use Rattle.report_text.specs.Input.{max_input, report_input};
ghost use Rattle.report.specs.Outcome.{TextIn};

use crate::outcome::{Outcome, behind, front, walk_read};
use crate::text::write_text;
use access::file::File;
use block::workspace::Workspace;
use boundary_check::check::read_file;
use check_text::line::MAX_LINE;
use lines::report::MAX_TEXT;
use marks::places::MarkPlaces;
use memory::parts::Parts;
use module::tables::WORDS;
use report_text::split::MAX_INPUT;
use std::io;
use std::io::Read;

// What one read puts at the start of input; none where the input ends or the read fails.
fn read_some(reader: &mut impl Read, input: &mut [u8]) -> Option<usize>
    ensures in_bounds { IfSome result (λ n. n ≤ length input.new) }
    ensures prefix_len { IfSome result (λ n. n ≡ length (take n input.new)) }
    ensures some { IfSome result (λ n. 0 < n) }
{
    match reader.read(input) {
        Ok(0) | Err(_) => None,
        Ok(n) => Some(n),
    }
}

// The input, or as much of it as can change the answer.
fn read_input(reader: &mut impl Read, input: &mut [u8]) -> usize
    requires { max_input ≤ length input.old }
    ensures in_bounds { result ≤ length input.new }
    ensures prefix_len { result ≡ length (take result input.new) }
{
    let mut done = 0;
    // Stays: each read says where the next one begins. An iterator over reads would hold the reader and the slice, and serve this loop alone.
    while done < input.len() {
        let Some(n) = read_some(reader, &mut input[done..]) else {
            break;
        };
        done += n;
    }
    done
}

// The arrays of the text and of the check are needed only when the walk has ended: inlined, they would be on the stack during the walk.
#[inline(never)]
fn print(
    rt: &impl Print,
    input: &[u8],
    file: &File,
    firsts: &[u32],
    parts: &mut Parts,
    open: &[u8],
    outcome: Outcome,
) -> io::Result<()>
    requires { TextIn (report_input input.now) file.now.bytes file.now.t (request_in input.now) firsts.now parts.old.cells parts.old.slots «open».now outcome }
{
    let mut text: [u8; MAX_TEXT + MAX_LINE] = [0; MAX_TEXT + MAX_LINE];
    let n = write_text(&mut text, input, file, firsts, parts, open, outcome);
    rt.write_all(&text[0..n])
}

fn answer(
    rt: &impl Print,
    input: &[u8],
    t: &mut [u32; WORDS],
    places: &mut MarkPlaces,
    space: &mut Workspace,
) -> io::Result<()> {
    let bytes = front(input);
    let read = read_file(bytes, t, &mut space.parts);
    let file = File::new(bytes, t);
    let outcome = match read {
        Err(refusal) => Err(refusal),
        Ok(()) => walk_read(&file, places, space, behind(input)),
    };
    print(
        rt,
        input,
        &file,
        &places.firsts,
        &mut space.parts,
        &space.open,
        outcome,
    )
}

fn report(rt: &impl Print, input: &[u8]) -> io::Result<()> {
    let mut t: [u32; WORDS] = [0; WORDS];
    let mut places = MarkPlaces::new();
    let mut space = Workspace::new();
    answer(rt, input, &mut t, &mut places, &mut space)
}

fn main(rt: HostRuntime) -> io::Result<()> {
    let mut input: [u8; MAX_INPUT] = [0; MAX_INPUT];
    let n = read_input(&mut rt.stdin(), &mut input);
    report(&rt, &input[0..n])
}
