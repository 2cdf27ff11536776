// A script run from its terms to its lines.
ghost use Rattle.std.specs.Prelude.{◌≡◌, IfOk};
ghost use Rattle.lines.specs.Lines.{lines_from};
ghost use Rattle.decode.specs.Decoding.{script_of};
ghost use Rattle.script.specs.Runs.{Ran, Given, outcome_line, CallLines, Printed};

use carrier::{Carrier, Shelf, Slot};
use decode::{Decoder, Phase};
use history::replay;
use lines::Line;
use path::{Entry, Outcome};
use promise::Turn;
use std::alloc::{AllocError, Global};
use wire::{Command, Refusal, Terms};

// A line for each call, with room for two more: the end's, and that of a bad word.
fn turn_lines(heap: Global, turns: &[Turn<Command>]) -> Result<Vec<Line>, AllocError>
    ensures { IfOk result (λ v. v.items ≡ lines_from 0 turns.now) }
{
    let mut lines = Vec::with_capacity(heap, turns.len() + 2)?;
    lines.extend(
        turns
            .iter()
            .enumerate()
            .map(|(position, turn)| Line::of_turn(position as u64, *turn)),
    )?;
    Ok(lines)
}

// Runs the calls on one path over two shelves, and writes each answer beside its call.
fn perform(heap: Global, terms: Terms, turns: &mut [Turn<Command>]) -> Result<Outcome, AllocError>
    ensures { IfOk result (λ outcome. Ran terms turns.old turns.new outcome) }
{
    let mut outward = [Slot::EMPTY; 8];
    let mut back = [Slot::EMPTY; 8];
    let mut kept = vec![in heap; Entry::EndMark; terms.send_window() as usize]?;
    let mut got = vec![in heap; None; terms.receive_window() as usize]?;
    let mut book = [Command::Stop; 64];
    let out = Shelf::new(&mut outward, terms.lifetime());
    let home = Shelf::new(&mut back, terms.lifetime());
    let (outcome, _, _) = replay(terms, out, home, &mut kept, &mut got, &mut book, turns);
    Ok(outcome)
}

// The terms that a script gives, if it gives all five.
fn given(terms: &[u32]) -> Option<Result<Terms, Refusal>>
    ensures { Given terms.now result }
{
    let [send, receive, lifetime, gap, numbers] = *terms else {
        return None;
    };
    Some(Terms::new(send, receive, lifetime, gap, numbers))
}

// The line of the end at a position.
fn end_line(position: u64, outcome: Outcome) -> Line
    ensures { result ≡ outcome_line position outcome }
{
    match outcome {
        Outcome::Complete => Line::Complete { position },
        Outcome::Unsure { .. } => Line::Unsure { position },
    }
}

// Runs the calls under the terms, with their lines and then that of the end.
fn call_lines(
    heap: Global,
    terms: Terms,
    turns: &mut [Turn<Command>],
    ended: bool,
) -> Result<Vec<Line>, AllocError>
    ensures { IfOk result (λ v. CallLines terms turns.old ended v.items) }
{
    let outcome = perform(heap, terms, turns)?;
    let mut lines = turn_lines(heap, turns)?;
    if ended {
        lines.push(end_line(turns.len() as u64, outcome))?;
    }
    Ok(lines)
}

// Runs a script: the lines that it prints, in order.
pub fn run(heap: Global, script: Decoder) -> Result<Vec<Line>, AllocError>
    ensures { IfOk result (λ v. Printed (script_of script) v.items) }
{
    let Decoder {
        phase,
        terms,
        mut turns,
        ended,
        ..
    } = script;
    let mut lines = match given(&terms) {
        Some(Ok(terms)) => call_lines(heap, terms, &mut turns, ended)?,
        Some(Err(refusal)) => return Ok(vec![in heap; Line::Terms { refusal }]?),
        None => Vec::new(heap),
    };
    if let Phase::Bad(place) = phase {
        lines.push(Line::Bad { place })?;
    }
    Ok(lines)
}
