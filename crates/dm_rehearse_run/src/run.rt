ghost use Rattle.std.specs.Prelude.{◌≡◌, ◌≢◌, ℕ, IfSome, IfNone};
ghost use Rattle.dm_words.specs.Asked.{Asked, Asks, Rehearses as AskedFor, asked};
ghost use Rattle.dm_list.specs.Writing.{outputs_of};
ghost use Rattle.dm_rehearse.specs.Rehearsal.{Rehearses};
ghost use Rattle.dm_rehearse_run.specs.Printing.{ComesOf, PrintsRehearsal};

use crate::rehearsal::rehearse;
use dm_edge::Sink;
use dm_list::print_ending;
use dm_report::{Ending, Verdict};
use dm_types::{NoMemory, Text};
use dm_words::{BadWords, Command, read_command};
use std::alloc::Global;

/// The number of a command.
fn number_in(command: Command<'_>) -> Option<u32>
    ensures some { IfSome result (λ number. asked command.entry ≡ AskedFor number) }
    ensures none { IfNone result ((number : ℕ) → asked command.entry ≢ AskedFor number) }
{
    match command {
        Command::Rehearse(number) => Some(number),
        _ => None,
    }
}

/// The number that the words ask a rehearsal of, where they ask for one.
pub fn read_rehearsal(words: &[Text]) -> Option<u32>
    ensures some { IfSome result (λ number. Asks words.now (AskedFor number)) }
    ensures none { IfNone result ((number : ℕ) → ¬ Asks words.now (AskedFor number)) }
{
    match read_command(words) {
        Ok(command) => number_in(command),
        Err(BadWords) => None,
    }
}

/// How a rehearsal ends: with its four lines, or for want of memory.
fn ending_of(alloc: Global, number: u32) -> Ending
    ensures says { Rehearses number result }
    ensures comes { ComesOf number result }
{
    match rehearse(alloc, number) {
        Ok(text) => Ending::new(alloc, Verdict::Done, text),
        Err(NoMemory) => Ending::fixed(alloc, Verdict::NoMemory),
    }
}

/// Rehearses the number, prints how that ended, and answers the status: 0 with four lines, 9 where memory was
/// wanting, or 7 where a write failed. No disk, net or clock of the system is used.
pub fn run_rehearsal<S: Sink>(alloc: Global, number: u32, out: &mut S, errs: &mut S) -> u8
    ensures { PrintsRehearsal S.tells number (outputs_of S.written S.faults out.old errs.old) (outputs_of S.written S.faults out.new errs.new) result }
{
    let ending = ending_of(alloc, number);
    print_ending(&ending, out, errs)
}
