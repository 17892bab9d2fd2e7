//! What a command says is written to both outputs.
ghost use Rattle.std.specs.Prelude.{IfOk};
ghost use Rattle.dm_types.specs.Faults.{HasCause};
ghost use Rattle.dm_edge.specs.Faults.{edge_kind};
ghost use Rattle.dm_does.specs.Printing.{Prints, SameCounts};
ghost use Rattle.dm_list.specs.Writing.{WritesAll, outputs_of};

use dm_edge::{EdgeFault, Sink};
use dm_report::Ending;

/// Writes all of a text. Each turn writes at least one byte of it.
pub fn write_all<S: Sink>(sink: &mut S, text: &[u8]) -> Result<(), EdgeFault>
    ensures written { S.tells → WritesAll (S.written sink.old) (S.written sink.new) result text.now }
    ensures cause { HasCause edge_kind (S.faults sink.old) (S.faults sink.new) result }
    ensures quiet { IfOk result (λ _. SameCounts (S.faults sink.old) (S.faults sink.new)) }
{
    let mut rest = text;
    while !rest.is_empty() {
        match sink.write(rest) {
            Ok(count) => rest = rest.split_at(count).1,
            Err(fault) => return Err(fault),
        }
    }
    Ok(())
}

/// Prints what the ending says, and answers its status, or 7 where a write failed.
pub fn print_ending<S: Sink>(ending: &Ending, out: &mut S, errs: &mut S) -> u8
    ensures { Prints S.tells (outputs_of S.written S.faults out.old errs.old) (outputs_of S.written S.faults out.new errs.new) ending.now result }
{
    match write_all(out, ending.out_text()) {
        Ok(()) => {}
        Err(EdgeFault::Failed) => return 7,
    }
    match write_all(errs, ending.errs_text()) {
        Ok(()) => ending.status(),
        Err(EdgeFault::Failed) => 7,
    }
}
