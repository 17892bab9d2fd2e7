ghost use Rattle.std.specs.Prelude.{◌≡◌, Some, IfOk, IfErr};
ghost use Rattle.dm_words.specs.Asked.{asked};
ghost use Rattle.dm_does.specs.Jobs.{HasJob, RefusesWords, job_of};
ghost use Rattle.dm_list.specs.Reading.{FitsJob, KeepsRules, RefusesAsked};

use crate::order::read_order;
use dm_does::Job;
use dm_report::Verdict;
use dm_types::Text;
use dm_words::{BadWords, Command, read_command};
use std::alloc::Global;

/// The job that words ask, with its address read. They are refused as `BadWords`, `BadAddress`, or for want
/// of memory.
pub fn read_job(alloc: Global, words: &[Text]) -> Result<Job, Verdict>
    ensures ok { IfOk result (HasJob words.now) }
    ensures fits { IfOk result FitsJob }
    ensures refused { IfErr result (RefusesWords words.now) }
{
    match read_command(words) {
        Ok(command) => make_job(alloc, command),
        Err(BadWords) => Err(Verdict::BadWords),
    }
}

/// The job of a command.
fn make_job(alloc: Global, command: Command<'_>) -> Result<Job, Verdict>
    requires { KeepsRules (asked command) }
    ensures ok { IfOk result (λ job. job_of (asked command.entry) ≡ Some job) }
    ensures fits { IfOk result FitsJob }
    ensures refused { IfErr result (RefusesAsked (asked command.entry)) }
{
    match command {
        Command::Get(wish, slices) => match read_order(alloc, &wish) {
            Ok(order) => Ok(Job::Get(order, slices)),
            Err(verdict) => Err(verdict),
        },
        Command::Add(wish) => match read_order(alloc, &wish) {
            Ok(order) => Ok(Job::Add(order)),
            Err(verdict) => Err(verdict),
        },
        Command::Resume(id, slices) => Ok(Job::Resume(id, slices)),
        Command::Pause(id) => Ok(Job::Pause(id)),
        Command::Cancel(id) => Ok(Job::Cancel(id)),
        Command::Remove(id) => Ok(Job::Remove(id)),
        Command::Show(id) => Ok(Job::Show(id)),
        Command::List => Ok(Job::List),
        Command::Report => Ok(Job::Report),
        Command::Export => Ok(Job::Export),
        Command::Archive => Err(Verdict::BadWords),
        Command::History(_, _) => Err(Verdict::BadWords),
        Command::Import(_) => Err(Verdict::BadWords),
        Command::Rehearse(_) => Err(Verdict::BadWords),
        Command::Serve(_) => Err(Verdict::BadWords),
    }
}
