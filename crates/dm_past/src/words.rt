//! The words that ask for a task.
ghost use Rattle.std.specs.Prelude.{◌≡◌, IfSome, IfNone};
ghost use Rattle.dm_words.specs.Asked.{asked};
ghost use Rattle.dm_past.specs.Words.{HasTask, task_of};
ghost use Rattle.dm_past.specs.declared.task.Task.{Task as TheTask};

use crate::Task;
use dm_types::Text;
use dm_words::{BadWords, Command, read_command};

/// The task that a command is.
fn task_of(command: Command<'_>) -> Option<Task>
    ensures { result ≡ task_of (asked command.entry) }
{
    match command {
        Command::Archive => Some(Task::Archive),
        Command::History(after, limit) => Some(Task::Page { after, limit }),
        _ => None,
    }
}

/// The task that words ask for, where they ask for one.
pub fn read_task(words: &[Text]) -> Option<Task>
    ensures some { IfSome result (HasTask words.now) }
    ensures none { IfNone result ((task : TheTask) → HasTask words.now task → ⊥) }
{
    match read_command(words) {
        Ok(command) => task_of(command),
        Err(BadWords) => None,
    }
}
