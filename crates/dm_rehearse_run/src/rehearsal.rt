ghost use Rattle.std.specs.Prelude.{◌≡◌, ℕ, IfOk};
ghost use Rattle.dm_disk.specs.Memory.{held_in, history_in};
ghost use Rattle.dm_rehearse_run.specs.Kept.{IsGenerated, IsKeptFor};
ghost use Rattle.dm_rehearse_run.specs.Running.{IsCounted, IsPrinted, IsPublished, IsTold};
ghost use Rattle.dm_rehearse_run.specs.Sessions.{AreSessions, IsEmpty};

use crate::crash::crashed;
use crate::reading::{counts_on, sum_on};
use crate::session::{Brought, first_session, second_session};
use dm_disk::{Area, MemoryDisk, Place};
use dm_generated_net::GeneratedNet;
use dm_rehearse::{Counts, lines_of};
use dm_types::{Listed, NoMemory, Text};
use std::alloc::Global;

/// How much of a file is read at once.
const WINDOW: usize = 65_536;

/// The sum of the published file, which is that of the number's content.
fn published_sum(
    alloc: Global,
    disk: &mut MemoryDisk,
    name: Text,
    number: u64,
) -> Result<[u8; 32], NoMemory>
    requires { IsGenerated (held_in disk.old) name number }
    ensures sum { IfOk result (IsPublished (held_in disk.old) name number) }
    ensures stays { history_in disk.new ≡ history_in disk.old }
{
    let mut window = vec![in alloc; 0u8; WINDOW]?;
    let place = Place {
        area: Area::Files,
        name,
    };
    match sum_on(disk, &place, number, &mut window) {
        Some(sum) => Ok(sum),
        None => Err(NoMemory),
    }
}

/// The counts of the journal, where they add up.
fn sure_counts(alloc: Global, disk: &mut MemoryDisk) -> Result<Counts, NoMemory>
    ensures { IfOk result (IsCounted (held_in disk.old)) }
{
    match counts_on(alloc, disk) {
        Some(counts) if counts.add_up() => Ok(counts),
        _ => Err(NoMemory),
    }
}

/// What is printed of a disk on which the content was brought.
fn told(alloc: Global, brought: Brought, number: u64) -> Result<Text, NoMemory>
    requires { IsGenerated (held_in brought.disk) brought.name number }
    ensures { IfOk result (IsTold (held_in brought.disk) brought.name number) }
{
    let Brought { disk, name } = brought;
    let mut disk = disk;
    let sum = published_sum(alloc, &mut disk, name, number)?;
    let counts = sure_counts(alloc, &mut disk)?;
    lines_of(alloc, number, counts, &sum)
}

/// An empty disk.
fn new_disk(alloc: Global) -> Result<MemoryDisk, NoMemory>
    ensures empty { IfOk result IsEmpty }
    ensures kept { IfOk result (λ disk. (number : ℕ) → IsKeptFor number (held_in disk)) }
{
    MemoryDisk::new(alloc, Listed::new(alloc), None)
}

/// The two sessions of a number, one behind the other, with the crash between them. One net serves both, and all
/// connections are its own.
fn sessions(alloc: Global, number: u32) -> Result<Brought, NoMemory>
    ensures ran { IfOk result (λ brought. AreSessions number brought.disk brought.name) }
    ensures generated { IfOk result (λ brought. IsGenerated (held_in brought.disk) brought.name number) }
{
    let mut net = GeneratedNet::new(number);
    let disk = new_disk(alloc)?;
    let disk = first_session(alloc, disk, &mut net, number)?;
    let disk = crashed(alloc, disk, number)?;
    let brought = second_session(alloc, disk, &mut net)?;
    if net.is_over() {
        Ok(brought)
    } else {
        Err(NoMemory)
    }
}

/// What a rehearsal prints: the content of the number is brought by two sessions, with a crash between them, and
/// then its four lines are told of what stands on the disk. It is wholly in memory.
pub fn rehearse(alloc: Global, number: u32) -> Result<Text, NoMemory>
    ensures { IfOk result (IsPrinted number) }
{
    let brought = sessions(alloc, number)?;
    let content = u64::from(number);
    told(alloc, brought, content)
}
