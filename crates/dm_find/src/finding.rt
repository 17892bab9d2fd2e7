ghost use Rattle.std.specs.Prelude.{◌≡◌, ◌≤◌, [], length, IfOk, IfErr};
ghost use Rattle.dm_types.specs.Faults.{HasCause};
ghost use Rattle.dm_types.specs.Limits.{most_items};
ghost use Rattle.dm_disk_model.specs.Disk.{now};
ghost use Rattle.dm_disk_model.specs.Names.{NeverStands};
ghost use Rattle.dm_disk_model.specs.Moments.{LeavesOnly, KeepsFiles};
ghost use Rattle.dm_item.specs.Listing.{empty_list};
ghost use Rattle.dm_journal.specs.AtRest.{AtRest, journal_place};
ghost use Rattle.dm_journal.specs.Fault.{IsNoDamage, journal_kind};
ghost use Rattle.dm_journal.specs.Starting.{NoneOrBlank};
ghost use Rattle.dm_journal.specs.Text.{front, header};
ghost use Rattle.dm_find.specs.Bodies.{IsListOf, ListFails, text_fault};
ghost use Rattle.dm_find.specs.Finding.{FindFails, FindLeaves, IsFound};

use crate::bodies::take_bodies;
use dm_disk_model::Disk;
use dm_item::Items;
use dm_journal::{Bodies, Journal, JournalFault, TextFault};
use dm_types::{NoMemory, Text, let_go};
use std::alloc::Global;

/// A journal, and the list that it holds.
#[derive(Drop)]
pub struct FoundList {
    pub journal: Journal,
    pub items: Items,
}

/// A journal with an empty list.
fn with_items(alloc: Global, journal: Journal, limit: u32) -> Result<FoundList, NoMemory>
    ensures journal { IfOk result (λ list. list.journal ≡ journal) }
    ensures items { IfOk result (λ list. list.items ≡ empty_list limit) }
{
    match Items::new(alloc, limit) {
        Ok(items) => Ok(FoundList { journal, items }),
        Err(NoMemory) => Err(NoMemory),
    }
}

fn text_fault(fault: TextFault) -> JournalFault
    ensures { result ≡ text_fault fault }
{
    match fault {
        TextFault::Damaged(place) => JournalFault::Damaged(place),
        TextFault::NoMemory => JournalFault::NoMemory,
    }
}

/// Takes the bodies of a journal into its empty list.
fn take_list(alloc: Global, bodies: &[Text], list: FoundList) -> Result<FoundList, JournalFault>
    requires empty { list.items ≡ empty_list list.items.limit }
    requires end { list.journal ≡ length (front bodies.now) }
    ensures journal { IfOk result (λ found. found.journal ≡ list.journal) }
    ensures found { IfOk result (λ found. IsListOf list.items.limit bodies.now found.items) }
    ensures limit { IfOk result (λ found. found.items.limit ≡ list.items.limit) }
    ensures refused { IfErr result (ListFails list.items.limit bodies.now) }
{
    let mut list = list;
    let end = list.journal.length() - 1;
    match take_bodies(alloc, bodies, end, &mut list.items) {
        Ok(()) => Ok(list),
        Err(fault) => {
            let_go(list);
            Err(text_fault(fault))
        }
    }
}

/// Reads the list that a journal of these bodies holds.
fn read_list(
    alloc: Global,
    journal: Journal,
    bodies: &Bodies,
    limit: u32,
) -> Result<FoundList, JournalFault>
    requires end { journal ≡ length (front bodies.now) }
    ensures journal { IfOk result (λ found. found.journal ≡ journal) }
    ensures found { IfOk result (λ found. IsListOf limit bodies.now found.items) }
    ensures limit { IfOk result (λ found. found.items.limit ≡ limit) }
    ensures refused { IfErr result (ListFails limit bodies.now) }
{
    match with_items(alloc, journal, limit) {
        Ok(list) => take_list(alloc, bodies.items(), list),
        Err(NoMemory) => Err(JournalFault::NoMemory),
    }
}

/// Starts a journal with an empty list.
fn start_list<D: Disk>(alloc: Global, disk: &mut D, limit: u32) -> Result<FoundList, JournalFault>
    requires { D.tells → NeverStands journal_place (now (D.history disk.old)) }
    ensures moments { D.tells → LeavesOnly (D.history disk.old) (D.history disk.new) NoneOrBlank }
    ensures ok { D.tells → IfOk result (λ list. AtRest (now (D.history disk.new)) list.journal []) }
    ensures items { IfOk result (λ list. list.items ≡ empty_list limit) }
    ensures at { IfOk result (λ list. list.journal ≡ length header) }
    ensures undamaged { IfErr result IsNoDamage }
    ensures beside { D.tells → KeepsFiles (D.history disk.old) (D.history disk.new) }
    ensures cause { HasCause journal_kind (D.faults disk.old) (D.faults disk.new) result }
    ensures far { D.far disk.new ≡ D.far disk.old }
{
    match Journal::start(alloc, disk) {
        Ok(journal) => match with_items(alloc, journal, limit) {
            Ok(list) => Ok(list),
            Err(NoMemory) => Err(JournalFault::NoMemory),
        },
        Err(fault) => Err(fault),
    }
}

/// Finds the journal, or starts it, and reads the list that it holds. Nothing is written where a journal
/// stands.
pub fn find_list<D: Disk>(
    alloc: Global,
    disk: &mut D,
    limit: u32,
) -> Result<FoundList, JournalFault>
    requires { limit ≤ most_items }
    ensures moments { D.tells → LeavesOnly (D.history disk.old) (D.history disk.new) (FindLeaves (now (D.history disk.old))) }
    ensures found { IfOk result (λ list. IsFound D.tells (D.history disk.old) (D.history disk.new) limit list.journal list.items) }
    ensures refused { D.tells → IfErr result (FindFails (D.history disk.old) (D.history disk.new) limit) }
    ensures limit { IfOk result (λ list. list.items.limit ≡ limit) }
    ensures beside { D.tells → KeepsFiles (D.history disk.old) (D.history disk.new) }
    ensures cause { HasCause journal_kind (D.faults disk.old) (D.faults disk.new) result }
    ensures far { D.far disk.new ≡ D.far disk.old }
{
    match Journal::find(alloc, disk) {
        Ok(Some((journal, bodies))) => read_list(alloc, journal, &bodies, limit),
        Ok(None) => start_list(alloc, disk, limit),
        Err(fault) => Err(fault),
    }
}
