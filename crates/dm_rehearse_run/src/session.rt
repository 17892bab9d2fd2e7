ghost use Rattle.std.specs.Prelude.{◌≡◌, ◌≤◌, false, length, IfOk, OnOk};
ghost use Rattle.dm_answers.specs.Add.{IsOrder};
ghost use Rattle.dm_disk.specs.Memory.{held_in};
ghost use Rattle.dm_generated.specs.Content.{address_text};
ghost use Rattle.dm_request.specs.Fault.{IsRead};
ghost use Rattle.dm_rehearse_run.specs.Kept.{Holds, IsComplete, IsGenerated, IsKeptFor, IsOpen};
ghost use Rattle.dm_rehearse_run.specs.Sessions.{Adds, Begins, Brings, Continues, FirstSession, GoesOn, HasFile, IsOrderOf, Opens, Resumes, SecondSession, Tries};

use dm_answers::{Order, Taken};
use dm_attempt::Ended;
use dm_disk::MemoryDisk;
use dm_edge::{Generated, Net};
use dm_fetch::{attempt, fetch};
use dm_generated::address_of;
use dm_generated_net::GeneratedNet;
use dm_items::Desk;
use dm_request::read_address;
use dm_types::{Address, By, Item, ItemId, LIMITS, NoMemory, Phase, Text, let_go};
use std::alloc::Global;

/// How many parts are asked for at once.
const SLICES: u32 = 4;

/// A rehearsal knows no clock.
const MOMENT: u64 = 0;

/// The only item of its list.
const ITEM: ItemId = ItemId(1);

/// Opens the list of a disk for an origin. A fault of the disk is want of memory, here and below, since no call of it
/// is to fail.
fn opened(
    alloc: Global,
    disk: MemoryDisk,
    origin: Generated,
) -> Result<Desk<MemoryDisk, Generated>, NoMemory>
    requires { IsKeptFor origin.seed (held_in disk) }
    ensures opens { IfOk result (Opens origin disk) }
    ensures open { IfOk result IsOpen }
    ensures origin { IfOk result (λ desk. desk.origin ≡ origin) }
    ensures goes_on { IfOk result (λ desk. GoesOn origin.seed disk desk.disk) }
{
    match Desk::open(alloc, disk, origin, LIMITS, MOMENT) {
        Ok(desk) => Ok(desk),
        Err(fault) => {
            let_go(fault);
            Err(NoMemory)
        }
    }
}

fn address_for(alloc: Global, number: u32) -> Result<Address, NoMemory>
    ensures is { IfOk result (IsRead (address_text number)) }
    ensures short { IfOk result (λ address. length address.text ≤ 4096) }
{
    let text = address_of(alloc, u64::from(number))?;
    match read_address(alloc, text.bytes()) {
        Ok(address) => Ok(address),
        Err(_) => Err(NoMemory),
    }
}

/// What is to be brought: the address of the number's content, and nothing else is stated.
fn order_for(alloc: Global, number: u32) -> Result<Order, NoMemory>
    ensures is { IfOk result (IsOrderOf number) }
    ensures keeps { IfOk result IsOrder }
{
    let address = address_for(alloc, number)?;
    Ok(Order {
        word: Text::new(alloc),
        address,
        wish: Text::new(alloc),
        digest: None,
    })
}

/// Adds the item to a list that is empty.
fn added(desk: &mut Desk<MemoryDisk, Generated>, order: Order) -> Result<ItemId, NoMemory>
    requires order { IsOrder order }
    requires open { IsOpen desk.old }
    ensures adds { IfOk result (Adds order desk.old desk.new) }
    ensures open { OnOk result (IsOpen desk.new) }
    ensures origin { OnOk result (desk.new.origin ≡ desk.old.origin) }
    ensures goes_on { OnOk result (GoesOn desk.old.origin.seed desk.old.disk desk.new.disk) }
{
    match desk.add(order, MOMENT) {
        Ok(Taken::New(id)) => Ok(id),
        Ok(Taken::Same(_)) => Err(NoMemory),
        Err(_) => Err(NoMemory),
    }
}

/// One attempt on the item, as by the user. How it ends is on the disk.
fn attempted(
    alloc: Global,
    desk: &mut Desk<MemoryDisk, Generated>,
    net: &mut GeneratedNet,
    id: ItemId,
)
    requires origin { record { seed = net.old.number } ≡ desk.old.origin }
    requires held { Holds desk.old }
    ensures tries { Tries id desk.old desk.new net.old net.new }
    ensures held { Holds desk.new }
    ensures origin { desk.new.origin ≡ desk.old.origin }
    ensures goes_on { GoesOn desk.old.origin.seed desk.old.disk desk.new.disk }
    ensures stays { net.new.number ≡ net.old.number }
{
    let _ended = attempt(alloc, desk, net, id, By::User, SLICES, &[], MOMENT);
}

/// What the first session does on a desk that was opened.
fn begin(
    alloc: Global,
    desk: &mut Desk<MemoryDisk, Generated>,
    net: &mut GeneratedNet,
    order: Order,
) -> Result<(), NoMemory>
    requires order { IsOrder order }
    requires origin { record { seed = net.old.number } ≡ desk.old.origin }
    requires open { IsOpen desk.old }
    ensures begins { OnOk result (Begins order desk.old desk.new net.old net.new) }
    ensures held { OnOk result (Holds desk.new) }
    ensures origin { OnOk result (desk.new.origin ≡ desk.old.origin) }
    ensures goes_on { OnOk result (GoesOn desk.old.origin.seed desk.old.disk desk.new.disk) }
    ensures stays { net.new.number ≡ net.old.number }
{
    let id = added(desk, order)?;
    attempted(alloc, desk, net, id);
    Ok(())
}

/// The disk of a desk.
fn closed(desk: Desk<MemoryDisk, Generated>) -> MemoryDisk
    requires { Holds desk }
    ensures is { result ≡ desk.disk }
    ensures kept { IsKeptFor desk.origin.seed (held_in result) }
{
    desk.into_disk()
}

/// The item is added, and one attempt is made on it.
pub fn first_session(
    alloc: Global,
    disk: MemoryDisk,
    net: &mut GeneratedNet,
    number: u32,
) -> Result<MemoryDisk, NoMemory>
    requires { IsKeptFor net.old.number (held_in disk) }
    ensures first { IfOk result (λ left. FirstSession number disk left net.old net.new) }
    ensures kept { IfOk result (λ left. IsKeptFor net.old.number (held_in left)) }
    ensures stays { net.new.number ≡ net.old.number }
{
    let order = order_for(alloc, number)?;
    let mut desk = opened(alloc, disk, net.origin())?;
    begin(alloc, &mut desk, net, order)?;
    Ok(closed(desk))
}

/// Asks for the item again.
fn resumed(desk: &mut Desk<MemoryDisk, Generated>) -> Result<(), NoMemory>
    requires { IsOpen desk.old }
    ensures resumes { OnOk result (Resumes desk.old desk.new) }
    ensures open { OnOk result (IsOpen desk.new) }
    ensures origin { OnOk result (desk.new.origin ≡ desk.old.origin) }
    ensures goes_on { OnOk result (GoesOn desk.old.origin.seed desk.old.disk desk.new.disk) }
{
    match desk.resume(ITEM) {
        Ok(()) => Ok(()),
        Err(_) => Err(NoMemory),
    }
}

/// Brings the item to its end: an attempt by the user, and those that it makes by itself.
fn fetched(
    alloc: Global,
    desk: &mut Desk<MemoryDisk, Generated>,
    net: &mut GeneratedNet,
) -> Result<(), NoMemory>
    requires origin { record { seed = net.old.number } ≡ desk.old.origin }
    requires open { IsOpen desk.old }
    ensures brings { OnOk result (Brings desk.old desk.new net.old net.new) }
    ensures whole { OnOk result (desk.new.broken ≡ false) }
    ensures held { OnOk result (Holds desk.new) }
    ensures origin { OnOk result (desk.new.origin ≡ desk.old.origin) }
    ensures goes_on { OnOk result (GoesOn desk.old.origin.seed desk.old.disk desk.new.disk) }
    ensures stays { net.new.number ≡ net.old.number }
{
    match fetch(alloc, desk, net, ITEM, SLICES, &[], MOMENT) {
        Ended::Complete => Ok(()),
        Ended::Stopped(_) => Err(NoMemory),
        Ended::Fault(_) => Err(NoMemory),
    }
}

/// The name of an item's file, where it is complete.
fn name_of(alloc: Global, item: &Item) -> Result<Text, NoMemory>
    ensures { IfOk result (IsComplete item.now) }
{
    match (item.phase, &item.name) {
        (Phase::Complete, Some(name)) => name.copy(alloc),
        _ => Err(NoMemory),
    }
}

/// The same of the item of a desk.
fn name_in(alloc: Global, desk: &Desk<MemoryDisk, Generated>) -> Result<Text, NoMemory>
    requires whole { desk.now.broken ≡ false }
    requires held { Holds desk.now }
    ensures file { IfOk result (HasFile desk.now) }
    ensures generated { IfOk result (λ name. IsGenerated (held_in desk.now.disk) name desk.now.origin.seed) }
{
    match desk.view(ITEM) {
        Some(item) => name_of(alloc, item),
        None => Err(NoMemory),
    }
}

/// What the second session does on a desk that was opened: the name of the file that was published.
fn go_on(
    alloc: Global,
    desk: &mut Desk<MemoryDisk, Generated>,
    net: &mut GeneratedNet,
) -> Result<Text, NoMemory>
    requires origin { record { seed = net.old.number } ≡ desk.old.origin }
    requires open { IsOpen desk.old }
    ensures continues { IfOk result (λ name. Continues desk.old desk.new name net.old net.new) }
    ensures generated { IfOk result (λ name. IsGenerated (held_in desk.new.disk) name net.old.number) }
    ensures goes_on { OnOk result (GoesOn desk.old.origin.seed desk.old.disk desk.new.disk) }
    ensures stays { net.new.number ≡ net.old.number }
{
    resumed(desk)?;
    fetched(alloc, desk, net)?;
    name_in(alloc, desk)
}

/// A disk with a file that was brought, and the file's name.
#[derive(Drop)]
pub struct Brought {
    pub disk: MemoryDisk,
    pub name: Text,
}

/// The item is resumed, and brought to its end.
pub fn second_session(
    alloc: Global,
    disk: MemoryDisk,
    net: &mut GeneratedNet,
) -> Result<Brought, NoMemory>
    requires { IsKeptFor net.old.number (held_in disk) }
    ensures second { IfOk result (λ brought. SecondSession disk brought.disk brought.name net.old net.new) }
    ensures generated { IfOk result (λ brought. IsGenerated (held_in brought.disk) brought.name net.old.number) }
    ensures stays { net.new.number ≡ net.old.number }
{
    let mut desk = opened(alloc, disk, net.origin())?;
    let name = go_on(alloc, &mut desk, net)?;
    Ok(Brought {
        disk: desk.into_disk(),
        name,
    })
}
