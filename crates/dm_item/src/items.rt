ghost use Rattle.std.specs.Prelude.{◌≡◌, ◌≢◌, ◌↔◌, ◌+◌, ◌≤◌, ◌⊎◌, ◌++◌, ◌∷◌, [], cond, false, IsTrue, IsSome, IfSome, IfNone, IfOk, IfErr, OnOk, OnErr, length, map, option_map};
ghost use Rattle.std.specs.Option.{option_copied};
ghost use Rattle.dm_item.specs.Words.{HasNoWord, IsWordOf};

use crate::ApplyFault;
use crate::before::{Before, changed_copy, copy_found, put_back, put_item};
use crate::change::make_item;
use crate::copies::copy_item;
use crate::names::is_free_word;
use crate::restored::is_restorable;
use crate::rows::{is_light, mode_of_item, target_of};
use crate::take::{add_restored, change_target, find_row, push_item, stop_every};
use dm_types::{Entry, Item, ItemId, Listed, Mode, NoMemory, Text};
use std::alloc::Global;
use std::marker::Model;

/// The items, by rising id, and what of the history the next entry's row speaks of.
#[derive(Drop)]
pub struct Items {
    limit: u32,
    next: u32,
    first: bool,
    early: bool,
    items: Vec<Item>,
    alloc: Global,
}

impl Model for Items {
    ghost use Rattle.dm_item.specs.Listing.{Listing};
    ghost use Rattle.dm_item.specs.Kept.{IsKept};

    ghost Value = { Listing };

    ghost view = { λ s. record {
      limit = s.limit;
      next = s.next;
      is_first = s.first;
      is_early = s.early;
      items = s.items.items;
    } };

    ghost invariant = { λ s. IsKept (record {
      limit = s.limit;
      next = s.next;
      is_first = s.first;
      is_early = s.early;
      items = s.items.items;
    }) };
}

impl Items {
    ghost use Rattle.dm_item.specs.Before.{HasTaken, IsBefore};
    ghost use Rattle.dm_item.specs.Fields.{added_item};
    ghost use Rattle.dm_item.specs.Ready.{IsReady, adds_item};
    ghost use Rattle.dm_item.specs.Row.{mode_of_item, target_of, stopped_item};
    ghost use Rattle.dm_item.specs.Lawful.{History, IsOf, IsShort, KeepsHistory, TookSome, short_history};
    ghost use Rattle.dm_item.specs.Words.{HasWordOf, IsFreeWord};
    ghost use Rattle.dm_item.specs.Restored.{IsRestorable};
    ghost use Rattle.dm_item.specs.Listing.{Admits, HasRoom, RowAt, Takes, empty_list, is_light, item_in, items_after, put_in, target_in};
    ghost use Rattle.dm_item.specs.Declines.{AddedDeclines, Declines, TargetDeclines, ReopenedDeclines, RestoredDeclines};
    ghost use Rattle.dm_item.specs.declared.fault.ApplyFault.TheVariants as faults;

    /// An empty list that takes on at most `limit` items.
    pub fn new(alloc: Global, limit: u32) -> Result<Items, NoMemory>
        ensures empty { IfOk result (λ items. items ≡ empty_list limit) }
        ensures history { IfOk result (IsOf []) }
    {
        Ok(Items {
            limit,
            next: 1,
            first: true,
            early: true,
            items: Vec::with_capacity(alloc, 16)?,
            alloc,
        })
    }

    /// The item with an id, where there is one.
    pub fn get(&self, id: ItemId) -> Option<&Item>
        ensures { option_copied result ≡ item_in id.0 self.now.items }
    {
        self.items.iter().find(|item| item.id.0 == id.0)
    }

    /// All items, by rising id.
    pub fn items(&self) -> &[Item]
        ensures { result.now ≡ self.now.items }
    {
        &self.items
    }

    /// The id that the next item gets.
    pub fn next(&self) -> u32
        ensures { result ≡ self.now.next }
    {
        self.next
    }

    /// How many items there are.
    pub fn count(&self) -> u32
        ensures { result ≡ length self.now.items }
    {
        // The ids are different and below this one, so there are fewer items.
        let _below = self.next;
        self.items.len() as u32
    }

    /// Whether the list takes an entry. It changes nothing and takes no memory.
    pub fn admits(&self, entry: &Entry) -> Result<(), ApplyFault>
        ensures ok { OnOk result (Admits self.now entry.now) }
        ensures err { IfErr result (Declines self.now entry.now) }
        ensures light { IfErr result (λ fault. fault ≢ faults.NoMemory) }
    {
        match entry {
            Entry::Added { id, word, .. } => self.check_added(*id, word),
            Entry::Reopened { next, .. } => self.check_reopened(*next),
            Entry::Restored { item } => self.check_restored(item),
            _ => self.check_target(entry),
        }
    }

    /// Takes an entry where it meets its row in the list, and does what it says. A refusal changes
    /// nothing. Only an `Added`, `Described`, `Progress`, `Restarted` or `Restored` wants memory.
    pub fn apply(&mut self, entry: &Entry) -> Result<(), ApplyFault>
        ensures ok { OnOk result (Takes entry.now self.old self.new) }
        ensures err { IfErr result (Declines self.old entry.now) }
        ensures light { IsTrue (is_light entry.now) → IfErr result (λ fault. fault ≢ faults.NoMemory) }
        ensures same { OnErr result (self.new ≡ self.old) }
    {
        match entry {
            Entry::Added {
                id,
                word,
                address,
                wish,
                digest,
                at,
            } => self.add(*id, word, address, wish, *digest, *at),
            Entry::Reopened { next, .. } => self.reopen(*next),
            Entry::Restored { item } => self.restore(item),
            _ => self.take_target(entry),
        }
    }

    /// All that the list needs to take this entry later, where that wants memory: its item as the
    /// entry will leave it. It changes nothing.
    pub fn ready(&self, entry: &Entry) -> Result<Option<Item>, NoMemory>
        ensures { IfOk result (IsReady self.now entry.now) }
    {
        if is_light(entry) {
            return Ok(None);
        }
        changed_copy(self.alloc, entry, self.target(entry))
    }

    /// Takes an entry that the list admits, with what `ready` made for it of the list as it is now.
    /// It takes no memory. An entry that adds an item goes by `apply`.
    pub fn put(&mut self, entry: &Entry, item: Option<Item>)
        requires stays { adds_item entry.now ≡ false }
        requires admitted { Admits self.old entry.now }
        requires ready { IsReady self.old entry.now item }
        ensures { Takes entry.now self.old self.new }
    {
        match item {
            Some(item) => self.put_changed(item),
            None => match self.apply(entry) {
                Ok(()) => {}
                Err(_) => unreachable!(),
            },
        }
    }

    fn put_changed(&mut self, item: Item)
        ensures { self.new ≡ record self.old {
          is_first = false;
          is_early = false;
          items = put_in item.id.0 item self.old.items;
        } }
    {
        put_item(&mut self.items, item);
        self.first = false;
        self.early = false;
    }

    /// What the list is now, as far as this entry will change it, for `take_back`.
    pub fn before(&self, entry: &Entry) -> Result<Before, NoMemory>
        ensures { IfOk result (IsBefore self.now entry.now) }
    {
        match copy_found(self.alloc, self.target(entry)) {
            Ok(item) => Ok(Before {
                next: self.next,
                first: self.first,
                early: self.early,
                item,
            }),
            Err(NoMemory) => Err(NoMemory),
        }
    }

    /// Takes back the entry that the list took last, where `before` was made of the list and of that
    /// entry before. It takes no memory. An entry that took an item away, or opened the list, isn't
    /// taken back.
    pub fn take_back(&mut self, before: Before)
        requires { HasTaken self.old before }

        // The list is the older one, whatever list and entry that was.
        ensures { (took : HasTaken self.old before) → self.new ≡ took.older }
    {
        let Before {
            next,
            first,
            early,
            item,
        } = before;
        put_back(&mut self.items, item);
        self.next = next;
        self.first = first;
        self.early = early;
    }

    /// Takes entries one after another. The first that isn't taken ends it; those before it are taken.
    /// So a list that has taken entries alone, from its making on, is what the definitions in specs/
    /// say of their history, and that history is lawful.
    pub fn apply_all(&mut self, entries: &[Entry]) -> Result<(), ApplyFault>
        ensures ok { OnOk result (KeepsHistory self.old self.new entries.now) }
        ensures err { OnErr result (TookSome self.old self.new entries.now) }
    {
        for entry in entries {
            match self.apply(entry) {
                Ok(()) => {}
                Err(fault) => return Err(fault),
            }
        }
        Ok(())
    }

    /// A short history of the list, for a journal that is written anew: what is next, and each item
    /// as it stands. It is lawful and leaves the same items.
    pub fn short_history(&self, at: u64) -> Result<Listed<Entry>, NoMemory>
        ensures value { IfOk result (λ list. list ≡ short_history self.now at) }
        ensures law { (history : History) → IsOf history self.now → IsShort self.now at }
    {
        let mut entries = Listed::new(self.alloc);
        entries.push(Entry::Reopened {
            next: self.next,
            at,
        })?;
        add_restored(self.alloc, &self.items, &mut entries)?;
        Ok(entries)
    }

    /// The item that an entry names, where it names one that is there.
    fn target(&self, entry: &Entry) -> Option<&Item>
        ensures { option_copied result ≡ target_in entry.now self.now.items }
    {
        match target_of(entry) {
            Some(id) => self.get(id),
            None => None,
        }
    }

    fn check_target(&self, entry: &Entry) -> Result<(), ApplyFault>
        requires { IsSome (target_of entry.now) }
        ensures ok { OnOk result (RowAt entry.now self.now.items (target_of entry.now)) }
        ensures err { IfErr result (TargetDeclines entry.now self.now.items) }
        ensures light { IfErr result (λ fault. fault ≢ faults.NoMemory) }
    {
        match find_row(entry, &self.items) {
            Ok(_) => Ok(()),
            Err(fault) => Err(fault),
        }
    }

    fn take_target(&mut self, entry: &Entry) -> Result<(), ApplyFault>
        requires { IsSome (target_of entry.now) }
        ensures ok { OnOk result (RowAt entry.now self.old.items (target_of entry.now)) }
        ensures value { OnOk result (self.new ≡ record self.old {
          is_first = false;
          is_early = false;
          items = items_after entry.now (target_of entry.now) self.old.items;
        }) }
        ensures err { IfErr result (TargetDeclines entry.now self.old.items) }
        ensures light { IsTrue (is_light entry.now) → IfErr result (λ fault. fault ≢ faults.NoMemory) }
        ensures same { OnErr result (self.new ≡ self.old) }
    {
        match change_target(self.alloc, entry, &mut self.items) {
            Ok(()) => {
                self.first = false;
                self.early = false;
                Ok(())
            }
            Err(fault) => Err(fault),
        }
    }

    fn check_added(&self, id: ItemId, word: &Text) -> Result<(), ApplyFault>
        ensures room { OnOk result (HasRoom self.now) }
        ensures ok { OnOk result ((id.0 ≡ self.now.next) × IsFreeWord word.now self.now.items) }
        ensures err { IfErr result (AddedDeclines self.now id word.now) }
        ensures light { IfErr result (λ fault. fault ≢ faults.NoMemory) }
    {
        let count = self.count();
        if count >= self.limit || self.next == u32::MAX {
            return Err(ApplyFault::Full(count));
        }
        if id.0 != self.next || !is_free_word(word.bytes(), &self.items) {
            return Err(ApplyFault::Unlawful(1));
        }
        Ok(())
    }

    fn add(
        &mut self,
        id: ItemId,
        word: &Text,
        address: &Text,
        wish: &Text,
        digest: Option<[u8; 32]>,
        at: u64,
    ) -> Result<(), ApplyFault>
        ensures room { OnOk result (HasRoom self.old) }
        ensures ok { OnOk result ((id.0 ≡ self.old.next) × IsFreeWord word.now self.old.items) }
        ensures value { OnOk result (self.new ≡ record self.old {
          next = id.0 + 1;
          is_first = false;
          is_early = false;
          items = self.old.items
              ++ added_item id word.now address.now wish.now digest at ∷ [];
        }) }
        ensures err { IfErr result (AddedDeclines self.old id word.now) }
        ensures same { OnErr result (self.new ≡ self.old) }
    {
        match self.check_added(id, word) {
            Ok(()) => {}
            Err(fault) => return Err(fault),
        }
        let Ok(item) = make_item(self.alloc, id, word, address, wish, digest, at) else {
            return Err(ApplyFault::NoMemory);
        };
        if !push_item(&mut self.items, item) {
            return Err(ApplyFault::NoMemory);
        }
        self.next = id.0 + 1;
        self.first = false;
        self.early = false;
        Ok(())
    }

    fn check_reopened(&self, next: u32) -> Result<(), ApplyFault>
        ensures ok { OnOk result ((next ≡ self.now.next) ⊎ (IsTrue self.now.is_first × (1 ≤ next))) }
        ensures err { IfErr result (ReopenedDeclines self.now next) }
        ensures light { IfErr result (λ fault. fault ≢ faults.NoMemory) }
    {
        if may_reopen(self.first, self.next, next) {
            Ok(())
        } else {
            Err(ApplyFault::Unlawful(13))
        }
    }

    fn reopen(&mut self, next: u32) -> Result<(), ApplyFault>
        ensures ok { OnOk result ((next ≡ self.old.next) ⊎ (IsTrue self.old.is_first × (1 ≤ next))) }
        ensures value { OnOk result (self.new ≡ record self.old {
          next = cond self.old.is_first next self.old.next;
          is_first = false;
          items = map stopped_item self.old.items;
        }) }
        ensures err { IfErr result (ReopenedDeclines self.old next) }
        ensures light { IfErr result (λ fault. fault ≢ faults.NoMemory) }
        ensures same { OnErr result (self.new ≡ self.old) }
    {
        match self.check_reopened(next) {
            Ok(()) => {}
            Err(fault) => return Err(fault),
        }
        self.next = next_after(self.first, self.next, next);
        stop_every(&mut self.items);
        self.first = false;
        Ok(())
    }

    fn check_restored(&self, item: &Item) -> Result<(), ApplyFault>
        ensures ok { OnOk result (IsRestorable self.now.is_early self.now.next self.now.items
            item.now) }
        ensures err { IfErr result (RestoredDeclines self.now item.now) }
        ensures light { IfErr result (λ fault. fault ≢ faults.NoMemory) }
    {
        if is_restorable(self.early, self.next, &self.items, item) {
            Ok(())
        } else {
            Err(ApplyFault::Unlawful(14))
        }
    }

    fn restore(&mut self, item: &Item) -> Result<(), ApplyFault>
        ensures ok { OnOk result (IsRestorable self.old.is_early self.old.next self.old.items
            item.now) }
        ensures value { OnOk result (self.new ≡ record self.old {
          is_first = false;
          items = self.old.items ++ item.now ∷ [];
        }) }
        ensures err { IfErr result (RestoredDeclines self.old item.now) }
        ensures same { OnErr result (self.new ≡ self.old) }
    {
        match self.check_restored(item) {
            Ok(()) => {}
            Err(fault) => return Err(fault),
        }
        let Ok(copy) = copy_item(self.alloc, item) else {
            return Err(ApplyFault::NoMemory);
        };
        if !push_item(&mut self.items, copy) {
            return Err(ApplyFault::NoMemory);
        }
        self.first = false;
        Ok(())
    }

    /// The id of the item with a word. The empty word names none.
    pub fn by_word(&self, word: &[u8]) -> Option<ItemId>
        ensures some { IfSome result (HasWordOf word.now self.now.items) }
        ensures none { IfNone result (IsFreeWord word.now self.now.items) }
    {
        if word.is_empty() {
            return None;
        }
        find_word(word, &self.items)
    }

    /// How the item with an id may go on.
    pub fn mode(&self, id: ItemId) -> Option<Mode>
        ensures { result ≡ option_map mode_of_item (item_in id.0 self.now.items) }
    {
        match self.get(id) {
            Some(item) => Some(mode_of_item(item)),
            None => None,
        }
    }
}

/// The id of the first item with a word.
fn find_word(word: &[u8], items: &[Item]) -> Option<ItemId>
    ensures some { IfSome result (IsWordOf word.now items.now) }
    ensures none { IfNone result (HasNoWord word.now items.now) }
{
    for item in items {
        if item.word.is(word) {
            return Some(item.id);
        }
    }
    None
}

/// Whether a Reopened may tell this next id: the one that is next, or any from 1 on where it is the
/// first entry.
fn may_reopen(first: bool, current: u32, next: u32) -> bool
    ensures { IsTrue result ↔ ((next ≡ current) ⊎ (IsTrue first × (1 ≤ next))) }
{
    next == current || first && next >= 1
}

/// The next id behind a Reopened.
fn next_after(first: bool, current: u32, next: u32) -> u32
    ensures { result ≡ cond first next current }
{
    if first { next } else { current }
}
