ghost use Rattle.std.specs.Prelude.{◌≡◌, IfOk, bytes_eq, option_map};
ghost use Rattle.std.specs.Option.{option_copied};
ghost use Rattle.dm_types.specs.Faults.{HasCause};
ghost use Rattle.dm_hist.specs.Faults.{keeper_kind};
ghost use Rattle.dm_hist.specs.Rows.{row_with};
ghost use Rattle.dm_shown.specs.declared.named.Named.TheVariants as names;
ghost use Rattle.dm_shown.specs.Words.{HasWithout, item_with, named};

use dm_hist::{Keeper, KeeperFault, Row};
use dm_item::Items;
use dm_types::{Item, ItemId};

/// What a word names.
#[derive(Debug, Drop)]
pub enum Named {
    /// The item of this id.
    Item(ItemId),
    /// A row of the history.
    Row(Row),
}

fn has_word(item: &Item, word: &[u8]) -> bool
    ensures { result ≡ bytes_eq item.now.word word.now }
{
    item.word.is(word)
}

/// The first item that has the word.
fn find_item<'a>(items: &'a [Item], word: &[u8]) -> Option<&'a Item>
    ensures { option_copied result ≡ item_with word.now items.now }
{
    items.iter().find(|item| has_word(item, word))
}

/// What a word names: the item that has it, or else the row of least id that has it. The empty word names
/// nothing. The history is asked only where no item has the word.
pub fn find_named<K: Keeper>(
    items: &Items,
    keeper: &mut K,
    word: &[u8],
) -> Result<Option<Named>, KeeperFault>
    ensures found { K.tells → IfOk result (λ found. found ≡ named word.now items.now.items (K.rows keeper.old)) }
    ensures without { HasWithout word.now (item_with word.now items.now.items) result }
    ensures same { K.tells → K.rows keeper.new ≡ K.rows keeper.old }
    ensures cause { HasCause keeper_kind (K.faults keeper.old) (K.faults keeper.new) result }
{
    if word.is_empty() {
        return Ok(None);
    }
    match find_item(items.items(), word) {
        Some(item) => Ok(Some(Named::Item(item.id))),
        None => find_row(keeper, word),
    }
}

/// The row of least id that has the word, as what is named.
fn find_row<K: Keeper>(keeper: &mut K, word: &[u8]) -> Result<Option<Named>, KeeperFault>
    ensures found { K.tells → IfOk result (λ found. found ≡ option_map names.Row (row_with word.now (K.rows keeper.old))) }
    ensures same { K.tells → K.rows keeper.new ≡ K.rows keeper.old }
    ensures cause { HasCause keeper_kind (K.faults keeper.old) (K.faults keeper.new) result }
{
    match keeper.find_word(word) {
        Ok(Some(row)) => Ok(Some(Named::Row(row))),
        Ok(None) => Ok(None),
        Err(fault) => Err(fault),
    }
}
