ghost use Rattle.std.specs.Prelude.{◌≡◌, Some, IfErr, IfOk};
ghost use Rattle.std.specs.Option.{option_copied};
ghost use Rattle.dm_answers.specs.Add.{IsOrder};
ghost use Rattle.dm_does.specs.Jobs.{or_empty, order_in, order_of};
ghost use Rattle.dm_list.specs.Reading.{IsGoodWish, RefusesWish};
ghost use Rattle.dm_words.specs.Asked.{wish_of};

use dm_answers::Order;
use dm_report::Verdict;
use dm_request::{Unread, read_address};
use dm_types::{Address, NoMemory, Text};
use dm_words::Wish;
use std::alloc::Global;

/// The text, or the empty one.
fn text_or_empty(alloc: Global, text: Option<&[u8]>) -> Result<Text, NoMemory>
    ensures { IfOk result (λ made. made ≡ or_empty (option_copied text.entry)) }
{
    match text {
        Some(text) => Text::from_bytes(alloc, text),
        None => Ok(Text::new(alloc)),
    }
}

/// What is to be added: the name is handed in as a wish.
fn make_order(alloc: Global, wish: &Wish<'_>, address: Address) -> Result<Order, NoMemory>
    ensures { IfOk result (λ order. order ≡ order_of (wish_of wish.now) address) }
{
    Ok(Order {
        word: text_or_empty(alloc, wish.word)?,
        address,
        wish: text_or_empty(alloc, wish.name)?,
        digest: wish.digest,
    })
}

/// Reads what is to be added.
pub(crate) fn read_order(alloc: Global, wish: &Wish<'_>) -> Result<Order, Verdict>
    requires { IsGoodWish (wish_of wish.now) }
    ensures ok { IfOk result (λ order. order_in (wish_of wish.now) ≡ Some order) }
    ensures fits { IfOk result IsOrder }
    ensures refused { IfErr result (RefusesWish (wish_of wish.now)) }
{
    let address = match read_address(alloc, wish.address) {
        Ok(address) => address,
        Err(fault) => {
            return match fault.unread() {
                Unread::Refused => Err(Verdict::BadAddress),
                Unread::NoMemory => Err(Verdict::NoMemory),
            };
        }
    };
    match make_order(alloc, wish, address) {
        Ok(order) => Ok(order),
        Err(NoMemory) => Err(Verdict::NoMemory),
    }
}
