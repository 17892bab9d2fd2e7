//! The routes of the service, and what a path names.
ghost use Rattle.std.specs.Prelude.{◌≡◌, true, IfOk, OnOk, option_and_then};
ghost use Rattle.std.specs.List.{list_all};
ghost use Rattle.std.specs.Char.{is_ascii};
ghost use Rattle.std.specs.Option.{option_copied};
ghost use Rattle.dm_call.specs.Held.{id_told};
ghost use Rattle.dm_call.specs.Numbers.{number_of};
ghost use Rattle.dm_call.specs.Routes.{item_routes, routes as all_routes, target_at, target_of, with_route};

use crate::call::Target;
use crate::numbers::{is_plain, read_number};
use dm_types::{ItemId, NoMemory};
use matchit::Router;
use std::alloc::Global;

/// What a route leads to.
#[derive(Clone, Copy, Debug, PartialEq, Eq)]
pub enum Spot {
    Items,
    Item,
    Pause,
    Resume,
    Cancel,
    Archive,
    History,
    Report,
    Stop,
}

fn add(router: &mut Router<Spot>, text: &str, spot: Spot) -> Result<(), NoMemory>
    ensures { OnOk result (router.new ≡ with_route text.now spot router.old) }
{
    if router.insert(text, spot).is_err() {
        return Err(NoMemory);
    }
    Ok(())
}

fn items(alloc: Global) -> Result<Router<Spot>, NoMemory>
    ensures { IfOk result (λ router. router ≡ item_routes) }
{
    let mut router = Router::new(alloc);
    add(&mut router, "/items", Spot::Items)?;
    add(&mut router, "/items/{id}", Spot::Item)?;
    add(&mut router, "/items/{id}/pause", Spot::Pause)?;
    add(&mut router, "/items/{id}/resume", Spot::Resume)?;
    add(&mut router, "/items/{id}/cancel", Spot::Cancel)?;
    Ok(router)
}

fn routes(alloc: Global) -> Result<Router<Spot>, NoMemory>
    ensures { IfOk result (λ router. router ≡ all_routes) }
{
    let mut router = items(alloc)?;
    add(&mut router, "/archive", Spot::Archive)?;
    add(&mut router, "/history", Spot::History)?;
    add(&mut router, "/report", Spot::Report)?;
    add(&mut router, "/stop", Spot::Stop)?;
    Ok(router)
}

/// What the path names, where a route has it.
pub fn read_target(alloc: Global, path: &[u8]) -> Result<Option<Target>, NoMemory>
    ensures { IfOk result (λ target. target ≡ target_of path.now) }
{
    if !is_plain(path) {
        return Ok(None);
    }
    match str::from_utf8(path) {
        Ok(path) => {
            let router = routes(alloc)?;
            Ok(find_target(&router, path))
        }
        Err(_) => Ok(None),
    }
}

/// What the path names by these routes.
fn find_target(router: &Router<Spot>, path: &str) -> Option<Target>
    requires ours { router.now ≡ all_routes }
    requires plain { list_all is_ascii path.now ≡ true }
    ensures { result ≡ target_of path.now }
{
    match router.at(path) {
        Ok(found) => target_with(*found.value, found.params.get("id")),
        Err(_) => None,
    }
}

/// What a route names with the text of its id.
fn target_with(spot: Spot, id: Option<&str>) -> Option<Target>
    ensures { result ≡ target_at spot (option_and_then number_of (option_copied id.entry)) }
{
    match spot {
        Spot::Items => Some(Target::Items),
        Spot::Archive => Some(Target::Archive),
        Spot::History => Some(Target::History),
        Spot::Report => Some(Target::Report),
        Spot::Stop => Some(Target::Stop),
        Spot::Item => Some(Target::Item(read_id(id)?)),
        Spot::Pause => Some(Target::Pause(read_id(id)?)),
        Spot::Resume => Some(Target::Resume(read_id(id)?)),
        Spot::Cancel => Some(Target::Cancel(read_id(id)?)),
    }
}

fn read_id(id: Option<&str>) -> Option<ItemId>
    ensures { result ≡ id_told (option_copied id.entry) }
{
    match id {
        Some(digits) => match read_number(digits) {
            Some(id) => Some(ItemId(id)),
            None => None,
        },
        None => None,
    }
}
