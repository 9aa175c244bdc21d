// A list of the cache of a file is shown.
ghost use Rattle.std.specs.Prelude.{◌≡◌, [], ◌∷◌, List, IfErr};
ghost use Rattle.client_cache.specs.Views.{list_view};
ghost use Rattle.client_lines.specs.Lines.{list_named, list_text};
ghost use Rattle.jmap_client.specs.ClientDeeds.{ClientDeed, GotStore, IsTold};
ghost use Rattle.jmap_client.specs.ClientFaults.{IsCaused, IsCausedBefore, IsCausedByLoading, IsCausedByPrinting};
ghost use Rattle.jmap_client.specs.ClientSights.{client_sight_of};
ghost use Rattle.jmap_client.specs.Printing.{Prints};
ghost use Rattle.jmap_client.specs.Showing.{EndsLoad, HasLoaded, HasShown, IsUnknownFault, PrintsList};

use crate::fault::ClientFault;
use crate::reasons::{build_print_fault, build_sync_fault, build_world_fault};
use crate::world::ClientWorld;
use client_cache::{Cache, CachedList};
use client_lines::{find_list, write_list};
use client_sync::load_cache;
use jm_base::Text;
use jm_edge::{Shelf, Sink};
use std::alloc::Global;

// The place of the lists in the file of a cache.
const LISTS_PLACE: &str = "/lists";

// Loads the cache of a shelf.
fn load_store<F: Shelf>(alloc: Global, store: &mut F) -> Result<Cache, ClientFault>
    ensures ends { EndsLoad F.kept F.load_faults store.old store.new result }
    ensures cause { IfErr result (IsCausedByLoading (F.load_faults store.old)
        (F.load_faults store.new)) }
{
    match load_cache(alloc, store) {
        Ok(cache) => Ok(cache),
        Err(fault) => Err(build_sync_fault(fault)),
    }
}

// Loads the cache of a shelf, and gives the shelf back to the world.
fn load_and_return<W: ClientWorld>(
    alloc: Global,
    world: &mut W,
    store: W::Store,
    name: &Text,
) -> Result<Cache, ClientFault>
    requires unfailed { W.Store.load_faults store ≡ 0 }
    ensures told { (store' : W.Store) × IsTold (W.told world.old) (W.told world.new)
        (GotStore name.now store' ∷ []) × EndsLoad W.Store.kept W.Store.load_faults store store'
        result }
    ensures cause { IfErr result (IsCausedBefore (W.faults world.old) (W.faults world.new)
        (W.talk_faults world.old) (W.talk_faults world.new) (W.store_faults world.old)
        (W.store_faults world.new)) }
{
    let mut store = store;
    let loaded = load_store(alloc, &mut store);
    world.return_store(name, store);
    loaded
}

// Loads the cache of a file. The shelf that the world gives goes back to it.
fn load_file<W: ClientWorld>(
    alloc: Global,
    world: &mut W,
    name: &Text,
) -> Result<Cache, ClientFault>
    ensures told { (did : List (ClientDeed W.Talk W.Store)) × IsTold (W.told world.old)
        (W.told world.new) did × HasLoaded (client_sight_of W.Talk.told W.Talk.faults W.Store.kept
        W.Store.load_faults W.Store.save_faults) name.now did result }
    ensures cause { IfErr result (IsCausedBefore (W.faults world.old) (W.faults world.new)
        (W.talk_faults world.old) (W.talk_faults world.new) (W.store_faults world.old)
        (W.store_faults world.new)) }
{
    match world.store(alloc, name) {
        Ok(store) => load_and_return(alloc, world, store, name),
        Err(fault) => Err(build_world_fault(fault)),
    }
}

// Returns the fault of a cache that has no list of a name.
fn build_unknown_list(alloc: Global) -> ClientFault
    ensures { IsUnknownFault result }
{
    match Text::from_str(alloc, LISTS_PLACE) {
        Ok(place) => ClientFault::BadCache(place),
        Err(_) => ClientFault::NoMemory,
    }
}

// Prints the emails of a list.
fn print_emails<O: Sink>(
    alloc: Global,
    cache: &Cache,
    list: &CachedList,
    out: &mut O,
) -> Result<(), ClientFault>
    ensures printed { Prints (list_text cache.now (list_view list.now)) (O.held out.old)
        (O.held out.new) result }
    ensures cause { IfErr result (IsCausedByPrinting (O.faults out.old) (O.faults out.new)) }
{
    match write_list(alloc, cache, list, out) {
        Ok(()) => Ok(()),
        Err(fault) => Err(build_print_fault(fault)),
    }
}

// Prints the list of a name of a cache.
fn print_list<O: Sink>(
    alloc: Global,
    cache: &Cache,
    list: &Text,
    out: &mut O,
) -> Result<(), ClientFault>
    ensures printed { PrintsList cache.now (list_named list.now cache.now.lists) (O.held out.old)
        (O.held out.new) result }
    ensures cause { IfErr result (IsCausedByPrinting (O.faults out.old) (O.faults out.new)) }
{
    match find_list(cache, list.as_str()) {
        Some(found) => print_emails(alloc, cache, found, out),
        None => Err(build_unknown_list(alloc)),
    }
}

/// Prints the list of a name of the cache of a file: a line for each email, as `list_text` of
/// `client_lines` says. Without a file the cache is a new one. The file stays as it is.
///
/// The shelf that the world gives goes back to it, once, whatever ends the command, before anything
/// is printed.
///
/// Fails with `DeskFault` if the world gives no shelf; with `BadCache` if and only if the file is
/// not of its form, or has no list of this name, and then the place is `/lists`; with `ShelfFault`
/// if the shelf fails, and with `WriteFault` if the output fails, each only if the count of these
/// faults rose; with `NoMemory` if memory runs out; and with nothing else. Of a text that is not
/// all printed a prefix is.
pub fn show_file<W: ClientWorld, O: Sink>(
    alloc: Global,
    world: &mut W,
    name: &Text,
    list: &Text,
    out: &mut O,
) -> Result<(), ClientFault>
    ensures shown { HasShown (client_sight_of W.Talk.told W.Talk.faults W.Store.kept
        W.Store.load_faults W.Store.save_faults) name.now list.now (W.told world.old)
        (W.told world.new) (O.held out.old) (O.held out.new) result }
    ensures causes { IfErr result (IsCaused (O.faults out.old) (O.faults out.new)
        (W.faults world.old) (W.faults world.new) (W.talk_faults world.old)
        (W.talk_faults world.new) (W.store_faults world.old) (W.store_faults world.new)) }
{
    match load_file(alloc, world, name) {
        Ok(cache) => print_list(alloc, &cache, list, out),
        Err(fault) => Err(fault),
    }
}
