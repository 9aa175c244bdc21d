// The cache of a file is brought up to date.
ghost use Rattle.std.specs.Prelude.{◌≡◌, [], ◌∷◌, List, IfErr};
ghost use Rattle.jmap_client.specs.ClientDeeds.{ClientDeed, GaveStore, GotStore, GotTalk, IsTold};
ghost use Rattle.jmap_client.specs.ClientFaults.{IsCaused, IsCausedBefore, IsCausedByPrinting, IsCausedOver};
ghost use Rattle.jmap_client.specs.ClientSights.{client_sight_of};
ghost use Rattle.jmap_client.specs.Printing.{Prints};
ghost use Rattle.jmap_client.specs.Syncing.{EndsSync, HasBrought, HasSynced};
ghost use Rattle.client_lines.specs.Lines.{counts_text};

use crate::fault::ClientFault;
use crate::reasons::{build_print_fault, build_sync_fault, build_world_fault};
use crate::world::ClientWorld;
use client_cache::Cache;
use client_lines::write_counts;
use client_sync::sync;
use jm_base::Text;
use jm_edge::{Exchange, Shelf, Sink};
use std::alloc::Global;

// Brings the cache of a shelf up to date over an exchange.
fn sync_over<X: Exchange, F: Shelf>(
    alloc: Global,
    talk: &mut X,
    store: &mut F,
) -> Result<Cache, ClientFault>
    ensures ends { EndsSync (client_sight_of X.told X.faults F.kept F.load_faults F.save_faults)
        talk.old talk.new store.old store.new result }
    ensures cause { IfErr result (IsCausedOver (X.faults talk.old) (X.faults talk.new)
        (F.load_faults store.old) (F.load_faults store.new) (F.save_faults store.old)
        (F.save_faults store.new)) }
{
    match sync(alloc, talk, store) {
        Ok(cache) => Ok(cache),
        Err(fault) => Err(build_sync_fault(fault)),
    }
}

// Brings the cache of a shelf up to date over an exchange, and gives both back to the world.
fn sync_talk<W: ClientWorld>(
    alloc: Global,
    world: &mut W,
    talk: W::Talk,
    store: W::Store,
    name: &Text,
) -> Result<Cache, ClientFault>
    requires unfailed { W.Talk.faults talk ≡ 0 }
    requires unfailed_load { W.Store.load_faults store ≡ 0 }
    requires unfailed_save { W.Store.save_faults store ≡ 0 }
    ensures told { (talk' : W.Talk) × (store' : W.Store) × IsTold (W.told world.old)
        (W.told world.new) (GotTalk talk' ∷ GotStore name.now store' ∷ [])
        × EndsSync (client_sight_of W.Talk.told W.Talk.faults W.Store.kept W.Store.load_faults
        W.Store.save_faults) talk talk' store store' result }
    ensures cause { IfErr result (IsCausedBefore (W.faults world.old) (W.faults world.new)
        (W.talk_faults world.old) (W.talk_faults world.new) (W.store_faults world.old)
        (W.store_faults world.new)) }
{
    let mut talk = talk;
    let mut store = store;
    let synced = sync_over(alloc, &mut talk, &mut store);
    world.return_talk(talk);
    world.return_store(name, store);
    synced
}

// Asks the world for an exchange, and brings the cache of a shelf up to date. The shelf goes back
// to the world.
fn sync_store<W: ClientWorld>(
    alloc: Global,
    world: &mut W,
    host: &Text,
    port: u16,
    token: &Text,
    store: W::Store,
    name: &Text,
) -> Result<Cache, ClientFault>
    requires unfailed_load { W.Store.load_faults store ≡ 0 }
    requires unfailed_save { W.Store.save_faults store ≡ 0 }
    ensures told { (did : List (ClientDeed W.Talk W.Store)) × IsTold (W.told world.old)
        (W.told world.new) did × HasBrought (client_sight_of W.Talk.told W.Talk.faults W.Store.kept
        W.Store.load_faults W.Store.save_faults) host.now port token.now name.now
        (GaveStore name.now store ∷ did) result }
    ensures cause { IfErr result (IsCausedBefore (W.faults world.old) (W.faults world.new)
        (W.talk_faults world.old) (W.talk_faults world.new) (W.store_faults world.old)
        (W.store_faults world.new)) }
{
    match world.talk(alloc, host, port, token) {
        Ok(talk) => sync_talk(alloc, world, talk, store, name),
        Err(fault) => {
            world.return_store(name, store);
            Err(build_world_fault(fault))
        }
    }
}

// Brings the cache of a file up to date. What the world gives goes back to it.
fn bring<W: ClientWorld>(
    alloc: Global,
    world: &mut W,
    host: &Text,
    port: u16,
    token: &Text,
    name: &Text,
) -> Result<Cache, ClientFault>
    ensures told { (did : List (ClientDeed W.Talk W.Store)) × IsTold (W.told world.old)
        (W.told world.new) did × HasBrought (client_sight_of W.Talk.told W.Talk.faults W.Store.kept
        W.Store.load_faults W.Store.save_faults) host.now port token.now name.now did result }
    ensures cause { IfErr result (IsCausedBefore (W.faults world.old) (W.faults world.new)
        (W.talk_faults world.old) (W.talk_faults world.new) (W.store_faults world.old)
        (W.store_faults world.new)) }
{
    match world.store(alloc, name) {
        Ok(store) => sync_store(alloc, world, host, port, token, store, name),
        Err(fault) => Err(build_world_fault(fault)),
    }
}

// Prints how many records and lists a cache has.
fn print_counts<O: Sink>(alloc: Global, cache: &Cache, out: &mut O) -> Result<(), ClientFault>
    ensures printed { Prints (counts_text cache.now) (O.held out.old) (O.held out.new) result }
    ensures cause { IfErr result (IsCausedByPrinting (O.faults out.old) (O.faults out.new)) }
{
    match write_counts(alloc, cache, out) {
        Ok(()) => Ok(()),
        Err(fault) => Err(build_print_fault(fault)),
    }
}

/// Brings the cache of a file up to date by one round over an exchange with the server at a port of
/// a host, and prints how many records and lists it then has (`counts_text` of `client_lines`).
/// Without a file the cache is a new one.
///
/// The shelf and the exchange that the world gives go back to it, once, whatever ends the command,
/// before anything is printed.
///
/// Fails with `DeskFault` if the world gives no shelf or no exchange; with `BadCache` if and only
/// if the file is not of its form, before anything is asked; with `BadReply`, `Moved` and `TooLong`
/// as [`client_sync::sync`] says; with `ExchangeFault` if the exchange fails, with `ShelfFault` if
/// the shelf fails, and with `WriteFault` if the output fails, each only if the count of these
/// faults rose; and with `NoMemory` if memory runs out. Before the cache was brought up to date and
/// saved nothing is printed; after that a fault leaves a prefix of the text.
pub fn sync_file<W: ClientWorld, O: Sink>(
    alloc: Global,
    world: &mut W,
    host: &Text,
    port: u16,
    token: &Text,
    name: &Text,
    out: &mut O,
) -> Result<(), ClientFault>
    ensures synced { HasSynced (client_sight_of W.Talk.told W.Talk.faults W.Store.kept
        W.Store.load_faults W.Store.save_faults) host.now port token.now name.now
        (W.told world.old) (W.told world.new) (O.held out.old) (O.held out.new) result }
    ensures causes { IfErr result (IsCaused (O.faults out.old) (O.faults out.new)
        (W.faults world.old) (W.faults world.new) (W.talk_faults world.old)
        (W.talk_faults world.new) (W.store_faults world.old) (W.store_faults world.new)) }
{
    match bring(alloc, world, host, port, token, name) {
        Ok(cache) => print_counts(alloc, &cache, out),
        Err(fault) => Err(fault),
    }
}
