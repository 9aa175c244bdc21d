// Loads a cache, brings it up to date, and saves it.
ghost use Rattle.std.specs.Prelude.{◌≡◌, IfErr, IfOk, List, OnErr, OnOk, Ok, Some};
ghost use Rattle.jm_edge.specs.Contents.{IsUnknownOr};
ghost use Rattle.jm_edge.specs.declared.answer.Asked.{Asked};
ghost use Rattle.client_cache.specs.Caches.{cache_text};
ghost use Rattle.client_cache.specs.Rounds.{new_round};
ghost use Rattle.client_sync.specs.Faults.{Explains, ExplainsLoad, IsContentFault, IsShelfFault, IsShelfRisen, IsUnsettled};
ghost use Rattle.client_sync.specs.Syncing.{BringsTo, IsLoaded, Loads, Says, Stops, Synced, told_all};

use crate::fault::SyncFault;
use crate::round::finish_round;
use client_cache::{Cache, CacheFault, begin, cache_bytes, new_cache, read_cache};
use jm_base::Bytes;
use jm_edge::{EdgeFault, Exchange, Shelf};
use std::alloc::Global;

// Reads a cache from the content of a file, if there is one.
fn read_content(alloc: Global, content: &Option<Bytes>) -> Result<Cache, SyncFault>
    ensures ok { IfOk result (Says content.now) }
    ensures fault { IfErr result (IsContentFault content.now) }
{
    match content {
        Some(bytes) => match read_cache(alloc, bytes.as_slice()) {
            Ok(cache) => Ok(cache),
            Err(CacheFault::BadCache(place)) => Err(SyncFault::BadCache(place)),
            Err(CacheFault::NoMemory) => Err(SyncFault::NoMemory),
        },
        None => Ok(new_cache(alloc)?),
    }
}

// Loads the content of a file, if there is one.
fn load<F: Shelf>(alloc: Global, shelf: &mut F) -> Result<Option<Bytes>, SyncFault>
    ensures ok { IfOk result (IsLoaded (F.kept shelf.old) (F.kept shelf.new)) }
    ensures fault { IfErr result
        (IsShelfFault (F.load_faults shelf.old) (F.load_faults shelf.new)) }
    ensures kept { OnErr result (IsUnknownOr (F.kept shelf.old) (F.kept shelf.new)) }
    ensures save_count { F.save_faults shelf.new ≡ F.save_faults shelf.old }
{
    match shelf.load(alloc) {
        Ok(content) => Ok(content),
        Err(EdgeFault::Failed) => Err(SyncFault::ShelfFault),
        Err(EdgeFault::NoMemory) => Err(SyncFault::NoMemory),
    }
}

/// Loads the cache that a shelf keeps. Without a file it is a new one. What is kept stays as it is.
///
/// Fails with `BadCache` if the file is not of its form; with `ShelfFault` only if the count of the
/// shelf's faults of loading rose; with `NoMemory` if an allocation fails; and with nothing else.
/// After any of these what is kept is unknown, or as it was.
pub fn load_cache<F: Shelf>(alloc: Global, shelf: &mut F) -> Result<Cache, SyncFault>
    ensures ok { IfOk result (Loads (F.kept shelf.old) (F.kept shelf.new)) }
    ensures fault { IfErr result (ExplainsLoad (F.kept shelf.old) (F.kept shelf.new)
        (F.load_faults shelf.old) (F.load_faults shelf.new)) }
    ensures save_count { F.save_faults shelf.new ≡ F.save_faults shelf.old }
{
    let content = load(alloc, shelf)?;
    read_content(alloc, &content)
}

// Saves the text of a cache.
fn save<F: Shelf>(alloc: Global, shelf: &mut F, cache: &Cache) -> Result<(), SyncFault>
    ensures kept { OnOk result
        (IsUnknownOr (Some (Some (cache_text cache.now))) (F.kept shelf.new)) }
    ensures fault { IfErr result
        (IsShelfFault (F.save_faults shelf.old) (F.save_faults shelf.new)) }
    ensures unsaved { OnErr result (IsUnknownOr (F.kept shelf.old) (F.kept shelf.new)) }
{
    let bytes = cache_bytes(alloc, cache)?;
    match shelf.save(alloc, bytes.as_slice()) {
        Ok(()) => Ok(()),
        Err(EdgeFault::Failed) => Err(SyncFault::ShelfFault),
        Err(EdgeFault::NoMemory) => Err(SyncFault::NoMemory),
    }
}

// Makes one round of a cache.
fn make_round<X: Exchange>(
    alloc: Global,
    exchange: &mut X,
    cache: &mut Cache,
) -> Result<(), SyncFault>
    ensures ok { OnOk result ((asked : List Asked)
        × (X.told exchange.new ≡ told_all (X.told exchange.old) asked)
        × BringsTo cache.old asked cache.new) }
    ensures count { OnOk result (X.faults exchange.new ≡ X.faults exchange.old) }
    ensures fault { IfErr result (Stops (X.told exchange.old) (X.told exchange.new)
        (X.faults exchange.old) (X.faults exchange.new) cache.old new_round cache.new) }
{
    let mut round = begin(alloc, cache)?;
    finish_round(alloc, exchange, cache, &mut round)
}

// Saves a cache after a round, if that came to its end or the state moved too often.
fn settle<F: Shelf>(
    alloc: Global,
    shelf: &mut F,
    cache: &Cache,
    ended: Result<(), SyncFault>,
) -> Result<(), SyncFault>
    ensures ended { OnOk result (ended ≡ Ok tt) }
    ensures saved { OnOk result
        (IsUnknownOr (Some (Some (cache_text cache.now))) (F.kept shelf.new)) }
    ensures fault { IfErr result (IsUnsettled (F.kept shelf.old) (F.kept shelf.new)
        (F.save_faults shelf.old) (F.save_faults shelf.new) (cache_text cache.now) ended) }
{
    match ended {
        Ok(()) => save(alloc, shelf, cache),
        Err(SyncFault::Moved { had, shown }) => {
            save(alloc, shelf, cache)?;
            Err(SyncFault::Moved { had, shown })
        }
        Err(fault) => Err(fault),
    }
}

/// Brings the cache that a shelf keeps up to date over an exchange: loads it, makes one round, and
/// saves it. Without a file the cache is a new one. Returns the cache; the exchange's count of
/// faults is as before then.
///
/// Fails with `BadCache` if the file is not of its form, before anything is asked; with `BadReply`
/// if an answer has another status than 200, or its body is not taken; with `Moved` if eight
/// replies showed another state than they should, after the cache was saved; with `TooLong` if
/// more than 100,000 replies were needed; with `ExchangeFault` if the exchange failed, and with
/// `ShelfFault` if the shelf failed, only if the count of their faults rose; with `NoMemory` if an
/// allocation fails. A load that fails comes before anything is asked. After any fault but `Moved`
/// what is kept is unknown, or as it was.
pub fn sync<X: Exchange, F: Shelf>(
    alloc: Global,
    exchange: &mut X,
    shelf: &mut F,
) -> Result<Cache, SyncFault>
    ensures ok { IfOk result (λ c. (loaded_from : F) × Synced (X.told exchange.old)
        (X.told exchange.new) (F.kept shelf.old) (F.kept loaded_from) (F.kept shelf.new) c) }
    ensures count { OnOk result (X.faults exchange.new ≡ X.faults exchange.old) }
    ensures fault { IfErr result (λ e. (loaded_from : F) × Explains (X.told exchange.old)
        (X.told exchange.new) (X.faults exchange.old) (X.faults exchange.new) (F.kept shelf.old)
        (F.kept loaded_from) (F.kept shelf.new) e) }
    ensures shelf { IfErr result (IsShelfRisen (X.told exchange.old) (X.told exchange.new)
        (F.load_faults shelf.old) (F.load_faults shelf.new) (F.save_faults shelf.old)
        (F.save_faults shelf.new)) }
{
    let mut cache = load_cache(alloc, shelf)?;
    let ended = make_round(alloc, exchange, &mut cache);
    settle(alloc, shelf, &cache, ended)?;
    Ok(cache)
}
