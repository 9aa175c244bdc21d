// Each fault of a part of a command is one of the command.
ghost use Rattle.std.specs.Prelude.{◌≡◌};
ghost use Rattle.jmap_client.specs.ClientFaults.{fault_of_print, fault_of_sync, fault_of_world};

use crate::fault::ClientFault;
use client_cache::MovedStates;
use client_lines::PrintFault;
use client_sync::SyncFault;
use jm_edge::EdgeFault;

/// Returns how a command ends where the world failed.
pub(crate) fn build_world_fault(fault: EdgeFault) -> ClientFault
    ensures { result ≡ fault_of_world fault }
{
    match fault {
        EdgeFault::Failed => ClientFault::DeskFault,
        EdgeFault::NoMemory => ClientFault::NoMemory,
    }
}

/// Returns how a command ends whose cache was not loaded, or not brought up to date.
pub(crate) fn build_sync_fault(fault: SyncFault) -> ClientFault
    ensures { result ≡ fault_of_sync fault }
{
    match fault {
        SyncFault::BadReply(place) => ClientFault::BadReply(place),
        SyncFault::BadCache(place) => ClientFault::BadCache(place),
        SyncFault::Moved { had, shown } => ClientFault::Moved(MovedStates { had, shown }),
        SyncFault::TooLong => ClientFault::TooLong,
        SyncFault::ExchangeFault => ClientFault::ExchangeFault,
        SyncFault::ShelfFault => ClientFault::ShelfFault,
        SyncFault::NoMemory => ClientFault::NoMemory,
    }
}

/// Returns how a command ends whose text was not all printed.
pub(crate) fn build_print_fault(fault: PrintFault) -> ClientFault
    ensures { result ≡ fault_of_print fault }
{
    match fault {
        PrintFault::WriteFault => ClientFault::WriteFault,
        PrintFault::NoMemory => ClientFault::NoMemory,
    }
}
