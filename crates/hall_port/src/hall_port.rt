// A port over a hall of accounts, with a session of the hall.
ghost use Rattle.std.specs.Prelude.{◌≡◌, ◌≢◌, ◌⊎◌, ◌<◌, ◌≤◌, ◌∷◌, [], IfOk, OnErr, length};
ghost use Rattle.jm_json.specs.Invocations.{call_of};
ghost use Rattle.account_hall.specs.Halls.{AreOf};
ghost use Rattle.hall_port.specs.Steps.{HasBegunTo, HasReadStates, HasStopped, IsAsked, IsCopied, IsPerformed, IsRead, IsUploaded};

use crate::asking::Asks;
use crate::lines::{build_uploaded, find_changeable};
use crate::replies::{
    build_error_reply, copy_made, copy_text, take_bytes, take_replied, take_states, take_stored,
};
use crate::targets::{find_accounts, find_source, find_target};
use account_book::{Ask, Call, Out};
use account_hall::{CopyCall, Passes};
use batch_lines::{UploadPort, Uploaded};
use jm_base::{Bytes, NoMemory, Text};
use jm_json::{Invocation, Made, Replied};
use jmap_http::{AccountStates, Stored, UserPort};
use method_batch::Port;
use server_users::{UserAccount, Users};
use std::alloc::Global;
use std::marker::Model;

/// Answers for the users of a server over a hall of accounts, with one session of the hall. The
/// number of an account in the configuration is its index in the hall. Contracts see the accounts
/// of the hall, the users, the session, and the user and the timestamp of the request that began
/// last. What performs the calls is a value ([`Asks`]): see [`crate::serve_connection`].
#[derive(Drop)]
pub struct HallPort<'a, A: Asks> {
    asker: A,
    users: &'a Users,
    passes: Passes,
    user: u64,
    time: u64,
}

impl<'a, A: Asks> Model for HallPort<'a, A> {
    ghost use Rattle.hall_port.specs.Views.{IsPort, PortView};

    ghost Value = { PortView };

    ghost view = { λ p. record {
      rooms = A.rooms p.asker;
      users = p.users.now;
      session = p.passes;
      user = p.user;
      time = p.time;
    } };

    ghost invariant = { λ p. A.can_ask p.asker × IsPort (record {
      rooms = A.rooms p.asker;
      users = p.users.now;
      session = p.passes;
      user = p.user;
      time = p.time;
    }) };
}

impl<'a, A: Asks> HallPort<'a, A> {
    /// Returns the port of these users over a hall that has each account of the server, with a
    /// session of the hall. It takes no memory. Until a request begins, the user is the first one
    /// and the timestamp is 0.
    pub fn over(asker: A, users: &'a Users, passes: Passes) -> HallPort<'a, A>
        requires ready { A.can_ask asker }
        requires hall { AreOf (A.rooms asker) passes.passes }
        requires accounts { length users.now.account_ids ≤ length (A.rooms asker) }
        ensures { result ≡ record {
          rooms = A.rooms asker;
          users = users.now;
          session = passes;
          user = 0;
          time = 0;
        } }
    {
        HallPort {
            asker,
            users,
            passes,
            user: 0,
            time: 0,
        }
    }

    /// Returns the session, which is of the port's hall.
    pub fn into_passes(self) -> Passes
        ensures session { result ≡ self.entry.session }
        ensures hall { AreOf self.entry.rooms result.passes }
    {
        let HallPort { passes, .. } = self;
        passes
    }

    // Asks an account of the hall.
    fn ask(&mut self, alloc: Global, account: u64, call: &Call) -> Result<Out, NoMemory>
        requires account { account < length self.old.users.account_ids }
        ensures asked { IfOk result (λ out. IsAsked A.calls self.old account call.now out
            self.new) }
        ensures stopped { OnErr result (HasStopped account self.old self.new) }
    {
        self.asker
            .ask(alloc, &mut self.passes, account, call, self.time)
    }

    // Performs a method on an account.
    fn perform(
        &mut self,
        alloc: Global,
        to: &UserAccount,
        call: Invocation,
        made: Made,
    ) -> Result<Replied, NoMemory>
        requires account { to.now.number < length self.old.users.account_ids }
        ensures performed { IfOk result (λ r. IsPerformed A.calls self.old to.now (call_of call)
            made r self.new) }
        ensures stopped { OnErr result (HasStopped to.now.number self.old self.new) }
    {
        let call = Call {
            ask: Ask::Method(call),
            made,
            read_only: to.read_only,
        };
        match self.ask(alloc, to.number, &call) {
            Ok(out) => Ok(take_replied(alloc, out)),
            Err(refused) => Err(refused),
        }
    }

    // Performs a copy from an account to another.
    fn copy_to(
        &mut self,
        alloc: Global,
        from: &UserAccount,
        to: &UserAccount,
        call: Invocation,
        made: Made,
    ) -> Result<Replied, NoMemory>
        requires from { from.now.number < length self.old.users.account_ids }
        requires to { to.now.number < length self.old.users.account_ids }
        requires apart { from.now.number ≢ to.now.number }
        ensures copied { IfOk result (λ r. IsCopied A.calls self.old from.now to.now (call_of call)
            made r self.new) }
        ensures begun { OnErr result (HasBegunTo A.calls self.old from.now to.now (call_of call)
            made self.new) }
    {
        let copy = CopyCall {
            from: from.number,
            to: to.number,
            from_read_only: from.read_only,
            call,
            made,
        };
        match self.asker.copy(alloc, &mut self.passes, copy, self.time) {
            Ok(out) => Ok(take_replied(alloc, out)),
            Err(refused) => Err(refused),
        }
    }

    // Uploads bytes to an account.
    fn keep(&mut self, alloc: Global, account: u64, bytes: Bytes) -> Result<Stored, NoMemory>
        requires account { account < length self.old.users.account_ids }
        ensures uploaded { IfOk result (λ stored. IsUploaded A.calls self.old account bytes
            stored self.new) }
        ensures stopped { OnErr result (HasStopped account self.old self.new) }
    {
        let call = Call {
            ask: Ask::Upload(bytes),
            made: Made::new(alloc),
            read_only: false,
        };
        match self.ask(alloc, account, &call) {
            Ok(out) => Ok(take_stored(out)),
            Err(refused) => Err(refused),
        }
    }

    // Reads what an identifier names in an account.
    fn look_up(
        &mut self,
        alloc: Global,
        account: u64,
        blob: Text,
    ) -> Result<Option<Bytes>, NoMemory>
        requires account { account < length self.old.users.account_ids }
        ensures read { IfOk result (λ o. IsRead A.calls self.old account blob o self.new) }
        ensures stopped { OnErr result (HasStopped account self.old self.new) }
    {
        let call = Call {
            ask: Ask::Blob(blob),
            made: Made::new(alloc),
            read_only: false,
        };
        match self.ask(alloc, account, &call) {
            Ok(out) => Ok(take_bytes(out)),
            Err(refused) => Err(refused),
        }
    }

    // Reads the states of an account.
    fn look(&mut self, alloc: Global, account: u64) -> Result<Option<AccountStates>, NoMemory>
        requires account { account < length self.old.users.account_ids }
        ensures looked { IfOk result (λ o. HasReadStates A.calls self.old account o self.new) }
        ensures stopped { OnErr result (HasStopped account self.old self.new) }
    {
        let call = Call {
            ask: Ask::States,
            made: Made::new(alloc),
            read_only: false,
        };
        match self.ask(alloc, account, &call) {
            Ok(out) => Ok(take_states(out)),
            Err(refused) => Err(refused),
        }
    }
}

impl<'a, A: Asks> Port for HallPort<'a, A> {
    ghost use Rattle.hall_port.specs.Steps.{hall_answers, hall_stays, hall_stops};

    ghost answers = { hall_answers A.calls };

    ghost stops = { hall_stops A.calls };

    ghost stays = { hall_stays A.calls };

    fn call(&mut self, alloc: Global, call: Invocation, made: &Made) -> Result<Replied, NoMemory> {
        let users = self.users;
        let accounts = find_accounts(users, self.user);
        match find_target(accounts, &call) {
            Err(kind) => build_error_reply(alloc, kind, &call),
            Ok(to) => {
                let made = copy_made(alloc, made)?;
                match find_source(accounts, &call) {
                    None => self.perform(alloc, to, call, made),
                    Some(from) => self.copy_to(alloc, from, to, call, made),
                }
            }
        }
    }
}

impl<'a, A: Asks> UserPort for HallPort<'a, A> {
    ghost use Rattle.hall_port.specs.Steps.{hall_own};

    ghost steps = { hall_own A.calls };

    fn begin(&mut self, user: u64, time: u64) {
        self.user = user;
        self.time = time;
    }

    fn upload(&mut self, alloc: Global, account: u64, bytes: Bytes) -> Result<Stored, NoMemory> {
        if account < self.users.account_ids().len() as u64 {
            return self.keep(alloc, account, bytes);
        }
        Ok(Stored::Failed)
    }

    fn read_blob(
        &mut self,
        alloc: Global,
        account: u64,
        blob: &[u8],
    ) -> Result<Option<Bytes>, NoMemory> {
        if account >= self.users.account_ids().len() as u64 {
            return Ok(None);
        }
        match copy_text(alloc, blob)? {
            Some(blob) => self.look_up(alloc, account, blob),
            None => Ok(None),
        }
    }

    fn read_states(
        &mut self,
        alloc: Global,
        account: u64,
    ) -> Result<Option<AccountStates>, NoMemory> {
        if account < self.users.account_ids().len() as u64 {
            return self.look(alloc, account);
        }
        Ok(None)
    }
}

impl<'a, A: Asks> UploadPort for HallPort<'a, A> {
    ghost use Rattle.hall_port.specs.Lines.{line_halts, line_rests, line_uploads};

    ghost uploads = { line_uploads A.calls };

    ghost halts = { line_halts };

    ghost rests = { line_rests };

    fn upload(&mut self, alloc: Global, bytes: Bytes) -> Result<Uploaded, NoMemory> {
        let users = self.users;
        match find_changeable(find_accounts(users, self.user)) {
            None => Ok(Uploaded::Failed),
            Some(to) => {
                let id = to.id.copy()?;
                match self.keep(alloc, to.number, bytes) {
                    Ok(stored) => Ok(build_uploaded(id, stored)),
                    Err(refused) => Err(refused),
                }
            }
        }
    }
}
