//! The guest's side, while it may still send.
ghost use Rattle.std.specs.Prelude.{◌≡◌, ◌+◌, ◌≤◌, false, length};
ghost use Rattle.rtrb.specs.Ring.{sent, received, known_free, producer_capacity};
ghost use Rattle.share_rings.specs.Closing.{has_close, last_closed};

use crate::closed_port::ClosedPort;
use crate::fault::{Busy, SendFault};
use page_model::{Request, Verdict};
use rtrb::{Consumer, Producer, PushError};
use std::alloc::{Allocator, Global};

/// A guest's end, which may still send. It moves to the guest's thread.
pub struct Port<A: Allocator = Global> {
    pub(crate) requests: Producer<Request, A>,
    pub(crate) verdicts: Consumer<Verdict, A>,
    // Whether the last verdict received is `Closed`.
    pub(crate) drained: bool,
    pub ghost open: { has_close (sent requests) ≡ false },
    pub ghost room: { producer_capacity requests ≤ known_free requests + length (sent requests) },
    pub ghost last: { drained ≡ last_closed (received verdicts) },
}

impl<A: Allocator> Port<A> {
    ghost use Rattle.std.specs.Prelude.{◌≡◌, ◌≤◌, false, [], ◌∷◌, ◌++◌, length, MatchResult, MatchOption, IfErr};
    ghost use mathlib.Core.List.{IsPrefix};
    ghost use Rattle.page_model.specs.Faults.{Fits};
    ghost use Rattle.share_rings.specs.Closing.{is_close};
    ghost use Rattle.share_rings.specs.Ends.{Sends, HasFilled, port_sent, port_got, port_name, port_capacity, port_known};
    ghost use Rattle.share_rings.specs.Ends.{closed_sent, closed_got, closed_name, closed_capacity, closed_known};
    ghost use Rattle.share_rings.specs.Faults.{NotSentFor};

    /// Sends a request, or returns it if no slot is known to be free.
    pub fn send(&mut self, request: Request) -> Result<(), (Request, Busy)>
        requires { is_close request ≡ false }
        ensures sends { Sends self.old self.new request result }
        ensures busy { IfErr result (λ unsent. (unsent.0 ≡ request) × HasFilled self.old) }
    {
        match self.requests.push(request) {
            Ok(()) => Ok(()),
            Err(PushError::Full(request)) => Err((request, Busy)),
        }
    }

    /// Sends a proposal of page `ppn`.
    pub fn propose(&mut self, ppn: u32) -> Result<(), SendFault>
        ensures sends { Sends self.old self.new (Request.Propose ppn) result }
        ensures busy { IfErr result (λ fault. (fault ≡ SendFault.Busy) × HasFilled self.old) }
    {
        self.send(Request::Propose(ppn))?;
        Ok(())
    }

    /// Sends a store of these bytes to page `ppn`, starting at `at`.
    pub fn store(&mut self, ppn: u32, at: u32, bytes: &[u8]) -> Result<(), SendFault>
        ensures sends { Sends self.old self.new (Request.Store (record { ppn = ppn; at = at; bytes = bytes.now })) result }
        ensures fault { MatchResult result (λ _. Fits at (length bytes.now))
            (λ fault. NotSentFor at (length bytes.now) (port_capacity self.old) (length (port_sent self.old)) fault) }
    {
        let request = Request::store(ppn, at, bytes)?;
        self.send(request)?;
        Ok(())
    }

    /// Sends a load of `len` bytes of page `ppn`, starting at `at`.
    pub fn load(&mut self, ppn: u32, at: u32, len: u32) -> Result<(), SendFault>
        ensures sends { Sends self.old self.new (Request.Load (record { ppn = ppn; at = at; len = len })) result }
        ensures fault { MatchResult result (λ _. Fits at len)
            (λ fault. NotSentFor at len (port_capacity self.old) (length (port_sent self.old)) fault) }
    {
        let request = Request::load(ppn, at, len)?;
        self.send(request)?;
        Ok(())
    }

    /// Sends a release of page `ppn`.
    pub fn release(&mut self, ppn: u32) -> Result<(), SendFault>
        ensures sends { Sends self.old self.new (Request.Release ppn) result }
        ensures busy { IfErr result (λ fault. (fault ≡ SendFault.Busy) × HasFilled self.old) }
    {
        self.send(Request::Release(ppn))?;
        Ok(())
    }

    /// Sends a request for what the machine counts.
    pub fn count(&mut self) -> Result<(), SendFault>
        ensures sends { Sends self.old self.new Request.Count result }
        ensures busy { IfErr result (λ fault. (fault ≡ SendFault.Busy) × HasFilled self.old) }
    {
        self.send(Request::Count)?;
        Ok(())
    }

    /// Returns the next verdict, if one is seen. `None` changes nothing.
    pub fn verdict(&mut self) -> Option<Verdict>
        ensures pair { port_name self.new ≡ port_name self.old }
        ensures capacity { port_capacity self.new ≡ port_capacity self.old }
        ensures got { MatchOption result (port_got self.new ≡ port_got self.old) (λ v. port_got self.new ≡ port_got self.old ++ v ∷ []) }
        ensures known { MatchOption result (port_known self.old ≡ []) (λ v. IsPrefix (port_known self.old) (v ∷ port_known self.new)) }
        ensures sent { port_sent self.new ≡ port_sent self.old }
    {
        let Ok(verdict) = self.verdicts.pop() else {
            return None;
        };
        self.drained = verdict.is_closed();
        Some(verdict)
    }

    /// Sends `Close`, or returns the port unchanged if no slot is known to be free.
    pub fn close(self) -> Result<ClosedPort<A>, Port<A>>
        ensures pair { MatchResult result (λ closed. closed_name closed ≡ port_name self) (λ port. port_name port ≡ port_name self) }
        ensures capacity { MatchResult result (λ closed. closed_capacity closed ≡ port_capacity self)
            (λ port. port_capacity port ≡ port_capacity self) }
        ensures sent { MatchResult result (λ closed. closed_sent closed ≡ port_sent self ++ Request.Close ∷ [])
            (λ port. port_sent port ≡ port_sent self) }
        ensures busy { IfErr result (λ _. HasFilled self) }
        ensures got { MatchResult result (λ closed. closed_got closed ≡ port_got self) (λ port. port_got port ≡ port_got self) }
        ensures known { MatchResult result (λ closed. closed_known closed ≡ port_known self) (λ port. port_known port ≡ port_known self) }
    {
        let Port {
            mut requests,
            verdicts,
            drained,
        } = self;
        match requests.push(Request::Close) {
            Ok(()) => Ok(ClosedPort {
                requests,
                verdicts,
                drained,
            }),
            Err(_) => Err(Port {
                requests,
                verdicts,
                drained,
            }),
        }
    }
}

impl<A: Allocator> Drop for Port<A> {
    fn drop(self) {
        let Self {
            requests: _,
            verdicts: _,
            drained: _,
        } = self;
    }
}
