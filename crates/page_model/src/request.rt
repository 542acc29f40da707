//! What a guest asks for.
ghost use Rattle.std.specs.Prelude.{◌≡◌, ◌+◌, ◌≤◌, ⊤, length, IfOk, MatchResult};
ghost use Rattle.page_model.specs.Closing.{is_close};
ghost use Rattle.page_model.specs.Faults.{Fits, RefusedFor};

use crate::limits::{MAX_ACCESS_BYTES, PAGE_BYTES};
use crate::{LoadReq, StoreReq};
use arrayvec::ArrayVec;
use std::alloc::AllocError;
use thiserror::Error;

/// What a guest asks for. A page is named by its physical page number (PPN), counted from 0.
#[derive(Debug, PartialEq, Eq, Drop)]
pub enum Request {
    /// Look for pages with the same content, and share a frame with them.
    Propose(u32),
    /// Write bytes to a page.
    Store(StoreReq),
    /// Read bytes of a page.
    Load(LoadReq),
    /// Give up a page's frame: from then on the page reads as zeros.
    Release(u32),
    /// Report what the machine counts.
    Count,
    /// The guest's last request.
    Close,
}

/// Why there is no such store or load. The causes are checked in this order.
#[derive(Clone, Copy, Debug, PartialEq, Eq, Error)]
pub enum RequestFault {
    /// No bytes, or more than `MAX_ACCESS_BYTES`.
    #[error("a store or load is of 1 to 64 bytes: split a longer one")]
    Length,
    /// The last byte would be past the page's end.
    #[error("a store or load ends within its page of 4,096 bytes: split it at the page's end")]
    Crosses,
}

/// Makes an equal request. That takes no memory, so it never fails.
impl Clone for Request {
    ghost is_clone = { λ request copy. copy ≡ request };

    ghost is_infallible = { λ _. ⊤ };

    fn clone(&self) -> Result<Request, AllocError> {
        match self {
            Request::Propose(ppn) => Ok(Request::Propose(*ppn)),
            Request::Store(store) => Ok(Request::Store(store.clone()?)),
            Request::Load(load) => Ok(Request::Load(*load)),
            Request::Release(ppn) => Ok(Request::Release(*ppn)),
            Request::Count => Ok(Request::Count),
            Request::Close => Ok(Request::Close),
        }
    }
}

impl Request {
    /// Makes a store of these bytes to page `ppn`, from place `at` on.
    pub fn store(ppn: u32, at: u32, bytes: &[u8]) -> Result<Request, RequestFault>
        ensures ok { IfOk result (λ r. r ≡ Request.Store (record { ppn = ppn; at = at; bytes = bytes.now })) }
        ensures fault { MatchResult result (λ _. Fits at (length bytes.now)) (λ f. RefusedFor at (length bytes.now) f) }
    {
        if bytes.is_empty() {
            return Err(RequestFault::Length);
        }
        match ArrayVec::try_from(bytes) {
            Err(_) => Err(RequestFault::Length),
            Ok(kept) => {
                if at as usize > PAGE_BYTES - bytes.len() {
                    Err(RequestFault::Crosses)
                } else {
                    Ok(Request::Store(StoreReq {
                        ppn,
                        at,
                        bytes: kept,
                    }))
                }
            }
        }
    }

    /// Makes a load of `len` bytes of page `ppn`, from place `at` on.
    pub fn load(ppn: u32, at: u32, len: u32) -> Result<Request, RequestFault>
        ensures ok { IfOk result (λ r. r ≡ Request.Load (record { ppn = ppn; at = at; len = len })) }
        ensures fault { MatchResult result (λ _. Fits at len) (λ f. RefusedFor at len f) }
    {
        if len == 0 || len as usize > MAX_ACCESS_BYTES {
            return Err(RequestFault::Length);
        }
        if at as usize > PAGE_BYTES - len as usize {
            return Err(RequestFault::Crosses);
        }
        Ok(Request::Load(LoadReq { ppn, at, len }))
    }

    /// Whether this is a guest's last request.
    pub fn is_close(&self) -> bool
        ensures { result ≡ is_close self.now }
    {
        matches!(self, Request::Close)
    }
}

/// One entry of a journal: a request, and the number of the guest that made it.
#[derive(Clone, Debug, PartialEq, Eq, Drop)]
pub struct Entry {
    pub guest: u8,
    pub request: Request,
}
