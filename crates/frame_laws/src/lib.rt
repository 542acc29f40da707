//! Laws of frames, for monitors that map a frame for a guest to read for as long as a page has it.
//!
//! They hold for every hash, guest and value of a core. The functions' bodies are empty: the contract is all there is.
#![tactic(auto)]

ghost use Rattle.frame_laws.specs.BytesStay.{RequestKeepsBytes, StoresKeepBytes, LendKeepsBytes, TakingBackKeepsBytes};

/// *A frame's bytes stay*: each frame that is taken before and after a request keeps its bytes. The only exception is the page's
/// own frame at a store that is `Stored` or `Taken`.
pub fn request_keeps_bytes_law()
    ensures { RequestKeepsBytes }
{}

/// The same for a whole page that is stored.
pub fn stores_keep_bytes_law()
    ensures { StoresKeepBytes }
{}

/// The same for a page that is lent. If the page joined others, no frame is excepted.
pub fn lend_keeps_bytes_law()
    ensures { LendKeepsBytes }
{}

/// Taking back a page leaves the bytes of each frame that stays taken.
pub fn taking_back_keeps_bytes_law()
    ensures { TakingBackKeepsBytes }
{}
