//! The fewest frames that could hold the pages of a small machine, worked out from the definitions alone.
ghost use Rattle.std.specs.Prelude.{◌≡◌, ◌∷◌, []};
ghost use Rattle.page_model.specs.Pages.{used};
ghost use Rattle.page_model.specs.Contents.{mapped_contents, copies, different};
ghost use Rattle.worked_cores.specs.Copies.{copies_apart, copies_shared};

/// Four pages of three contents, each with a frame: one frame more than necessary, since two pages of one salt are
/// equal. The page of the other salt has the same bytes, and is another content.
pub fn equal_pages_apart()
    ensures contents { different (mapped_contents copies_apart) ≡ 3 }
    ensures frames { used copies_apart ≡ 4 }
    ensures copies { copies (0, 65 ∷ []) (mapped_contents copies_apart) ≡ 2 }
{}

/// The same pages once the two equal ones share a frame: as few frames as contents.
pub fn equal_pages_shared()
    ensures contents { different (mapped_contents copies_shared) ≡ 3 }
    ensures frames { used copies_shared ≡ 3 }
{}
