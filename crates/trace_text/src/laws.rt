//! Laws of traces, about the definitions alone.
ghost use Rattle.std.specs.Prelude.{◌≡◌, ◌*◌};
ghost use Rattle.page_model.specs.declared.limits.TheConstants.{MAX_FRAMES};
ghost use Rattle.trace_text.specs.declared.trace.TheConstants.{MAX_TRACE_FRAMES};

/// The limit is this number: the frames of 64 machines.
pub fn limits_law()
    ensures number { MAX_TRACE_FRAMES ≡ 67108864 }
    ensures machines { MAX_TRACE_FRAMES ≡ 64 * MAX_FRAMES }
{}
