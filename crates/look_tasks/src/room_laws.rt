//! What is left to a process's own code. The functions' bodies are empty: the contract is all there is.
ghost use Rattle.look_tasks.specs.RoomLaws.{LeavesEnough, StaysWithin, LeavesATenth};

/// Whatever came before: where mappings were taken, a tenth of the limit, and at least 4,000 of it, are left.
pub fn spare_law()
    ensures left { LeavesEnough }
    ensures parts { LeavesATenth }
{}

/// Whatever mappings are taken and given back, and in whatever order, while the limit stays: windows have no more than they may take.
pub fn within_law()
    ensures { StaysWithin }
{}
