//! What stays true of published reports as a machine goes on.
ghost use Rattle.watched_machine.specs.Publishing.{ReportsStay};

/// *Published reports stay true*: reports of fronts of a journal are reports of fronts of each longer one. So what a
/// [`Merger`](crate::Merger) keeps of its published reports holds again after each step and each round.
///
/// The body is empty: the contract is all there is.
pub fn reports_stay_law()
    ensures { ReportsStay }
{}
