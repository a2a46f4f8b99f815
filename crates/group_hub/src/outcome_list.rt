// Outcomes of events, seen as a list.
use common_types::List;
use group_world::Outcome;

/// The outcomes of some events, one for each, in order.
pub type OutcomeList = List<Outcome>;
