// The reach of a rule: which entries and imports it can depend on, and whether on the clock.
#![tactic(auto)]

use refusals::Refusal;
use table::Table;

// The marks of a reach; a refused reach has none. No Result, for reason (a): of a refusal too `ReachReply` says that no mark is set.
#[derive(Clone, Copy)]
pub struct Reach {
    pub answer: Result<(), Refusal>,
    pub entries: [bool; Table::ENTRIES],
    pub imports: [bool; Table::IMPORTS],
    pub clock: bool,
}
