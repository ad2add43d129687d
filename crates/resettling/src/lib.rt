// What every edit does after its change: the entries that it can touch are settled, and the edit is counted.
#![tactic(auto)]

mod resettling;
mod stops;
mod tallying;

pub use resettling::{resettle_link, resettle_rule};
pub use tallying::count_edit;
