// The calls that write a table anew, whatever was there: open, and refresh for the entries and the dispute counts.
#![tactic(auto)]

mod opening;
mod refreshing;

pub use opening::open;
pub use refreshing::{refresh, refresh_tables};
