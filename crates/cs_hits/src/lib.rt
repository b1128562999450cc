//! The hits behind the answers of live queries: all of them, those near a window, and the share
//! that each has in an answer. They are brought behind changes.
#![tactic(auto)]

mod behind;
mod codes;
mod held;
mod hits;
mod looked;
mod near;
mod share;
mod shares;

pub use behind::Behind;
pub use codes::may_touch;
pub use hits::Hits;
pub use looked::{Looked, marks_of};
pub use share::Share;
pub use shares::{
    answer_of, codes_of, find_shares, follow_shares, renew_shares, shares_touched, text_of,
};
