//! What one process of a source program reaches by its own actions, whatever the other processes are; and how far a search
//! has come.
#![tactic(auto)]

mod each_set;
mod extent;
mod follow;
mod next;
mod own;
mod reaching;
mod trail;

pub use each_set::sets;
pub use extent::are_all_looked_at;
pub use follow::{Followed, follow_own, is_lost, looks_calm};
pub use next::next_state;
pub use own::own_actions;
pub use reaching::{End, ends};
pub use trail::{Trail, Unread};
