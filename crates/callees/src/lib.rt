//! What a unit declares, by name and by number: its monitors, their members and procedures, the external procedures,
//! and the pieces of code that they are, so that a callee's name is looked up once and no declarations are scanned.
#![tactic(auto)]

mod callees;
mod declared;
mod laws;
mod lookup;
mod monitor_names;
mod piece;
mod roles;

pub use callees::Callees;
pub use laws::few_declarations;
pub use monitor_names::MonitorNames;
pub use piece::Piece;
pub use roles::own_monitor;
