//! Stories of a worker: scripts of lives, and what is printed of them.

mod calm;
mod causes;
mod draft;
mod fault;
mod keywords;
mod line;
mod lives;
mod numbers;
mod script;
mod spelling;
mod telling;

pub(crate) use calm::read_calm_script;
pub use fault::{LineCause, ScriptFault};
pub(crate) use keywords::read_fronts;
pub use line::ScriptLine;
pub use script::read_script;
pub(crate) use spelling::spell_error;
pub use telling::{report_script, tell};
