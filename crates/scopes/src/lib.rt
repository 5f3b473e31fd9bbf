// Moving the scope: set_scope, and load_upf with -scope.
#![tactic(auto)]

pub mod go;
pub mod target;
