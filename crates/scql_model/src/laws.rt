// Laws over the definitions. Each is the contract of a function that does nothing.
pub mod answers;
pub mod changes;
pub mod lives;
pub mod reading;
pub mod touched;
pub mod views;
