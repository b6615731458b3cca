//! The commands of a script.

/// A command of a script.
#[derive(Debug, Drop)]
pub enum Command {
    /// Ask for the tables that the devices hold.
    Pull,
    /// Let the devices go on by `count` steps, or by fewer where nothing is left to do.
    Work { count: u32 },
}
