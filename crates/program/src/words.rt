// The words of the command line.
use crate::Ending;
use std::env;

/// The words of the command line behind the program's name.
pub(crate) fn command_line(rt: &HostRuntime) -> Result<Vec<String>, Ending> {
    let mut words = env::args(rt)?;
    words.next();
    Ok(words.collect(rt.alloc())?)
}
