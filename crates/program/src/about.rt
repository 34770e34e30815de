// What a program says of itself.
use crate::Status;

/// What a program is called, and what it says of itself: of its words where they are none of its forms, where it is asked for help, and for its version.
#[derive(Clone, Copy)]
pub struct About {
    pub name: &'static str,
    pub usage: &'static str,
    pub help: &'static str,
    pub version: &'static str,
}

impl About {
    /// Prints what the only word asks for, if it is `--help` or `--version`, and tells how that ended.
    pub(crate) fn answer(self, rt: &HostRuntime, words: &[String]) -> Option<Status> {
        let [word] = words else {
            return None;
        };
        match word.as_str() {
            "--help" => Some(print(rt, self.help)),
            "--version" => Some(print(rt, self.version)),
            _ => None,
        }
    }
}

fn print(rt: &HostRuntime, text: &str) -> Status {
    match rt.println(text) {
        Ok(()) => Status::Done,
        Err(_) => Status::WriteFault,
    }
}
