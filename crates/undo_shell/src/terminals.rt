//! Which of the three streams are terminals.
use std::io::IsTerminal;

/// Whether someone sits at each end.
#[derive(Clone, Copy)]
pub struct Terminals {
    pub input: bool,
    pub output: bool,
    pub errors: bool,
}

impl Terminals {
    pub fn of(rt: &HostRuntime) -> Terminals {
        Terminals {
            input: rt.stdin().is_terminal(),
            output: rt.stdout().is_terminal(),
            errors: rt.stderr().is_terminal(),
        }
    }
}
