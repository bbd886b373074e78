//! How a run of the program ends.
ghost use Rattle.std.specs.Prelude.{◌≡◌};
ghost use Rattle.std.specs.Process.{exit_status};
ghost use Rattle.openapi_clean.specs.Output.{status_at_end};

use openapi_text::RunFault;
use std::process::ExitCode;

/// How a run of the program ended.
#[derive(Debug, Drop)]
pub enum Outcome {
    /// The line was written.
    Written,
    /// The words of the command line name no command. Nothing was read, and nothing was written.
    WrongArguments,
    /// No whole line was written.
    Failed(RunFault),
}

impl Outcome {
    /// Returns the exit code of the process: 0 if the output was written, 2 for wrong arguments, and otherwise the
    /// status of the failure.
    pub fn exit_code(&self) -> ExitCode
        ensures { exit_status result ≡ status_at_end self.now }
    {
        let status = match self {
            Outcome::Written => 0,
            Outcome::WrongArguments => 2,
            Outcome::Failed(fault) => fault.status(),
        };
        ExitCode::from(status)
    }
}
