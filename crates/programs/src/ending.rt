// How a program ends. What went wrong was told by then, so no more is printed.
ghost use Rattle.std.specs.Prelude.{◌≡◌, MatchResult};

use std::process::ExitCode;

pub fn status(ended: anyhow::Result<()>) -> ExitCode
    ensures { MatchResult ended (λ _. result ≡ ExitCode.SUCCESS) (λ _. result ≡ ExitCode.FAILURE) }
{
    match ended {
        Ok(()) => ExitCode::SUCCESS,
        Err(_) => ExitCode::FAILURE,
    }
}
