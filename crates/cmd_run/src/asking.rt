ghost use Rattle.std.specs.Prelude.{◌≡◌};
ghost use Rattle.cmd_run.specs.Asking.{ends_input};

use grid_model::{Refusal, Request, Verb};

/// Whether what was asked ends the input, once it is answered.
pub fn ends_input(asked: &Result<Request, Refusal>) -> bool
    ensures { result ≡ ends_input asked.now }
{
    match asked {
        Ok(request) => match request.verb {
            Verb::Quit => true,
            _ => false,
        },
        Err(_) => false,
    }
}
