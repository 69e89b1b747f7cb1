ghost use Rattle.std.specs.Prelude.{◌≡◌};
ghost use Rattle.ray_queue_check.specs.Sooner.{lesser, sooner};

use ray_cmd::Refusal;

// Of two refusals that of the lesser command, and at one command the first.
pub(crate) fn sooner(first: Option<Refusal>, second: Option<Refusal>) -> Option<Refusal>
    ensures { result ≡ sooner first second }
{
    match first {
        Some(first) => Some(lesser(first, second)),
        None => second,
    }
}

// The same where there is a first one.
fn lesser(first: Refusal, second: Option<Refusal>) -> Refusal
    ensures { result ≡ lesser first second }
{
    match second {
        Some(second) => {
            if second.command < first.command {
                second
            } else {
                first
            }
        }
        None => first,
    }
}
