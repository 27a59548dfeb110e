ghost use Rattle.std.specs.Prelude.{◌≡◌, ◌<◌, ◌^◌};
ghost use Rattle.scheduler.specs.Schedule.{next_number};

/// The number before the next step.
pub(crate) fn next_number(number: u32) -> u32
    requires { number < 2 ^ 31 }
    ensures next { result ≡ next_number number }
    ensures bound { result < 2 ^ 31 }
{
    ((number as u64 * 1103515245 + 12345) % (1 << 31)) as u32
}
