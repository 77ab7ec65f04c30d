// What C is told of a call: 0, or the number of why it is refused.
ghost use Rattle.std.specs.Prelude.{◌≡◌};
ghost use Rattle.host.specs.Hosts.{number_told};

use panel::Refusal;

pub(crate) fn number_of<T: Copy>(told: Result<T, Refusal>) -> u32
    ensures { result ≡ number_told told }
{
    match told {
        Ok(_) => 0,
        Err(why) => u32::from(u8::from(why)),
    }
}
