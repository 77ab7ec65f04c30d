// A truth as a number, for the log, the image and C. It has a name, since the definitions name it `bit`.
ghost use Rattle.std.specs.Prelude.{◌≡◌};
ghost use Rattle.panel.specs.Tests as tests;

pub fn bit(b: bool) -> u8
    ensures { result ≡ tests.bit b }
{
    u8::from(b)
}
