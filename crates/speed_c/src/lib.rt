// The exports of `speed`, each with its clauses, as the static library that C and Rust link.
#![tactic(auto)]

ghost use Rattle.std.specs.Prelude.{◌≡◌, map};
ghost use Rattle.line.specs.Characters.{sent};
ghost use Rattle.line.specs.Checksum.{bcc_of};

#[unsafe(no_mangle)]
pub extern "C" fn speed_bcc(s: &[u8]) -> u8
    ensures { result ≡ bcc_of s.now }
{
    speed::speed_bcc(s)
}

#[unsafe(no_mangle)]
pub extern "C" fn speed_parity(s: &mut [u8])
    ensures { s.new ≡ map sent s.old }
{
    speed::speed_parity(s)
}
