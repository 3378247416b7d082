// The covering test alone as a C function, to be measured (change request No. 3). No host calls it.
#![tactic(auto)]

ghost use Rattle.std.specs.Prelude.{◌≡◌};
ghost use Rattle.rules.specs.Rules.{cover_place};

// The place of the first mixture that holds all of the tag, 255 if none does.
#[unsafe(no_mangle)]
pub extern "C" fn yaslaurel_cover_place(mixtures: &[u64], tag: u64) -> usize
    ensures { result ≡ cover_place mixtures.now tag }
{
    rules::cover_place(mixtures, tag)
}
