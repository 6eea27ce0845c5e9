// The flags of a request, numbered as on Linux.
ghost use Rattle.std.specs.Prelude.{◌≡◌};
ghost use Rattle.paths.specs.Flags.{flags_good};

use crate::request::Request;

// An existing new name is refused.
pub const NO_REPLACE: u32 = 1;
// The two names exchange their files.
pub const EXCHANGE: u32 = 2;

// Whether the flags ask for a rename, for one that replaces nothing, or for an exchange.
#[tactic(auto, unfolding(crate::specs::Flags::flags_good))]
pub fn good(q: Request) -> bool
    ensures { result ≡ flags_good q }
{
    matches!(q.flags, 0 | NO_REPLACE | EXCHANGE)
}
