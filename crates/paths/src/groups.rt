// The groups of a caller: whether one of them is meant, and the credentials made of a list.
ghost use Rattle.std.specs.Prelude.{◌≡◌};
ghost use Rattle.paths.specs.Groups.{in_further, in_group, credentials_of};

use crate::request::Credentials;
use layout::limits;

// Whether one of the further groups that count is g. Those past the count are not looked at.
fn in_further(who: Credentials, g: u32) -> bool
    ensures { result ≡ in_further who g }
{
    let count = who.count.min(limits::GROUP_LIMIT);
    who.groups[..count].contains(&g)
}

// Whether the caller is in group g.
#[tactic(auto, unfolding(crate::specs::Groups::in_group))]
pub fn in_group(who: Credentials, g: u32) -> bool
    ensures { result ≡ in_group who g }
{
    who.group == g || in_further(who, g)
}

// The credentials of a caller with these further groups. Of a list that is too long only the length is read, which makes the request wrong.
pub fn credentials(user: u32, group: u32, list: &[u32]) -> Credentials
    ensures { result ≡ credentials_of user group list.now }
{
    let mut groups = [0u32; limits::GROUP_LIMIT];
    if list.len() <= limits::GROUP_LIMIT {
        groups[..list.len()].copy_from_slice(list);
    }
    Credentials {
        user,
        group,
        groups,
        count: list.len(),
    }
}
