// Both walks of a request: old's whole walk, then new's.
ghost use Rattle.std.specs.Prelude.{◌≡◌, true};
ghost use Rattle.layout.specs.Seen.{seen};
ghost use Rattle.paths.specs.Request.{request_good};
ghost use Rattle.walk.specs.Both.{walks_of};
ghost use Rattle.walk.specs.Answer.{BothAnswered};

use crate::resolve;
use crate::resolve::Walked;
use component::state::Final;
use layout::tree::Tree;
use paths::request::Request;

#[derive(Clone, Copy)]
pub struct Walks {
    pub old: Walked,
    pub new: Walked,
}

// Old must name something, new need not, but its last name must be portable. Where old's walk is refused, new's does not begin, and is refused as old's is:
// so what refuses new's is what refuses both.
pub fn both(tree: &Tree<'_>, q: Request, old: &[u8], new: &[u8]) -> Walks
    requires { request_good (seen tree.now.image) q old.now new.now ≡ true }
    ensures { BothAnswered (seen tree.now.image) result (walks_of (seen tree.now.image) q old.now new.now) }
{
    let current = q.current as usize;
    let first = resolve::walk(
        tree,
        q.who,
        Final {
            present: true,
            portable: false,
        },
        current,
        q.starts.old as usize,
        old,
    );
    if let Err(why) = first.found {
        return Walks {
            old: first,
            new: resolve::stop(why),
        };
    }
    let second = resolve::walk(
        tree,
        q.who,
        Final {
            present: false,
            portable: true,
        },
        current,
        q.starts.new as usize,
        new,
    );
    Walks {
        old: first,
        new: second,
    }
}
