// Where a path begins: the directory, and whether search permission is waived for its first component.
ghost use Rattle.std.specs.Prelude.{◌≡◌};
ghost use Rattle.layout.specs.Seen.{seen};
ghost use Rattle.walk.specs.Walk.{start_of};
ghost use Rattle.walk.specs.Start.{begins};

use layout::handle::State;
use layout::image::Image;
use layout::limits;
use paths::path;

#[derive(Clone, Copy)]
pub struct Start {
    pub directory: usize,
    pub waived: bool,
}

// The root for an absolute path; else the current directory, or what the handle is open on. A relative path from a handle that is closed, or does not
// exist, begins nowhere.
pub fn locate(image: &Image<'_>, current: usize, start: usize, path: &[u8]) -> Option<Start>
    ensures { begins result ≡ start_of (seen image.now) current start path.now }
{
    if path::is_absolute(path) {
        return Some(Start {
            directory: 0,
            waived: false,
        });
    }
    if start == limits::NO_HANDLE {
        return Some(Start {
            directory: current,
            waived: false,
        });
    }
    if image.shape.handles <= start {
        return None;
    }
    let r = image.handle(start);
    let directory = r.inode();
    match r.state() {
        State::Closed => None,
        State::Search => Some(Start {
            directory,
            waived: true,
        }),
        _ => Some(Start {
            directory,
            waived: false,
        }),
    }
}
