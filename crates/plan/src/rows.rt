// The rows of a plan while they are put, one behind the other.
ghost use Rattle.std.specs.Prelude.{◌≡◌, ◌<◌, ◌≤◌, length, replicate};
ghost use Rattle.plan.specs.Form.{plan_rows, body_bytes, row_of};
ghost use Rattle.plan.specs.Added.{group_number, no_rows, Pushed};

use crate::BYTES;

// The ordering groups: the journal record is set, the deciding entry stored, the results stored, the journal record cleared.
#[derive(Clone, Copy)]
pub enum Group {
    Journal = 1,
    Entry = 2,
    Results = 3,
    Clear = 4,
}

impl From<Group> for u8 {
    ghost from_gives = { λ group n. n ≡ group_number group };

    fn from(group: Group) -> u8 {
        group as u8
    }
}

// A plan's bytes, and how many rows stand in it.
#[derive(Clone, Copy)]
pub struct Rows {
    pub bytes: [u8; BYTES],
    pub count: usize,
}

impl Rows {
    pub fn none() -> Rows
        ensures { result ≡ no_rows }
    {
        Rows {
            bytes: [0u8; BYTES],
            count: 0,
        }
    }

    // Puts a row behind the others: its header, and a body of the bytes it replaces.
    pub fn push(&mut self, group: Group, offset: usize, body: &[u8])
        requires { (self.old.count < plan_rows) × (length body.now ≤ body_bytes) }
        ensures { Pushed self.old (row_of (group_number group) offset body.now) self.new }
    {
        crate::put_row(&mut self.bytes, self.count, u8::from(group), offset, body);
        self.count += 1;
    }

    // Puts a row that clears a record of n bytes.
    pub fn push_clearing(&mut self, group: Group, offset: usize, n: usize)
        requires { (self.old.count < plan_rows) × (n ≤ body_bytes) }
        ensures { Pushed self.old (row_of (group_number group) offset (replicate n 0)) self.new }
    {
        crate::put_clearing(&mut self.bytes, self.count, u8::from(group), offset, n);
        self.count += 1;
    }
}
