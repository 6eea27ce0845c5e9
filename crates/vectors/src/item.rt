// The items of a file, which their tags tell, and what the cases among them ask for.
use crate::fault::Fault;

#[derive(Clone, Copy)]
pub enum Item {
    Base,
    Compare,
    Case(Job),
}

// What a case that begins with an image asks for. The last three are renames: with neither groups nor flags, with groups, with both.
#[derive(Clone, Copy)]
pub enum Job {
    Check,
    Walk,
    Land,
    Repair,
    Rename,
    Groups,
    Flags,
}

impl TryFrom<u8> for Item {
    type Error = Fault;

    fn try_from(tag: u8) -> Result<Item, Fault> {
        match tag {
            1 => Ok(Item::Base),
            2 => Ok(Item::Case(Job::Check)),
            3 => Ok(Item::Case(Job::Walk)),
            4 => Ok(Item::Case(Job::Land)),
            5 => Ok(Item::Case(Job::Rename)),
            6 => Ok(Item::Case(Job::Repair)),
            7 => Ok(Item::Case(Job::Groups)),
            8 => Ok(Item::Compare),
            9 => Ok(Item::Case(Job::Flags)),
            _ => Err(Fault::Wrong("an item has an unknown tag")),
        }
    }
}

impl Job {
    // Whether there is a plan, or a buffer for one.
    pub fn has_plan(self) -> bool {
        !matches!(self, Job::Check | Job::Walk)
    }

    // Whether the request tells a time.
    pub fn has_time(self) -> bool {
        matches!(self, Job::Rename | Job::Groups | Job::Flags)
    }

    // Whether the request has further groups.
    pub fn has_groups(self) -> bool {
        matches!(self, Job::Groups | Job::Flags)
    }

    // Whether the request has flags.
    pub fn has_flags(self) -> bool {
        matches!(self, Job::Flags)
    }
}
