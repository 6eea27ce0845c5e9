// The journal record as one value: read, tested and written.
ghost use Rattle.std.specs.Prelude.{◌≡◌, ◌≤◌, length};
ghost use Rattle.layout.specs.Limits.{journal_size};
ghost use Rattle.encode.specs.Journal.{journal_of, journal_formed, journal_bytes};
ghost use Rattle.encode.specs.Facts.{InRange};
ghost use Rattle.encode.specs.Operation.{kind_of, Decodes};

// What an operation does, by the number that its record has.
#[derive(Clone, Copy)]
pub enum Operation {
    Rename = 0,
    Exchange = 7,
}

// A number that is no operation's.
#[derive(Clone, Copy)]
pub struct UnknownOperation(pub u8);

impl From<Operation> for u8 {
    ghost from_gives = { λ o kind. kind ≡ kind_of o };

    fn from(operation: Operation) -> u8 {
        operation as u8
    }
}

impl TryFrom<u8> for Operation {
    type Error = UnknownOperation;

    ghost try_from_gives = { Decodes };

    fn try_from(kind: u8) -> Result<Operation, UnknownOperation> {
        match kind {
            0 => Ok(Operation::Rename),
            7 => Ok(Operation::Exchange),
            _ => Err(UnknownOperation(kind)),
        }
    }
}

// What a pending operation is recovered from. A number of 65,535 names no replaced inode, and no text.
#[derive(Clone, Copy)]
pub struct Journal {
    pub kind: u8,
    // the slots of the old and of the new entry
    pub old: usize,
    pub new: usize,
    // the moved inode, the replaced one and the old parent
    pub moved: usize,
    pub replaced: usize,
    pub parent: usize,
    // the text that is freed
    pub text: usize,
    pub time: u64,
}

pub fn read(r: &[u8]) -> Journal
    requires { journal_size ≤ length r.now }
    ensures { (result ≡ journal_of r.now) × InRange result }
{
    Journal {
        kind: r[1],
        old: layout::number::get16(r, 2),
        new: layout::number::get16(r, 4),
        moved: layout::number::get16(r, 6),
        replaced: layout::number::get16(r, 8),
        parent: layout::number::get16(r, 10),
        text: layout::number::get16(r, 12),
        time: layout::number::get64(r, 16),
    }
}

// Whether the record is marked as pending and the zeros that it has to have are there.
#[tactic(auto, unfolding(crate::specs::Journal::journal_formed))]
pub fn formed(r: &[u8]) -> bool
    requires { journal_size ≤ length r.now }
    ensures { result ≡ journal_formed r.now }
{
    r[0] == 1 && layout::bytes::all_zero(r, 14, 2) && layout::bytes::all_zero(r, 24, 8)
}

// Makes the whole record that of a pending operation.
pub fn write(r: &mut [u8], j: Journal)
    requires { length r.old ≡ journal_size }
    ensures { r.new ≡ journal_bytes j }
{
    crate::record::clear(r);
    r[0] = 1;
    r[1] = j.kind;
    crate::number::put16(r, 2, j.old);
    crate::number::put16(r, 4, j.new);
    crate::number::put16(r, 6, j.moved);
    crate::number::put16(r, 8, j.replaced);
    crate::number::put16(r, 10, j.parent);
    crate::number::put16(r, 12, j.text);
    crate::number::put64(r, 16, j.time);
}
