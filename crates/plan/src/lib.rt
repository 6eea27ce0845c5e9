// The plan's rows: written one at a time, and read field by field.
#![tactic(auto)]

ghost use Rattle.std.specs.Prelude.{◌≡◌, ◌<◌, ◌≤◌, length, replicate};
ghost use Rattle.layout.specs.Facts.{Reads};
ghost use Rattle.plan.specs.Form.{plan_bytes, plan_rows, body_bytes, row_of, row_stored, row_group, row_blank, row_length, row_offset, row_position, row_at, cleared};

pub mod rows;

// How many rows a plan has, the bytes of a header and of a body, where the bodies begin, and the bytes of the whole.
pub const ROWS: usize = 9;

pub const HEADER_BYTES: usize = 8;

pub const BODY_BYTES: usize = 64;

pub const BODIES_AT: usize = HEADER_BYTES * ROWS;

pub const BYTES: usize = BODIES_AT + BODY_BYTES * ROWS;

pub const LAST_GROUP: u8 = 4;

// Makes a plan of no rows.
pub fn clear(plan: &mut [u8])
    requires { plan_bytes ≤ length plan.old }
    ensures { plan.new ≡ cleared plan.old }
{
    let zeros = [0u8; BYTES];
    layout::bytes::copy(plan, 0, &zeros);
}

// Puts a row in place i: its header, and a body of the bytes it replaces.
pub fn put_row(plan: &mut [u8], i: usize, group: u8, offset: usize, body: &[u8])
    requires { (plan_bytes ≤ length plan.old) × (i < plan_rows) × (length body.now ≤ body_bytes) }
    ensures { plan.new ≡ row_stored plan.old i (row_of group offset body.now) }
{
    let n = body.len();
    let position = BODIES_AT + BODY_BYTES * i;
    let header = [
        group,
        0,
        (n % 256) as u8,
        (n / 256 % 256) as u8,
        (offset % 256) as u8,
        (offset / 256 % 256) as u8,
        (position % 256) as u8,
        (position / 256 % 256) as u8,
    ];
    layout::bytes::copy(plan, HEADER_BYTES * i, &header);
    layout::bytes::copy(plan, position, body);
}

// Puts a row in place i that clears a record of n bytes.
pub fn put_clearing(plan: &mut [u8], i: usize, group: u8, offset: usize, n: usize)
    requires { (plan_bytes ≤ length plan.old) × (i < plan_rows) × (n ≤ body_bytes) }
    ensures { plan.new ≡ row_stored plan.old i (row_of group offset (replicate n 0)) }
{
    let zeros = [0u8; BODY_BYTES];
    put_row(plan, i, group, offset, &zeros[..n]);
}

// The ordering group of row i.
pub fn group(plan: &[u8], i: usize) -> u8
    requires { (plan_bytes ≤ length plan.now) × (i < plan_rows) }
    ensures { result ≡ row_group plan.now i }
{
    plan[HEADER_BYTES * i]
}

// The byte of row i's header that holds nothing.
pub fn blank(plan: &[u8], i: usize) -> u8
    requires { (plan_bytes ≤ length plan.now) × (i < plan_rows) }
    ensures { result ≡ row_blank plan.now i }
{
    plan[HEADER_BYTES * i + 1]
}

// How many bytes of the image row i replaces.
pub fn length(plan: &[u8], i: usize) -> usize
    requires { (plan_bytes ≤ length plan.now) × (i < plan_rows) }
    ensures { (result ≡ row_length plan.now i) × (result < 65536) }
{
    layout::number::get16(plan, HEADER_BYTES * i + 2)
}

// Where in the image row i belongs.
pub fn offset(plan: &[u8], i: usize) -> usize
    requires { (plan_bytes ≤ length plan.now) × (i < plan_rows) }
    ensures { (result ≡ row_offset plan.now i) × (result < 65536) }
{
    layout::number::get16(plan, HEADER_BYTES * i + 4)
}

// Where in the plan row i says that its body is.
pub fn position(plan: &[u8], i: usize) -> usize
    requires { (plan_bytes ≤ length plan.now) × (i < plan_rows) }
    ensures { (result ≡ row_position plan.now i) × (result < 65536) }
{
    layout::number::get16(plan, HEADER_BYTES * i + 6)
}

// The bytes that row i puts there: as many of its body as its length says.
pub fn body(plan: &[u8], i: usize) -> &[u8]
    requires { (plan_bytes ≤ length plan.now) × (i < plan_rows) × (row_length plan.now i ≤ body_bytes) }
    ensures { Reads result.now (row_at plan.now i).body (row_length plan.now i) }
{
    let at = BODIES_AT + BODY_BYTES * i;
    let n = length(plan, i);
    &plan[at..at + n]
}
