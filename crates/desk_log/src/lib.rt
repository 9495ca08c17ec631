// The record of an accepted entry, and its writer.
#![tactic(auto)]

ghost use Rattle.std.specs.Prelude.{◌≡◌, ◌++◌, ◌+◌, ◌≤◌, length, drop};
ghost use Rattle.desk_log.specs.Record.{head_length, record_most, head_of, written_of, free_after};

// The bytes of a record before its value, and the longest record.
pub const HEAD: usize = 6;

const RECORD_MOST: usize = 65535;

// The six bytes before a value of n bytes.
fn put_head(free: &mut [u8], n: usize, bench: u8, item: u8)
    requires { (head_length + n ≤ record_most) × (head_length ≤ length free.old) }
    ensures { free.new ≡ head_of n bench item ++ drop head_length free.old }
{
    let length = ((HEAD + n) as u16).to_le_bytes();
    free[0] = length[0];
    free[1] = length[1];
    free[2] = 1;
    free[3] = 0;
    free[4] = bench;
    free[5] = item;
}

// Writes the record of an entry at the start of the free part of the log and says how many bytes it took; with no room, nothing.
pub fn write_record(free: &mut [u8], bench: u8, item: u8, value: &[u8]) -> Option<usize>
    ensures { (result ≡ written_of free.old value.now) × (free.new ≡ free_after free.old bench item value.now) }
{
    let n = value.len();
    if RECORD_MOST - HEAD < n {
        return None;
    }
    if free.len() < HEAD + n {
        return None;
    }
    put_head(free, n, bench, item);
    text_copies::copy_in(free, HEAD, value);
    Some(HEAD + n)
}
