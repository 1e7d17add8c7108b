// The bases of whole bytes from a table, eight bytes at once.
ghost use Rattle.std.specs.Prelude.{◌≡◌, ◌++◌, ◌+◌, ◌*◌, ◌≤◌, length};
ghost use Rattle.laws.specs.Writing.{written_at};
ghost use Rattle.fields.specs.Number.{little};
ghost use Rattle.fields.specs.Written.{number_bytes};
ghost use Rattle.sequence.specs.Bases.{bases_of, two_bit_residues};
ghost use Rattle.sequence.specs.BaseTable.{BaseTable};

use fields::{Order, Unsigned};

// Entry b holds the four codes of byte b, the highest first, as the bytes of a little-endian number.
// Python printed them: for b in range(256): print('0x%08x,' % sum((b >> 6 - 2 * j & 3) << 8 * j for j in range(4)))
// Nobody has to believe them: one test is computed over all entries (proofs/BaseTable.antt).
const BASES: [u32; 256] = [
    0x00000000, 0x01000000, 0x02000000, 0x03000000, 0x00010000, 0x01010000, 0x02010000, 0x03010000,
    0x00020000, 0x01020000, 0x02020000, 0x03020000, 0x00030000, 0x01030000, 0x02030000, 0x03030000,
    0x00000100, 0x01000100, 0x02000100, 0x03000100, 0x00010100, 0x01010100, 0x02010100, 0x03010100,
    0x00020100, 0x01020100, 0x02020100, 0x03020100, 0x00030100, 0x01030100, 0x02030100, 0x03030100,
    0x00000200, 0x01000200, 0x02000200, 0x03000200, 0x00010200, 0x01010200, 0x02010200, 0x03010200,
    0x00020200, 0x01020200, 0x02020200, 0x03020200, 0x00030200, 0x01030200, 0x02030200, 0x03030200,
    0x00000300, 0x01000300, 0x02000300, 0x03000300, 0x00010300, 0x01010300, 0x02010300, 0x03010300,
    0x00020300, 0x01020300, 0x02020300, 0x03020300, 0x00030300, 0x01030300, 0x02030300, 0x03030300,
    0x00000001, 0x01000001, 0x02000001, 0x03000001, 0x00010001, 0x01010001, 0x02010001, 0x03010001,
    0x00020001, 0x01020001, 0x02020001, 0x03020001, 0x00030001, 0x01030001, 0x02030001, 0x03030001,
    0x00000101, 0x01000101, 0x02000101, 0x03000101, 0x00010101, 0x01010101, 0x02010101, 0x03010101,
    0x00020101, 0x01020101, 0x02020101, 0x03020101, 0x00030101, 0x01030101, 0x02030101, 0x03030101,
    0x00000201, 0x01000201, 0x02000201, 0x03000201, 0x00010201, 0x01010201, 0x02010201, 0x03010201,
    0x00020201, 0x01020201, 0x02020201, 0x03020201, 0x00030201, 0x01030201, 0x02030201, 0x03030201,
    0x00000301, 0x01000301, 0x02000301, 0x03000301, 0x00010301, 0x01010301, 0x02010301, 0x03010301,
    0x00020301, 0x01020301, 0x02020301, 0x03020301, 0x00030301, 0x01030301, 0x02030301, 0x03030301,
    0x00000002, 0x01000002, 0x02000002, 0x03000002, 0x00010002, 0x01010002, 0x02010002, 0x03010002,
    0x00020002, 0x01020002, 0x02020002, 0x03020002, 0x00030002, 0x01030002, 0x02030002, 0x03030002,
    0x00000102, 0x01000102, 0x02000102, 0x03000102, 0x00010102, 0x01010102, 0x02010102, 0x03010102,
    0x00020102, 0x01020102, 0x02020102, 0x03020102, 0x00030102, 0x01030102, 0x02030102, 0x03030102,
    0x00000202, 0x01000202, 0x02000202, 0x03000202, 0x00010202, 0x01010202, 0x02010202, 0x03010202,
    0x00020202, 0x01020202, 0x02020202, 0x03020202, 0x00030202, 0x01030202, 0x02030202, 0x03030202,
    0x00000302, 0x01000302, 0x02000302, 0x03000302, 0x00010302, 0x01010302, 0x02010302, 0x03010302,
    0x00020302, 0x01020302, 0x02020302, 0x03020302, 0x00030302, 0x01030302, 0x02030302, 0x03030302,
    0x00000003, 0x01000003, 0x02000003, 0x03000003, 0x00010003, 0x01010003, 0x02010003, 0x03010003,
    0x00020003, 0x01020003, 0x02020003, 0x03020003, 0x00030003, 0x01030003, 0x02030003, 0x03030003,
    0x00000103, 0x01000103, 0x02000103, 0x03000103, 0x00010103, 0x01010103, 0x02010103, 0x03010103,
    0x00020103, 0x01020103, 0x02020103, 0x03020103, 0x00030103, 0x01030103, 0x02030103, 0x03030103,
    0x00000203, 0x01000203, 0x02000203, 0x03000203, 0x00010203, 0x01010203, 0x02010203, 0x03010203,
    0x00020203, 0x01020203, 0x02020203, 0x03020203, 0x00030203, 0x01030203, 0x02030203, 0x03030203,
    0x00000303, 0x01000303, 0x02000303, 0x03000303, 0x00010303, 0x01010303, 0x02010303, 0x03010303,
    0x00020303, 0x01020303, 0x02020303, 0x03020303, 0x00030303, 0x01030303, 0x02030303, 0x03030303,
];

// Two entries as one number: the bytes of the first, and behind them those of the second.
fn two_entries(first: u32, second: u32) -> u64
    ensures { number_bytes little 8 result ≡ number_bytes little 4 first ++ number_bytes little 4 second }
{
    u64::from(first) + u64::from(second) * 4294967296
}

// The bases of two bytes, as the bytes of one number.
fn pair(table: &[u32], first: u8, second: u8) -> u64
    requires { BaseTable table.now }
    ensures { number_bytes little 8 result ≡ bases_of first ++ bases_of second }
{
    two_entries(table[usize::from(first)], table[usize::from(second)])
}

// Writes the bases of two bytes, from a place on, at their place of the output.
fn put_pair(bytes: &[u8], at: usize, table: &[u32], out: &mut [u8])
    requires { (at + 2 ≤ length bytes.now) × (4 * at + 8 ≤ length out.old) × BaseTable table.now }
    ensures { out.new ≡ written_at (4 * at) (two_bit_residues bytes.now at 8) out.old }
{
    let two = pair(table, bytes[at], bytes[at + 1]);
    let place = 4 * at;
    two.put(Order::Little, &mut out[place..place + 8], 0);
}

// Writes the bases of eight bytes, from a place on, at their place of the output.
fn put_eight(bytes: &[u8], at: usize, table: &[u32], out: &mut [u8])
    requires { (at + 8 ≤ length bytes.now) × (4 * at + 32 ≤ length out.old) × BaseTable table.now }
    ensures { out.new ≡ written_at (4 * at) (two_bit_residues bytes.now at 32) out.old }
{
    for i in 0..4 {
        put_pair(bytes, at + 2 * i, table, out);
    }
}

// Writes the bases of at least eight whole bytes, eight at once; the last eight are whole too, and write some once more.
fn write_eights(bytes: &[u8], table: &[u32], out: &mut [u8])
    requires { (8 ≤ length bytes.now) × (4 * length bytes.now ≤ length out.old) × BaseTable table.now }
    ensures { out.new ≡ written_at 0 (two_bit_residues bytes.now 0 (4 * length bytes.now)) out.old }
{
    for block in 0..bytes.len() / 8 {
        put_eight(bytes, 8 * block, table, out);
    }
    let last = bytes.len() - 8;
    put_eight(bytes, last, table, out);
}

// Writes the bases of at least eight whole bytes, each byte's from the table, which is lent once for all of them.
pub(crate) fn write_by_table(bytes: &[u8], out: &mut [u8])
    requires { (8 ≤ length bytes.now) × (4 * length bytes.now ≤ length out.old) }
    ensures { out.new ≡ written_at 0 (two_bit_residues bytes.now 0 (4 * length bytes.now)) out.old }
{
    write_eights(bytes, &BASES, out);
}
