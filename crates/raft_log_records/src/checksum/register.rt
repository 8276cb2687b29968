//! The register of CRC-32: how bytes change it, one, four or sixteen at a time.

ghost use Rattle.std.specs.Prelude.{◌≡◌, ◌<◌, ◌*◌, fold};
ghost use Rattle.raft_log_records.specs.Checksum.{after_byte, after_zeros};

use super::tables::entry;

/// The register after one byte.
#[inline(always)]
fn take_byte(register: u32, byte: u8) -> u32
    ensures { result ≡ after_byte register byte }
{
    register >> 8 ^ entry(0, (register & 0xff) as u8 ^ byte)
}

/// The register after some bytes, one at a time.
#[inline(always)]
pub(super) fn take_bytes(mut register: u32, bytes: &[u8]) -> u32
    ensures { result ≡ fold after_byte register bytes.now }
{
    for byte in bytes {
        register = take_byte(register, *byte);
    }
    register
}

/// What four bytes leave after `later` further groups of four zero bytes.
#[inline(always)]
fn after_group(bytes: [u8; 4], later: usize) -> u32
    requires { later < 4 }
    ensures { result ≡ after_zeros (later * 4) (fold after_byte 0 bytes) }
{
    let front = entry(later * 4 + 3, bytes[0]) ^ entry(later * 4 + 2, bytes[1]);
    front ^ entry(later * 4 + 1, bytes[2]) ^ entry(later * 4, bytes[3])
}

/// Four bytes that leave in an empty register what `bytes` leave in this one.
#[inline(always)]
fn enter(register: u32, bytes: [u8; 4]) -> [u8; 4]
    ensures { fold after_byte 0 result ≡ fold after_byte register bytes }
{
    (register ^ u32::from_le_bytes(bytes)).to_le_bytes()
}

/// The register after sixteen bytes, each looked up in the table of its place.
#[inline(always)]
fn take_block(register: u32, block: &[u8; 16]) -> u32
    ensures { result ≡ fold after_byte register block.now }
{
    let first = enter(register, [block[0], block[1], block[2], block[3]]);
    after_group(first, 3)
        ^ after_group([block[4], block[5], block[6], block[7]], 2)
        ^ after_group([block[8], block[9], block[10], block[11]], 1)
        ^ after_group([block[12], block[13], block[14], block[15]], 0)
}

/// The register after some blocks of sixteen bytes.
#[inline(always)]
fn take_blocks(mut register: u32, blocks: &[[u8; 16]]) -> u32
    ensures { result ≡ fold (fold after_byte) register blocks.now }
{
    for block in blocks {
        register = take_block(register, block);
    }
    register
}

/// The register after four bytes, each looked up in the table of its place.
#[inline(always)]
fn take_group(register: u32, group: &[u8; 4]) -> u32
    ensures { result ≡ fold after_byte register group.now }
{
    after_group(enter(register, *group), 0)
}

/// The register after some groups of four bytes.
#[inline(always)]
fn take_groups(mut register: u32, groups: &[[u8; 4]]) -> u32
    ensures { result ≡ fold (fold after_byte) register groups.now }
{
    for group in groups {
        register = take_group(register, group);
    }
    register
}

/// The register after some bytes, four at a time as long as there are so many.
#[inline(always)]
fn take_short(register: u32, bytes: &[u8]) -> u32
    ensures { result ≡ fold after_byte register bytes.now }
{
    let (groups, rest) = bytes.as_chunks::<4>();
    take_bytes(take_groups(register, groups), rest)
}

/// The register after some bytes, sixteen at a time as long as there are so many.
#[inline(always)]
pub(super) fn take_all(register: u32, bytes: &[u8]) -> u32
    ensures { result ≡ fold after_byte register bytes.now }
{
    let (blocks, rest) = bytes.as_chunks::<16>();
    take_short(take_blocks(register, blocks), rest)
}
