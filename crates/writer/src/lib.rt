// Scripts written: a table and a block of labels, packed into a destination that is lent.
#![tactic(auto)]

mod packing;
mod sizes;

ghost use Rattle.std.specs.Prelude.{◌≡◌, ◌+◌, ◌≤◌, length};
ghost use Rattle.std.proofs.Math.Seq.{paste};
ghost use Rattle.script.specs.Writer.{script_bytes, block_fault, writer_fault, write_script, write_bytes};
ghost use Rattle.writer.specs.Writing.{room_fault, Writable, filled_with};

use crate::packing::pack;
use crate::sizes::packed_size;
use refusals::Refusal;
use script::Written;
use table::Table;

// "the block (2, 10, 11)"
fn block_fault(t: Table, block: &[u8]) -> Result<(), Refusal>
    ensures { result ≡ block_fault t block.now }
{
    let count = labels::before(t, t.n);
    let label = labels::read(block, 0, count, count);
    label.answer
}

// "then 1, then 12"
fn room_fault(size: usize, room: usize) -> Result<(), Refusal>
    ensures { result ≡ room_fault size room }
{
    if 4096 < size {
        return Err(Refusal::TooLong);
    }
    if room < size {
        return Err(Refusal::NoRoom);
    }
    Ok(())
}

// "it checks 4, then variables (13 ...), entries in order (7, 8, 13), the block (2, 10, 11), then 1, then 12"
#[tactic(auto, using(crate::specs::Writing::writer_fault_lem))]
fn fault(t: Table, block: &[u8], room: usize) -> Result<(), Refusal>
    ensures { result ≡ writer_fault t block.now room }
{
    sound::fault(t)?;
    block_fault(t, block)?;
    room_fault(packed_size(t) + block.len(), room)
}

// The block, copied behind the first bytes. Byte by byte, for reason (a): by `copy_from_slice` the archive for C needs `memmove` from outside.
fn copy(dst: &mut [u8], from: usize, block: &[u8])
    requires { from + length block.now ≤ length dst.old }
    ensures { dst.new ≡ paste dst.old from block.now (length block.now) }
{
    for (i, byte) in block.iter().enumerate() {
        dst[from + i] = *byte;
    }
}

// The packed table at the front, and the block behind it; how many bytes they are.
fn fill(dst: &mut [u8], t: Table, block: &[u8]) -> usize
    requires { Writable t block.now (length dst.old) }
    ensures size { result ≡ length (script_bytes t block.now) }
    ensures bytes { dst.new ≡ filled_with (script_bytes t block.now) dst.old }
{
    let packed = pack(dst, t);
    copy(dst, packed, block);
    packed + block.len()
}

// A table and its labels as a script: "An accepted write fills the first bytes; all later bytes of the destination stay."
pub fn write(t: Table, block: &[u8], dst: &mut [u8]) -> Written
    ensures reply { result ≡ write_script t block.now dst.old }
    ensures bytes { dst.new ≡ write_bytes t block.now dst.old }
{
    match fault(t, block, dst.len()) {
        Err(r) => Written {
            answer: Err(r),
            size: 0,
        },
        Ok(()) => Written {
            answer: Ok(()),
            size: fill(dst, t, block),
        },
    }
}
